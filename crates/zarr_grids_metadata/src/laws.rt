//! Laws of extension points and of trees. Each function does nothing: its contract is the law.
ghost use Rattle.zarr_grids_metadata.specs.Laws.{PointReadsBack, WrittenPointOnce, WrittenPointReads, EqualWithoutFloat};
ghost use Rattle.zarr_grids_metadata.specs.Laws.{SameTreeReflexive, SameTreeSymmetric, SameTreeTransitive, SameWithoutFloat, SameAsWithoutFloat, SameFloats, FloatsAreSame};

/// What is written for an extension point reads as that extension point.
pub fn point_reads_back()
    ensures { PointReadsBack }
{}

/// What is written once is written the same again.
pub fn written_point_once()
    ensures { WrittenPointOnce }
{}

/// Every reader answers alike for a JSON value and for what is written for it.
pub fn written_point_reads()
    ensures { WrittenPointReads }
{}

/// An extension point without floats is equal to itself alone.
pub fn equal_without_float()
    ensures { EqualWithoutFloat }
{}

/// Each tree is the same as itself.
pub fn same_tree_is_reflexive()
    ensures { SameTreeReflexive }
{}

/// Whether two trees are the same does not depend on which comes first.
pub fn same_tree_is_symmetric()
    ensures { SameTreeSymmetric }
{}

/// Trees that are the same as a third are the same.
pub fn same_tree_is_transitive()
    ensures { SameTreeTransitive }
{}

/// A tree without a float is the same only as itself.
pub fn same_without_float()
    ensures { SameWithoutFloat }
{}

/// Only a tree without a float itself is the same as it.
pub fn same_as_without_float()
    ensures { SameAsWithoutFloat }
{}

/// Of two trees that are the same, both have floats or neither has.
pub fn same_floats()
    ensures { SameFloats }
{}

/// Any two floats are the same.
pub fn floats_are_same()
    ensures { FloatsAreSame }
{}
