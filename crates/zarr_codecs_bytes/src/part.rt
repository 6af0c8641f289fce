//! Parts of an array.
ghost use Rattle.std.specs.Prelude.{◌≡◌, true, nat_lt};
ghost use Rattle.std.specs.List.{list_all};
ghost use Rattle.zarr_grids_boxes.specs.Boxes.{product};
ghost use Rattle.zarr_grids_boxes.specs.Subsets.{region_of};
ghost use Rattle.zarr_codecs_traits.specs.Indexers.{shape_has};

use zarr_codecs_arrays::Elements;
use zarr_grids_boxes::ArraySubset;

/// The part of an array that is asked for: what its elements are, its shape, and a box of places,
/// which lies in the shape.
#[derive(Clone, Copy)]
pub(crate) struct BoxPart<'a> {
    pub elements: &'a Elements,
    pub shape: &'a [u64],
    pub region: &'a ArraySubset,
    ghost inside: { shape_has shape.now (region_of region.now) ≡ true },
}

/// The elements of an array that are asked for by their numbers: what they are, the array's shape,
/// and the row-major numbers of their places, each of which lies in the shape.
#[derive(Clone, Copy)]
pub struct ListedPart<'a> {
    pub elements: &'a Elements,
    pub shape: &'a [u64],
    pub numbers: &'a [u64],
    ghost inside: { list_all (λ n. nat_lt n (product shape.now)) numbers.now ≡ true },
}
