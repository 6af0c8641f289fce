//! Elements of variable length put over those of a box of an array, line by line.
ghost use Rattle.std.specs.Prelude.{◌≡◌, ◌++◌, ◌^◌, ◌<◌, [], ℕ, List, true, IfOk, OnOk};
ghost use Rattle.std.specs.List.{range_with_len};
ghost use Rattle.zarr_grids_boxes.specs.Boxes.{product};
ghost use Rattle.zarr_grids_boxes.specs.Cuts.{ends, IsAtMost};
ghost use Rattle.zarr_grids_boxes.specs.Subsets.{region_of};
ghost use Rattle.zarr_codecs_traits.specs.Indexers.{shape_has, numbers_of};
ghost use Rattle.zarr_codecs_regions.specs.BoxLines.{line_numbers};
ghost use Rattle.zarr_codecs_regions.specs.Taken.{ArePieces, IsMerged, pieces_put};

use crate::lines::{Lines, lines_of};
use crate::taken::{Pieces, Taken};
use std::alloc::{AllocError, Global};
use zarr_codecs_arrays::ArrayBytes;
use zarr_grids_boxes::ArraySubset;

/// The elements of an array, so many, and new ones that are put over some of them.
#[derive(Clone, Copy)]
pub(crate) struct Both<'a> {
    pub old: Pieces<'a>,
    pub given: Pieces<'a>,
    pub count: u64,
}

/// The elements of an array after new ones were put, as far as they are taken: the number of the
/// next one, and how many new ones are among them.
#[derive(Drop)]
pub(crate) struct Merged {
    pub taken: Taken,
    pub next: u64,
    pub given: u64,
}

/// The elements of an array after new ones were put over those of a box of it, one for each.
/// `Err` also where there are fewer of the array or of the new ones.
pub(crate) fn merge_box(
    alloc: Global,
    both: Both<'_>,
    shape: &[u64],
    region: &ArraySubset,
) -> Result<ArrayBytes, AllocError>
    requires inside { shape_has shape.now (region_of region.now) ≡ true }
    requires small { product shape.now < 2 ^ 63 }
    ensures { IfOk result
        (ArePieces (pieces_put both.entry (numbers_of shape.now (region_of region.now)))) }
{
    if region.is_empty() {
        return Merged::new(alloc)?.finish(both);
    }
    let lines = lines_of(alloc, shape, region)?;
    merge_lines(alloc, both, shape, &lines)
}

/// The elements of an array after new ones were put over those of lines of it.
fn merge_lines(
    alloc: Global,
    both: Both<'_>,
    shape: &[u64],
    lines: &Lines,
) -> Result<ArrayBytes, AllocError>
    requires within { IsAtMost (ends (region_of lines.now.firsts)) shape.now }
    requires small { product shape.now < 2 ^ 63 }
    ensures { IfOk result (ArePieces (pieces_put both.entry
        (line_numbers lines.now.length (numbers_of shape.now (region_of lines.now.firsts))))) }
{
    let mut merged = Merged::new(alloc)?;
    for first in lines.firsts.linearised_indices(shape).unwrap() {
        merged.push_line(both, first, lines.length)?;
    }
    merged.finish(both)
}

impl Merged {
    /// None yet.
    fn new(alloc: Global) -> Result<Merged, AllocError>
        ensures { (both : Both) → IfOk result (IsMerged both []) }
    {
        let taken = Taken::new(alloc)?;
        Ok(Merged {
            taken,
            next: 0,
            given: 0,
        })
    }

    /// Takes the elements of the array before a line that begins at this number, and then as many
    /// new ones as it is long. `Err` also where there are fewer, or the line is not behind those
    /// that are taken.
    fn push_line(&mut self, both: Both<'_>, first: u64, length: u64) -> Result<(), AllocError>
        ensures { (numbers : List ℕ) → IsMerged both.entry numbers self.old → OnOk result
            (IsMerged both.entry (numbers ++ range_with_len first length) self.new) }
    {
        let Some(before) = first.checked_sub(self.next) else {
            return Err(AllocError);
        };
        let Some(next) = first.checked_add(length) else {
            return Err(AllocError);
        };
        let Some(given) = self.given.checked_add(length) else {
            return Err(AllocError);
        };
        if next > both.count {
            return Err(AllocError);
        }
        self.taken.push_stretch(both.old, self.next, before)?;
        self.taken.push_stretch(both.given, self.given, length)?;
        self.next = next;
        self.given = given;
        Ok(())
    }

    /// All elements of the array.
    fn finish(self, both: Both<'_>) -> Result<ArrayBytes, AllocError>
        ensures { (numbers : List ℕ) → IsMerged both.entry numbers self
            → IfOk result (ArePieces (pieces_put both.entry numbers)) }
    {
        let Some(rest) = both.count.checked_sub(self.next) else {
            return Err(AllocError);
        };
        let mut taken = self.taken;
        taken.push_stretch(both.old, self.next, rest)?;
        taken.finish()
    }
}
