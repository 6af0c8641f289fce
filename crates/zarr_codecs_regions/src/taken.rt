//! Elements of variable length, taken in stretches.
ghost use Rattle.std.specs.Prelude.{◌≡◌, ◌∷◌, ◌++◌, ◌-◌, ◌≤◌, [], ℕ, List, flat_map, IfOk, IfSome, OnOk};
ghost use Rattle.std.specs.List.{range_with_len};
ghost use Rattle.zarr_codecs_arrays.specs.Views.{numbers_of};
ghost use Rattle.zarr_codecs_regions.specs.Pieces.{ends_of};
ghost use Rattle.zarr_codecs_regions.specs.Taken.{ArePieces, IsTaken, pieces_at};

use crate::variable::piece_of;
use std::alloc::{AllocError, Global};
use zarr_codecs_arrays::{ArrayBytes, ArrayBytesOffsets};

/// Elements of variable length: their bytes, and where each begins and the last one ends.
#[derive(Clone, Copy)]
pub(crate) struct Pieces<'a> {
    pub bytes: &'a [u8],
    pub offsets: &'a ArrayBytesOffsets,
}

/// Elements of variable length that were taken so far: their bytes, and where each begins and the
/// last one ends.
#[derive(Drop)]
pub(crate) struct Taken {
    pub bytes: Vec<u8>,
    pub ends: Vec<u64>,
}

impl Taken {
    /// None yet.
    pub(crate) fn new(alloc: Global) -> Result<Taken, AllocError>
        ensures { IfOk result (IsTaken []) }
    {
        let mut ends = Vec::new(alloc);
        ends.push(0)?;
        let bytes = Vec::new(alloc);
        Ok(Taken { bytes, ends })
    }

    /// Takes the elements from the one with the number `first` on, so many. `Err` also where there
    /// are fewer.
    pub(crate) fn push_stretch(
        &mut self,
        from: Pieces<'_>,
        first: u64,
        count: u64,
    ) -> Result<(), AllocError>
        ensures { (pieces : List (List ℕ)) → IsTaken pieces self.old → OnOk result (IsTaken
            (pieces ++ pieces_at from.entry (range_with_len first count)) self.new) }
    {
        let Some(last) = first.checked_add(count) else {
            return Err(AllocError);
        };
        let Some(stretch) = stretch_of(from, first, last) else {
            return Err(AllocError);
        };
        push_ends(&mut self.ends, self.bytes.len() as u64, from, first, last)?;
        self.bytes.extend_from_slice(stretch)?;
        Ok(())
    }

    /// The elements that were taken.
    pub(crate) fn finish(self) -> Result<ArrayBytes, AllocError>
        ensures { (pieces : List (List ℕ)) → IsTaken pieces self
            → IfOk result (ArePieces pieces) }
    {
        match ArrayBytesOffsets::new(self.ends) {
            Some(offsets) => Ok(ArrayBytes::Variable(self.bytes, offsets)),
            None => Err(AllocError),
        }
    }
}

/// The bytes from where one element begins to where another one does, or the last one ends.
fn stretch_of<'a>(from: Pieces<'a>, first: u64, last: u64) -> Option<&'a [u8]>
    requires { first ≤ last }
    ensures { IfSome result (λ stretch. stretch.now ≡ flat_map (λ piece. piece)
        (pieces_at from.entry (range_with_len first (last - first)))) }
{
    let offsets = from.offsets.as_slice();
    let start = *offsets.get(first as usize)? as usize;
    let end = *offsets.get(last as usize)? as usize;
    let stretch = from.bytes.get(start..end)?;
    Some(stretch)
}

/// Appends where each of the elements from one to another ends, the first of which begins at
/// `base`.
fn push_ends(
    ends: &mut Vec<u64>,
    base: u64,
    from: Pieces<'_>,
    first: u64,
    last: u64,
) -> Result<(), AllocError>
    ensures { OnOk result (ends.new.items ≡ ends.old.items
        ++ ends_of base (pieces_at from.entry (range_with_len first (last - first)))) }
{
    let mut end = base;
    for number in first..last {
        let Some(piece) = piece_of(from.bytes, from.offsets.as_slice(), number) else {
            return Err(AllocError);
        };
        let Some(next) = end.checked_add(piece.len() as u64) else {
            return Err(AllocError);
        };
        end = next;
        ends.push(end)?;
    }
    Ok(())
}
