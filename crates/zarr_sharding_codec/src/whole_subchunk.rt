//! Boxes of an array that are one of its subchunks.
ghost use Rattle.std.specs.Prelude.{◌≡◌, ◌-◌, ◌*◌, ◌/◌, min, true};
ghost use Rattle.zarr_codecs_meaning.specs.Places.{box_of};
ghost use Rattle.zarr_grids_boxes.specs.Boxes.{each2};

use crate::codec::ShardingCodec;
use crate::subchunks::subchunk_number;
use crate::updating::NumberedSubchunk;
use zarr_codecs_traits::{ArrayToBytesCodecTraits, Indexer};
use zarr_grids_boxes::ArraySubset;

impl<I: ArrayToBytesCodecTraits, X: ArrayToBytesCodecTraits> ShardingCodec<I, X> {
    ghost use Rattle.std.specs.Prelude.{◌≡◌, true, IfSome};
    ghost use Rattle.zarr_codecs_meaning.specs.Fits.{can_cut};
    ghost use Rattle.zarr_codecs_traits.specs.Indexers.{are_inside, asked_of, shape_has, numbers_asked, numbers_of};
    ghost use Rattle.zarr_grids_boxes.specs.Subsets.{region_of};
    ghost use Rattle.zarr_sharding_codec.specs.PartWriting.{AreSubchunk};
    ghost use Rattle.zarr_sharding_codec.specs.Views.{subchunk_of};
    ghost use Rattle.zarr_sharding_places.specs.Locating.{part_shape};

    /// The subchunk whose places are asked for, all of them in its order, or `None` where others
    /// are, or only some. The places are the array's.
    pub(crate) fn whole_subchunk<'a>(
        &self,
        shape: &[u64],
        indexer: Indexer<'a>,
    ) -> Option<NumberedSubchunk<'a>>
        requires cuts { can_cut shape.now (subchunk_of self.now) ≡ true }
        requires inside { are_inside shape.now (asked_of indexer) ≡ true }
        ensures places { IfSome result (λ found. AreSubchunk shape.now (subchunk_of self.now)
            (numbers_asked shape.now (asked_of indexer.entry)) found.number) }
        ensures shape { IfSome result (λ found. found.shape.now
            ≡ part_shape shape.now (subchunk_of self.now) found.number) }
    {
        let Indexer::Subset(region) = indexer else {
            return None;
        };
        let number = self.subchunk_of_box(shape, region)? as usize;
        let shape = region.shape();
        Some(NumberedSubchunk { number, shape })
    }

    /// The number of the subchunk that a box of an array is, if it is one.
    pub(crate) fn subchunk_of_box(&self, shape: &[u64], region: &ArraySubset) -> Option<u64>
        requires cuts { can_cut shape.now (subchunk_of self.now) ≡ true }
        requires inside { shape_has shape.now (region_of region.now) ≡ true }
        ensures places { IfSome result (AreSubchunk shape.now (subchunk_of self.now)
            (numbers_of shape.now (region_of region.now))) }
        ensures shape { IfSome result (λ number. region.now.shape.items
            ≡ part_shape shape.now (subchunk_of self.now) number) }
    {
        let edges = self.subchunk_shape.as_slice();
        let start = region.start();
        if region.is_empty() || !is_subchunk(start, region.shape(), shape, edges) {
            return None;
        }
        let (number, _) = subchunk_number(start, shape, edges)?;
        Some(number)
    }
}

/// Whether a box of an array that begins at a place, with these lengths, is all of the subchunk
/// that the place lies in.
fn is_subchunk(start: &[u64], lengths: &[u64], shape: &[u64], edges: &[u64]) -> bool
    ensures start { result ≡ true → start.now ≡ (box_of shape.now edges.now
        (each2 (λ x edge. x / edge) start.now edges.now)).start }
    ensures shape { result ≡ true → lengths.now ≡ (box_of shape.now edges.now
        (each2 (λ x edge. x / edge) start.now edges.now)).shape }
{
    let Some((edge, edges)) = edges.split_first() else {
        return start.is_empty() && lengths.is_empty();
    };
    let Some((size, sizes)) = shape.split_first() else {
        return false;
    };
    let Some((first, starts)) = start.split_first() else {
        return false;
    };
    let Some((long, lengths)) = lengths.split_first() else {
        return false;
    };
    is_extent(*first, *long, *size, *edge) && is_subchunk(starts, lengths, sizes, edges)
}

/// Whether numbers of one dimension, from the first one on and so many, are all of a subchunk's.
fn is_extent(first: u64, long: u64, size: u64, edge: u64) -> bool
    ensures start { result ≡ true → first ≡ first / edge * edge }
    ensures long { result ≡ true → long ≡ min edge (size - first / edge * edge) }
{
    match first.checked_rem(edge) {
        Some(0) => long == edge.min(size.saturating_sub(first)),
        _ => false,
    }
}

/// Whether numbers are the same.
pub(crate) fn are_equal(one: &[u64], other: &[u64]) -> bool
    ensures { result ≡ true → one.now ≡ other.now }
{
    one == other
}
