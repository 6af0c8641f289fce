//! The index of a shard as the shard holds it.
ghost use Rattle.std.specs.Prelude.{◌≡◌, ◌<◌, ◌≤◌, ◌+◌, ◌%◌, ◌∷◌, [], ℕ, List, Some, length, nat_le, true, IsTrue};
ghost use Rattle.zarr_codecs_meaning.specs.Encoding.{index_size};
ghost use Rattle.zarr_codecs_traits.specs.Sources.{part_lists, refused_after, value_bytes, value_length};
ghost use Rattle.zarr_grids_boxes.specs.Boxes.{product};
ghost use Rattle.zarr_sharding_index.specs.HeldIndex.{DecodesIndex, FetchesIndex, FetchesSlice, FetchesWhole};
ghost use Rattle.zarr_sharding_index.specs.Stored.{index_fits};
ghost use Rattle.zarr_sharding_index.specs.Views.{location_of, pair_of};

use crate::index::ShardIndex;
use crate::location::ShardingIndexLocation;
use crate::pair::slice_at;
use crate::present::PresentPairs;
use crate::stored::read_index;
use std::alloc::Global;
use zarr_codecs_arrays::CodecError;
use zarr_codecs_traits::{ArrayToBytesCodecTraits, ByteRange, BytesPartialDecoderTraits};

/// Where the index of a shard stands, its shape, and how many bytes it has.
#[derive(Clone, Copy)]
pub struct IndexLayout<'a> {
    pub location: ShardingIndexLocation,
    pub shape: &'a [u64],
    pub size: u64,
}

/// The index of a shard, of which the pairs of present subchunks are kept, and how many bytes the
/// shard has.
#[derive(Debug, Drop)]
pub struct FetchedIndex {
    pub pairs: PresentPairs,
    pub total: u64,
}

/// The whole index of a shard, and how many bytes the shard has.
#[derive(Debug, Drop)]
pub(crate) struct WholeIndex {
    pub index: ShardIndex,
    pub total: u64,
}

/// The index of a shard. `Damage` where the shard has fewer bytes than its index, or the codec
/// decodes no index from its bytes (Zarr sharding codec, "Binary shard format").
pub fn decode_index<X: ArrayToBytesCodecTraits>(
    alloc: Global,
    codec: &X,
    value: &[u8],
    layout: IndexLayout<'_>,
) -> Result<ShardIndex, CodecError>
    requires fit { index_fits (X.meaning codec.now) layout.shape.now ≡ true }
    requires even { product layout.shape.now % 2 ≡ 0 }
    requires size { layout.size ≡ index_size (X.meaning codec.now) layout.shape.now }
    ensures { DecodesIndex (X.meaning codec.now) (location_of layout.entry.location)
        layout.entry.shape.now value.now result }
{
    let total = value.len() as u64;
    if layout.size > total {
        return Err(CodecError::Damage);
    }
    let range = layout.location.index_range(layout.size, total);
    match slice_at(value, range) {
        Some(bytes) => read_index(alloc, codec, bytes.to_vec(alloc)?, layout.shape),
        None => Err(CodecError::Damage),
    }
}

/// The index of the shard that a source holds, or `None` where it holds none. An honest source
/// gives at most as many bytes as an index has, and never more than its value has. Errors as those
/// of `decode_index`, and `Source` where the source refuses.
pub fn fetch_index<X: ArrayToBytesCodecTraits, D: BytesPartialDecoderTraits>(
    alloc: Global,
    codec: &X,
    source: &mut D,
    layout: IndexLayout<'_>,
) -> Result<Option<FetchedIndex>, CodecError>
    requires fit { index_fits (X.meaning codec.now) layout.shape.now ≡ true }
    requires even { product layout.shape.now % 2 ≡ 0 }
    requires size { layout.size ≡ index_size (X.meaning codec.now) layout.shape.now }
    ensures index { IsTrue (D.is_honest source.old) → FetchesIndex (X.meaning codec.now)
        (location_of layout.entry.location) layout.entry.shape.now (D.contents source.old) result }
    ensures refused { D.refused_calls source.new ≡
        refused_after (D.refused_calls source.old) result }
    ensures given { IsTrue (D.is_honest source.old) →
        D.given_bytes source.new ≤ D.given_bytes source.old + layout.entry.size }
    ensures within { IsTrue (D.is_honest source.old) → D.given_bytes source.new
        ≤ D.given_bytes source.old + value_length (D.contents source.old) }
    ensures follows { D.follows source.old source.new }
{
    match fetch_whole_index(alloc, codec, source, layout) {
        Ok(Some(found)) => {
            let pairs = PresentPairs::from_index(alloc, found.index)?;
            let total = found.total;
            Ok(Some(FetchedIndex { pairs, total }))
        }
        Ok(None) => Ok(None),
        Err(error) => Err(error),
    }
}

/// The whole index of the shard that a source holds, or `None` where it holds none. Errors as those
/// of `fetch_index`.
pub(crate) fn fetch_whole_index<X: ArrayToBytesCodecTraits, D: BytesPartialDecoderTraits>(
    alloc: Global,
    codec: &X,
    source: &mut D,
    layout: IndexLayout<'_>,
) -> Result<Option<WholeIndex>, CodecError>
    requires fit { index_fits (X.meaning codec.now) layout.shape.now ≡ true }
    requires even { product layout.shape.now % 2 ≡ 0 }
    requires size { layout.size ≡ index_size (X.meaning codec.now) layout.shape.now }
    ensures index { IsTrue (D.is_honest source.old) → FetchesWhole (X.meaning codec.now)
        (location_of layout.entry.location) layout.entry.shape.now (D.contents source.old) result }
    ensures refused { D.refused_calls source.new ≡
        refused_after (D.refused_calls source.old) result }
    ensures given { IsTrue (D.is_honest source.old) →
        D.given_bytes source.new ≤ D.given_bytes source.old + layout.entry.size }
    ensures within { IsTrue (D.is_honest source.old) → D.given_bytes source.new
        ≤ D.given_bytes source.old + value_length (D.contents source.old) }
    ensures follows { D.follows source.old source.new }
{
    match source.size() {
        Ok(Some(total)) => {
            if layout.size > total {
                return Err(CodecError::Damage);
            }
            let range = layout.location.index_range(layout.size, total);
            match fetch_slice(alloc, source, total, range) {
                Ok(bytes) => match read_index(alloc, codec, bytes, layout.shape) {
                    Ok(index) => Ok(Some(WholeIndex { index, total })),
                    Err(error) => Err(error),
                },
                Err(error) => Err(error),
            }
        }
        Ok(None) => Ok(None),
        Err(error) => Err(error),
    }
}

/// The bytes of a pair of the value that a source holds, which has `total` bytes; an honest source
/// gives at most as many. `Damage` where the pair ends past the end of the value: then the source
/// gives nothing. `Source` where the source refuses.
pub fn fetch_slice<D: BytesPartialDecoderTraits>(
    alloc: Global,
    source: &mut D,
    total: u64,
    pair: ByteRange,
) -> Result<Vec<u8>, CodecError>
    ensures slice { IsTrue (D.is_honest source.old) → (value : List ℕ)
        → D.contents source.old ≡ Some value → length value ≡ total
        → FetchesSlice value (pair_of pair) result }
    ensures refused { D.refused_calls source.new ≡
        refused_after (D.refused_calls source.old) result }
    ensures given { IsTrue (D.is_honest source.old) →
        D.given_bytes source.new ≤ D.given_bytes source.old + pair.length }
    ensures past { total < pair.offset + pair.length →
        D.given_bytes source.new ≡ D.given_bytes source.old }
    ensures follows { D.follows source.old source.new }
{
    if !ends_within(pair, total) {
        return Err(CodecError::Damage);
    }
    let ranges = [pair];
    match source.partial_decode(alloc, &ranges) {
        Ok(found) => match only_part(found) {
            Some(bytes) => Ok(bytes),
            None => Err(CodecError::Damage),
        },
        Err(error) => Err(error),
    }
}

/// Whether a pair ends within a value of so many bytes.
fn ends_within(pair: ByteRange, total: u64) -> bool
    ensures { result ≡ nat_le (pair.offset + pair.length) total }
{
    match pair.offset.checked_add(pair.length) {
        Some(end) => end <= total,
        None => false,
    }
}

/// The only part.
fn only_part(found: Option<Vec<Vec<u8>>>) -> Option<Vec<u8>>
    ensures { (bytes : List ℕ) → part_lists found ≡ Some (bytes ∷ [])
        → value_bytes result ≡ Some bytes }
{
    let Some(mut parts) = found else {
        return None;
    };
    parts.pop()
}
