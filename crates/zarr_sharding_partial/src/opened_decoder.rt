//! A shard opened: its index is fetched.
ghost use Rattle.std.specs.Prelude.{◌≡◌, ◌≤◌, ◌+◌, ◌*◌, IfErr, IfOk, IfSome, IsTrue};
ghost use Rattle.zarr_codecs_arrays.specs.Views.{elements_of};
ghost use Rattle.zarr_codecs_traits.specs.Sources.{refused_after};
ghost use Rattle.zarr_sharding_partial.specs.Opened.{IsOpened};
ghost use Rattle.zarr_sharding_partial.specs.Pairs.{NotOpenedToRead, count_fetched, index_length};
ghost use Rattle.zarr_sharding_partial.specs.Decoders.{shard_in};

use crate::opened_index::OpenedIndex;
use crate::partial_decoder::ShardingPartialDecoder;
use std::alloc::Global;
use zarr_codecs_arrays::CodecError;
use zarr_codecs_traits::{ArrayToBytesCodecTraits, BytesPartialDecoderTraits, WholeArray};
use zarr_grids_boxes::walk::count_places;
use zarr_sharding_codec::ShardingCodec;
use zarr_sharding_index::FetchedIndex;
use zarr_sharding_index::shapes::grid_of;

/// The index of the shard of an array that a source holds, or that it holds none: what a
/// `ShardingPartialDecoder` of this codec, source and array is made of. `Fit` where the codec
/// doesn't suit the array; `Damage` where the value has fewer bytes than its index, or no index is
/// decoded from these; `Source` where the source refuses. At most the bytes of the index are taken
/// from an honest source.
pub fn open_shard<
    I: ArrayToBytesCodecTraits,
    X: ArrayToBytesCodecTraits,
    D: BytesPartialDecoderTraits,
>(
    alloc: Global,
    codec: &ShardingCodec<I, X>,
    source: &mut D,
    array: WholeArray<'_>,
) -> Result<OpenedIndex, CodecError>
    ensures opened { IfOk result (IsOpened (shard_in I.meaning X.meaning codec.now
        (elements_of array.entry.elements.now) array.entry.shape.now) (D.is_honest source.new)
        (D.contents source.new)) }
    ensures refused { D.refused_calls source.new ≡
        refused_after (D.refused_calls source.old) result }
    ensures given { IsTrue (D.is_honest source.old) → D.given_bytes source.new
        ≤ D.given_bytes source.old + index_length (shard_in I.meaning X.meaning codec.now
        (elements_of array.entry.elements.now) array.entry.shape.now) }
    ensures follows { D.follows source.old source.new }
    ensures cause { IsTrue (D.is_honest source.old) → IfErr result (NotOpenedToRead
        (shard_in I.meaning X.meaning codec.now (elements_of array.entry.elements.now)
        array.entry.shape.now) (D.contents source.old)) }
{
    let (elements, shape) = (array.elements, array.shape);
    let Some(length) = codec.suited(alloc, elements.data_type(), shape)? else {
        return Err(CodecError::Fit);
    };
    let grid = grid_of(alloc, shape, codec.subchunk_shape())?;
    if count_places(grid.as_slice()).is_none() {
        return Err(CodecError::Memory);
    }
    let held = match codec.open_index(alloc, source, length, shape) {
        Ok(held) => held,
        Err(error) => return Err(error),
    };
    let Some(size) = size_of_index(&held) else {
        return Err(CodecError::Memory);
    };
    Ok(OpenedIndex { grid, held, size })
}

impl<
    'a,
    I: ArrayToBytesCodecTraits,
    X: ArrayToBytesCodecTraits,
    D: BytesPartialDecoderTraits,
> ShardingPartialDecoder<'a, I, X, D> {
    ghost use Rattle.std.specs.Prelude.{◌≡◌, ◌≤◌, ◌+◌, IfOk, IfErr, IsTrue, is_some};
    ghost use Rattle.zarr_codecs_arrays.specs.Views.{elements_of};
    ghost use Rattle.zarr_sharding_partial.specs.Opened.{IsOpened, pairs_opened};
    ghost use Rattle.zarr_sharding_partial.specs.Pairs.{NotOpenedToRead, index_length};
    ghost use Rattle.zarr_sharding_partial.specs.Decoders.{pairs_held, pairs_length, reference_of, shard_in, shard_of, source_of};

    /// The shard of an array that a source holds, or none: `open_shard`, and a decoder of what it
    /// gave. The errors are those of `open_shard`; call that one where you need to know what an
    /// error leaves of the source. At most the bytes of the index are taken from an honest source.
    pub fn new(
        alloc: Global,
        codec: &'a ShardingCodec<I, X>,
        source: &'a mut D,
        array: WholeArray<'a>,
    ) -> Result<ShardingPartialDecoder<'a, I, X, D>, CodecError>
        ensures shard { IfOk result (λ decoder. shard_of I.meaning X.meaning decoder
            ≡ shard_in I.meaning X.meaning codec.now (elements_of array.entry.elements.now)
            array.entry.shape.now) }
        ensures same_reference { IfOk result
            (λ decoder. reference_of decoder ≡ source.entry.ghost_name) }
        ensures follows { IfOk result (λ decoder. D.follows source.old (source_of decoder)) }
        ensures unrefused { IfOk result
            (λ decoder. D.refused_calls (source_of decoder) ≡ D.refused_calls source.old) }
        ensures given { IsTrue (D.is_honest source.old) → IfOk result
            (λ decoder. D.given_bytes (source_of decoder) ≤ D.given_bytes source.old
            + index_length (shard_of I.meaning X.meaning decoder)) }
        ensures cause { IsTrue (D.is_honest source.old) → IfErr result (NotOpenedToRead
            (shard_in I.meaning X.meaning codec.now (elements_of array.entry.elements.now)
            array.entry.shape.now) (D.contents source.old)) }
    {
        match open_shard(alloc, codec, source, array) {
            Ok(opened) => Ok(ShardingPartialDecoder::of_index(codec, source, array, opened)),
            Err(error) => Err(error),
        }
    }

    /// The shard of an array that a source holds, or none, by what `open_shard` gave for this
    /// codec, source and array. The source must still hold what it held then.
    pub fn of_index(
        codec: &'a ShardingCodec<I, X>,
        source: &'a mut D,
        array: WholeArray<'a>,
        opened: OpenedIndex,
    ) -> ShardingPartialDecoder<'a, I, X, D>
        requires { IsOpened (shard_in I.meaning X.meaning codec.now
            (elements_of array.elements.now) array.shape.now) (D.is_honest source.now)
            (D.contents source.now) opened }
        ensures shard { shard_of I.meaning X.meaning result
            ≡ shard_in I.meaning X.meaning codec.now (elements_of array.entry.elements.now)
            array.entry.shape.now }
        ensures same_reference { reference_of result ≡ source.entry.ghost_name }
        ensures source { source_of result ≡ source.old }
        ensures pairs { pairs_held result ≡ pairs_opened opened }
    {
        let OpenedIndex { grid, held, size } = opened;
        ShardingPartialDecoder {
            codec,
            source,
            elements: array.elements,
            shape: array.shape,
            grid,
            held,
            size,
        }
    }

    /// Whether the source holds a value.
    pub fn exists(&self) -> bool
        ensures { IsTrue (D.is_honest (source_of self.now)) →
            result ≡ is_some (D.contents (source_of self.now)) }
    {
        self.held.is_some()
    }

    /// How many bytes are kept in memory, the source aside: 24 for each present subchunk, and none
    /// where the source holds no value.
    pub fn size_held(&self) -> usize
        ensures { result ≡ pairs_length self.now }
    {
        self.size
    }
}

/// How many bytes the pairs of present subchunks take, if there is an index. `None` where these are
/// too many.
fn size_of_index(held: &Option<FetchedIndex>) -> Option<usize>
    ensures { IfSome result (λ size. size ≡ 24 * count_fetched held.now) }
{
    match held {
        Some(found) => found.pairs.count_present().checked_mul(24),
        None => Some(0),
    }
}
