//! The shard that a source holds, opened for writing.
ghost use Rattle.std.specs.Prelude.{◌≡◌, ◌+◌, ◌<◌, ◌≤◌, ◌^◌, true, IfErr, IfOk, IsTrue};
ghost use Rattle.zarr_codecs_arrays.specs.Views.{elements_of};
ghost use Rattle.zarr_codecs_meaning.specs.Encoding.{index_size};
ghost use Rattle.zarr_codecs_meaning.specs.Fits.{fits};
ghost use Rattle.zarr_codecs_meaning.specs.Places.{index_shape};
ghost use Rattle.zarr_codecs_traits.specs.Sources.{refused_after};
ghost use Rattle.zarr_grids_boxes.specs.Boxes.{product};
ghost use Rattle.zarr_sharding_partial.specs.OpeningRefused.{NotOpenedToWrite};
ghost use Rattle.zarr_sharding_partial.specs.Tables.{IsTold};
ghost use Rattle.zarr_sharding_partial.specs.States.{shard_for};
ghost use Rattle.zarr_sharding_codec.specs.Views.{index_of, shard_chain, subchunk_of, place_of_index};
ghost use Rattle.zarr_sharding_partial.specs.Pairs.{index_length};
ghost use Rattle.zarr_sharding_index.specs.Known.{held_by};
ghost use Rattle.zarr_sharding_index.specs.Opened.{IsLaid};

use crate::shard_state::ShardState;
use std::alloc::Global;
use zarr_codecs_arrays::CodecError;
use zarr_codecs_traits::{
    ArrayToBytesCodecTraits, BytesPartialDecoderTraits, BytesPartialEncoderTraits, WholeArray,
};
use zarr_grids_boxes::walk::count_places;
use zarr_sharding_codec::ShardingCodec;
use zarr_sharding_index::KnownShard;

impl<
    'a,
    I: ArrayToBytesCodecTraits,
    X: ArrayToBytesCodecTraits,
    E: BytesPartialEncoderTraits,
> ShardState<'a, I, X, E> {
    ghost use Rattle.std.specs.Prelude.{◌≡◌, ◌≤◌, ◌+◌, IfErr, IfOk, IsTrue};
    ghost use Rattle.zarr_sharding_partial.specs.OpeningRefused.{NotOpenedToWrite, refused_by};
    ghost use Rattle.zarr_sharding_partial.specs.Tables.{IsTold};
    ghost use Rattle.zarr_sharding_partial.specs.States.{codec_of, held_of, shard_for, shard_of, source_of};
    ghost use Rattle.zarr_sharding_partial.specs.Pairs.{index_length};

    /// The shard of an array that a source holds, or none; of the value the index alone is read,
    /// and nothing is written. An error comes with the source: `Fit` where the codec doesn't suit
    /// the array; `Damage` where the value has fewer bytes than its index, no index is decoded from
    /// these, or a present pair lies outside the data part; `Size` where the array has 2^63
    /// elements or more, or the value as many bytes; `Source` where the source refuses.
    pub fn open(
        alloc: Global,
        codec: &'a ShardingCodec<I, X>,
        source: E,
        array: WholeArray<'a>,
    ) -> Result<ShardState<'a, I, X, E>, (E, CodecError)>
        ensures shard { IfOk result (λ state. shard_of I.meaning X.meaning state
            ≡ shard_for I.meaning X.meaning codec.now array.entry) }
        ensures codec { IfOk result (λ state. codec_of state ≡ codec.now) }
        ensures told { IsTrue (E.is_honest source) → IfOk result (λ state. IsTold
            (shard_of I.meaning X.meaning state) (held_of E.contents state)) }
        ensures follows { IfOk result (λ state. E.follows source (source_of state)) }
        ensures given_back { IfErr result (λ refused. E.follows source refused.0) }
        ensures cause { IsTrue (E.is_honest source) → IfErr result (λ refused. NotOpenedToWrite
            (shard_for I.meaning X.meaning codec.now array.entry) (E.contents source) refused.1) }
        ensures given { IsTrue (E.is_honest source) → IfOk result
            (λ state. E.given_bytes (source_of state) ≤ E.given_bytes source
            + index_length (shard_of I.meaning X.meaning state)) }
        ensures given_for_nothing { IsTrue (E.is_honest source) → IfErr result
            (λ refused. E.given_bytes refused.0 ≤ E.given_bytes source
            + index_length (shard_for I.meaning X.meaning codec.now array.entry)) }
        ensures unrefused { IfOk result
            (λ state. E.refused_calls (source_of state) ≡ E.refused_calls source) }
        ensures refused { IfErr result (λ refused. E.refused_calls refused.0
            ≡ refused_by (E.refused_calls source) refused.1) }
    {
        let mut source = source;
        match open_known(alloc, codec, &mut source, array) {
            Ok(known) => Ok(ShardState {
                codec,
                elements: array.elements,
                shape: array.shape,
                source,
                known,
            }),
            Err(error) => Err((source, error)),
        }
    }
}

/// What is known of the shard of an array that a source holds. Errors as those of `open`.
fn open_known<I: ArrayToBytesCodecTraits, X: ArrayToBytesCodecTraits, D: BytesPartialDecoderTraits>(
    alloc: Global,
    codec: &ShardingCodec<I, X>,
    source: &mut D,
    array: WholeArray<'_>,
) -> Result<KnownShard, CodecError>
    ensures fit { IfOk result (λ _. fits (shard_chain I.meaning X.meaning codec.now)
        (elements_of array.entry.elements.now).type array.entry.shape.now ≡ true) }
    ensures small { IfOk result (λ _. product array.entry.shape.now < 2 ^ 63) }
    ensures laid { IfOk result (IsLaid (place_of_index codec.now)
        (index_shape array.entry.shape.now (subchunk_of codec.now))
        (index_size (X.meaning (index_of codec.now))
        (index_shape array.entry.shape.now (subchunk_of codec.now)))) }
    ensures told { IsTrue (D.is_honest source.old) → IfOk result (λ known. IsTold
        (shard_for I.meaning X.meaning codec.now array.entry)
        (held_by (D.contents source.old) known)) }
    ensures cause { IsTrue (D.is_honest source.old) → IfErr result (NotOpenedToWrite
        (shard_for I.meaning X.meaning codec.now array.entry) (D.contents source.old)) }
    ensures refused { D.refused_calls source.new ≡
        refused_after (D.refused_calls source.old) result }
    ensures given { IsTrue (D.is_honest source.old) → D.given_bytes source.new ≤ D.given_bytes
        source.old + index_length (shard_for I.meaning X.meaning codec.now array.entry) }
    ensures follows { D.follows source.old source.new }
{
    let shape = array.shape;
    let Some(size) = codec.suited(alloc, array.elements.data_type(), shape)? else {
        return Err(CodecError::Fit);
    };
    if count_places(shape).is_none() {
        return Err(CodecError::Size);
    }
    codec.open_known(alloc, source, size, shape)
}
