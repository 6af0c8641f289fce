//! A shard that is read in part.
ghost use Rattle.std.specs.Prelude.{◌≡◌, ◌*◌, ◌<◌, ◌^◌, IsTrue, length, option_and_then, option_map, true};
ghost use Rattle.zarr_codecs_arrays.specs.Views.{elements_of};
ghost use Rattle.zarr_codecs_meaning.specs.Fits.{fits};
ghost use Rattle.zarr_codecs_meaning.specs.Places.{grid_of, index_shape};
ghost use Rattle.zarr_codecs_types.specs.Views.{type_of};
ghost use Rattle.zarr_grids_boxes.specs.Boxes.{product};
ghost use Rattle.zarr_sharding_codec.specs.Views.{index_of, place_of_index, shard_chain, subchunk_of};
ghost use Rattle.zarr_sharding_partial.specs.Pairs.{count_fetched, counts, pairs_fetched, totals};
ghost use Rattle.zarr_sharding_index.specs.HeldIndex.{held_pairs};

use zarr_codecs_arrays::Elements;
use zarr_codecs_traits::{ArrayToBytesCodecTraits, BytesPartialDecoderTraits};
use zarr_sharding_codec::ShardingCodec;
use zarr_sharding_index::FetchedIndex;

/// The shard of an array that a lent source holds, or none. Its index is fetched once, and the
/// pairs of present subchunks are kept; of all else the slices alone are fetched that a call needs.
/// A pair that no call meets is no concern, wherever it points (Zarr sharding codec, "Binary shard
/// format").
#[derive(Drop)]
pub struct ShardingPartialDecoder<
    'a,
    I: ArrayToBytesCodecTraits,
    X: ArrayToBytesCodecTraits,
    D: BytesPartialDecoderTraits,
> {
    pub(crate) codec: &'a ShardingCodec<I, X>,
    pub(crate) source: &'a mut D,
    pub(crate) elements: &'a Elements,
    pub(crate) shape: &'a [u64],
    pub(crate) grid: Vec<u64>,
    pub(crate) held: Option<FetchedIndex>,
    pub(crate) size: usize,
    ghost fit: { fits (shard_chain I.meaning X.meaning codec.now) (elements_of elements.now).type
        shape.now ≡ true },
    ghost told: { IsTrue (D.is_honest source.now) →
        option_map length (D.contents source.now) ≡ totals held },
    ghost opened: { IsTrue (D.is_honest source.now) → option_and_then
        (held_pairs (X.meaning (index_of codec.now)) (place_of_index codec.now)
        (index_shape shape.now (subchunk_of codec.now))) (D.contents source.now)
        ≡ pairs_fetched held },
    ghost many: { counts held
        ≡ option_map (λ _. product (grid_of shape.now (subchunk_of codec.now))) held },
    ghost cut: { grid.items ≡ grid_of shape.now (subchunk_of codec.now) },
    ghost few: { product (grid_of shape.now (subchunk_of codec.now)) < 2 ^ 63 },
    ghost sized: { size ≡ 24 * count_fetched held },
}
