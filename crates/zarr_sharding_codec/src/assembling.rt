//! Shards put together from their slices.

use crate::codec::ShardingCodec;
use crate::slices::join;
use std::alloc::Global;
use zarr_codecs_arrays::CodecError;
use zarr_codecs_traits::ArrayToBytesCodecTraits;
use zarr_sharding_index::ShardIndex;
use zarr_sharding_index::stored::write_index;

impl<I: ArrayToBytesCodecTraits, X: ArrayToBytesCodecTraits> ShardingCodec<I, X> {
    ghost use Rattle.std.specs.Prelude.{◌≡◌, ◌*◌, ℕ, List, Option, length, true};
    ghost use Rattle.zarr_codecs_meaning.specs.Encoding.{base_of, index_size, joined_slices, pairs_from};
    ghost use Rattle.zarr_grids_boxes.specs.Boxes.{product};
    ghost use Rattle.zarr_sharding_codec.specs.Assembled.{Assembles};
    ghost use Rattle.zarr_sharding_index.specs.Held.{index_coding};
    ghost use Rattle.zarr_sharding_codec.specs.Views.{index_of, place_of_index};
    ghost use Rattle.zarr_sharding_index.specs.Stored.{index_fits};
    ghost use Rattle.zarr_sharding_index.specs.Views.{pairs_of};

    /// The shard of these slices in a row and of the index of them, of which this is the shape.
    pub(crate) fn assemble(
        &self,
        alloc: Global,
        data: Vec<u8>,
        index: ShardIndex,
        pairs_shape: &[u64],
    ) -> Result<Vec<u8>, CodecError>
        requires fit { index_fits (X.meaning (index_of self.now)) pairs_shape.now ≡ true }
        requires many { product pairs_shape.now ≡ 2 * length (pairs_of index) }
        ensures { (stored : List (Option (List ℕ))) → data.items ≡ joined_slices stored
            → pairs_of index ≡ pairs_from (base_of (place_of_index self.now)
            (index_size (X.meaning (index_of self.now)) pairs_shape.now)) stored
            → Assembles (index_coding (X.meaning (index_of self.now))
            (X.is_function (index_of self.now)) (place_of_index self.now) pairs_shape.now)
            stored result }
    {
        match write_index(alloc, &self.index_codecs, index, pairs_shape) {
            Ok(stored) => Ok(join(self.index_location, stored, data)?),
            Err(error) => Err(error),
        }
    }
}
