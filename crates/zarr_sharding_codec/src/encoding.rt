//! Shards made of the elements of an array.

use crate::codec::ShardingCodec;
use std::alloc::Global;
use zarr_codecs_arrays::{ArrayBytes, CodecError};
use zarr_codecs_traits::{ArrayToBytesCodecTraits, WholeArray};
use zarr_sharding_index::shapes::index_shape;

impl<I: ArrayToBytesCodecTraits, X: ArrayToBytesCodecTraits> ShardingCodec<I, X> {
    ghost use Rattle.std.specs.Prelude.{◌≡◌, List, true};
    ghost use Rattle.zarr_codecs_arrays.specs.Outcomes.{IsValid};
    ghost use Rattle.zarr_codecs_arrays.specs.Views.{elements_of, payload_of};
    ghost use Rattle.zarr_codecs_meaning.specs.Fits.{fits};
    ghost use Rattle.zarr_codecs_meaning.specs.Types.{Cell};
    ghost use Rattle.zarr_codecs_traits.specs.Arrays.{coded_array};
    ghost use Rattle.zarr_codecs_traits.specs.Outcomes.{Encodes};
    ghost use Rattle.zarr_grids_boxes.specs.Boxes.{product};
    ghost use Rattle.zarr_sharding_codec.specs.Fitting.{index_length};
    ghost use Rattle.zarr_sharding_codec.specs.Views.{makes_a_function, shard_chain};

    /// The shard that the elements of an array are encoded to, without gaps, where these are its
    /// elements and the codec suits it; its index has so many bytes.
    pub(crate) fn encode_valid(
        &self,
        alloc: Global,
        bytes: &ArrayBytes,
        array: WholeArray<'_>,
        size: u64,
    ) -> Result<Vec<u8>, CodecError>
        requires fit { fits (shard_chain I.meaning X.meaning self.now)
            (elements_of array.elements.now).type array.shape.now ≡ true }
        requires size { size ≡ index_length (shard_chain I.meaning X.meaning self.now)
            array.shape.now }
        requires valid { (cells : List Cell) × IsValid (elements_of array.elements.now).type
            (payload_of bytes.now) (product array.shape.now) cells }
        ensures { Encodes (coded_array (shard_chain I.meaning X.meaning self.now)
            array.entry) (makes_a_function I.is_function X.is_function self.now)
            (payload_of bytes.now) result }
    {
        match self.store_pieces(alloc, bytes, array, size) {
            Ok((data, index)) => {
                let pairs_shape = index_shape(alloc, array.shape, &self.subchunk_shape)?;
                self.assemble(alloc, data, index, pairs_shape.as_slice())
            }
            Err(error) => Err(error),
        }
    }
}
