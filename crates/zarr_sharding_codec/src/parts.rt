//! The parts of the codec, for what reads and writes shards in place.

use crate::codec::ShardingCodec;
use std::alloc::{AllocError, Global};
use zarr_codecs_traits::ArrayToBytesCodecTraits;
use zarr_codecs_types::DataType;
use zarr_sharding_index::ShardingIndexLocation;

impl<I: ArrayToBytesCodecTraits, X: ArrayToBytesCodecTraits> ShardingCodec<I, X> {
    ghost use Rattle.std.specs.Prelude.{◌≡◌, IfOk};
    ghost use Rattle.zarr_codecs_types.specs.Views.{type_of};
    ghost use Rattle.zarr_sharding_codec.specs.Fitting.{Suits};
    ghost use Rattle.zarr_sharding_codec.specs.Views.{index_of, place_of_index, shard_chain};
    ghost use Rattle.zarr_sharding_index.specs.Views.{location_of};

    /// The codecs of the index.
    pub fn index_codecs(&self) -> &X
        ensures { result.now ≡ index_of self.now }
    {
        &self.index_codecs
    }

    /// Where the index stands.
    pub fn index_location(&self) -> ShardingIndexLocation
        ensures { location_of result ≡ place_of_index self.now }
    {
        self.index_location
    }

    /// How many bytes the index of a shard has, where the codec suits arrays of a data type and a
    /// shape, else `None`. `Err` only where an allocation failed.
    pub fn index_size(
        &self,
        alloc: Global,
        data_type: &DataType,
        shape: &[u64],
    ) -> Result<Option<u64>, AllocError>
        ensures { IfOk result
            (Suits (shard_chain I.meaning X.meaning self.now) (type_of data_type.now) shape.now) }
    {
        self.suited(alloc, data_type, shape)
    }
}
