//! What codecs that stand around a shard need to know of it.
use crate::codec::ShardingCodec;
use std::alloc::{AllocError, Global};
use zarr_codecs_options::SubchunkWriteOrder;
use zarr_codecs_traits::ArrayToBytesCodecTraits;
use zarr_sharding_inner::{IndexCodec, InnerCodec};

impl<I: InnerCodec, X: IndexCodec> InnerCodec for ShardingCodec<I, X> {
    fn makes_no_shard(&self) -> bool {
        false
    }

    fn row_major(&self, alloc: Global) -> Result<ShardingCodec<I, X>, AllocError> {
        let subchunk_shape = self.subchunk_shape.try_clone(alloc)?;
        let inner_codecs = self.inner_codecs.row_major(alloc)?;
        let index_codecs = self.index_codecs.try_clone(alloc)?;
        Ok(ShardingCodec {
            subchunk_shape,
            inner_codecs,
            index_codecs,
            index_location: self.index_location,
            subchunk_write_order: SubchunkWriteOrder::C,
        })
    }
}
