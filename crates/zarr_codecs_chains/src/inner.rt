//! What codecs that stand around a chain need to know of it.
use crate::chain::CodecChain;
use std::alloc::{AllocError, Global};
use zarr_codecs_traits::{ArrayToBytesCodecTraits, BytesToBytesCodecTraits};
use zarr_sharding_inner::InnerCodec;

impl<B: BytesToBytesCodecTraits> InnerCodec for CodecChain<B> {
    fn makes_no_shard(&self) -> bool {
        true
    }

    fn row_major(&self, alloc: Global) -> Result<CodecChain<B>, AllocError> {
        self.try_clone(alloc)
    }
}
