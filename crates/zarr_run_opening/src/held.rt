//! An array that is held.
use serde_json::Value;
use zarr_array_core::ArrayCore;
use zarr_codecs_options::SubchunkWriteOrder;
use zarr_codecs_traits::BytesToBytesCodecTraits;
use zarr_sharding_chains::ArrayChain;

/// An array that is held: the array itself, the JSON tree of its document as it was written or
/// opened, and its write order, which the shards of its codecs have at every depth.
#[derive(Debug, Drop)]
pub struct HeldArray<B: BytesToBytesCodecTraits> {
    pub core: ArrayCore<ArrayChain<B>>,
    pub tree: Value,
    pub order: SubchunkWriteOrder,
}
