//! Metadata of shards and of the chains of arrays, in part deeper than is read. No text says it,
//! since none that deep is parsed.
use std::alloc::{AllocError, Global};
use zarr_codecs::{ArrayToBytesCodec, BytesCodec, CodecChain, OptionalCodec, PluginCreateError};
use zarr_codecs_reverse::ReverseCodec;
use zarr_grids::ChunkShape;
use zarr_sharding::{ArrayChain, ShardingCodec, ShardingIndexLocation};

type Chain = CodecChain<ReverseCodec>;

/// `bytes` alone.
fn plain(alloc: Global) -> Chain {
    let bytes = ArrayToBytesCodec::Bytes(BytesCodec::new(None));
    CodecChain::new(Vec::new(alloc), bytes, Vec::new(alloc))
}

/// `optional` as a codec of a chain.
fn boxed(
    alloc: Global,
    codec: OptionalCodec<ReverseCodec>,
) -> Result<ArrayToBytesCodec<ReverseCodec>, AllocError> {
    Ok(ArrayToBytesCodec::Optional(Box::new(alloc, codec)?))
}

/// `optional` around the chain of a mask.
fn around(alloc: Global, mask: Chain) -> Result<Chain, PluginCreateError> {
    let codec = boxed(alloc, OptionalCodec::new(mask, plain(alloc))?)?;
    Ok(CodecChain::new(Vec::new(alloc), codec, Vec::new(alloc)))
}

/// So many masks in one another. Each has three levels in metadata: an extension point, its
/// configuration, and a list.
fn masks(alloc: Global, count: u64) -> Result<Chain, PluginCreateError> {
    let mut chain = plain(alloc);
    for _ in 0..count {
        chain = around(alloc, chain)?;
    }
    Ok(chain)
}

/// The chain of an array that is read of the metadata of masks.
fn array_again(alloc: Global, count: u64) -> Result<ArrayChain<ReverseCodec>, PluginCreateError> {
    let chain = ArrayChain::Plain(masks(alloc, count)?);
    let metadatas = chain.create_metadatas(alloc)?;
    ArrayChain::from_metadata(alloc, metadatas.as_slice())
}

#[test]
fn chains_of_arrays_nest_no_deeper_than_127_levels(rt: HostRuntime) {
    assert!(rt; array_again(rt.alloc(), 42).is_ok());
    let refused = array_again(rt.alloc(), 43);
    assert!(rt; matches!(refused, Err(PluginCreateError::TooDeep)));
}

/// The shape of two elements.
fn pair(alloc: Global) -> Result<Vec<u64>, AllocError> {
    Ok(vec![in alloc; 2]?)
}

/// A shard with masks in the chain of its index, made anew of what it is configured by.
fn shard_again(
    alloc: Global,
    count: u64,
) -> Result<ShardingCodec<Chain, Chain>, PluginCreateError> {
    let shape = match ChunkShape::new(pair(alloc)?) {
        Ok(shape) => shape,
        Err(_) => return Err(PluginCreateError::Other),
    };
    let end = ShardingIndexLocation::End;
    let codec = ShardingCodec::new(shape, plain(alloc), masks(alloc, count)?, end);
    ShardingCodec::new_with_configuration(alloc, &codec.configuration(alloc)?)
}

#[test]
fn chains_in_shards_nest_no_deeper(rt: HostRuntime) {
    assert!(rt; shard_again(rt.alloc(), 42).is_ok());
    let refused = shard_again(rt.alloc(), 43);
    assert!(rt; matches!(refused, Err(PluginCreateError::TooDeep)));
}
