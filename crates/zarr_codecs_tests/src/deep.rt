//! Metadata of chains that nest in one another, in part deeper than is read. No text says it, since
//! none that deep is parsed.
use std::alloc::{AllocError, Global};
use zarr_codecs::{
    ArrayToBytesCodec, BytesCodec, CodecChain, OptionalCodec, PluginCreateError, VlenCodec,
    VlenIndexDataType,
};
use zarr_codecs_reverse::ReverseCodec;

type Chain = CodecChain<ReverseCodec>;

/// `bytes` alone.
fn plain(alloc: Global) -> Chain {
    let bytes = ArrayToBytesCodec::Bytes(BytesCodec::new(None));
    CodecChain::new(Vec::new(alloc), bytes, Vec::new(alloc))
}

/// `optional` as a codec of a chain.
fn boxed(
    alloc: Global,
    codec: OptionalCodec<ReverseCodec>,
) -> Result<ArrayToBytesCodec<ReverseCodec>, AllocError> {
    Ok(ArrayToBytesCodec::Optional(Box::new(alloc, codec)?))
}

/// `optional` around the chain of a mask.
fn around(alloc: Global, mask: Chain) -> Result<Chain, PluginCreateError> {
    let codec = boxed(alloc, OptionalCodec::new(mask, plain(alloc))?)?;
    Ok(CodecChain::new(Vec::new(alloc), codec, Vec::new(alloc)))
}

/// So many masks in one another. Each has three levels in metadata: an extension point, its
/// configuration, and a list.
fn masks(alloc: Global, count: u64) -> Result<Chain, PluginCreateError> {
    let mut chain = plain(alloc);
    for _ in 0..count {
        chain = around(alloc, chain)?;
    }
    Ok(chain)
}

/// The chain that is read of the metadata of masks.
fn read_again(alloc: Global, count: u64) -> Result<Chain, PluginCreateError> {
    let metadatas = masks(alloc, count)?.create_metadatas(alloc)?;
    CodecChain::from_metadata(alloc, metadatas.as_slice())
}

#[test]
fn chains_nest_no_deeper_than_127_levels(rt: HostRuntime) {
    assert!(rt; read_again(rt.alloc(), 42).is_ok());
    let refused = read_again(rt.alloc(), 43);
    assert!(rt; matches!(refused, Err(PluginCreateError::TooDeep)));
}

/// `vlen` with masks in the chain of its index, made anew of what it is configured by.
fn vlen_again(alloc: Global, count: u64) -> Result<VlenCodec<ReverseCodec>, PluginCreateError> {
    let index = masks(alloc, count)?;
    let codec = VlenCodec::new(index, plain(alloc), VlenIndexDataType::UInt64)?;
    VlenCodec::new_with_configuration(alloc, &codec.configuration(alloc)?)
}

#[test]
fn chains_in_vlen_nest_no_deeper(rt: HostRuntime) {
    assert!(rt; vlen_again(rt.alloc(), 42).is_ok());
    let refused = vlen_again(rt.alloc(), 43);
    assert!(rt; matches!(refused, Err(PluginCreateError::TooDeep)));
}

/// `optional` with masks in the chain of its mask, made anew of what it is configured by.
fn optional_again(
    alloc: Global,
    count: u64,
) -> Result<OptionalCodec<ReverseCodec>, PluginCreateError> {
    let codec = OptionalCodec::new(masks(alloc, count)?, plain(alloc))?;
    OptionalCodec::new_with_configuration(alloc, &codec.configuration(alloc)?)
}

#[test]
fn chains_in_optional_nest_no_deeper(rt: HostRuntime) {
    assert!(rt; optional_again(rt.alloc(), 42).is_ok());
    let refused = optional_again(rt.alloc(), 43);
    assert!(rt; matches!(refused, Err(PluginCreateError::TooDeep)));
}
