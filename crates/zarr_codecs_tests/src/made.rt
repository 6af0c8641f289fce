//! Codecs with chains inside of them, made by their constructors. What they make of values is in
//! calls/sections.calls.
use std::alloc::{AllocError, Global};
use zarr_codecs::{
    ArrayToArrayCodec, ArrayToBytesCodec, BytesCodec, CodecChain, OptionalCodec, PluginCreateError,
    SqueezeCodec, VlenCodec, VlenIndexDataType, VlenIndexLocation,
};
use zarr_codecs_reverse::ReverseCodec;

type Chain = CodecChain<ReverseCodec>;

/// `bytes` behind these codecs between arrays.
fn behind(alloc: Global, codecs: Vec<ArrayToArrayCodec>) -> Chain {
    let bytes = ArrayToBytesCodec::Bytes(BytesCodec::new(None));
    CodecChain::new(codecs, bytes, Vec::new(alloc))
}

/// `bytes` alone.
fn plain(alloc: Global) -> Chain {
    behind(alloc, Vec::new(alloc))
}

/// `bytes` behind `squeeze`.
fn squeezed(alloc: Global) -> Result<Chain, AllocError> {
    let squeeze = ArrayToArrayCodec::Squeeze(SqueezeCodec::new());
    Ok(behind(alloc, vec![in alloc; squeeze]?))
}

/// Whether the metadata of `vlen` has this text.
fn is_written(
    alloc: Global,
    codec: VlenCodec<ReverseCodec>,
    want: &str,
) -> Result<bool, AllocError> {
    let codec: ArrayToBytesCodec<ReverseCodec> = ArrayToBytesCodec::Vlen(Box::new(alloc, codec)?);
    let text = codec.metadata(alloc)?.to_value(alloc)?.to_string(alloc)?;
    Ok(text.as_str() == want)
}

const DEFAULT_VLEN: &str =
    r#"{"configuration":{"data_codecs":[{"configuration":{"endian":"little"},"name":"bytes"}],"index_codecs":[{"configuration":{"endian":"little"},"name":"bytes"}],"index_data_type":"uint64","index_location":"start"},"name":"vlen"}"#;

#[test]
fn default_vlen_is_of_little_bytes(rt: HostRuntime) {
    let alloc = rt.alloc();
    let is_default = is_written(alloc, VlenCodec::new_default(alloc), DEFAULT_VLEN);
    assert!(rt; matches!(is_default, Ok(true)));
}

/// `vlen` with its offsets behind `squeeze`, and its index at the end, made anew of what it is
/// configured by.
fn vlen_again(alloc: Global) -> Result<VlenCodec<ReverseCodec>, PluginCreateError> {
    let codec = VlenCodec::new(squeezed(alloc)?, plain(alloc), VlenIndexDataType::UInt32)?;
    let codec = codec.with_index_location(VlenIndexLocation::End);
    VlenCodec::new_with_configuration(alloc, &codec.configuration(alloc)?)
}

const VLEN: &str =
    r#"{"configuration":{"data_codecs":["bytes"],"index_codecs":["squeeze","bytes"],"index_data_type":"uint32","index_location":"end"},"name":"vlen"}"#;

fn is_vlen_written(alloc: Global) -> Result<bool, PluginCreateError> {
    Ok(is_written(alloc, vlen_again(alloc)?, VLEN)?)
}

#[test]
fn vlen_is_made_anew_of_its_configuration(rt: HostRuntime) {
    assert!(rt; matches!(is_vlen_written(rt.alloc()), Ok(true)));
}

fn vlen_of_squeezed(alloc: Global) -> Result<VlenCodec<ReverseCodec>, PluginCreateError> {
    VlenCodec::new(plain(alloc), squeezed(alloc)?, VlenIndexDataType::UInt32)
}

#[test]
fn vlen_takes_no_data_chain_with_an_array_codec(rt: HostRuntime) {
    let refused = vlen_of_squeezed(rt.alloc());
    assert!(rt; matches!(refused, Err(PluginCreateError::MetadataInvalid)));
}

fn optional_of_squeezed(alloc: Global) -> Result<OptionalCodec<ReverseCodec>, PluginCreateError> {
    OptionalCodec::new(plain(alloc), squeezed(alloc)?)
}

#[test]
fn optional_takes_no_data_chain_with_an_array_codec(rt: HostRuntime) {
    let refused = optional_of_squeezed(rt.alloc());
    assert!(rt; matches!(refused, Err(PluginCreateError::MetadataInvalid)));
}
