//! Coders of a lent source. What they read and write is in the scripts of `zarr_scarcity`, and in
//! calls/parts.calls.
use crate::samples::zeros;
use std::alloc::Global;
use zarr_codecs::{BytesCodec, CodecError, CodecPartialEncoder, MemorySource, WholeArray};

type Encoder<'a> = CodecPartialEncoder<'a, BytesCodec, MemorySource>;

/// Whether a coder tells that there is a value, how many bytes its source keeps, and that the value
/// is written in part.
fn tells_of_four(encoder: &mut Encoder<'_>) -> Result<bool, CodecError> {
    Ok(encoder.exists()? && encoder.size_held() == 4 && encoder.supports_partial_encode())
}

/// Whether it tells that there is no value once that is taken away.
fn takes_away(encoder: &mut Encoder<'_>) -> Result<bool, CodecError> {
    encoder.erase()?;
    Ok(!encoder.exists()?)
}

/// Whether the coder of a source of four cells does both.
fn is_taken_away(alloc: Global) -> Result<bool, CodecError> {
    let (codec, elements) = (BytesCodec::new(None), zeros(alloc)?);
    let mut source = MemorySource::new(Some(vec![in alloc; 1, 0, 1, 0]?));
    let whole = WholeArray {
        elements: &elements,
        shape: &[4],
    };
    let mut encoder = CodecPartialEncoder::new(&codec, &mut source, whole);
    Ok(tells_of_four(&mut encoder)? && takes_away(&mut encoder)?)
}

#[test]
fn a_value_is_taken_away_by_its_coder(rt: HostRuntime) {
    assert!(rt; matches!(is_taken_away(rt.alloc()), Ok(true)));
}
