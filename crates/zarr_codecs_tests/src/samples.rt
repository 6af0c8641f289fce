//! What the tests share.
use std::alloc::{AllocError, Global};
use zarr_codecs::{ArrayBytes, CodecError, DataType, Elements, FillValue, data_type};

/// Elements of a type that fill with a value.
pub(crate) fn elements(data_type: DataType, fill: FillValue) -> Result<Elements, CodecError> {
    match Elements::new(data_type, fill) {
        Some(elements) => Ok(elements),
        None => Err(CodecError::Unsupported),
    }
}

/// Elements of the type uint8 that fill with 0.
pub(crate) fn zeros(alloc: Global) -> Result<Elements, CodecError> {
    elements(data_type::uint8(), FillValue::from_u8(alloc, 0)?)
}

/// Elements of one size.
pub(crate) fn fixed(alloc: Global, bytes: &[u8]) -> Result<ArrayBytes, AllocError> {
    Ok(ArrayBytes::Fixed(bytes.to_vec(alloc)?))
}

/// Whether these are elements of one size with these bytes.
pub(crate) fn are(elements: &ArrayBytes, want: &[u8]) -> bool {
    match elements {
        ArrayBytes::Fixed(bytes) => bytes.as_slice() == want,
        _ => false,
    }
}
