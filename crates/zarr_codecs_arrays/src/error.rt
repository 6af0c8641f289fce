//! Why a codec refuses.
ghost use Rattle.std.specs.Prelude.{◌≡◌};
ghost use Rattle.zarr_codecs_arrays.specs.declared.error.CodecError.TheVariants.{Memory};

use std::alloc::{AllocError, AllocFailed};
use thiserror::Error;

/// Why a codec refuses to encode or to decode (this project's profile).
#[derive(Debug, Drop, Error)]
pub enum CodecError {
    /// The codec does not fit the type or the shape.
    #[error("the codec does not fit the data type or the shape")]
    Fit,
    /// The bytes cannot be decoded.
    #[error("the bytes cannot be decoded")]
    Damage,
    /// The caller's codec refuses to encode.
    #[error("a codec refuses to encode")]
    Codec,
    /// The source of the bytes refuses to be read or written.
    #[error("the source of the bytes refuses")]
    Source,
    /// There are 2^63 bytes or more, or an offset or a length is too large for where it is written.
    #[error("a size or an offset is too large")]
    Size,
    /// An element is not a value of the data type.
    #[error("an element is not a value of the data type")]
    CellOutOfRange,
    /// The indexer has other dimensions than the array, or a place outside of it.
    #[error("the indexer is not compatible with the shape")]
    IncompatibleIndexer,
    /// There are fewer elements than asked for, or more.
    #[error("the number of elements is wrong")]
    InvalidNumberOfElements,
    #[error("expected elements of one size")]
    ExpectedFixedLengthBytes,
    #[error("expected elements of variable length")]
    ExpectedVariableLengthBytes,
    #[error("expected optional elements")]
    ExpectedOptionalBytes,
    /// The call is not supported.
    #[error("not supported")]
    Unsupported,
    /// Memory ran out.
    #[error("out of memory")]
    Memory,
    /// Another reason, which the text gives.
    #[error("{0}")]
    Other(String),
}

impl From<AllocError> for CodecError {
    ghost from_gives = { λ _ e. e ≡ Memory };

    fn from(_: AllocError) -> CodecError {
        CodecError::Memory
    }
}

impl<T: Drop> From<AllocFailed<T>> for CodecError {
    ghost from_gives = { λ _ e. e ≡ Memory };

    fn from(_: AllocFailed<T>) -> CodecError {
        CodecError::Memory
    }
}
