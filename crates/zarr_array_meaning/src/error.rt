//! Why a document is refused, in the order of the checks.
ghost use Rattle.std.specs.Prelude.{◌≡◌};
ghost use Rattle.zarr_array_meaning.specs.declared.error.DocumentError.TheVariants.{Memory};

use std::alloc::AllocError;
use thiserror::Error;

/// The first check that refuses a document.
#[derive(Clone, Copy, Debug, PartialEq, Eq, Error)]
pub enum DocumentError {
    #[error("arrays and objects nest too deep")]
    Depth,
    #[error("a number is not a whole number")]
    Float,
    /// A required field is missing or of another kind, or the attributes are not an object.
    #[error("a field is missing or of another kind")]
    Fields,
    /// A field that is not known has to be understood.
    #[error("a field that is not known has to be understood")]
    AdditionalField,
    #[error("the codecs are not supported")]
    Codecs,
    #[error("the data type is not supported")]
    DataTypes,
    /// No chunk grid has the name and the configuration, or they make no grid of the shape.
    #[error("the chunk grid is not supported")]
    ChunkGrid,
    #[error("the chunk grid has another dimensionality than the array")]
    Dimensionality,
    #[error("the fill value is not a value of the data type")]
    FillValue,
    #[error("storage transformers are not supported")]
    StorageTransformers,
    #[error("the chunk key encoding is not supported")]
    ChunkKeyEncoding,
    /// The dimension names are not texts or nulls, one for each dimension.
    #[error("the dimension names are not one text or null for each dimension")]
    DimensionNames,
    #[error("out of memory")]
    Memory,
}

impl From<AllocError> for DocumentError {
    ghost from_gives = { λ _ e. e ≡ Memory };

    fn from(_error: AllocError) -> DocumentError {
        DocumentError::Memory
    }
}
