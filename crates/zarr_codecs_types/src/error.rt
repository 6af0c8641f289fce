//! Why metadata is refused.
ghost use Rattle.std.specs.Prelude.{◌≡◌};
ghost use Rattle.zarr_codecs_types.specs.declared.error.DataTypeError.TheVariants as data_type;
ghost use Rattle.zarr_codecs_types.specs.declared.error.FillValueError.TheVariants as fill_value;

use std::alloc::AllocError;
use thiserror::Error;

/// Why a JSON value is not read as a data type.
#[derive(Clone, Copy, Debug, PartialEq, Eq, Error)]
pub enum DataTypeError {
    /// The name is not known, a field is not, or one is of another kind.
    #[error("the data type is not supported")]
    Unsupported,
    #[error("out of memory")]
    Memory,
}

impl From<AllocError> for DataTypeError {
    ghost from_gives = { λ _ e. e ≡ data_type.Memory };

    fn from(_error: AllocError) -> DataTypeError {
        DataTypeError::Memory
    }
}

/// Why a JSON value is not read as a fill value.
#[derive(Clone, Copy, Debug, PartialEq, Eq, Error)]
pub enum FillValueError {
    #[error("the fill value is not a value of the data type")]
    NotOfType,
    #[error("out of memory")]
    Memory,
}

impl From<AllocError> for FillValueError {
    ghost from_gives = { λ _ e. e ≡ fill_value.Memory };

    fn from(_error: AllocError) -> FillValueError {
        FillValueError::Memory
    }
}
