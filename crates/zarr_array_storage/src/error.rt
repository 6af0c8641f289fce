//! Why a call of a store is refused.
ghost use Rattle.std.specs.Prelude.{◌≡◌};
ghost use Rattle.zarr_array_storage.specs.declared.error.StorageError.TheVariants.{Memory};

use std::alloc::{AllocError, AllocFailed};
use thiserror::Error;
use zarr_grids_keys::StoreKey;

/// Why a call of a store is refused (this project's profile). After any of these, an honest store
/// holds what it held before the call.
#[derive(Debug, Drop, Error)]
pub enum StorageError {
    /// The store could not be read or written. The same call may succeed later.
    #[error("the store could not be read or written")]
    Io,
    /// The value at a key is no metadata, for the reason that the text gives.
    #[error("invalid metadata: {1}")]
    InvalidMetadata(StoreKey, String),
    /// The store cannot have a value at this key.
    #[error("invalid key")]
    InvalidKey,
    /// A range to read ends past the end of the value, or one to write ends past 2^63 - 1 bytes.
    #[error("invalid byte range")]
    InvalidByteRange,
    /// The store gives another reason.
    #[error("{0}")]
    Other(String),
    /// Memory ran out.
    #[error("out of memory")]
    Memory,
}

impl From<AllocError> for StorageError {
    ghost from_gives = { λ _ e. e ≡ Memory };

    fn from(_: AllocError) -> StorageError {
        StorageError::Memory
    }
}

impl<T: Drop> From<AllocFailed<T>> for StorageError {
    ghost from_gives = { λ _ e. e ≡ Memory };

    fn from(_: AllocFailed<T>) -> StorageError {
        StorageError::Memory
    }
}
