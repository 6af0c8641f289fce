//! Why a chunk is not read or written.
ghost use Rattle.std.specs.Prelude.{◌≡◌};
ghost use Rattle.zarr_array_core.specs.declared.error.ChunkError.TheVariants.{Memory};

use std::alloc::{AllocError, AllocFailed};
use thiserror::Error;
use zarr_array_storage::StorageError;

/// Why a chunk is not read, written or erased.
#[derive(Debug, Drop, Error)]
pub enum ChunkError {
    /// The chunk does not fit its codecs.
    #[error("a chunk does not fit its codecs")]
    Fit,
    /// The store refused a call. It is never `StorageError::Memory` nor
    /// `StorageError::InvalidByteRange`.
    #[error("{0}")]
    Storage(StorageError),
    /// What is stored cannot be decoded.
    #[error("what is stored cannot be decoded")]
    Damage,
    /// A codec refused to encode.
    #[error("a codec refuses to encode")]
    Codec,
    /// An offset or a length is too large for where it is written, or the value has 2^63 bytes or
    /// more.
    #[error("a size or an offset is too large")]
    Size,
    /// Memory ran out.
    #[error("out of memory")]
    Memory,
}

impl From<AllocError> for ChunkError {
    ghost from_gives = { λ _ e. e ≡ Memory };

    fn from(_: AllocError) -> ChunkError {
        ChunkError::Memory
    }
}

impl<T: Drop> From<AllocFailed<T>> for ChunkError {
    ghost from_gives = { λ _ e. e ≡ Memory };

    fn from(_: AllocFailed<T>) -> ChunkError {
        ChunkError::Memory
    }
}

/// Why a call over several chunks stopped: of the chunks, in row-major order, the first `applied`
/// have been changed and no other.
#[derive(Debug, Drop)]
pub struct ManyError {
    pub applied: u64,
    pub error: ChunkError,
}
