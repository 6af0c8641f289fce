//! How a script ends before its end.

use std::alloc::{AllocError, AllocFailed};
use zarr_codecs_arrays::CodecError;
use zarr_grids_boxes::ChunkShapeError;
use zarr_grids_metadata::PluginCreateError;

/// Why a script did not come to its end.
#[derive(Clone, Copy)]
pub enum Stop {
    /// Memory ran out.
    Short,
    /// An answer was another one.
    Other,
}

/// Goes on where the answer was the one that is expected.
pub fn expect(is_expected: bool) -> Result<(), Stop> {
    if is_expected {
        Ok(())
    } else {
        Err(Stop::Other)
    }
}

impl Stop {
    /// Why a script stops at an error.
    pub fn at_error(is_memory: bool) -> Stop {
        if is_memory { Stop::Short } else { Stop::Other }
    }
}

impl From<AllocError> for Stop {
    fn from(_error: AllocError) -> Stop {
        Stop::Short
    }
}

impl<T: Drop> From<AllocFailed<T>> for Stop {
    fn from(_error: AllocFailed<T>) -> Stop {
        Stop::Short
    }
}

impl From<PluginCreateError> for Stop {
    fn from(error: PluginCreateError) -> Stop {
        Stop::at_error(matches!(error, PluginCreateError::Memory))
    }
}

impl From<CodecError> for Stop {
    fn from(error: CodecError) -> Stop {
        Stop::at_error(matches!(error, CodecError::Memory))
    }
}

impl From<ChunkShapeError> for Stop {
    fn from(_error: ChunkShapeError) -> Stop {
        Stop::Other
    }
}
