//! Refusals of commands.
ghost use Rattle.std.specs.Prelude.{◌≡◌};
ghost use Rattle.zarr_run_boxes.specs.Outcomes.{cause_of};

use zarr_array_core::{ChunkError, ManyError};
use zarr_run_meaning::Cause;

/// Why a command is refused, and of how many chunks it had made its change before, row-major.
#[derive(Clone, Copy, Debug, PartialEq, Eq)]
pub struct Refusal {
    pub cause: Cause,
    pub applied: u64,
}

impl Refusal {
    ghost use Rattle.std.specs.Prelude.{◌≡◌};
    ghost use Rattle.zarr_run_boxes.specs.Outcomes.{cause_of};

    /// A refusal before any chunk was changed.
    pub(crate) fn whole(cause: Cause) -> Refusal
        ensures { result ≡ record { cause = cause; applied = 0 } }
    {
        Refusal { cause, applied: 0 }
    }

    /// A refusal at a chunk, after those before it were changed.
    pub(crate) fn at_chunk(stopped: &ManyError) -> Refusal
        ensures { result
            ≡ record { cause = cause_of stopped.now.error; applied = stopped.now.applied } }
    {
        Refusal {
            cause: cause_of(&stopped.error),
            applied: stopped.applied,
        }
    }
}

/// The cause of a refusal that an error over a chunk becomes.
pub(crate) fn cause_of(error: &ChunkError) -> Cause
    ensures { result ≡ cause_of error.now }
{
    match error {
        ChunkError::Fit => Cause::Fit,
        ChunkError::Storage(_) => Cause::Store,
        ChunkError::Damage => Cause::Damage,
        ChunkError::Codec => Cause::Codec,
        ChunkError::Size => Cause::Size,
        ChunkError::Memory => Cause::Memory,
    }
}
