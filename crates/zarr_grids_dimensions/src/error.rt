//! Why a lookup cannot answer.
ghost use Rattle.std.specs.Prelude.{◌≡◌};

use std::alloc::AllocError;
use thiserror::Error;

/// A place or a chunk has another dimensionality than the grid.
#[derive(Clone, Copy, Debug, PartialEq, Eq, Error)]
#[error("incompatible dimensionality {got}, expected {expected}")]
pub struct IncompatibleDimensionalityError {
    pub got: usize,
    pub expected: usize,
}

/// Why a lookup cannot answer.
#[derive(Debug, Drop, Error)]
pub enum LookupError {
    /// Another dimensionality than the grid's.
    #[error(transparent)]
    Dimensionality(IncompatibleDimensionalityError),
    /// Memory ran out.
    #[error("out of memory")]
    Memory(AllocError),
}
