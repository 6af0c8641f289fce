//! Why a configuration or a grid is refused.
ghost use Rattle.std.specs.Prelude.{◌≡◌};

use std::alloc::AllocError;
use thiserror::Error;
use zarr_grids_dimensions::IncompatibleDimensionalityError;

/// Why a JSON value is refused as a chunk grid.
#[derive(Clone, Copy, Debug, PartialEq, Eq, Error)]
pub enum ConfigurationError {
    /// The value is no extension point.
    #[error("the chunk grid is no extension point")]
    Point,
    /// No chunk grid has the name.
    #[error("the name of the chunk grid is not known")]
    Name,
    /// A member of the configuration is missing, not known or of another form.
    #[error("the configuration of the chunk grid has another form")]
    Form,
    /// An edge or a count is 0, or a list that has to have an edge is empty.
    #[error("an edge of the chunk grid is 0")]
    ZeroEdge,
    #[error("out of memory")]
    Memory,
}

impl From<AllocError> for ConfigurationError {
    ghost use Rattle.zarr_grids_configurations.specs.declared.error.ConfigurationError.TheVariants.{Memory};

    ghost from_gives = { λ _ e. e ≡ Memory };

    fn from(_error: AllocError) -> ConfigurationError {
        ConfigurationError::Memory
    }
}

/// Why a configuration makes no grid of an array's shape.
#[derive(Clone, Copy, Debug, PartialEq, Eq, Error)]
pub enum GridError {
    /// The configuration has another number of dimensions than the array.
    #[error(transparent)]
    Dimensionality(IncompatibleDimensionalityError),
    /// An edge or a count is 0, or a list that has to have an edge is empty.
    #[error("an edge of the chunk grid is 0")]
    ZeroEdge,
    /// The sum of the edges is not the size of the dimension, or less than it.
    #[error("the sum of the edges does not suit the size of the dimension")]
    Sum,
    /// There are more than 2^64 - 1 chunks along a dimension.
    #[error("there are more than 2^64 - 1 chunks along a dimension")]
    TooManyChunks,
    #[error("out of memory")]
    Memory,
}

impl From<AllocError> for GridError {
    ghost use Rattle.zarr_grids_configurations.specs.declared.error.GridError.TheVariants.{Memory};

    ghost from_gives = { λ _ e. e ≡ Memory };

    fn from(_error: AllocError) -> GridError {
        GridError::Memory
    }
}
