//! The configurations of the four chunk grids, and the dimensions that they make of an array's
//! shape.
#![tactic(auto)]

pub mod configuration;
pub mod dimensions;
pub mod error;
pub mod laws;
pub mod numbers;
pub mod reading;
pub mod rectangular;
pub mod rectilinear;
pub mod regular;
pub mod to_json;

pub use configuration::{ChunkGridKind, GridConfiguration};
pub use error::{ConfigurationError, GridError};
pub use reading::{
    read_chunk_shape, read_configuration, read_configuration_of_kind, read_rectangular,
    read_rectilinear,
};
pub use rectangular::{
    RectangularChunkGridConfiguration, RectangularChunkGridDimensionConfiguration,
    try_clone_rectangular,
};
pub use rectilinear::{
    ChunkEdgeLengths, RectilinearChunkGridConfiguration, RunLengthElement, try_clone_rectilinear,
};
pub use regular::{RegularBoundedChunkGridConfiguration, RegularChunkGridConfiguration};
pub use to_json::{rectangular_to_json, rectilinear_to_json, regular_to_json};
