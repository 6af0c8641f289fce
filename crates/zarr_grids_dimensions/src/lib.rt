//! Chunk grids as lists of dimensions (regular, clipped or of varying edges), with every lookup.
#![tactic(auto)]

pub mod boxes;
pub mod dimension;
pub mod equality;
pub mod error;
pub mod fixed;
pub mod interval;
pub mod laws;
pub mod lookups;
pub mod repeat;
mod repeats_left;
mod same_edges;
mod search;
pub mod varying;

pub use dimension::Dimension;
pub use equality::is_same_grid;
pub use error::{IncompatibleDimensionalityError, LookupError};
pub use fixed::{FixedEdge, ZeroEdgeError};
pub use interval::{AddressableInterval, ChunkInterval};
pub use repeat::RepeatedEdge;
pub use varying::{VaryingEdges, VaryingEdgesError};
