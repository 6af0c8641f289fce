//! The four chunk grids of Zarr: `regular`, `regular_bounded`, `rectangular` and `rectilinear`.
#![tactic(auto)]

pub mod box_walks;
pub mod chunk_grid;
mod create;
pub mod laws;
pub mod rectangular;
pub mod rectilinear;
pub mod regular;
pub mod regular_bounded;
pub mod shapes;
pub mod traits;
pub mod walks;

pub use box_walks::{ChunkIndicesAndSubsets, ChunkSubsets};
pub use chunk_grid::ChunkGrid;
pub use rectangular::{RectangularChunkGrid, RectangularChunkGridCreateError};
pub use rectilinear::{RectilinearChunkGrid, RectilinearChunkGridCreateError};
pub use regular::{RegularChunkGrid, RegularChunkGridCreateError};
pub use regular_bounded::{RegularBoundedChunkGrid, RegularBoundedChunkGridCreateError};
pub use traits::ChunkGridTraits;
pub use walks::ChunkIndices;
