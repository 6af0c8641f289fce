//! The configuration of any of the four chunk grids.

use crate::rectangular::RectangularChunkGridConfiguration;
use crate::rectilinear::RectilinearChunkGridConfiguration;
use crate::regular::{RegularBoundedChunkGridConfiguration, RegularChunkGridConfiguration};

/// The four chunk grids.
#[derive(Clone, Copy, Debug, PartialEq, Eq)]
pub enum ChunkGridKind {
    Regular,
    RegularBounded,
    Rectangular,
    Rectilinear,
}

/// The configuration of a chunk grid.
#[derive(Debug, PartialEq, Eq, Drop)]
pub enum GridConfiguration {
    Regular(RegularChunkGridConfiguration),
    RegularBounded(RegularBoundedChunkGridConfiguration),
    Rectangular(RectangularChunkGridConfiguration),
    Rectilinear(RectilinearChunkGridConfiguration),
}
