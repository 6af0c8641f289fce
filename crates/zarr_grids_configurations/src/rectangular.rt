//! The configuration of `rectangular`.
ghost use Rattle.std.specs.Prelude.{◌≡◌, map, IfOk};
ghost use Rattle.zarr_grids_dimensions.specs.Lookups.{all_positive};
ghost use Rattle.zarr_grids_configurations.specs.Grids.{is_positive};
ghost use Rattle.zarr_grids_configurations.specs.Views.{rectangular_view};

use std::alloc::{AllocError, Global};

/// The edges of the chunks along one dimension of a `rectangular` grid.
#[derive(Debug, PartialEq, Eq, Drop)]
pub enum RectangularChunkGridDimensionConfiguration {
    /// One edge for all chunks, the last of them whole.
    Fixed(u64),
    /// Each chunk's edge.
    Varying(Vec<u64>),
}

/// The configuration of `rectangular`: the edges along each dimension.
#[derive(Debug, PartialEq, Eq, Drop)]
pub struct RectangularChunkGridConfiguration {
    pub chunk_shape: Vec<RectangularChunkGridDimensionConfiguration>,
}

impl RectangularChunkGridDimensionConfiguration {
    /// Whether all edges are positive, and a list has an edge.
    pub fn is_positive(&self) -> bool
        ensures { result ≡ is_positive (rectangular_view self.now) }
    {
        match self {
            RectangularChunkGridDimensionConfiguration::Fixed(edge) => *edge > 0,
            RectangularChunkGridDimensionConfiguration::Varying(edges) => {
                !edges.is_empty() && are_all_positive(edges)
            }
        }
    }

    /// Equal edges, in memory of their own.
    pub fn try_clone(
        &self,
        alloc: Global,
    ) -> Result<RectangularChunkGridDimensionConfiguration, AllocError>
        ensures { IfOk result (λ copy. rectangular_view copy ≡ rectangular_view self.now) }
    {
        match self {
            RectangularChunkGridDimensionConfiguration::Fixed(edge) => {
                Ok(RectangularChunkGridDimensionConfiguration::Fixed(*edge))
            }
            RectangularChunkGridDimensionConfiguration::Varying(edges) => {
                let edges = edges.to_vec(alloc)?;
                Ok(RectangularChunkGridDimensionConfiguration::Varying(edges))
            }
        }
    }
}

/// Equal edges, in memory of their own.
pub fn try_clone_rectangular(
    alloc: Global,
    given: &[RectangularChunkGridDimensionConfiguration],
) -> Result<Vec<RectangularChunkGridDimensionConfiguration>, AllocError>
    ensures { IfOk result
        (λ copy. map rectangular_view copy.items ≡ map rectangular_view given.now) }
{
    let mut copy = Vec::with_capacity(alloc, given.len())?;
    for edges in given {
        copy.push(edges.try_clone(alloc)?)?;
    }
    Ok(copy)
}

fn are_all_positive(edges: &[u64]) -> bool
    ensures { result ≡ all_positive edges.now }
{
    for edge in edges {
        if *edge == 0 {
            return false;
        }
    }
    true
}
