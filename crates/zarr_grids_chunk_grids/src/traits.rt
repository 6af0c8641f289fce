//! What each chunk grid answers.
ghost use Rattle.std.specs.Prelude.{◌≡◌, ◌<◌, length, map, option_map, IfOk, IfErr, IfSome, IfNone, MatchOption};
ghost use Rattle.zarr_grids_boxes.specs.Boxes.{product};
ghost use Rattle.zarr_grids_boxes.specs.Subsets.{region_of};
ghost use Rattle.zarr_grids_chunks.specs.Grids.{Grid, grid_shape, chunk_box, chunk_indices};
ghost use Rattle.zarr_grids_dimensions.specs.Lookups.{size_of, in_all, chunk_inbounds, place_inbounds};
ghost use Rattle.zarr_grids_dimensions.specs.Chunks.{origin, shape, numbers, FindsChunk, FindsElement};
ghost use Rattle.zarr_grids_dimensions.specs.Chunks.{HasPlacesAmong, FirstOrLastHasNoBox, HasChunksSharing, FirstOrLastLiesNowhere};
ghost use Rattle.zarr_grids_dimensions.specs.Dimensions.{grid_of};
ghost use Rattle.zarr_grids_dimensions.specs.Errors.{Tells};
ghost use Rattle.zarr_grids_chunk_grids.specs.Walks.{chunks_left, subsets_left, dimensions_of_subsets, pairs_left, dimensions_of_pairs};

use crate::box_walks::{ChunkIndicesAndSubsets, ChunkSubsets};
use crate::shapes::positive_chunk_shape;
use crate::walks::ChunkIndices;
use std::alloc::{AllocError, Global};
use zarr_grids_boxes::{ArrayIndices, ArrayShape, ArraySubset, ChunkShape};
use zarr_grids_dimensions::{Dimension, LookupError, boxes, lookups};

/// A chunk grid. A lookup answers `Ok(None)` where there is no such chunk or place, and an error
/// for a chunk or a place of another dimensionality.
pub trait ChunkGridTraits {
    ghost grid: { Self → Grid };

    /// The dimensions of the grid.
    fn dimensions(&self) -> &[Dimension]
        ensures { grid_of result.now ≡ grid self.now };

    /// How many dimensions the grid has.
    final fn dimensionality(&self) -> usize
        ensures { result ≡ length (grid self.now) }
    {
        self.dimensions().len()
    }

    /// The size of the array in each dimension.
    final fn array_shape(&self, alloc: Global) -> Result<ArrayShape, AllocError>
        ensures { IfOk result (λ sizes. sizes.items ≡ map size_of (grid self.now)) }
    {
        lookups::array_shape(alloc, self.dimensions())
    }

    /// How many chunks the array has in each dimension.
    final fn grid_shape(&self, alloc: Global) -> Result<ArrayShape, AllocError>
        ensures { IfOk result (λ counts. counts.items ≡ grid_shape (grid self.now)) }
    {
        lookups::grid_shape(alloc, self.dimensions())
    }

    /// How many places a chunk has in each dimension, which is more than 0, if there is such a
    /// chunk.
    final fn chunk_shape(
        &self,
        alloc: Global,
        chunk: &[u64],
    ) -> Result<Option<ChunkShape>, LookupError>
        ensures found { IfOk result (λ found. found ≡ shape (grid self.now) chunk.now) }
        ensures rank { IfOk result (λ _. length chunk.now ≡ length (grid self.now)) }
        ensures error { IfErr result (Tells (length chunk.now) (length (grid self.now))) }
    {
        positive_chunk_shape(alloc, self.dimensions(), chunk)
    }

    /// How many places a chunk has in each dimension, if there is such a chunk.
    final fn chunk_shape_u64(
        &self,
        alloc: Global,
        chunk: &[u64],
    ) -> Result<Option<ArrayShape>, LookupError>
        ensures found { IfOk result (λ found. numbers found ≡ shape (grid self.now) chunk.now) }
        ensures rank { IfOk result (λ _. length chunk.now ≡ length (grid self.now)) }
        ensures error { IfErr result (Tells (length chunk.now) (length (grid self.now))) }
    {
        lookups::chunk_shape(alloc, self.dimensions(), chunk)
    }

    /// The first place of a chunk, if there is such a chunk and each number is at most 2^64 - 1.
    final fn chunk_origin(
        &self,
        alloc: Global,
        chunk: &[u64],
    ) -> Result<Option<ArrayIndices>, LookupError>
        ensures found { IfOk result (λ found. numbers found ≡ origin (grid self.now) chunk.now) }
        ensures rank { IfOk result (λ _. length chunk.now ≡ length (grid self.now)) }
        ensures error { IfErr result (Tells (length chunk.now) (length (grid self.now))) }
    {
        lookups::chunk_origin(alloc, self.dimensions(), chunk)
    }

    /// The box of a chunk, if there is such a chunk and its end is at most 2^64 - 1 in each
    /// dimension.
    final fn subset(&self, alloc: Global, chunk: &[u64]) -> Result<Option<ArraySubset>, LookupError>
        ensures found { IfOk result
            (λ found. option_map region_of found ≡ chunk_box (grid self.now) chunk.now) }
        ensures rank { IfOk result (λ _. length chunk.now ≡ length (grid self.now)) }
        ensures error { IfErr result (Tells (length chunk.now) (length (grid self.now))) }
    {
        lookups::subset(alloc, self.dimensions(), chunk)
    }

    /// The chunk that a place lies in.
    final fn chunk_indices(
        &self,
        alloc: Global,
        place: &[u64],
    ) -> Result<Option<ArrayIndices>, LookupError>
        ensures found { IfOk result
            (λ found. FindsChunk (grid self.now) place.now (numbers found)) }
        ensures rank { IfOk result (λ _. length place.now ≡ length (grid self.now)) }
        ensures error { IfErr result (Tells (length place.now) (length (grid self.now))) }
    {
        lookups::chunk_indices(alloc, self.dimensions(), place)
    }

    /// Where a place lies in its chunk: the place less the chunk's first place.
    final fn chunk_element_indices(
        &self,
        alloc: Global,
        place: &[u64],
    ) -> Result<Option<ArrayIndices>, LookupError>
        ensures found { IfOk result (FindsElement (grid self.now) place.now) }
        ensures rank { IfOk result (λ _. length place.now ≡ length (grid self.now)) }
        ensures error { IfErr result (Tells (length place.now) (length (grid self.now))) }
    {
        lookups::chunk_element_indices(alloc, self.dimensions(), place)
    }

    /// The places of all chunks of a box of chunk indices, as one box. `None` where the box has a
    /// chunk and its first or its last chunk has no box.
    final fn chunks_subset(
        &self,
        alloc: Global,
        chunks: &ArraySubset,
    ) -> Result<Option<ArraySubset>, LookupError>
        ensures united { IfOk result (λ found. IfSome found
            (λ subset. HasPlacesAmong (grid self.now) (region_of chunks.now) (region_of subset))) }
        ensures missing { IfOk result (λ found. IfNone found
            (FirstOrLastHasNoBox (grid self.now) (region_of chunks.now))) }
        ensures some { IfOk result (λ found. MatchOption found (0 < product chunks.now.shape.items)
            (λ subset. length subset.start.items ≡ length (grid self.now))) }
        ensures rank { IfOk result (λ _. length chunks.now.start.items ≡ length (grid self.now)) }
        ensures error { IfErr result
            (Tells (length chunks.now.start.items) (length (grid self.now))) }
    {
        boxes::chunks_subset(alloc, self.dimensions(), chunks)
    }

    /// The chunks that a box of places intersects, as a box of chunk indices. `None` where the box
    /// has a place and its first or its last place lies in no chunk.
    final fn chunks_in_array_subset(
        &self,
        alloc: Global,
        subset: &ArraySubset,
    ) -> Result<Option<ArraySubset>, LookupError>
        ensures intersecting { IfOk result (λ found. IfSome found
            (λ chunks. HasChunksSharing (grid self.now) (region_of subset.now)
            (region_of chunks))) }
        ensures missing { IfOk result (λ found. IfNone found
            (FirstOrLastLiesNowhere (grid self.now) (region_of subset.now))) }
        ensures some { IfOk result (λ found. MatchOption found (0 < product subset.now.shape.items)
            (λ chunks. length chunks.start.items ≡ length (grid self.now))) }
        ensures rank { IfOk result (λ _. length subset.now.start.items ≡ length (grid self.now)) }
        ensures error { IfErr result
            (Tells (length subset.now.start.items) (length (grid self.now))) }
    {
        boxes::chunks_in_array_subset(alloc, self.dimensions(), subset)
    }

    /// Whether a chunk is in bounds. A dimension with no chunk sets no bound; a chunk of another
    /// dimensionality is out of bounds.
    final fn chunk_indices_inbounds(&self, chunk: &[u64]) -> bool
        ensures { result ≡ in_all chunk_inbounds (grid self.now) chunk.now }
    {
        lookups::chunk_indices_inbounds(self.dimensions(), chunk)
    }

    /// Whether a place lies in the array. A place of another dimensionality does not.
    final fn array_indices_inbounds(&self, place: &[u64]) -> bool
        ensures { result ≡ in_all place_inbounds (grid self.now) place.now }
    {
        lookups::array_indices_inbounds(self.dimensions(), place)
    }

    /// The chunks in the grid, row-major.
    final fn iter_chunk_indices(&self, alloc: Global) -> Result<ChunkIndices, AllocError>
        ensures { IfOk result (λ walk. chunks_left walk ≡ chunk_indices (grid self.now)) }
    {
        ChunkIndices::new(alloc, self.dimensions())
    }

    /// The boxes of the chunks in the grid, row-major. A chunk whose end passes 2^64 - 1 is passed
    /// over.
    final fn iter_chunk_subsets(&self, alloc: Global) -> Result<ChunkSubsets<'_>, AllocError>
        ensures left { IfOk result (λ walk. subsets_left walk ≡ chunk_indices (grid self.now)) }
        ensures grid { IfOk result (λ walk. grid_of (dimensions_of_subsets walk) ≡ grid self.now) }
    {
        ChunkSubsets::new(alloc, self.dimensions())
    }

    /// The chunks in the grid, row-major, each with its box. A chunk whose end passes 2^64 - 1 is
    /// passed over.
    final fn iter_chunk_indices_and_subsets(
        &self,
        alloc: Global,
    ) -> Result<ChunkIndicesAndSubsets<'_>, AllocError>
        ensures left { IfOk result (λ walk. pairs_left walk ≡ chunk_indices (grid self.now)) }
        ensures grid { IfOk result (λ walk. grid_of (dimensions_of_pairs walk) ≡ grid self.now) }
    {
        ChunkIndicesAndSubsets::new(alloc, self.dimensions())
    }
}
