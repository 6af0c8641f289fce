//! Laws of chunks and boxes, for every grid. Each function does nothing: its contract is the law.
ghost use Rattle.zarr_grids_cover.specs.Laws.{ChunksIntersectingCover, ChunkCovered, ChunkIntersectingAlone, ChunksApart};

/// Each place of a covered box lies in one of the chunks that it intersects.
pub fn chunks_intersecting_cover()
    ensures { ChunksIntersectingCover }
{}

/// The box of a chunk in the grid is covered, also where it ends past the array.
pub fn chunk_covered()
    ensures { ChunkCovered }
{}

/// The box of a chunk in the grid intersects that chunk and no other.
pub fn chunk_intersecting_alone()
    ensures { ChunkIntersectingAlone }
{}

/// The boxes of two chunks share no place. With `chunks_intersecting_cover`, the chunks that a
/// covered box intersects partition it.
pub fn chunks_apart()
    ensures { ChunksApart }
{}
