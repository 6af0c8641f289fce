//! The boxes that commands mean, and whether they are too large.
ghost use Rattle.std.specs.Prelude.{◌≡◌, ◌<◌, ◌↔◌, IsTrue, IfOk, OnOk, IfErr};
ghost use Rattle.zarr_grids_boxes.specs.Boxes.{product};
ghost use Rattle.zarr_grids_boxes.specs.Subsets.{region_of};
ghost use Rattle.zarr_grids_chunks.specs.Grids.{AreInGrid, IsCovered, IsInGrid};
ghost use Rattle.zarr_grids_cover.specs.Intersecting.{AreIntersecting};
ghost use Rattle.zarr_array_core.specs.Outcomes.{IsSmall};
ghost use Rattle.zarr_array_core.specs.Views.{document_of};
ghost use Rattle.zarr_run_meaning.specs.Causes.{HasTooLargeChunk};
ghost use Rattle.zarr_run_boxes.specs.Outcomes.{ChunkRefused, ChunksRefused};

use std::alloc::Global;
use zarr_array_core::ArrayCore;
use zarr_codecs_traits::ArrayToBytesCodecTraits;
use zarr_grids_boxes::ArraySubset;
use zarr_grids_boxes::walk::count_places;
use zarr_grids_chunk_grids::ChunkGridTraits;
use zarr_grids_cover::{chunks_intersecting, covers, has_chunk_of, is_in_grid};
use zarr_run_meaning::Cause;

/// So many chunks are too many to be erased by one command.
const TOO_MANY: u64 = 1 << 63;

/// Whether a region has the array's dimensions, and each of its places lies in a chunk in the grid.
pub(crate) fn is_covered<C: ArrayToBytesCodecTraits>(
    array: &ArrayCore<C>,
    region: &ArraySubset,
) -> bool
    ensures { IsTrue result
        ↔ IsCovered (document_of C.meaning array.now).grid (region_of region.now) }
{
    covers(array.grid().dimensions(), region)
}

/// The box of a chunk in the grid.
pub(crate) fn chunk_region<C: ArrayToBytesCodecTraits>(
    alloc: Global,
    array: &ArrayCore<C>,
    chunk: &[u64],
) -> Result<ArraySubset, Cause>
    ensures ok { IfOk result (λ region.
        IsInGrid (document_of C.meaning array.now).grid chunk.now (region_of region)) }
    ensures err { IfErr result (ChunkRefused (document_of C.meaning array.now) chunk.now) }
{
    let grid = array.grid().dimensions();
    if !is_in_grid(grid, chunk) {
        return Err(Cause::Region);
    }
    match zarr_grids_cover::chunk_region(alloc, grid, chunk) {
        Ok(region) => Ok(region),
        Err(_) => Err(Cause::Memory),
    }
}

/// Whether a box of chunk indices has 2^63 chunks or more, or one of them is too large.
pub(crate) fn has_too_large_chunk<C: ArrayToBytesCodecTraits>(
    array: &ArrayCore<C>,
    chunks: &ArraySubset,
) -> bool
    requires { AreInGrid (document_of C.meaning array.now).grid (region_of chunks.now) }
    ensures { IsTrue result
        ↔ HasTooLargeChunk (document_of C.meaning array.now) (region_of chunks.now) }
{
    match count_places(&chunks.shape) {
        Some(count) => {
            count >= TOO_MANY || has_chunk_of(array.grid().dimensions(), chunks, array.cell_limit())
        }
        None => true,
    }
}

/// The chunks that a region with some place intersects, as a box of chunk indices, where neither
/// the region nor one of them is too large.
pub(crate) fn small_chunks_intersecting<C: ArrayToBytesCodecTraits>(
    alloc: Global,
    array: &ArrayCore<C>,
    region: &ArraySubset,
    count: u64,
) -> Result<ArraySubset, Cause>
    requires covered { IsCovered (document_of C.meaning array.now).grid (region_of region.now) }
    requires some { 0 < product region.now.shape.items }
    requires count { count ≡ product region.now.shape.items }
    ensures intersecting { IfOk result (λ chunks. AreIntersecting
        (document_of C.meaning array.now).grid (region_of region.now) (region_of chunks)) }
    ensures small { OnOk result
        (IsSmall (document_of C.meaning array.now) (region_of region.now)) }
    ensures err { IfErr result
        (ChunksRefused (document_of C.meaning array.now) (region_of region.now)) }
{
    let limit = array.cell_limit();
    if count >= limit {
        return Err(Cause::Size);
    }
    let grid = array.grid().dimensions();
    let Ok(chunks) = chunks_intersecting(alloc, grid, region) else {
        return Err(Cause::Memory);
    };
    if has_chunk_of(grid, &chunks, limit) {
        return Err(Cause::Size);
    }
    Ok(chunks)
}
