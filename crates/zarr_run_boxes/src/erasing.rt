//! Chunks that commands erase.
ghost use Rattle.zarr_grids_boxes.specs.Boxes.{product};
ghost use Rattle.zarr_grids_boxes.specs.Subsets.{region_of};
ghost use Rattle.zarr_array_core.specs.Arrays.{array_of, IfHonestErr, OnHonestOk};
ghost use Rattle.zarr_run_boxes.specs.Calls.{CalledMany};
ghost use Rattle.zarr_run_boxes.specs.Outcomes.{ErasesTarget, EraseRefused};

use crate::refusal::Refusal;
use crate::targets::has_too_large_chunk;
use std::alloc::Global;
use zarr_array_core::ArrayCore;
use zarr_array_storage::WritableStorageTraits;
use zarr_codecs_traits::ArrayToBytesCodecTraits;
use zarr_grids_boxes::ArraySubset;
use zarr_grids_chunk_grids::ChunkGridTraits;
use zarr_grids_cover::are_in_grid;
use zarr_run_meaning::Cause;

/// Takes the keys of the chunks of a box of chunk indices away, row-major. `Region` where the box
/// has other dimensions than the grid or a chunk that is none in it, `Size` where there are 2^63
/// chunks or more or one of them has as many cells or bytes, `Store` where the store refuses.
pub fn erase_chunks<C: ArrayToBytesCodecTraits, S: WritableStorageTraits>(
    alloc: Global,
    array: &ArrayCore<C>,
    store: &mut S,
    chunks: &ArraySubset,
) -> Result<(), Refusal>
    ensures ok { OnHonestOk S.ReadableStorageTraits store.old store.new result
        (ErasesTarget (array_of C.ArrayToBytesCodecTraits array.now) (region_of chunks.now)) }
    ensures err { IfHonestErr S.ReadableStorageTraits store.old store.new result
        (EraseRefused (array_of C.ArrayToBytesCodecTraits array.now) (region_of chunks.now)) }
    // By at most one writing call for each chunk that is erased.
    ensures store { CalledMany S.ReadableStorageTraits (product chunks.now.shape.items)
        store.old store.new result }
{
    if !are_in_grid(array.grid().dimensions(), chunks) {
        return Err(Refusal::whole(Cause::Region));
    }
    if has_too_large_chunk(array, chunks) {
        return Err(Refusal::whole(Cause::Size));
    }
    match array.erase_region(alloc, store, chunks) {
        Ok(()) => Ok(()),
        Err(stopped) => Err(Refusal::at_chunk(&stopped)),
    }
}
