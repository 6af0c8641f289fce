//! Chunks that commands compact.
ghost use Rattle.std.specs.Prelude.{IsTrue, IfOk, OnOk, IfErr};
ghost use Rattle.zarr_array_core.specs.Arrays.{array_of, IfHonestErr};
ghost use Rattle.zarr_array_core.specs.Calls.{calls_of};
ghost use Rattle.zarr_array_core.specs.Views.{document_of};
ghost use Rattle.zarr_run_boxes.specs.Calls.{Called};
ghost use Rattle.zarr_run_boxes.specs.Compacting.{CompactsTarget, CompactRefused, IsSmallChunk, SmallChunkRefused};

use crate::refusal::cause_of;
use crate::targets::chunk_region;
use std::alloc::Global;
use std::thread::Threads;
use zarr_array_core::{ArrayCore, ChunkRooms};
use zarr_array_storage::WritableStorageTraits;
use zarr_codecs_options::CodecOptions;
use zarr_codecs_traits::ArrayToBytesCodecTraits;
use zarr_grids_boxes::walk::count_places;
use zarr_run_meaning::Cause;

/// Writes the value of a chunk anew, its shard without gaps: `false` where that changes nothing.
/// `Region` where the chunk is none in the grid or has no box, `Size` where it has 2^63 cells or
/// bytes or more, `Fit` where it has a value and does not fit its codecs, `Damage` where a present
/// slice lies outside its shard's data, `Store` where the store refuses.
pub fn compact<R: Threads + Sync, C: ArrayToBytesCodecTraits + Sync, S: WritableStorageTraits>(
    rt: &R,
    rooms: &mut ChunkRooms,
    array: &ArrayCore<C>,
    store: &mut S,
    chunk: &[u64],
    options: &CodecOptions,
) -> Result<bool, Cause>
    ensures ok { IsTrue (S.is_honest store.old) → IfOk result (λ changed. CompactsTarget
        (array_of C.ArrayToBytesCodecTraits array.now) chunk.now changed
        (S.held store.old) (S.held store.new)) }
    ensures err { IfHonestErr S.ReadableStorageTraits store.old store.new result
        (λ cause before _. CompactRefused (array_of C.ArrayToBytesCodecTraits array.now) chunk.now
        cause before) }
    // By at most one writing call where it changes the chunk, and else by none.
    ensures store { Called S.ReadableStorageTraits (calls_of result) store.old store.new result }
{
    check_small(rooms.alloc(), array, chunk)?;
    match array.compact_chunk(rt, rooms, store, chunk, options) {
        Ok(changed) => Ok(changed),
        Err(error) => Err(cause_of(&error)),
    }
}

/// Refuses a chunk that is none in the grid, or is too large.
fn check_small<C: ArrayToBytesCodecTraits>(
    alloc: Global,
    array: &ArrayCore<C>,
    chunk: &[u64],
) -> Result<(), Cause>
    ensures ok { OnOk result (IsSmallChunk (document_of C.meaning array.now) chunk.now) }
    ensures err { IfErr result (SmallChunkRefused (document_of C.meaning array.now) chunk.now) }
{
    let region = chunk_region(alloc, array, chunk)?;
    let Some(count) = count_places(&region.shape) else {
        return Err(Cause::Size);
    };
    if count >= array.cell_limit() {
        return Err(Cause::Size);
    }
    Ok(())
}
