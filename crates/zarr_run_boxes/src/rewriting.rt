//! Arrays that commands rewrite.
ghost use Rattle.std.specs.Prelude.{◌≡◌, ◌<◌, ◌^◌, length, IsTrue, IfOk, OnOk};
ghost use Rattle.zarr_grids_boxes.specs.Boxes.{product};
ghost use Rattle.zarr_grids_boxes.specs.Subsets.{region_of};
ghost use Rattle.zarr_grids_cover.specs.Boxed.{AreBoxed, boxed_chunks};
ghost use Rattle.zarr_array_core.specs.Arrays.{array_of, IfHonestErr, OnHonestOk};
ghost use Rattle.zarr_array_core.specs.Views.{document_of};
ghost use Rattle.zarr_array_meaning.specs.Rewriting.{HasTooLargeKeyed, keyed_chunks};
ghost use Rattle.zarr_array_meaning.specs.StoreMaps.{CountsUpTo};
ghost use Rattle.zarr_run_boxes.specs.Calls.{Called, CalledMany, chunks_done};
ghost use Rattle.zarr_run_boxes.specs.Rewriting.{RewritesTarget, RewriteRefused, WholeRefused};

use crate::refusal::{Refusal, cause_of};
use std::thread::Threads;
use zarr_array_core::{ArrayCore, ChunkRooms};
use zarr_array_storage::{ReadableStorageTraits, WritableStorageTraits};
use zarr_codecs_options::CodecOptions;
use zarr_codecs_traits::ArrayToBytesCodecTraits;
use zarr_grids_boxes::ArraySubset;
use zarr_grids_boxes::walk::count_places;
use zarr_grids_chunk_grids::ChunkGridTraits;
use zarr_grids_cover::chunks_in_grid;
use zarr_run_meaning::Cause;

/// Stores each chunk anew that has a key, row-major: its cells are read and stored whole. `Size`
/// where 2^63 chunks or more have a box, or one that has a key has as many cells or bytes, `Fit`
/// where a chunk does not fit its codecs, `Damage` where its value cannot be decoded, `Store` where
/// the store refuses.
pub fn rewrite<R: Threads + Sync, C: ArrayToBytesCodecTraits + Sync, S: WritableStorageTraits>(
    rt: &R,
    rooms: &mut ChunkRooms,
    array: &ArrayCore<C>,
    store: &mut S,
    options: &CodecOptions,
) -> Result<(), Refusal>
    ensures ok { OnHonestOk S.ReadableStorageTraits store.old store.new result
        (RewritesTarget (array_of C.ArrayToBytesCodecTraits array.now)
        options.now.store_empty_chunks) }
    ensures err { IfHonestErr S.ReadableStorageTraits store.old store.new result
        (RewriteRefused (array_of C.ArrayToBytesCodecTraits array.now)
        options.now.store_empty_chunks) }
    // Over any store, no more writing calls than chunks in the grid, or than applied.
    ensures store { CalledMany S.ReadableStorageTraits
        (length (boxed_chunks (document_of C.meaning array.now).grid))
        store.old store.new result }
    // Over an honest one, at most one writing call for each chunk with a key that is stored anew.
    ensures counts { IsTrue (S.is_honest store.old) → CountsUpTo
        (chunks_done (length (keyed_chunks (array_of C.ArrayToBytesCodecTraits array.now)
        (S.held store.old))) result)
        (S.accepted_writes store.old) (S.accepted_writes store.new) }
{
    let chunks = match chunks_to_rewrite(rooms, array, store) {
        Ok(chunks) => chunks,
        Err(cause) => return Err(Refusal::whole(cause)),
    };
    match array.rewrite(rt, rooms, store, &chunks, options) {
        Ok(()) => Ok(()),
        Err(stopped) => Err(Refusal::at_chunk(&stopped)),
    }
}

/// The chunks in the grid that have a box, as a box of chunk indices, where there are fewer than
/// 2^63 and none that has a key is too large.
fn chunks_to_rewrite<C: ArrayToBytesCodecTraits, S: ReadableStorageTraits>(
    rooms: &mut ChunkRooms,
    array: &ArrayCore<C>,
    store: &mut S,
) -> Result<ArraySubset, Cause>
    ensures all { IfOk result (λ chunks.
        AreBoxed (document_of C.meaning array.now).grid (region_of chunks)) }
    ensures few { IfOk result (λ chunks. product chunks.shape.items < 2 ^ 63) }
    ensures small { OnHonestOk S.ReadableStorageTraits store.old store.new result
        (λ before _. ¬ HasTooLargeKeyed (array_of C.ArrayToBytesCodecTraits array.now) before) }
    ensures err { IfHonestErr S.ReadableStorageTraits store.old store.new result
        (λ cause before _.
        WholeRefused (array_of C.ArrayToBytesCodecTraits array.now) cause before) }
    ensures held { S.held store.new ≡ S.held store.old }
    ensures store { Called S.ReadableStorageTraits 0 store.old store.new result }
{
    let Ok(chunks) = chunks_in_grid(rooms.alloc(), array.grid().dimensions()) else {
        return Err(Cause::Memory);
    };
    if count_places(&chunks.shape).is_none() {
        return Err(Cause::Size);
    }
    match array.has_large_keyed(rooms, store, &chunks) {
        Ok(true) => Err(Cause::Size),
        Ok(false) => Ok(chunks),
        Err(error) => Err(cause_of(&error)),
    }
}
