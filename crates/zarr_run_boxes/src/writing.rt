//! Boxes and chunks that commands write.
ghost use Rattle.zarr_grids_boxes.specs.Subsets.{region_of};
ghost use Rattle.zarr_run_meaning.specs.Requests.{in_box, in_chunk};
ghost use Rattle.zarr_array_core.specs.Arrays.{array_of, IfHonestErr, OnHonestOk};
ghost use Rattle.zarr_array_core.specs.Outcomes.{chunks_met};
ghost use Rattle.zarr_array_core.specs.Views.{document_of};
ghost use Rattle.zarr_run_boxes.specs.Asked.{asked_of};
ghost use Rattle.zarr_run_boxes.specs.Calls.{CalledMany};
ghost use Rattle.zarr_run_boxes.specs.Outcomes.{WritesTarget, WriteRefused};

use crate::cell_write::CellWrite;
use crate::covered_writing::write_covered;
use crate::refusal::Refusal;
use crate::targets::{chunk_region, is_covered};
use std::thread::Threads;
use zarr_array_core::{ArrayCore, ChunkRooms};
use zarr_array_storage::WritableStorageTraits;
use zarr_codecs_traits::ArrayToBytesCodecTraits;
use zarr_grids_boxes::ArraySubset;
use zarr_run_meaning::Cause;

/// Writes the cells of a box of places, row-major, chunk by chunk. `Region` where the box has other
/// dimensions than the array or a place in no chunk, `Data` where the cells are not as many values
/// of the array's data type as the box has places, `Size` where it or a chunk that it intersects
/// has 2^63 cells or bytes or more. At a chunk, after those before it were written: `Fit` where it
/// does not fit its codecs, `Damage` where a part of it is to stay and cannot be decoded, `Codec`
/// where a codec refuses to encode, `Size` where its value is too large, `Store` where the store
/// refuses.
pub fn write_box<R: Threads + Sync, C: ArrayToBytesCodecTraits + Sync, S: WritableStorageTraits>(
    rt: &R,
    rooms: &mut ChunkRooms,
    array: &ArrayCore<C>,
    store: &mut S,
    region: &ArraySubset,
    write: CellWrite,
) -> Result<(), Refusal>
    // A chunk is encoded in part only where the store takes ranges of a value.
    ensures ok { OnHonestOk S.ReadableStorageTraits store.old store.new result
        (WritesTarget (array_of C.ArrayToBytesCodecTraits array.now)
        (asked_of S.supports_set_partial (in_box (region_of region.now)) write.entry)) }
    ensures err { IfHonestErr S.ReadableStorageTraits store.old store.new result
        (WriteRefused (array_of C.ArrayToBytesCodecTraits array.now)
        (asked_of S.supports_set_partial (in_box (region_of region.now)) write.entry)) }
    // By at most one writing call for each chunk that is written.
    ensures store { CalledMany S.ReadableStorageTraits (chunks_met
        (document_of C.meaning array.now) (region_of region.now)) store.old store.new result }
{
    if !is_covered(array, region) {
        return Err(Refusal::whole(Cause::Region));
    }
    write_covered(rt, rooms, array, store, region, write)
}

/// Writes the cells of a chunk, row-major. As `write_box`; `Region` where the chunk is none in the
/// grid or has no box.
pub fn write_chunk<R: Threads + Sync, C: ArrayToBytesCodecTraits + Sync, S: WritableStorageTraits>(
    rt: &R,
    rooms: &mut ChunkRooms,
    array: &ArrayCore<C>,
    store: &mut S,
    chunk: &[u64],
    write: CellWrite,
) -> Result<(), Refusal>
    ensures ok { OnHonestOk S.ReadableStorageTraits store.old store.new result
        (WritesTarget (array_of C.ArrayToBytesCodecTraits array.now)
        (asked_of S.supports_set_partial (in_chunk chunk.now) write.entry)) }
    ensures err { IfHonestErr S.ReadableStorageTraits store.old store.new result
        (WriteRefused (array_of C.ArrayToBytesCodecTraits array.now)
        (asked_of S.supports_set_partial (in_chunk chunk.now) write.entry)) }
    ensures store { CalledMany S.ReadableStorageTraits 1 store.old store.new result }
{
    match chunk_region(rooms.alloc(), array, chunk) {
        Ok(region) => write_covered(rt, rooms, array, store, &region, write),
        Err(cause) => Err(Refusal::whole(cause)),
    }
}
