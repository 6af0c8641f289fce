//! Boxes and chunks that commands read.
ghost use Rattle.std.specs.Prelude.{◌≡◌, IsTrue, IfOk, IfErr};
ghost use Rattle.zarr_grids_boxes.specs.Subsets.{region_of};
ghost use Rattle.zarr_codecs_arrays.specs.Views.{payload_of};
ghost use Rattle.zarr_run_meaning.specs.Counts.{most_of_target};
ghost use Rattle.zarr_run_meaning.specs.Requests.{in_box, in_chunk};
ghost use Rattle.zarr_array_core.specs.Calls.{GivesAtMost};
ghost use Rattle.zarr_array_core.specs.Views.{document_of, path_of};
ghost use Rattle.zarr_run_boxes.specs.Outcomes.{CountsRead, ReadsTarget, ReadRefused, most_with};

use crate::covered_reading::read_covered;
use crate::targets::{chunk_region, is_covered};
use std::thread::Threads;
use zarr_array_core::{ArrayCore, ChunkRooms};
use zarr_array_storage::ReadableStorageTraits;
use zarr_codecs_arrays::ArrayBytes;
use zarr_codecs_options::CodecOptions;
use zarr_codecs_traits::ArrayToBytesCodecTraits;
use zarr_grids_boxes::ArraySubset;
use zarr_run_meaning::Cause;

/// The cells of a box of places, row-major. `Region` where the box has other dimensions than the
/// array or a place in no chunk, `Size` where it or a chunk that it intersects has 2^63 cells or
/// bytes or more, `Fit` where such a chunk has a value and does not fit its codecs, `Damage` where
/// a place cannot be decoded, `Store` where the store refuses.
pub fn read_box<R: Threads + Sync, C: ArrayToBytesCodecTraits + Sync, S: ReadableStorageTraits>(
    rt: &R,
    rooms: &mut ChunkRooms,
    array: &ArrayCore<C>,
    store: &mut S,
    region: &ArraySubset,
    options: &CodecOptions,
) -> Result<ArrayBytes, Cause>
    ensures ok { IsTrue (S.is_honest store.old) → IfOk result (λ bytes.
        ReadsTarget (path_of array.now) (document_of C.meaning array.now) (S.held store.old)
        (in_box (region_of region.now)) (payload_of bytes)) }
    ensures err { IsTrue (S.is_honest store.old) → IfErr result
        (ReadRefused (path_of array.now) (document_of C.meaning array.now) (S.held store.old)
        (in_box (region_of region.now))) }
    ensures held { S.held store.new ≡ S.held store.old }
    ensures honest { S.is_honest store.new ≡ S.is_honest store.old }
    ensures refused { CountsRead result (S.refused_calls store.old) (S.refused_calls store.new) }
    ensures given { GivesAtMost S.ReadableStorageTraits (most_with result (most_of_target
        (path_of array.now) (document_of C.meaning array.now) (S.held store.old)
        (in_box (region_of region.now)) options.now.workers)) store.old store.new }
    ensures accepted { S.accepted_writes store.new ≡ S.accepted_writes store.old }
{
    if !is_covered(array, region) {
        return Err(Cause::Region);
    }
    read_covered(rt, rooms, array, store, region, options)
}

/// The cells of a chunk, row-major. As `read_box`; `Region` where the chunk is none in the grid or
/// has no box.
pub fn read_chunk<R: Threads + Sync, C: ArrayToBytesCodecTraits + Sync, S: ReadableStorageTraits>(
    rt: &R,
    rooms: &mut ChunkRooms,
    array: &ArrayCore<C>,
    store: &mut S,
    chunk: &[u64],
    options: &CodecOptions,
) -> Result<ArrayBytes, Cause>
    ensures ok { IsTrue (S.is_honest store.old) → IfOk result (λ bytes.
        ReadsTarget (path_of array.now) (document_of C.meaning array.now) (S.held store.old)
        (in_chunk chunk.now) (payload_of bytes)) }
    ensures err { IsTrue (S.is_honest store.old) → IfErr result
        (ReadRefused (path_of array.now) (document_of C.meaning array.now) (S.held store.old)
        (in_chunk chunk.now)) }
    ensures held { S.held store.new ≡ S.held store.old }
    ensures honest { S.is_honest store.new ≡ S.is_honest store.old }
    ensures refused { CountsRead result (S.refused_calls store.old) (S.refused_calls store.new) }
    ensures given { GivesAtMost S.ReadableStorageTraits (most_with result (most_of_target
        (path_of array.now) (document_of C.meaning array.now) (S.held store.old)
        (in_chunk chunk.now) options.now.workers)) store.old store.new }
    ensures accepted { S.accepted_writes store.new ≡ S.accepted_writes store.old }
{
    let region = chunk_region(rooms.alloc(), array, chunk)?;
    read_covered(rt, rooms, array, store, &region, options)
}
