//! Covered boxes that are read.
ghost use Rattle.std.specs.Prelude.{◌≡◌, [], Some, IsTrue, IfOk, IfErr};
ghost use Rattle.zarr_grids_boxes.specs.Subsets.{region_of};
ghost use Rattle.zarr_grids_chunks.specs.Grids.{IsCovered};
ghost use Rattle.zarr_codecs_meaning.specs.Payloads.{cells_in};
ghost use Rattle.zarr_codecs_arrays.specs.Views.{payload_of};
ghost use Rattle.zarr_array_meaning.specs.ReadBytes.{box_read, most_of_box};
ghost use Rattle.zarr_array_core.specs.Calls.{GivesAtMost};
ghost use Rattle.zarr_array_core.specs.Outcomes.{ReadStops};
ghost use Rattle.zarr_array_core.specs.Views.{document_of, path_of};
ghost use Rattle.zarr_run_boxes.specs.Outcomes.{CountsRead, GivesCovered, CoveredReadRefused, cause_of, most_with};

use crate::refusal::cause_of;
use crate::targets::small_chunks_intersecting;
use std::alloc::Global;
use std::thread::Threads;
use zarr_array_core::{ArrayCore, ChunkRooms, RegionChunks};
use zarr_array_storage::ReadableStorageTraits;
use zarr_codecs_arrays::ArrayBytes;
use zarr_codecs_options::CodecOptions;
use zarr_codecs_traits::ArrayToBytesCodecTraits;
use zarr_grids_boxes::ArraySubset;
use zarr_grids_boxes::walk::count_places;
use zarr_run_meaning::Cause;

/// No cells of an array.
fn no_cells<C: ArrayToBytesCodecTraits>(
    alloc: Global,
    array: &ArrayCore<C>,
) -> Result<ArrayBytes, Cause>
    ensures ok { IfOk result (λ bytes.
        cells_in (document_of C.meaning array.now).elements.type (payload_of bytes) ≡ Some []) }
    ensures err { IfErr result (λ cause. cause ≡ Cause.Memory) }
{
    match ArrayBytes::fill_values(alloc, array.elements(), 0) {
        Ok(bytes) => Ok(bytes),
        Err(_) => Err(Cause::Memory),
    }
}

/// The cells of a covered region, row-major.
pub(crate) fn read_covered<
    R: Threads + Sync,
    C: ArrayToBytesCodecTraits + Sync,
    S: ReadableStorageTraits,
>(
    rt: &R,
    rooms: &mut ChunkRooms,
    array: &ArrayCore<C>,
    store: &mut S,
    region: &ArraySubset,
    options: &CodecOptions,
) -> Result<ArrayBytes, Cause>
    requires covered { IsCovered (document_of C.meaning array.now).grid (region_of region.now) }
    ensures ok { IsTrue (S.is_honest store.old) → IfOk result (λ bytes.
        GivesCovered (path_of array.now) (document_of C.meaning array.now) (S.held store.old)
        (region_of region.now) (payload_of bytes)) }
    ensures err { IsTrue (S.is_honest store.old) → IfErr result
        (CoveredReadRefused (path_of array.now) (document_of C.meaning array.now)
        (S.held store.old) (region_of region.now)) }
    ensures held { S.held store.new ≡ S.held store.old }
    ensures honest { S.is_honest store.new ≡ S.is_honest store.old }
    ensures refused { CountsRead result (S.refused_calls store.old) (S.refused_calls store.new) }
    ensures given { GivesAtMost S.ReadableStorageTraits (most_with result (most_of_box (box_read
        (path_of array.now) (document_of C.meaning array.now) (S.held store.old)
        (region_of region.now) options.now.workers))) store.old store.new }
    ensures accepted { S.accepted_writes store.new ≡ S.accepted_writes store.old }
{
    let alloc = rooms.alloc();
    let Some(count) = count_places(&region.shape) else {
        return Err(Cause::Size);
    };
    if count == 0 {
        return no_cells(alloc, array);
    }
    let chunks = small_chunks_intersecting(alloc, array, region, count)?;
    let target = RegionChunks {
        region,
        chunks: &chunks,
    };
    match array.read_region(rt, rooms, store, target, options) {
        Ok(bytes) => Ok(bytes),
        Err(error) => Err(cause_of(&error)),
    }
}
