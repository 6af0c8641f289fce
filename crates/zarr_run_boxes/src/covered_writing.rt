//! Covered boxes that are written.
ghost use Rattle.std.specs.Prelude.{◌≡◌, List, IfOk, OnOk, IfErr};
ghost use Rattle.serde_json.specs.View.{view};
ghost use Rattle.zarr_grids_boxes.specs.Boxes.{product};
ghost use Rattle.zarr_grids_boxes.specs.Subsets.{region_of};
ghost use Rattle.zarr_grids_chunks.specs.Grids.{IsCovered};
ghost use Rattle.zarr_codecs_arrays.specs.Views.{payload_of};
ghost use Rattle.zarr_codecs_meaning.specs.Payloads.{values_in};
ghost use Rattle.zarr_codecs_meaning.specs.Types.{Cell};
ghost use Rattle.zarr_codecs_types.specs.Given.{given_in, given_json};
ghost use Rattle.zarr_array_core.specs.Arrays.{array_of, IfHonestErr, OnHonestOk};
ghost use Rattle.zarr_array_core.specs.Outcomes.{chunks_met};
ghost use Rattle.zarr_array_core.specs.Views.{document_of};
ghost use Rattle.zarr_run_boxes.specs.Asked.{box_asked, elements_asked};
ghost use Rattle.zarr_run_boxes.specs.Calls.{CalledMany};
ghost use Rattle.zarr_run_boxes.specs.Outcomes.{AreValuesOf, CoveredWriteRefused, ElementsRefused, JsonRefused, WritesCovered};
ghost use Rattle.zarr_run_commands.specs.LineCells.{number_list};

use crate::cell_write::{CellWrite, ElementWrite};
use crate::refusal::Refusal;
use crate::targets::small_chunks_intersecting;
use serde_json::Value;
use std::alloc::Global;
use std::thread::Threads;
use zarr_array_core::{ArrayCore, ChunkRooms, RegionBytes};
use zarr_array_storage::WritableStorageTraits;
use zarr_codecs_arrays::ArrayBytes;
use zarr_codecs_json::{elements_in, elements_of_numbers};
use zarr_codecs_traits::ArrayToBytesCodecTraits;
use zarr_grids_boxes::ArraySubset;
use zarr_grids_boxes::walk::count_places;
use zarr_run_commands::CommandCells;
use zarr_run_meaning::Cause;

/// Writes the cells of a covered region, row-major.
pub(crate) fn write_covered<
    R: Threads + Sync,
    C: ArrayToBytesCodecTraits + Sync,
    S: WritableStorageTraits,
>(
    rt: &R,
    rooms: &mut ChunkRooms,
    array: &ArrayCore<C>,
    store: &mut S,
    region: &ArraySubset,
    write: CellWrite,
) -> Result<(), Refusal>
    requires covered { IsCovered (document_of C.meaning array.now).grid (region_of region.now) }
    ensures ok { OnHonestOk S.ReadableStorageTraits store.old store.new result
        (WritesCovered (array_of C.ArrayToBytesCodecTraits array.now)
        (box_asked S.supports_set_partial (region_of region.now) write.entry)) }
    ensures err { IfHonestErr S.ReadableStorageTraits store.old store.new result
        (CoveredWriteRefused (array_of C.ArrayToBytesCodecTraits array.now)
        (box_asked S.supports_set_partial (region_of region.now) write.entry)) }
    ensures store { CalledMany S.ReadableStorageTraits (chunks_met
        (document_of C.meaning array.now) (region_of region.now)) store.old store.new result }
{
    let alloc = rooms.alloc();
    let CellWrite { cells, options } = write;
    match cells {
        CommandCells::Bytes(elements) => {
            let write = ElementWrite { elements, options };
            write_elements(rt, rooms, array, store, region, write)
        }
        CommandCells::Json(value) => match json_elements(alloc, array, value) {
            Ok(bytes) => {
                let elements = &bytes;
                let write = ElementWrite { elements, options };
                write_elements(rt, rooms, array, store, region, write)
            }
            Err(cause) => Err(Refusal::whole(cause)),
        },
        CommandCells::Numbers(numbers) => match number_elements(alloc, array, numbers.as_slice()) {
            Ok(bytes) => {
                let elements = &bytes;
                let write = ElementWrite { elements, options };
                write_elements(rt, rooms, array, store, region, write)
            }
            Err(cause) => Err(Refusal::whole(cause)),
        },
    }
}

/// The elements of the array's data type that a JSON list says: `Data` where it is no list, or one
/// of its values says no element.
fn json_elements<C: ArrayToBytesCodecTraits>(
    alloc: Global,
    array: &ArrayCore<C>,
    value: &Value,
) -> Result<ArrayBytes, Cause>
    ensures ok { IfOk result (λ bytes.
        given_in (document_of C.meaning array.now).elements.type (given_json (view value.now))
        ≡ values_in (document_of C.meaning array.now).elements.type (payload_of bytes)) }
    ensures err { IfErr result (JsonRefused
        (document_of C.meaning array.now).elements.type (view value.now)) }
{
    let Some(values) = value.as_array() else {
        return Err(Cause::Data);
    };
    match elements_in(alloc, array.elements().data_type(), values.as_slice()) {
        Ok(Some(elements)) => Ok(elements),
        Ok(None) => Err(Cause::Data),
        Err(_) => Err(Cause::Memory),
    }
}

/// The elements of the array's data type that whole numbers say, as a JSON list of them does.
fn number_elements<C: ArrayToBytesCodecTraits>(
    alloc: Global,
    array: &ArrayCore<C>,
    numbers: &[u64],
) -> Result<ArrayBytes, Cause>
    ensures ok { IfOk result (λ bytes. given_in (document_of C.meaning array.now).elements.type
        (given_json (number_list numbers.now))
        ≡ values_in (document_of C.meaning array.now).elements.type (payload_of bytes)) }
    ensures err { IfErr result (JsonRefused (document_of C.meaning array.now).elements.type
        (number_list numbers.now)) }
{
    match elements_of_numbers(alloc, array.elements().data_type(), numbers) {
        Ok(Some(elements)) => Ok(elements),
        Ok(None) => Err(Cause::Data),
        Err(_) => Err(Cause::Memory),
    }
}

/// How many places a region has, where elements are as many values of the array's data type. `Data`
/// where they aren't.
fn count_values<C: ArrayToBytesCodecTraits>(
    array: &ArrayCore<C>,
    region: &ArraySubset,
    elements: &ArrayBytes,
) -> Result<u64, Cause>
    ensures count { IfOk result (λ count. count ≡ product region.now.shape.items) }
    ensures values { OnOk result ((values : List Cell)
        × AreValuesOf (document_of C.meaning array.now) (region_of region.now)
        (payload_of elements.now) values) }
    ensures err { IfErr result (ElementsRefused (document_of C.meaning array.now)
        (region_of region.now) (payload_of elements.now)) }
{
    let data_type = array.elements().data_type();
    let Some(given) = elements.num_elements(data_type) else {
        return Err(Cause::Data);
    };
    let Some(count) = count_places(&region.shape) else {
        return Err(Cause::Data);
    };
    if given as u64 != count || elements.validate(data_type, count).is_err() {
        return Err(Cause::Data);
    }
    Ok(count)
}

/// Writes elements to a covered region, row-major.
fn write_elements<R: Threads + Sync, C: ArrayToBytesCodecTraits + Sync, S: WritableStorageTraits>(
    rt: &R,
    rooms: &mut ChunkRooms,
    array: &ArrayCore<C>,
    store: &mut S,
    region: &ArraySubset,
    write: ElementWrite,
) -> Result<(), Refusal>
    requires covered { IsCovered (document_of C.meaning array.now).grid (region_of region.now) }
    ensures ok { OnHonestOk S.ReadableStorageTraits store.old store.new result
        (WritesCovered (array_of C.ArrayToBytesCodecTraits array.now)
        (elements_asked S.supports_set_partial (region_of region.now) write.entry)) }
    ensures err { IfHonestErr S.ReadableStorageTraits store.old store.new result
        (CoveredWriteRefused (array_of C.ArrayToBytesCodecTraits array.now)
        (elements_asked S.supports_set_partial (region_of region.now) write.entry)) }
    ensures store { CalledMany S.ReadableStorageTraits (chunks_met
        (document_of C.meaning array.now) (region_of region.now)) store.old store.new result }
{
    let ElementWrite { elements, options } = write;
    let count = match count_values(array, region, elements) {
        Ok(0) => return Ok(()),
        Ok(count) => count,
        Err(cause) => return Err(Refusal::whole(cause)),
    };
    let chunks = match small_chunks_intersecting(rooms.alloc(), array, region, count) {
        Ok(chunks) => chunks,
        Err(cause) => return Err(Refusal::whole(cause)),
    };
    let target = RegionBytes {
        region,
        chunks: &chunks,
        bytes: elements,
    };
    match array.write_region(rt, rooms, store, target, options) {
        Ok(()) => Ok(()),
        Err(stopped) => Err(Refusal::at_chunk(&stopped)),
    }
}
