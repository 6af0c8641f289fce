//! The fields of a line that are not taken as they stand.
ghost use Rattle.std.specs.Prelude.{◌≡◌, ◌+◌, ◌^◌, ◌<◌, IfOk, IfSome, option_map};
ghost use Rattle.serde_json.specs.Find.{as_bool};
ghost use Rattle.serde_json.specs.View.{view, items_view, members_view};
ghost use Rattle.zarr_grids_boxes.specs.Subsets.{region_of};
ghost use Rattle.zarr_grids_configurations.specs.Numbers.{sizes_of};
ghost use Rattle.zarr_run_commands.specs.Lines.{order_named, order_of, optional, no_options, options_of, line_options_of, interval_of, interval_in, region_of_pairs, box_of, chunk_of};

use serde_json::{Map, Value};
use std::alloc::{AllocError, Global};
use zarr_codecs_options::{CodecOptions, SubchunkWriteOrder};
use zarr_grids_boxes::ArraySubset;
use zarr_grids_metadata::{has_only, member};

/// The write order of a line, `Unordered` where it has none.
pub(crate) fn order(line: &Map<String, Value>) -> Option<SubchunkWriteOrder>
    ensures { result ≡ order_of (members_view line.now.entries) }
{
    match member(line, "order") {
        Some(order) => order_from_name(order.as_str()?),
        None => Some(SubchunkWriteOrder::Unordered),
    }
}

fn order_from_name(name: &str) -> Option<SubchunkWriteOrder>
    ensures { result ≡ order_named name.now }
{
    match name {
        "C" => Some(SubchunkWriteOrder::C),
        "Unordered" => Some(SubchunkWriteOrder::Unordered),
        "Random" => Some(SubchunkWriteOrder::Random),
        _ => None,
    }
}

/// The options of a line: one that it doesn't give is false, but `workers`, which has this value.
pub(crate) fn options(line: &Map<String, Value>, workers: bool) -> Option<CodecOptions>
    ensures { result ≡ line_options_of workers (members_view line.now.entries) }
{
    match member(line, "options") {
        Some(options) => read_options(options.as_object()?, workers),
        None => Some(no_options(workers)),
    }
}

/// The options of a line that gives none: all are false but `workers`, which has this value.
pub(crate) fn no_options(workers: bool) -> CodecOptions
    ensures { result ≡ no_options workers }
{
    CodecOptions {
        store_empty_chunks: false,
        experimental_partial_encoding: false,
        workers,
    }
}

fn read_options(options: &Map<String, Value>, workers: bool) -> Option<CodecOptions>
    ensures { result ≡ options_of workers (members_view options.now.entries) }
{
    if !has_only(options, &["partial", "empty", "workers"]) {
        return None;
    }
    Some(CodecOptions {
        experimental_partial_encoding: read_flag(options, "partial", false)?,
        store_empty_chunks: read_flag(options, "empty", false)?,
        workers: read_flag(options, "workers", workers)?,
    })
}

fn read_flag(options: &Map<String, Value>, name: &str, absent: bool) -> Option<bool>
    ensures { result ≡ optional as_bool absent name.now (members_view options.now.entries) }
{
    match member(options, name) {
        Some(value) => value.as_bool(),
        None => Some(absent),
    }
}

/// The box of a line.
pub(crate) fn region(
    alloc: Global,
    line: &Map<String, Value>,
) -> Result<Option<ArraySubset>, AllocError>
    ensures { IfOk result (λ found.
        option_map region_of found ≡ box_of (members_view line.now.entries)) }
{
    match member(line, "box") {
        Some(Value::Array(pairs)) => read_region(alloc, pairs.as_slice()),
        _ => Ok(None),
    }
}

fn read_region(alloc: Global, pairs: &[Value]) -> Result<Option<ArraySubset>, AllocError>
    ensures { IfOk result (λ found.
        option_map region_of found ≡ region_of_pairs (items_view pairs.now)) }
{
    let mut start = Vec::with_capacity(alloc, pairs.len())?;
    let mut shape = Vec::with_capacity(alloc, pairs.len())?;
    for pair in pairs {
        let Some((first, size)) = read_interval(pair) else {
            return Ok(None);
        };
        start.push(first)?;
        shape.push(size)?;
    }
    Ok(Some(ArraySubset { start, shape }))
}

/// Where an interval starts and how long it is.
fn read_interval(interval: &Value) -> Option<(u64, u64)>
    ensures value { result ≡ interval_in (view interval.now) }
    ensures fits { IfSome result (λ interval. interval.0 + interval.1 < 2 ^ 64) }
{
    read_pair(interval.as_array()?.as_slice())
}

fn read_pair(pair: &[Value]) -> Option<(u64, u64)>
    ensures value { result ≡ interval_of (items_view pair.now) }
    ensures fits { IfSome result (λ interval. interval.0 + interval.1 < 2 ^ 64) }
{
    let [start, end] = pair else {
        return None;
    };
    let start = start.as_u64()?;
    let end = end.as_u64()?;
    Some((start, end.saturating_sub(start)))
}

/// The indices of the chunk of a line.
pub(crate) fn chunk(
    alloc: Global,
    line: &Map<String, Value>,
) -> Result<Option<Vec<u64>>, AllocError>
    ensures { IfOk result (λ found.
        option_map (λ v. v.items) found ≡ chunk_of (members_view line.now.entries)) }
{
    match member(line, "chunk") {
        Some(Value::Array(indices)) => read_indices(alloc, indices.as_slice()),
        _ => Ok(None),
    }
}

fn read_indices(alloc: Global, indices: &[Value]) -> Result<Option<Vec<u64>>, AllocError>
    ensures { IfOk result (λ found.
        option_map (λ v. v.items) found ≡ sizes_of (items_view indices.now)) }
{
    let mut chunk = Vec::with_capacity(alloc, indices.len())?;
    for index in indices {
        let Some(index) = index.as_u64() else {
            return Ok(None);
        };
        chunk.push(index)?;
    }
    Ok(Some(chunk))
}
