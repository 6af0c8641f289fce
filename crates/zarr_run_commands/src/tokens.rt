//! Lines read token by token, whose members are an operation, a path, a box or a chunk, options,
//! and whole numbers for cells, which take eight bytes each.
ghost use Rattle.std.specs.Prelude.{◌≡◌, ℕ, ◌<◌, ◌≤◌, ◌+◌, ◌^◌, ◌∷◌, length, Some, IfOk, IfSome, OnOk, string_bytes, option_and_then, option_map};
ghost use Rattle.std.specs.Str.Parse.{AllDigits, digits_value};
ghost use Rattle.json.specs.Json.{items, members, read_key, value};
ghost use Rattle.json.specs.Token as token;
ghost use Rattle.serde_json.specs.Data.{Data, Members, no_members, number, object, put, unsigned};
ghost use Rattle.serde_json.specs.Find.{as_str};
ghost use Rattle.serde_json.specs.Read.{converted, number_of, of_items, of_json, of_members, read as json_of};
ghost use Rattle.zarr_codecs_json.specs.Numbers.{number_items};
ghost use Rattle.zarr_grids_boxes.specs.Subsets.{region_of};
ghost use Rattle.zarr_run_commands.specs.Lines.{interval_in, operation_named, options_in, region_in, region_of_pairs};
ghost use Rattle.zarr_run_commands.specs.LineCells.{IsLine, number_list, reads};

use crate::cursor::Cursor;
use crate::operation::Operation;
use crate::options::read_options;
use std::alloc::{AllocError, AllocFailed, Global};
use zarr_codecs_options::CodecOptions;
use zarr_grids_boxes::ArraySubset;

/// A list gets room for so many numbers at first.
const FEW_NUMBERS: usize = 16;

/// What the members of a line say, by their names. A member that comes twice counts as the last one
/// of its name.
#[derive(Drop)]
pub(crate) struct Line {
    pub operation: Option<Operation>,
    pub path: Option<String>,
    pub region: Option<ArraySubset>,
    pub chunk: Option<Vec<u64>>,
    pub cells: Option<Vec<u64>>,
    pub options: Option<CodecOptions>,
}

/// Why a line is not read here.
#[derive(Clone, Copy, Debug, Drop)]
pub(crate) enum NotRead {
    Memory,
    /// It has members of other forms, or it is no JSON object.
    Other,
}

impl From<AllocError> for NotRead {
    fn from(_error: AllocError) -> NotRead {
        NotRead::Memory
    }
}

impl<T: Drop> From<AllocFailed<T>> for NotRead {
    fn from(_error: AllocFailed<T>) -> NotRead {
        NotRead::Memory
    }
}

/// The bracket that begins a list.
fn begin_array(reader: &mut Cursor<'_>) -> Result<(), NotRead>
    ensures { OnOk result (reader.old ≡ token.Token.begin_array ∷ reader.new) }
{
    if reader.begin_array() {
        Ok(())
    } else {
        Err(NotRead::Other)
    }
}

/// The next token, where it is a text.
fn next_text<'a>(reader: &mut Cursor<'a>) -> Result<&'a str, NotRead>
    ensures { IfOk result (λ text. reader.old ≡ token.Token.string text.now ∷ reader.new) }
{
    match reader.next_text() {
        Some(text) => Ok(text),
        None => Err(NotRead::Other),
    }
}

/// The next token, where it is a whole number.
#[inline(always)]
fn next_number(reader: &mut Cursor<'_>) -> Result<u64, NotRead>
    ensures ok { IfOk result (λ n. (depth : ℕ) → converted of_json (value depth reader.old)
        ≡ Some (number (unsigned n), reader.new)) }
    ensures shorter { OnOk result (length reader.new < length reader.old) }
{
    match reader.next_number() {
        Some(number) => Ok(number),
        None => Err(NotRead::Other),
    }
}

/// The operation that a text names.
fn read_operation(reader: &mut Cursor<'_>) -> Result<Operation, NotRead>
    ensures ok { IfOk result (λ operation.
        reads (λ d. option_and_then operation_named (as_str d)) reader.old
        ≡ Some (operation, reader.new)) }
    ensures shorter { OnOk result (length reader.new < length reader.old) }
{
    let name = next_text(reader)?;
    match Operation::from_name(name) {
        Some(operation) => Ok(operation),
        None => Err(NotRead::Other),
    }
}

/// A text.
fn read_text(alloc: Global, reader: &mut Cursor<'_>) -> Result<String, NotRead>
    ensures ok { IfOk result
        (λ text. reads as_str reader.old ≡ Some (string_bytes text, reader.new)) }
    ensures shorter { OnOk result (length reader.new < length reader.old) }
{
    let text = next_text(reader)?;
    Ok(String::from_str(alloc, text)?)
}

/// The start and the length of an interval: a list of its start and its end.
fn read_interval(reader: &mut Cursor<'_>) -> Result<(u64, u64), NotRead>
    ensures ok { IfOk result (λ interval.
        converted (λ j. option_and_then interval_in (of_json j)) (value 125 reader.old)
        ≡ Some (interval, reader.new)) }
    ensures fits { IfOk result (λ interval. interval.0 + interval.1 < 2 ^ 64) }
    ensures shorter { OnOk result (length reader.new < length reader.old) }
{
    begin_array(reader)?;
    let start = next_number(reader)?;
    let end = next_number(reader)?;
    if !reader.take_end_array() {
        return Err(NotRead::Other);
    }
    Ok((start, end.saturating_sub(start)))
}

/// The box of the intervals of a list that has begun.
fn read_intervals(alloc: Global, reader: &mut Cursor<'_>) -> Result<ArraySubset, NotRead>
    ensures ok { IfOk result (λ region.
        converted (λ js. option_and_then region_of_pairs (of_items js))
        (items (value 125) (length reader.old) reader.old)
        ≡ Some (region_of region, reader.new)) }
    ensures shorter { OnOk result (length reader.new < length reader.old) }
{
    let mut start = Vec::new(alloc);
    let mut shape = Vec::new(alloc);
    'pairs: while !reader.take_end_array() {
        let (first, size) = read_interval(reader)?;
        start.push(first)?;
        shape.push(size)?;
    }
    Ok(ArraySubset { start, shape })
}

/// A box: a list of intervals.
fn read_region(alloc: Global, reader: &mut Cursor<'_>) -> Result<ArraySubset, NotRead>
    ensures ok { IfOk result
        (λ region. reads region_in reader.old ≡ Some (region_of region, reader.new)) }
    ensures shorter { OnOk result (length reader.new < length reader.old) }
{
    begin_array(reader)?;
    match read_intervals(alloc, reader) {
        Ok(region) => Ok(region),
        Err(error) => Err(error),
    }
}

/// The whole numbers of a list that has begun.
fn read_numbers(alloc: Global, reader: &mut Cursor<'_>) -> Result<Vec<u64>, NotRead>
    ensures ok { IfOk result
        (λ v. converted of_items (items (value 125) (length reader.old) reader.old)
        ≡ Some (number_items v.items, reader.new)) }
    ensures shorter { OnOk result (length reader.new < length reader.old) }
{
    let mut found = Vec::with_capacity(alloc, FEW_NUMBERS)?;
    'items: while !reader.take_end_array() {
        let number = next_number(reader)?;
        found.push(number)?;
    }
    Ok(found)
}

/// A list of whole numbers.
fn read_list(alloc: Global, reader: &mut Cursor<'_>) -> Result<Vec<u64>, NotRead>
    ensures ok { IfOk result
        (λ v. converted of_json (value 126 reader.old)
        ≡ Some (number_list v.items, reader.new)) }
    ensures shorter { OnOk result (length reader.new < length reader.old) }
{
    begin_array(reader)?;
    match read_numbers(alloc, reader) {
        Ok(numbers) => Ok(numbers),
        Err(error) => Err(error),
    }
}

/// Options, with this value of `workers` where they don't give it.
fn next_options(reader: &mut Cursor<'_>, workers: bool) -> Result<CodecOptions, NotRead>
    ensures ok { IfOk result
        (λ options. reads (options_in workers) reader.old ≡ Some (options, reader.new)) }
    ensures shorter { OnOk result (length reader.new < length reader.old) }
{
    match read_options(reader, workers) {
        Some(options) => Ok(options),
        None => Err(NotRead::Other),
    }
}

/// Reads the value of the member with this name into a line.
fn read_member(
    alloc: Global,
    reader: &mut Cursor<'_>,
    name: &str,
    workers: bool,
    line: &mut Line,
) -> Result<(), NotRead>
    ensures ok { OnOk result ((ms : Members) → IsLine workers ms line.old → (d : Data)
        × (converted of_json (value 126 reader.old) ≡ Some (d, reader.new))
        × IsLine workers (put name.now d ms) line.new) }
    ensures shorter { OnOk result (length reader.new < length reader.old) }
{
    match name {
        "op" => line.operation = Some(read_operation(reader)?),
        "path" => line.path = Some(read_text(alloc, reader)?),
        "box" => line.region = Some(read_region(alloc, reader)?),
        "chunk" => line.chunk = Some(read_list(alloc, reader)?),
        "cells" => line.cells = Some(read_list(alloc, reader)?),
        "options" => line.options = Some(next_options(reader, workers)?),
        _ => return Err(NotRead::Other),
    }
    Ok(())
}

/// The next key, or `None` at the brace that ends the object.
fn next_key<'a>(reader: &mut Cursor<'a>) -> Result<Option<&'a str>, NotRead>
    ensures { IfOk result (λ key. read_key reader.old
        ≡ Some (option_map (λ s. s.now) key, reader.new)) }
{
    match reader.next_key() {
        Some(key) => Ok(key),
        None => Err(NotRead::Other),
    }
}

/// The members of an object that has begun.
fn read_members(alloc: Global, reader: &mut Cursor<'_>, workers: bool) -> Result<Line, NotRead>
    ensures { IfOk result (λ line. (ms : Members) × IsLine workers ms line
        × (converted (λ js. of_members js no_members)
        (members (value 126) (length reader.old) reader.old) ≡ Some (ms, reader.new))) }
{
    let mut line = Line {
        operation: None,
        path: None,
        region: None,
        chunk: None,
        cells: None,
        options: None,
    };
    'members: while let Some(name) = next_key(reader)? {
        read_member(alloc, reader, name, workers, &mut line)?;
    }
    Ok(line)
}

/// What the members of the object that a text is say, with this value of `workers` where its
/// options don't give it.
pub(crate) fn read_line(alloc: Global, text: &str, workers: bool) -> Result<Line, NotRead>
    ensures { IfOk result
        (λ line. (ms : Members) × IsLine workers ms line × (json_of text.now ≡ Some (object ms))) }
{
    let mut reader = Cursor::new(text);
    if !reader.begin_object() {
        return Err(NotRead::Other);
    }
    let line = read_members(alloc, &mut reader, workers)?;
    if !reader.is_at_end() {
        return Err(NotRead::Other);
    }
    Ok(line)
}
