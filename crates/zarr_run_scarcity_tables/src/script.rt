//! The commands of a script at two arrays, and what each one changes.

use crate::tables::{Array, Cells, Keys};
use std::alloc::Global;
use zarr_run::{ArrayBytes, Cause, Command, CommandReader, Reply};
use zarr_scarcity_scripts::Stop;

/// What a line asks of its array.
#[derive(Clone, Copy)]
pub enum Asks {
    Create,
    Reopen,
    /// To write or to erase these cells, by which these keys come or go.
    Put(Cells, Keys),
    /// To read the cells at these places.
    Read(&'static [usize]),
    /// To compact a chunk, which may have gaps.
    Compact { has_gaps: bool },
}

/// A line of a script, and the array that it names.
#[derive(Clone, Copy)]
pub struct Line {
    pub text: &'static str,
    pub array: Array,
    pub asks: Asks,
}

/// The lines of a script, those that open both arrays again and read them, and what reads each
/// whole; and whether all of these have workers.
#[derive(Clone, Copy)]
pub struct Script {
    pub workers: bool,
    pub lines: &'static [Line],
    pub lines_after: &'static [Line],
    pub read_square: Line,
    pub read_row: Line,
    /// The document keys and chunk keys of both arrays.
    pub square: Names,
    pub row: Names,
}

impl Script {
    /// The same script, with workers or without.
    pub fn with_workers(self, workers: bool) -> Script {
        let mut script = self;
        script.workers = workers;
        script
    }
}

/// The keys that an array may have. That of its attributes, which a document of version 2 has, may
/// be left by a refused create.
#[derive(Clone, Copy)]
pub struct Names {
    pub document: &'static str,
    pub attributes: Option<&'static str>,
    pub chunks: &'static [&'static str],
}

/// The command of a line, with workers or without.
pub fn command(alloc: Global, text: &str, workers: bool) -> Result<Command, Stop> {
    match CommandReader::new(alloc, workers).read(text.as_bytes())? {
        Some(command) => Ok(command),
        None => Err(Stop::Other),
    }
}

/// Why a call may be refused at any time: memory ran out, or the store refused.
fn is_chance(cause: Cause) -> bool {
    cause == Cause::Memory || cause == Cause::Store
}

/// How many chunks a reply says were written or erased. `None` stands for a reply that no refusal
/// at any time explains.
pub(crate) fn applied_in(reply: &Reply) -> Option<u64> {
    match reply {
        Reply::Done => Some(u64::MAX),
        Reply::Refused { cause, applied } if is_chance(*cause) => Some(*applied),
        _ => None,
    }
}

pub(crate) fn is_done(reply: &Reply) -> bool {
    matches!(reply, Reply::Done)
}

/// Whether a reply says that a compaction took gaps out, or that there were none.
pub(crate) fn is_compacted(reply: &Reply, has_gaps: bool) -> bool {
    match reply {
        Reply::Compacted(changed) => *changed == has_gaps,
        _ => false,
    }
}

/// Whether a reply gives the cells that stand at these places of a table, each in so many bytes, of
/// which the first is its value.
pub(crate) fn gives_cells(reply: &Reply, table: &[u8], places: &[usize], width: usize) -> bool {
    let Reply::Cells(ArrayBytes::Fixed(bytes)) = reply else {
        return false;
    };
    if width == 0 {
        return false;
    }
    let mut are_same = bytes.len() == places.len().saturating_mul(width);
    for (cell, place) in bytes.chunks(width).zip(places) {
        are_same = are_same && cell.first() == table.get(*place);
        are_same = are_same && cell.iter().skip(1).all(|byte| *byte == 0);
    }
    are_same
}

/// Whether a reply says that it was refused by chance, after whatever change.
pub fn is_refused_by_chance(reply: &Reply) -> bool {
    match reply {
        Reply::Refused { cause, .. } => is_chance(*cause),
        _ => false,
    }
}

/// Whether a reply says that the store refused.
pub fn is_by_store(reply: &Reply) -> bool {
    match reply {
        Reply::Refused { cause, .. } => *cause == Cause::Store,
        _ => false,
    }
}

/// Whether a reply is a refusal with this cause before any chunk.
pub(crate) fn is_refused(reply: &Reply, want: Cause) -> bool {
    match reply {
        Reply::Refused { cause, applied } => *cause == want && *applied == 0,
        _ => false,
    }
}
