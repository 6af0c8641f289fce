//! The arrays of the script and their cells, as they are expected.

use crate::script::{
    Asks, Line, Names, Script, applied_in, gives_cells, is_compacted, is_done, is_refused,
};
use zarr_run::{Cause, MemoryStore, ReadableStorageTraits, Reply, StorageError, StoreKey};
use zarr_scarcity_scripts::Stop;

/// An array of a script: one of 4 by 4 in chunks of 2 by 2, with cells of one byte; or one of one
/// dimension, with cells of two.
#[derive(Clone, Copy)]
pub enum Array {
    Square,
    Row,
}

impl Array {
    fn width(self) -> usize {
        match self {
            Array::Square => 1,
            Array::Row => 2,
        }
    }
}

/// Cells that a write puts: the number of the chunk among those that it intersects, the place,
/// row-major, and the cell.
pub type Cells = &'static [(u64, usize, u8)];

/// Chunk keys that come or go: the number of the chunk among those that are met, that of the key,
/// and whether it is there then.
pub type Keys = &'static [(u64, usize, bool)];

/// The cells of all chunks of an array, row-major: the first of them, where there are fewer.
pub(crate) type Table = [u8; 16];

/// The table of an array that is stored, which of its chunks have a key, and whether it is held.
#[derive(Clone, Copy)]
pub(crate) struct Stored {
    table: Table,
    keys: [bool; 4],
    is_held: bool,
}

/// The tables of the arrays that are stored.
#[derive(Clone, Copy)]
pub struct Tables {
    square: Option<Stored>,
    row: Option<Stored>,
}

/// What is stored, once the session is closed that held it.
fn unheld(stored: Option<Stored>) -> Option<Stored> {
    match stored {
        Some(array) => {
            let (table, keys) = (array.table, array.keys);
            Some(Stored {
                table,
                keys,
                is_held: false,
            })
        }
        None => None,
    }
}

/// Puts the cells of the first chunks.
fn put(table: &mut Table, cells: Cells, applied: u64) {
    for (chunk, place, cell) in cells {
        if *chunk < applied {
            if let Some(old) = table.get_mut(*place) {
                *old = *cell;
            }
        }
    }
}

/// Has the keys of the first chunks come or go.
fn put_keys(keys: &mut [bool; 4], changes: Keys, applied: u64) {
    for (chunk, key, is_there) in changes {
        if *chunk < applied {
            if let Some(old) = keys.get_mut(*key) {
                *old = *is_there;
            }
        }
    }
}

/// Whether this is how a line is answered where its array isn't stored. A create that is done holds
/// it.
fn answers_none(stored: &mut Option<Stored>, asks: Asks, reply: &Reply) -> bool {
    match asks {
        Asks::Create => {
            if is_done(reply) {
                *stored = Some(Stored {
                    table: [0; 16],
                    keys: [false; 4],
                    is_held: true,
                });
                return true;
            }
            false
        }
        _ => is_refused(reply, Cause::NoArray),
    }
}

/// Whether this is how a line is answered where its array is stored and not held. A reopening that
/// is done holds it.
fn answers_unheld(stored: &mut Stored, asks: Asks, reply: &Reply) -> bool {
    match asks {
        Asks::Create => is_refused(reply, Cause::PathTaken),
        Asks::Reopen => {
            stored.is_held = true;
            is_done(reply)
        }
        _ => is_refused(reply, Cause::NoArray),
    }
}

/// Whether this is how a line is answered where its array is held. The cells that were put then
/// stand in its table.
fn answers_held(stored: &mut Stored, line: Line, reply: &Reply) -> bool {
    match line.asks {
        Asks::Create => is_refused(reply, Cause::PathTaken),
        Asks::Reopen => is_done(reply),
        Asks::Put(cells, keys) => match applied_in(reply) {
            Some(applied) => {
                put(&mut stored.table, cells, applied);
                put_keys(&mut stored.keys, keys, applied);
                true
            }
            None => false,
        },
        Asks::Read(places) => gives_cells(reply, &stored.table, places, line.array.width()),
        Asks::Compact { has_gaps } => is_compacted(reply, has_gaps),
    }
}

impl Tables {
    /// No array is stored.
    pub fn new() -> Self {
        Tables {
            square: None,
            row: None,
        }
    }

    /// Whether a line is answered as the tables say, or refused for memory or by the store with
    /// just the change that it says. They are then as the line has changed them.
    pub fn answer(&mut self, line: Line, reply: &Reply) -> bool {
        if is_refused(reply, Cause::Memory) || is_refused(reply, Cause::Store) {
            return true;
        }
        let stored = match line.array {
            Array::Square => &mut self.square,
            Array::Row => &mut self.row,
        };
        match stored {
            Some(array) if array.is_held => answers_held(array, line, reply),
            Some(array) => answers_unheld(array, line.asks, reply),
            None => answers_none(stored, line.asks, reply),
        }
    }

    /// Whether a store has the documents and the chunk keys of the arrays that are stored, and no
    /// others.
    pub fn agree_with(&self, script: Script, store: &mut MemoryStore) -> Result<bool, Stop> {
        let found = keys_of(store)?;
        let square = count_keys(found.as_slice(), &self.square, script.square);
        let row = count_keys(found.as_slice(), &self.row, script.row);
        match (square, row) {
            (Some(square), Some(row)) => Ok(square.saturating_add(row) == found.len()),
            _ => Ok(false),
        }
    }

    /// The tables once the session is closed, so that no array is held.
    pub fn closed(self) -> Self {
        Tables {
            square: unheld(self.square),
            row: unheld(self.row),
        }
    }
}

/// The keys of a store.
pub fn keys_of(store: &mut MemoryStore) -> Result<Vec<StoreKey>, Stop> {
    match store.list() {
        Ok(keys) => Ok(keys),
        Err(error) => Err(Stop::at_error(matches!(error, StorageError::Memory))),
    }
}

/// Whether a key is among others.
fn has_key(found: &[StoreKey], name: &str) -> bool {
    for key in found {
        if key.as_str() == name {
            return true;
        }
    }
    false
}

/// How many keys there are of an array among others, if they are those that it has.
fn count_keys(found: &[StoreKey], stored: &Option<Stored>, names: Names) -> Option<usize> {
    match stored {
        Some(array) => count_stored(found, true, &array.keys, names),
        None => {
            let keys = [false; 4];
            count_stored(found, false, &keys, names)
        }
    }
}

/// How many keys there are of an array's attributes, if they may be there or not as they are: they
/// are where its document is.
fn count_attributes(found: &[StoreKey], is_stored: bool, names: Names) -> Option<usize> {
    match names.attributes {
        Some(name) if has_key(found, name) => Some(1),
        Some(_) if is_stored => None,
        _ => Some(0),
    }
}

/// How many keys there are of an array's documents and chunks, if they are just these.
fn count_stored(
    found: &[StoreKey],
    is_stored: bool,
    keys: &[bool; 4],
    names: Names,
) -> Option<usize> {
    let mut are_same = has_key(found, names.document) == is_stored;
    let mut count = count_attributes(found, is_stored, names)?;
    count = count.saturating_add(if is_stored { 1 } else { 0 });
    let mut at: usize = 0;
    for name in names.chunks {
        let is_there = match keys.get(at) {
            Some(is_there) => *is_there,
            None => false,
        };
        are_same = are_same && has_key(found, *name) == is_there;
        count = count.saturating_add(if is_there { 1 } else { 0 });
        at = at.saturating_add(1);
    }
    if are_same { Some(count) } else { None }
}
