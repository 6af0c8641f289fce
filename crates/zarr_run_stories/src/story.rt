//! A story: a store, the commands that are run over it, and the store that they leave.

use crate::entries::{append_entry, put_entry};
use crate::refusals::{NO_CALL, refused_call};
use anyhow::{Result, bail};
use std::alloc::Global;
use std::io::{BufRead, BufReader, Read, Write};
use std::thread::Threads;
use zarr_run::{
    MemoryStore, ReadableStorageTraits, RefusingStore, ReverseCodec, Session, StorageError,
    run_lines,
};

/// What stands before the commands: a store, and the option `workers` of those that don't say it.
#[derive(Drop)]
struct Opening {
    store: RefusingStore<MemoryStore>,
    workers: bool,
}

/// Reads the lines before the commands, through the empty line that ends them.
fn read_opening<R: BufRead + Drop>(alloc: Global, reader: &mut R) -> Result<Opening> {
    let mut store = MemoryStore::new(alloc);
    let mut refused = NO_CALL;
    let mut workers = false;
    for line in reader.lines(alloc) {
        let line = line?;
        if line.is_empty() {
            break;
        }
        if line.as_str() == "workers" {
            workers = true;
            continue;
        }
        match refused_call(line.as_str())? {
            Some(call) => refused = call,
            None => put_entry(alloc, &mut store, line.as_str())?,
        }
    }
    let store = RefusingStore::new(store, refused.kind, refused.number);
    Ok(Opening { store, workers })
}

/// The lines of a store's keys.
fn store_lines(alloc: Global, store: &mut MemoryStore) -> Result<String, StorageError> {
    let keys = store.list()?;
    let mut text = String::new(alloc);
    for key in &keys {
        if let Some(value) = store.get(key)? {
            append_entry(alloc, &mut text, key.as_str(), value.as_slice())?;
        }
    }
    Ok(text)
}

/// Runs the story that a reader tells.
pub(crate) fn run_story<H: AllocGlobal + Threads + Sync, R: Read + Drop, W: Write>(
    rt: &H,
    reader: R,
    writer: &mut W,
) -> Result<()> {
    let alloc = rt.alloc();
    let mut reader = BufReader::new(alloc, reader)?;
    let Opening { store, workers } = read_opening(alloc, &mut reader)?;
    let mut session = Session::<RefusingStore<MemoryStore>, ReverseCodec>::new(alloc, store);
    if let Err(fault) = run_lines(rt, alloc, &mut session, reader, writer, workers) {
        bail!("the commands have not been run to their end: {fault:?}");
    }
    let mut store = session.close().into_inner();
    let lines = store_lines(alloc, &mut store)?;
    writer.write_all(b"\n")?;
    writer.write_all(lines.as_bytes())?;
    writer.flush()?;
    Ok(())
}
