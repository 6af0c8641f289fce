//! Chunks of an array read with workers: by several threads.

use crate::samples::{WaitingChain, are_ones, chain};
use crate::waiting_codec::WaitingCodec;
use serde_json::Value;
use std::alloc::Global;
use std::thread::Threads;
use zarr_array_core::{ArrayCore, ChunkRooms};
use zarr_array_metadata::{ArrayDocument, read_document};
use zarr_codecs::{ArrayBytes, ArraySubset, CodecOptions};
use zarr_grids_keys::NodePath;
use zarr_run::{Cause, CommandCells, MemoryStore, ReverseCodec};
use zarr_run_boxes::{CellWrite, read_box, write_box};

/// How many cells the array has, each in a chunk of its own.
const CELLS: usize = 8192;

/// The array's document.
const DOCUMENT: &str =
    r#"{"zarr_format":3,"node_type":"array","shape":[8192],"data_type":"uint8","chunk_grid":{"name":"regular","configuration":{"chunk_shape":[1]}},"chunk_key_encoding":"default","fill_value":0,"codecs":["bytes"]}"#;

/// The array, with codecs whose decoding waits for so many turns at most.
fn waiting_array(alloc: Global, turns: u64) -> Option<ArrayCore<WaitingChain>> {
    let path = NodePath::new(String::from_str(alloc, "/a").ok()?).ok()?;
    let tree = Value::from_str(alloc, DOCUMENT).ok()?;
    let document = read_document::<ReverseCodec>(alloc, &tree).ok()?;
    let ArrayDocument {
        grid,
        keys,
        elements,
        ..
    } = document;
    let codecs = chain(alloc, vec![in alloc; WaitingCodec::new(0, turns)].ok()?);
    Some(ArrayCore::new(path, grid, keys, elements, codecs))
}

/// Writes 1 into each cell, and reads all with these options.
fn read_ones<R: AllocGlobal + Threads + Sync>(
    rt: &R,
    turns: u64,
    workers: bool,
) -> Option<Result<ArrayBytes, Cause>> {
    let alloc = rt.alloc();
    let array = waiting_array(alloc, turns)?;
    let (mut store, mut rooms) = (MemoryStore::new(alloc), ChunkRooms::new(alloc));
    let region = ArraySubset::new_with_ranges(alloc, &[0..CELLS as u64]).ok()?;
    let options = &CodecOptions::default().with_workers(workers);
    let cells = &CommandCells::Bytes(ArrayBytes::Fixed(vec![in alloc; 1u8; CELLS].ok()?));
    let write = CellWrite { cells, options };
    write_box(rt, &mut rooms, &array, &mut store, &region, write).ok()?;
    Some(read_box(rt, &mut rooms, &array, &mut store, &region, options))
}

#[test]
fn chunks_are_decoded_by_several_threads(rt: HostRuntime) {
    let found = read_ones(&rt, 1 << 26, true);
    assert!(rt; matches!(&found, Some(Ok(read)) if are_ones(read, CELLS)));
}

#[test]
fn without_workers_chunks_are_decoded_one_after_another(rt: HostRuntime) {
    let found = read_ones(&rt, 1 << 10, false);
    assert!(rt; matches!(found, Some(Err(Cause::Memory))));
}
