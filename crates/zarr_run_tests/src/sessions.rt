//! Sessions by typed commands, over stores that count or change, and with a codec that refuses.

use std::alloc::{AllocError, Global};
use std::thread::Threads;
use zarr_run::{
    ArrayBytes, ArraySubset, CodecOptions, Command, CommandCells, DataType, MemoryStore,
    ReverseCodec, Session, run_on,
};
use zarr_run_fakes::{RefusingCodec, TestStore};
use zarr_run_samples::{
    CREATE, DONE, MemorySession, READ, READ_ANSWER, REOPEN, WRITE, command, creates, does, has,
    has_keys, is_answered, new_session, talks,
};

/// The codec `bytes` with the highest byte first.
const BIG: &str = r#"[{"name":"bytes","configuration":{"endian":"big"}}]"#;

/// These bytes as the cells of a command.
fn cells_of(alloc: Global, cells: &[u8]) -> Result<CommandCells, AllocError> {
    Ok(CommandCells::Bytes(ArrayBytes::Fixed(cells.to_vec(alloc)?)))
}

/// Writes these bytes into the middle of the array at `/a`, which has four places.
fn write(alloc: Global, cells: &[u8]) -> Result<Command, AllocError> {
    Ok(Command::WriteBox {
        path: String::from_str(alloc, "/a")?,
        region: ArraySubset::new_with_ranges(alloc, &[1..3, 1..3])?,
        cells: cells_of(alloc, cells)?,
        options: CodecOptions::default(),
    })
}

/// Writes these bytes into the first chunk of the array at `/a`.
fn write_first(alloc: Global, cells: &[u8]) -> Result<Command, AllocError> {
    Ok(Command::WriteChunk {
        path: String::from_str(alloc, "/a")?,
        chunk: [0].to_vec(alloc)?,
        cells: cells_of(alloc, cells)?,
        options: CodecOptions::default(),
    })
}

/// Whether commands that are run on a session are answered by these texts, where cells are bytes.
fn does_all<R: AllocGlobal + Threads + Sync>(
    rt: &R,
    session: &mut MemorySession,
    commands: &[Command],
    wants: &[&str],
) -> Result<bool, AllocError> {
    let replies = run_on(rt, rt.alloc(), session, commands)?;
    for (reply, want) in replies.iter().zip(wants) {
        if !is_answered(rt.alloc(), Some(&DataType::UInt8), reply, want)? {
            return Ok(false);
        }
    }
    Ok(replies.len() == wants.len())
}

/// Whether a session runs two commands, then another one, and then none.
fn runs_more<R: AllocGlobal + Threads + Sync>(
    rt: &R,
    session: &mut MemorySession,
) -> Result<bool, AllocError> {
    let alloc = rt.alloc();
    let first = [command(alloc, CREATE)?, write(alloc, &[1, 2, 3, 4])?];
    let second = [command(alloc, READ)?];
    Ok(
        does_all(rt, session, &first, &[DONE, DONE])?
            && does_all(rt, session, &second, &[READ_ANSWER])?
            && does_all(rt, session, &[], &[])?,
    )
}

#[test]
fn more_commands_are_run_on_a_session(rt: HostRuntime) {
    let mut session = new_session(rt.alloc());
    assert!(rt; matches!(runs_more(&rt, &mut session), Ok(true)));
}

/// Data types of cells with one byte or two, fill values, and bytes that are no two cells of them.
const NO_CELLS: [(&str, &str, &[u8]); 7] = [
    ("uint8", "0", &[]),
    ("uint8", "0", &[1]),
    ("uint8", "0", &[1, 2, 3]),
    ("bool", "false", &[1, 2]),
    ("int4", "0", &[0, 8]),
    ("int16", "0", &[1, 0, 2]),
    ("int16", "0", &[1, 0, 2, 0, 3, 0]),
];

/// Whether a session refuses bytes as the first chunk of cells of a type with a fill value.
fn refuses<R: AllocGlobal + Threads + Sync>(
    rt: &R,
    data_type: &str,
    fill: &str,
    bytes: &[u8],
) -> Result<bool, AllocError> {
    let alloc = rt.alloc();
    let (wrote, mut session) = (write_first(alloc, bytes)?, new_session(alloc));
    let is_made = creates(rt, &mut session, (data_type, fill, BIG))?;
    let is_refused = does(
        rt,
        &mut session,
        &wrote,
        r#"{"applied":0,"refused":"Data"}"#,
    )?;
    Ok(is_made && is_refused)
}

#[test]
fn bytes_that_are_no_cells_are_refused(rt: HostRuntime) {
    for (data_type, fill, bytes) in NO_CELLS {
        let refused = refuses(&rt, data_type, fill, bytes);
        assert!(rt; matches!(refused, Ok(true)), "{data_type}");
    }
}

/// Whether typed cells of 16 bits are stored with the highest byte first.
fn are_little_endian<R: AllocGlobal + Threads + Sync>(rt: &R) -> Result<bool, AllocError> {
    let alloc = rt.alloc();
    let (wrote, mut session) = (write_first(alloc, &[1, 0, 251, 255])?, new_session(alloc));
    let is_made = creates(rt, &mut session, ("int16", "0", BIG))?;
    let is_written = does(rt, &mut session, &wrote, DONE)?;
    Ok(is_made && is_written && has(alloc, &mut session.close(), "a/c/0", &[0, 1, 255, 251]))
}

#[test]
fn typed_cells_are_little_endian(rt: HostRuntime) {
    assert!(rt; matches!(are_little_endian(&rt), Ok(true)));
}

/// The codec `bytes`, and one that refuses the bytes 7, 8.
const REFUSING: &str = r#"["bytes","x-refuse"]"#;

/// The second of two chunks is refused. One of fill is not encoded.
const CHUNKS_REFUSED: [(&str, &str); 4] = [
    (
        r#"{"op":"write_box","path":"/a","box":[[0,4]],"cells":[5,6,7,8]}"#,
        r#"{"applied":1,"refused":"Codec"}"#,
    ),
    (
        r#"{"op":"read_box","path":"/a","box":[[0,4]]}"#,
        r#"{"cells":[5,6,0,0]}"#,
    ),
    (
        r#"{"op":"write_chunk","path":"/a","chunk":[1],"cells":[0,0]}"#,
        DONE,
    ),
    (
        r#"{"op":"write_chunk","path":"/a","chunk":[0],"cells":[7,8]}"#,
        r#"{"applied":0,"refused":"Codec"}"#,
    ),
];

/// Whether the first of two chunks is kept, and no other, where the codec refuses the second.
fn keeps_the_first<R: AllocGlobal + Threads + Sync>(rt: &R) -> Result<bool, AllocError> {
    let alloc = rt.alloc();
    let store = MemoryStore::new(alloc);
    let mut session: Session<MemoryStore, RefusingCodec> = Session::new(alloc, store);
    let is_made = creates(rt, &mut session, ("uint8", "0", REFUSING))?;
    let is_refused = talks(rt, &mut session, &CHUNKS_REFUSED)?;
    let mut store = session.close();
    Ok(is_made && is_refused && has_keys(&mut store, 2) && has(alloc, &mut store, "a/c/0", &[5, 6]))
}

#[test]
fn a_codec_that_refuses_a_chunk_keeps_those_before_it(rt: HostRuntime) {
    assert!(rt; matches!(keeps_the_first(&rt), Ok(true)));
}

const CHANGED: &str = r#"{"applied":0,"refused":"DocumentChanged"}"#;

/// A create gets a document of either version, and a reopening the one that is stored.
const CHANGES: [(&str, &str); 4] = [
    (CREATE, DONE),
    (REOPEN, DONE),
    (REOPEN, CHANGED),
    (REOPEN, DONE),
];

/// A session over a store in memory that counts calls, gives so many values as they are, and takes
/// ranges or none.
fn test_session<const TAKES_RANGES: bool>(
    alloc: Global,
    calls_before: u64,
) -> Session<TestStore<TAKES_RANGES>, ReverseCodec> {
    let store: TestStore<TAKES_RANGES> = TestStore {
        inner: MemoryStore::new(alloc),
        calls_before,
        fetches: 0,
        bytes: 0,
        patches: 0,
    };
    Session::new(alloc, store)
}

#[test]
fn a_document_that_changes_is_noticed(rt: HostRuntime) {
    let mut session = test_session::<true>(rt.alloc(), 3);
    assert!(rt; matches!(talks(&rt, &mut session, &CHANGES), Ok(true)));
}

/// Whether there is a type at `/a` once an array is created there, and none before and elsewhere.
fn tells_types<R: AllocGlobal + Threads + Sync>(
    rt: &R,
    session: &mut MemorySession,
) -> Result<bool, AllocError> {
    let none = session.data_type_at("/a").is_none();
    let is_made = talks(rt, session, &[(CREATE, DONE)])?;
    let one = session.data_type_at("/a").is_some() && session.data_type_at("/").is_none();
    Ok(none && is_made && one)
}

#[test]
fn a_session_tells_the_types_of_its_arrays(rt: HostRuntime) {
    let mut session = new_session(rt.alloc());
    assert!(rt; matches!(tells_types(&rt, &mut session), Ok(true)));
}

/// The first write finds no values. The second puts parts into three of them unread, and fetches
/// the fourth, whose chunk becomes all fill.
const TWO_WRITES: [(&str, &str); 3] = [
    (CREATE, DONE),
    (WRITE, DONE),
    (
        r#"{"op":"write_box","path":"/a","box":[[1,3],[1,3]],"cells":[5,6,0,8]}"#,
        DONE,
    ),
];

/// Whether a store has these three chunks and a document.
fn has_chunks(alloc: Global, store: &mut MemoryStore) -> bool {
    has_keys(store, 4)
        && has(alloc, store, "a/c/0/0", &[0, 0, 0, 5])
        && has(alloc, store, "a/c/0/1", &[0, 0, 6, 0])
        && has(alloc, store, "a/c/1/1", &[8, 0, 0, 0])
}

/// How many values are fetched, and how many are written in part, where all is answered and stored.
fn count_calls<R: AllocGlobal + Threads + Sync>(rt: &R) -> Result<Option<(u64, u64)>, AllocError> {
    let alloc = rt.alloc();
    let mut session = test_session::<true>(alloc, u64::MAX);
    let is_done = talks(rt, &mut session, &TWO_WRITES)?;
    let mut store = session.close();
    let is_stored = is_done && has_chunks(alloc, &mut store.inner);
    Ok(is_stored.then_some((store.fetches, store.patches)))
}

#[test]
fn parts_are_written_into_values_that_nobody_reads(rt: HostRuntime) {
    assert!(rt; matches!(count_calls(&rt), Ok(Some((1, 3)))));
}

/// A chunk, and fill that is written over it in two parts.
const FILLED: [(&str, &str); 4] = [
    (CREATE, DONE),
    (
        r#"{"op":"write_chunk","path":"/a","chunk":[0,0],"cells":[1,2,3,4]}"#,
        DONE,
    ),
    (
        r#"{"op":"write_box","path":"/a","box":[[0,1],[0,2]],"cells":[0,0],"options":{"partial":true}}"#,
        DONE,
    ),
    (
        r#"{"op":"write_box","path":"/a","box":[[1,2],[0,2]],"cells":[0,0],"options":{"partial":true}}"#,
        DONE,
    ),
];

#[test]
fn a_chunk_filled_in_parts_keeps_its_key(rt: HostRuntime) {
    let mut session = test_session::<true>(rt.alloc(), u64::MAX);
    assert!(rt; matches!(talks(&rt, &mut session, &FILLED), Ok(true)));
    let mut store = session.close();
    assert!(rt; store.patches == 2 && has_keys(&mut store.inner, 2));
}

#[test]
fn a_store_that_takes_no_ranges_keeps_no_chunk_of_fill(rt: HostRuntime) {
    let mut session = test_session::<false>(rt.alloc(), u64::MAX);
    assert!(rt; matches!(talks(&rt, &mut session, &FILLED), Ok(true)));
    let mut store = session.close();
    assert!(rt; store.patches == 0 && has_keys(&mut store.inner, 1));
}
