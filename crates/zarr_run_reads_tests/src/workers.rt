//! Which lines are read with workers, and a read in one of whose threads memory runs out.

use std::alloc::AllocError;
use std::thread::Threads;
use zarr_run::{MemoryStore, ReverseCodec, Session, run_lines};
use zarr_run_fakes::{RefusingCodec, TestStore};
use zarr_run_samples::{DONE, REOPEN, WRITE, has, has_keys, put, talks};

/// Makes an array in four chunks, whose values have to be decoded.
const CREATE: &str =
    r#"{"op":"create","path":"/a","document":{"zarr_format":3,"node_type":"array","shape":[4,4],"data_type":"uint8","chunk_grid":{"name":"regular","configuration":{"chunk_shape":[2,2]}},"chunk_key_encoding":"default","fill_value":0,"codecs":[{"name":"transpose","configuration":{"order":[1,0]}},"bytes"]}}"#;

/// Reads these chunks, whose first is damaged; whether lines that don't say `workers` have it; and
/// how many values are fetched as a whole: with workers all, else none, since `bytes` reads by
/// ranges.
const READS: [(&str, bool, u64); 7] = [
    (
        r#"{"op":"read_box","path":"/a","box":[[0,4],[0,4]]}"#,
        false,
        0,
    ),
    (
        r#"{"op":"read_box","path":"/a","box":[[0,4],[0,4]]}"#,
        true,
        4,
    ),
    (
        r#"{"op":"read_box","path":"/a","box":[[0,4],[0,4]],"options":{"empty":true}}"#,
        true,
        4,
    ),
    (
        r#"{"op":"read_box","path":"/a","box":[[0,4],[0,4]],"options":{"workers":false}}"#,
        true,
        0,
    ),
    (
        r#"{"op":"read_box","path":"/a","box":[[0,4],[0,4]],"options":{"workers":true}}"#,
        false,
        4,
    ),
    (
        r#"{"op":"read_box","path":"\/a","box":[[0,4],[0,4]]}"#,
        true,
        4,
    ),
    (
        r#"{"op":"read_box","path":"\/a","box":[[0,4],[0,4]],"options":{"workers":false}}"#,
        true,
        0,
    ),
];

const ANSWERS: &[u8] = b"{\"done\":true}\n{\"applied\":0,\"refused\":\"Damage\"}\n";

/// A store that holds the array at `/a`, with a value in the first chunk that is too short.
fn damaged<R: AllocGlobal + Threads + Sync>(rt: &R) -> Result<Option<TestStore<true>>, AllocError> {
    let alloc = rt.alloc();
    let store: TestStore<true> = TestStore {
        inner: MemoryStore::new(alloc),
        calls_before: u64::MAX,
        fetches: 0,
        bytes: 0,
        patches: 0,
    };
    let mut session: Session<TestStore<true>, ReverseCodec> = Session::new(alloc, store);
    let is_made = talks(rt, &mut session, &[(CREATE, DONE), (WRITE, DONE)])?;
    let mut store = session.close();
    let is_damaged = put(alloc, &mut store.inner, "a/c/0/0", &[1]);
    store.fetches = 0;
    Ok(if is_made && is_damaged {
        Some(store)
    } else {
        None
    })
}

/// How many values a line fetches of that store, where it is refused for damage.
fn fetched<R: AllocGlobal + Threads + Sync>(
    rt: &R,
    line: &str,
    workers: bool,
) -> Result<Option<u64>, AllocError> {
    let alloc = rt.alloc();
    let Some(store) = damaged(rt)? else {
        return Ok(None);
    };
    let mut session: Session<TestStore<true>, ReverseCodec> = Session::new(alloc, store);
    let text = format!(in alloc; "{REOPEN}\n{line}\n")?;
    let mut output = Vec::new(alloc);
    let ran = run_lines(
        rt,
        alloc,
        &mut session,
        text.as_bytes(),
        &mut output,
        workers,
    );
    let is_answered = ran.is_ok() && output.as_slice() == ANSWERS;
    Ok(is_answered.then_some(session.close().fetches))
}

#[test]
fn a_line_that_does_not_say_workers_has_those_of_the_program(rt: HostRuntime) {
    for (line, workers, count) in READS {
        let found = fetched(&rt, line, workers);
        assert!(rt;
            matches!(found, Ok(Some(n)) if n == count),
            "{workers} {line}"
        );
    }
}

/// An array in three chunks, of which there is no memory to decode the one in the middle, until
/// other cells are written there.
const SHORT: [(&str, &str); 6] = [
    (
        r#"{"op":"create","path":"/a","document":{"zarr_format":3,"node_type":"array","shape":[6],"data_type":"uint8","chunk_grid":{"name":"regular","configuration":{"chunk_shape":[2]}},"chunk_key_encoding":"default","fill_value":0,"codecs":["bytes","x-refuse"]}}"#,
        DONE,
    ),
    (
        r#"{"op":"write_box","path":"/a","box":[[0,6]],"cells":[1,2,9,9,5,6]}"#,
        DONE,
    ),
    (
        r#"{"op":"read_box","path":"/a","box":[[0,6]],"options":{"workers":true}}"#,
        r#"{"applied":0,"refused":"Memory"}"#,
    ),
    (
        r#"{"op":"read_box","path":"/a","box":[[4,6]],"options":{"workers":true}}"#,
        r#"{"cells":[5,6]}"#,
    ),
    (
        r#"{"op":"write_chunk","path":"/a","chunk":[1],"cells":[3,4]}"#,
        DONE,
    ),
    (
        r#"{"op":"read_box","path":"/a","box":[[0,6]],"options":{"workers":true}}"#,
        r#"{"cells":[1,2,3,4,5,6]}"#,
    ),
];

/// Whether a read that has no memory in one of its threads leaves all as it was.
fn stays<R: AllocGlobal + Threads + Sync>(rt: &R) -> Result<bool, AllocError> {
    let alloc = rt.alloc();
    let store = MemoryStore::new(alloc);
    let mut session: Session<MemoryStore, RefusingCodec> = Session::new(alloc, store);
    let is_answered = talks(rt, &mut session, &SHORT)?;
    let mut store = session.close();
    Ok(is_answered && has_keys(&mut store, 4) && has(alloc, &mut store, "a/c/0", &[1, 2]))
}

#[test]
fn want_of_memory_in_a_thread_leaves_the_session_as_it_was(rt: HostRuntime) {
    assert!(rt; matches!(stays(&rt), Ok(true)));
}
