//! How many bytes of the values of chunks a read takes of its store.

use std::alloc::AllocError;
use std::thread::Threads;
use zarr_run::{MemoryStore, ReverseCodec, Session};
use zarr_run_fakes::TestStore;
use zarr_run_samples::{CREATE, DONE, READ, READ_ANSWER, REOPEN, WRITE, put, talks};

/// A session over a store in memory that counts the bytes that it gives.
type CountingSession = Session<TestStore<true>, ReverseCodec>;

/// A store that holds what these lines write, and has given nothing since.
fn written<R: AllocGlobal + Threads + Sync>(
    rt: &R,
    lines: &[(&str, &str)],
) -> Result<Option<TestStore<true>>, AllocError> {
    let alloc = rt.alloc();
    let store: TestStore<true> = TestStore {
        inner: MemoryStore::new(alloc),
        calls_before: u64::MAX,
        fetches: 0,
        bytes: 0,
        patches: 0,
    };
    let mut session: CountingSession = Session::new(alloc, store);
    let is_written = talks(rt, &mut session, lines)?;
    let mut store = session.close();
    store.bytes = 0;
    Ok(if is_written { Some(store) } else { None })
}

/// How many bytes of the chunks of `/a` a store gives for a line that is answered so.
fn given<R: AllocGlobal + Threads + Sync>(
    rt: &R,
    store: TestStore<true>,
    line: &str,
    want: &str,
) -> Result<Option<u64>, AllocError> {
    let mut session: CountingSession = Session::new(rt.alloc(), store);
    let is_answered = talks(rt, &mut session, &[(REOPEN, DONE), (line, want)])?;
    Ok(is_answered.then_some(session.close().bytes))
}

/// Whether each of these reads, after the lines that write, is answered so and takes so many bytes
/// of chunks.
fn takes<R: AllocGlobal + Threads + Sync>(
    rt: &R,
    lines: &[(&str, &str)],
    reads: &[(&str, &str, u64)],
) -> Result<bool, AllocError> {
    for (line, want, count) in reads {
        let Some(store) = written(rt, lines)? else {
            return Ok(false);
        };
        if given(rt, store, line, want)? != Some(*count) {
            return Ok(false);
        }
    }
    Ok(true)
}

/// An array in four chunks, with its middle written.
const MIDDLE: [(&str, &str); 2] = [(CREATE, DONE), (WRITE, DONE)];

/// Two cells of each chunk; one cell; a chunk and a column of another, where workers are asked for.
const MIDDLE_READS: [(&str, &str, u64); 3] = [
    (READ, READ_ANSWER, 8),
    (
        r#"{"op":"read_box","path":"/a","box":[[1,2],[2,3]]}"#,
        r#"{"cells":[2]}"#,
        1,
    ),
    (
        r#"{"op":"read_box","path":"/a","box":[[0,2],[0,3]],"options":{"workers":true}}"#,
        r#"{"cells":[0,0,0,0,1,2]}"#,
        6,
    ),
];

#[test]
fn cells_alone_are_taken_where_nothing_follows_bytes(rt: HostRuntime) {
    assert!(rt; matches!(takes(&rt, &MIDDLE, &MIDDLE_READS), Ok(true)));
}

/// The middle of it written, and then filled, so that no chunk has a value.
const NO_CHUNKS: [(&str, &str); 3] = [
    (CREATE, DONE),
    (WRITE, DONE),
    (
        r#"{"op":"write_box","path":"/a","box":[[1,3],[1,3]],"cells":[0,0,0,0]}"#,
        DONE,
    ),
];

/// All of it.
const NO_CHUNK_READS: [(&str, &str, u64); 2] = [
    (READ, r#"{"cells":[0,0,0,0,0,0,0,0]}"#, 0),
    (
        r#"{"op":"read_box","path":"/a","box":[[0,2],[0,4]],"options":{"workers":true}}"#,
        r#"{"cells":[0,0,0,0,0,0,0,0]}"#,
        0,
    ),
];

#[test]
fn nothing_is_taken_of_chunks_without_values(rt: HostRuntime) {
    assert!(rt; matches!(takes(&rt, &NO_CHUNKS, &NO_CHUNK_READS), Ok(true)));
}

/// An array in one chunk.
const ONE_CHUNK: [(&str, &str); 2] = [
    (
        r#"{"op":"create","path":"/a","document":{"zarr_format":3,"node_type":"array","shape":[4,4],"data_type":"uint8","chunk_grid":{"name":"regular","configuration":{"chunk_shape":[4,4]}},"chunk_key_encoding":"default","fill_value":0,"codecs":["bytes"]},"order":"C"}"#,
        DONE,
    ),
    (
        r#"{"op":"write_chunk","path":"/a","chunk":[0,0],"cells":[0,1,2,3,4,5,6,7,8,9,10,11,12,13,14,15]}"#,
        DONE,
    ),
];

/// Two cells of it, and all.
const ONE_CHUNK_READS: [(&str, &str, u64); 2] = [
    (
        r#"{"op":"read_box","path":"/a","box":[[1,3],[0,1]]}"#,
        r#"{"cells":[4,8]}"#,
        2,
    ),
    (
        r#"{"op":"read_chunk","path":"/a","chunk":[0,0]}"#,
        r#"{"cells":[0,1,2,3,4,5,6,7,8,9,10,11,12,13,14,15]}"#,
        16,
    ),
];

#[test]
fn a_chunk_is_taken_in_part(rt: HostRuntime) {
    assert!(rt; matches!(takes(&rt, &ONE_CHUNK, &ONE_CHUNK_READS), Ok(true)));
}

/// An array in one chunk that is stored column by column.
const TRANSPOSED: [(&str, &str); 2] = [
    (
        r#"{"op":"create","path":"/a","document":{"zarr_format":3,"node_type":"array","shape":[2,3],"data_type":"uint8","chunk_grid":{"name":"regular","configuration":{"chunk_shape":[2,3]}},"chunk_key_encoding":"default","fill_value":0,"codecs":[{"name":"transpose","configuration":{"order":[1,0]}},"bytes"]},"order":"C"}"#,
        DONE,
    ),
    (
        r#"{"op":"write_chunk","path":"/a","chunk":[0,0],"cells":[1,2,3,4,5,6]}"#,
        DONE,
    ),
];

/// A column, which is stored in one stretch, and a row.
const TRANSPOSED_READS: [(&str, &str, u64); 2] = [
    (
        r#"{"op":"read_box","path":"/a","box":[[0,2],[1,2]]}"#,
        r#"{"cells":[2,5]}"#,
        2,
    ),
    (
        r#"{"op":"read_box","path":"/a","box":[[1,2],[0,3]]}"#,
        r#"{"cells":[4,5,6]}"#,
        3,
    ),
];

#[test]
fn cells_alone_are_taken_behind_a_transpose(rt: HostRuntime) {
    assert!(rt; matches!(takes(&rt, &TRANSPOSED, &TRANSPOSED_READS), Ok(true)));
}

/// An array in one chunk whose bytes are reversed.
const REVERSED: [(&str, &str); 2] = [
    (
        r#"{"op":"create","path":"/a","document":{"zarr_format":3,"node_type":"array","shape":[4],"data_type":"uint8","chunk_grid":{"name":"regular","configuration":{"chunk_shape":[4]}},"chunk_key_encoding":"default","fill_value":0,"codecs":["bytes","x-reverse"]},"order":"C"}"#,
        DONE,
    ),
    (
        r#"{"op":"write_chunk","path":"/a","chunk":[0],"cells":[1,2,3,4]}"#,
        DONE,
    ),
];

/// One cell of it, and three.
const REVERSED_READS: [(&str, &str, u64); 2] = [
    (
        r#"{"op":"read_box","path":"/a","box":[[1,2]]}"#,
        r#"{"cells":[2]}"#,
        4,
    ),
    (
        r#"{"op":"read_box","path":"/a","box":[[1,4]]}"#,
        r#"{"cells":[2,3,4]}"#,
        4,
    ),
];

#[test]
fn a_value_is_taken_whole_where_a_codec_follows_bytes(rt: HostRuntime) {
    assert!(rt; matches!(takes(&rt, &REVERSED, &REVERSED_READS), Ok(true)));
}

/// A shard of 2 by 2 subchunks with two slices, the first written later.
const SQUARE: [(&str, &str); 3] = [
    (
        r#"{"op":"create","path":"/a","document":{"zarr_format":3,"node_type":"array","shape":[4,4],"data_type":"uint8","chunk_grid":{"name":"regular","configuration":{"chunk_shape":[4,4]}},"chunk_key_encoding":"default","fill_value":0,"codecs":[{"name":"sharding_indexed","configuration":{"chunk_shape":[2,2],"codecs":["bytes"],"index_codecs":[{"name":"bytes","configuration":{"endian":"little"}}]}}]},"order":"C"}"#,
        DONE,
    ),
    (
        r#"{"op":"write_box","path":"/a","box":[[0,2],[2,4]],"cells":[5,6,7,8]}"#,
        DONE,
    ),
    (
        r#"{"op":"write_box","path":"/a","box":[[0,1],[0,1]],"cells":[9],"options":{"partial":true}}"#,
        DONE,
    ),
];

/// One cell of a slice, without workers and with them; one of no slice; cells of both; all.
const SQUARE_READS: [(&str, &str, u64); 6] = [
    (
        r#"{"op":"read_box","path":"/a","box":[[0,1],[0,1]]}"#,
        r#"{"cells":[9]}"#,
        68,
    ),
    (
        r#"{"op":"read_box","path":"/a","box":[[0,1],[0,1]],"options":{"workers":true}}"#,
        r#"{"cells":[9]}"#,
        68,
    ),
    (
        r#"{"op":"read_box","path":"/a","box":[[3,4],[3,4]]}"#,
        r#"{"cells":[0]}"#,
        64,
    ),
    (
        r#"{"op":"read_box","path":"/a","box":[[0,2],[0,4]]}"#,
        r#"{"cells":[9,0,5,6,0,0,7,8]}"#,
        72,
    ),
    (
        r#"{"op":"read_box","path":"/a","box":[[1,3],[1,4]]}"#,
        r#"{"cells":[0,7,8,0,0,0]}"#,
        72,
    ),
    (
        r#"{"op":"read_chunk","path":"/a","chunk":[0,0]}"#,
        r#"{"cells":[9,0,5,6,0,0,7,8,0,0,0,0,0,0,0,0]}"#,
        72,
    ),
];

#[test]
fn a_shard_gives_its_index_and_the_slices_met(rt: HostRuntime) {
    assert!(rt; matches!(takes(&rt, &SQUARE, &SQUARE_READS), Ok(true)));
}

/// A shard with its index at the start, and a gap where a slice was.
const GAP: [(&str, &str); 3] = [
    (
        r#"{"op":"create","path":"/a","document":{"zarr_format":3,"node_type":"array","shape":[4,4],"data_type":"uint16","chunk_grid":{"name":"regular","configuration":{"chunk_shape":[4,4]}},"chunk_key_encoding":"default","fill_value":0,"codecs":[{"name":"sharding_indexed","configuration":{"chunk_shape":[2,2],"codecs":[{"name":"bytes","configuration":{"endian":"little"}}],"index_codecs":[{"name":"bytes","configuration":{"endian":"little"}}],"index_location":"start"}}]},"order":"C"}"#,
        DONE,
    ),
    (
        r#"{"op":"write_box","path":"/a","box":[[0,4],[0,4]],"cells":[0,1,2,3,4,5,6,7,8,9,10,11,12,13,14,15]}"#,
        DONE,
    ),
    (
        r#"{"op":"write_box","path":"/a","box":[[0,2],[2,4]],"cells":[100,101,102,103],"options":{"partial":true}}"#,
        DONE,
    ),
];

/// One cell; all of the slice that was written later; cells of all four; all.
const GAP_READS: [(&str, &str, u64); 4] = [
    (
        r#"{"op":"read_box","path":"/a","box":[[0,1],[0,1]]}"#,
        r#"{"cells":[0]}"#,
        72,
    ),
    (
        r#"{"op":"read_box","path":"/a","box":[[0,2],[2,4]]}"#,
        r#"{"cells":[100,101,102,103]}"#,
        72,
    ),
    (
        r#"{"op":"read_box","path":"/a","box":[[1,3],[1,3]]}"#,
        r#"{"cells":[5,102,9,10]}"#,
        96,
    ),
    (
        r#"{"op":"read_chunk","path":"/a","chunk":[0,0]}"#,
        r#"{"cells":[0,1,100,101,4,5,102,103,8,9,10,11,12,13,14,15]}"#,
        96,
    ),
];

#[test]
fn a_gap_is_not_taken_with_the_slices(rt: HostRuntime) {
    assert!(rt; matches!(takes(&rt, &GAP, &GAP_READS), Ok(true)));
}

/// Two shards in a shard.
const NESTED: [(&str, &str); 2] = [
    (
        r#"{"op":"create","path":"/a","document":{"zarr_format":3,"node_type":"array","shape":[4,4],"data_type":"uint8","chunk_grid":{"name":"regular","configuration":{"chunk_shape":[4,4]}},"chunk_key_encoding":"default","fill_value":0,"codecs":[{"name":"sharding_indexed","configuration":{"chunk_shape":[2,2],"codecs":[{"name":"sharding_indexed","configuration":{"chunk_shape":[1,2],"codecs":["bytes"],"index_codecs":[{"name":"bytes","configuration":{"endian":"little"}}]}}],"index_codecs":[{"name":"bytes","configuration":{"endian":"little"}}]}}]},"order":"C"}"#,
        DONE,
    ),
    (
        r#"{"op":"write_box","path":"/a","box":[[0,1],[0,4]],"cells":[1,2,3,4]}"#,
        DONE,
    ),
];

/// One cell of an inner shard, which is a slice of the outer one; one of no slice.
const NESTED_READS: [(&str, &str, u64); 2] = [
    (
        r#"{"op":"read_box","path":"/a","box":[[0,1],[0,1]]}"#,
        r#"{"cells":[1]}"#,
        98,
    ),
    (
        r#"{"op":"read_box","path":"/a","box":[[3,4],[3,4]]}"#,
        r#"{"cells":[0]}"#,
        64,
    ),
];

#[test]
fn an_inner_shard_is_a_slice(rt: HostRuntime) {
    assert!(rt; matches!(takes(&rt, &NESTED, &NESTED_READS), Ok(true)));
}

/// Two shards, of 36 bytes each; the second has a gap.
const TWO: [(&str, &str); 3] = [
    (
        r#"{"op":"create","path":"/a","document":{"zarr_format":3,"node_type":"array","shape":[8],"data_type":"uint8","chunk_grid":{"name":"regular","configuration":{"chunk_shape":[4]}},"chunk_key_encoding":"default","fill_value":0,"codecs":[{"name":"sharding_indexed","configuration":{"chunk_shape":[2],"codecs":["bytes"],"index_codecs":[{"name":"bytes","configuration":{"endian":"little"}}]}}]},"order":"C"}"#,
        DONE,
    ),
    (
        r#"{"op":"write_box","path":"/a","box":[[0,8]],"cells":[1,2,3,4,5,6,0,0]}"#,
        DONE,
    ),
    (
        r#"{"op":"write_box","path":"/a","box":[[4,5]],"cells":[7],"options":{"partial":true}}"#,
        DONE,
    ),
];

/// Cells of both; both, slice by slice; both as whole values, with the gap, to be decoded by
/// workers; half of one and all of the other, with workers and without.
const TWO_READS: [(&str, &str, u64); 6] = [
    (
        r#"{"op":"read_box","path":"/a","box":[[3,6]]}"#,
        r#"{"cells":[4,7,6]}"#,
        68,
    ),
    (
        r#"{"op":"read_box","path":"/a","box":[[3,6]],"options":{"workers":true}}"#,
        r#"{"cells":[4,7,6]}"#,
        68,
    ),
    (
        r#"{"op":"read_box","path":"/a","box":[[0,8]]}"#,
        r#"{"cells":[1,2,3,4,7,6,0,0]}"#,
        70,
    ),
    (
        r#"{"op":"read_box","path":"/a","box":[[0,8]],"options":{"workers":true}}"#,
        r#"{"cells":[1,2,3,4,7,6,0,0]}"#,
        72,
    ),
    (
        r#"{"op":"read_box","path":"/a","box":[[2,8]],"options":{"workers":true}}"#,
        r#"{"cells":[3,4,7,6,0,0]}"#,
        70,
    ),
    (
        r#"{"op":"read_box","path":"/a","box":[[2,8]]}"#,
        r#"{"cells":[3,4,7,6,0,0]}"#,
        68,
    ),
];

#[test]
fn each_shard_is_taken_once(rt: HostRuntime) {
    assert!(rt; matches!(takes(&rt, &TWO, &TWO_READS), Ok(true)));
}

/// Makes an array in one shard of two subchunks.
const SHARD: &str =
    r#"{"op":"create","path":"/a","document":{"zarr_format":3,"node_type":"array","shape":[4],"data_type":"uint8","chunk_grid":{"name":"regular","configuration":{"chunk_shape":[4]}},"chunk_key_encoding":"default","fill_value":0,"codecs":[{"name":"sharding_indexed","configuration":{"chunk_shape":[2],"codecs":["bytes"],"index_codecs":[{"name":"bytes","configuration":{"endian":"little"}}]}}]},"order":"C"}"#;

/// A shard whose second pair ends past its end.
const DAMAGED: &[u8] = &[
    1, 2, 0, 0, 0, 0, 0, 0, 0, 0, 2, 0, 0, 0, 0, 0, 0, 0, 100, 0, 0, 0, 0, 0, 0, 0, 2, 0, 0, 0, 0,
    0, 0, 0,
];

/// How many bytes of that shard a line takes that is answered so.
fn given_of_damaged<R: AllocGlobal + Threads + Sync>(
    rt: &R,
    line: &str,
    want: &str,
) -> Result<Option<u64>, AllocError> {
    let Some(mut store) = written(rt, &[(SHARD, DONE)])? else {
        return Ok(None);
    };
    if !put(rt.alloc(), &mut store.inner, "a/c/0", DAMAGED) {
        return Ok(None);
    }
    given(rt, store, line, want)
}

/// Reads the subchunk before the damage.
const READ_FIRST: &str = r#"{"op":"read_box","path":"/a","box":[[0,2]]}"#;

const FIRST_ANSWER: &str = r#"{"cells":[1,2]}"#;

#[test]
fn a_subchunk_is_read_beside_a_damaged_one(rt: HostRuntime) {
    assert!(rt;
        matches!(
            given_of_damaged(&rt, READ_FIRST, FIRST_ANSWER),
            Ok(Some(34))
        )
    );
}

/// Reads a cell of the damaged one.
const READ_DAMAGED: &str = r#"{"op":"read_box","path":"/a","box":[[2,3]]}"#;

const DAMAGE: &str = r#"{"applied":0,"refused":"Damage"}"#;

#[test]
fn nothing_is_taken_for_a_pair_that_ends_past_the_value(rt: HostRuntime) {
    assert!(rt; matches!(given_of_damaged(&rt, READ_DAMAGED, DAMAGE), Ok(Some(32))));
}
