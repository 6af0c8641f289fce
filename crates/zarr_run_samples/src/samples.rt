//! Lines, and the commands and answers of lines.

use std::alloc::{AllocError, Global};
use std::thread::Threads;
use zarr_run::{
    BytesToBytesCodecTraits, Command, DataType, MemoryStore, ReadableStorageTraits, Reply,
    ReverseCodec, Session, StoreKey, WritableStorageTraits, push_answer, read_command,
};

/// Creates an array of 4 by 4 zeros in chunks of 2 by 2.
pub const CREATE: &str =
    r#"{"op":"create","path":"/a","document":{"zarr_format":3,"node_type":"array","shape":[4,4],"data_type":"uint8","chunk_grid":{"name":"regular","configuration":{"chunk_shape":[2,2]}},"chunk_key_encoding":{"name":"default"},"fill_value":0,"codecs":["bytes"]}}"#;

/// Writes its middle.
pub const WRITE: &str = r#"{"op":"write_box","path":"/a","box":[[1,3],[1,3]],"cells":[1,2,3,4]}"#;

/// Reads its middle columns.
pub const READ: &str = r#"{"op":"read_box","path":"/a","box":[[0,4],[1,3]]}"#;

/// What that is answered once the middle is written.
pub const READ_ANSWER: &str = r#"{"cells":[0,0,1,2,3,4,0,0]}"#;

/// Reopens it.
pub const REOPEN: &str = r#"{"op":"reopen","path":"/a"}"#;

/// The answer to a command that is done and has nothing to give.
pub const DONE: &str = r#"{"done":true}"#;

/// A session over a store in memory.
pub type MemorySession = Session<MemoryStore, ReverseCodec>;

/// A session over a store in memory that has no key.
pub fn new_session(alloc: Global) -> MemorySession {
    Session::new(alloc, MemoryStore::new(alloc))
}

/// The command of a line. `Err` also where it says none.
pub fn command(alloc: Global, line: &str) -> Result<Command, AllocError> {
    match read_command(alloc, line.as_bytes())? {
        Some(command) => Ok(command),
        None => Err(AllocError),
    }
}

/// Whether a reply about cells of a type, or of no array, is answered by this text.
pub fn is_answered(
    alloc: Global,
    data_type: Option<&DataType>,
    reply: &Reply,
    want: &str,
) -> Result<bool, AllocError> {
    let mut text = Vec::new(alloc);
    push_answer(&mut text, data_type, reply)?;
    Ok(text.as_slice() == want.as_bytes())
}

/// Whether a session answers a command by this text.
pub fn does<
    R: AllocGlobal + Threads + Sync,
    S: WritableStorageTraits,
    B: BytesToBytesCodecTraits + Sync,
>(rt: &R, session: &mut Session<S, B>, command: &Command, want: &str) -> Result<bool, AllocError> {
    let reply = session.step(rt, command);
    is_answered(rt.alloc(), session.data_type_at("/a"), &reply, want)
}

/// Whether a session answers each of these lines so.
pub fn talks<
    R: AllocGlobal + Threads + Sync,
    S: WritableStorageTraits,
    B: BytesToBytesCodecTraits + Sync,
>(rt: &R, session: &mut Session<S, B>, talk: &[(&str, &str)]) -> Result<bool, AllocError> {
    for (line, want) in talk {
        if !does(rt, session, &command(rt.alloc(), line)?, want)? {
            return Ok(false);
        }
    }
    Ok(true)
}

/// Whether a session creates at `/a` an array of four cells in chunks of two, of a data type with a
/// fill value and codecs.
pub fn creates<
    R: AllocGlobal + Threads + Sync,
    S: WritableStorageTraits,
    B: BytesToBytesCodecTraits + Sync,
>(rt: &R, session: &mut Session<S, B>, array: (&str, &str, &str)) -> Result<bool, AllocError> {
    let (data_type, fill, codecs) = array;
    let line = format!(in rt.alloc();
        r#"{{"op":"create","path":"/a","document":{{"zarr_format":3,"node_type":"array","shape":[4],"data_type":"{data_type}","chunk_grid":{{"name":"regular","configuration":{{"chunk_shape":[2]}}}},"chunk_key_encoding":"default","fill_value":{fill},"codecs":{codecs}}}}}"#
    )?;
    talks(rt, session, &[(line.as_str(), DONE)])
}

/// Whether a store has this value at a key.
pub fn has(alloc: Global, store: &mut MemoryStore, key: &str, want: &[u8]) -> bool {
    let Ok(text) = String::from_str(alloc, key) else {
        return false;
    };
    let Ok(key) = StoreKey::new(text) else {
        return false;
    };
    match store.get(&key) {
        Ok(Some(value)) => value.as_slice() == want,
        _ => false,
    }
}

/// Whether a store in memory takes this value at a key.
pub fn put(alloc: Global, store: &mut MemoryStore, key: &str, value: &[u8]) -> bool {
    let Ok(text) = String::from_str(alloc, key) else {
        return false;
    };
    match StoreKey::new(text) {
        Ok(key) => store.set(&key, value).is_ok(),
        Err(_) => false,
    }
}

/// Whether a store has so many keys.
pub fn has_keys(store: &mut MemoryStore, count: usize) -> bool {
    match store.list() {
        Ok(keys) => keys.len() == count,
        Err(_) => false,
    }
}
