//! Calls of a store that may refuse one, and what they answer.

use std::alloc::Global;
use zarr_array_storage::{
    ByteRange, MemoryStore, ReadableStorageTraits, RefusingStore, StorageError, ValuePatch,
    WritableStorageTraits,
};
use zarr_grids_keys::StoreKey;

pub(crate) type Store = RefusingStore<MemoryStore>;

/// A call of a store at a key, and then what is read.
#[derive(Clone, Copy)]
pub(crate) enum Call<'x> {
    Get(Option<&'x [u8]>),
    Size(Option<u64>),
    /// Reads ranges, for each its offset and its length.
    Ranges(&'x [(u64, u64)], Option<&'x [&'x [u8]]>),
    /// Lists all keys, whatever the key.
    List(&'x [&'x str]),
    Set(&'x [u8]),
    /// Writes bytes in part, for each where they start.
    Write(&'x [(u64, &'x [u8])]),
    Erase,
}

/// How a call ends.
#[derive(Clone, Copy)]
pub(crate) enum End {
    /// It is done, and what was read is as said.
    Done,
    /// The store refuses it.
    Io,
    /// A range is refused.
    Range,
}

/// A key, a call at it, and how it ends.
pub(crate) type KeyedCall<'x> = (&'x str, Call<'x>, End);

pub(crate) fn key(alloc: Global, text: &str) -> Result<StoreKey, StorageError> {
    match StoreKey::new(String::from_str(alloc, text)?) {
        Ok(key) => Ok(key),
        Err(_) => Err(StorageError::InvalidKey),
    }
}

/// Whether a store has this value at a key, or none.
pub(crate) fn gets<S: ReadableStorageTraits>(
    store: &mut S,
    key: &StoreKey,
    want: Option<&[u8]>,
) -> Result<bool, StorageError> {
    match (store.get(key)?, want) {
        (Some(value), Some(bytes)) => Ok(value.as_slice() == bytes),
        (found, _) => Ok(found.is_none() && want.is_none()),
    }
}

/// Whether values are these, in this order.
fn are(found: &[Vec<u8>], want: &[&[u8]]) -> bool {
    for (value, bytes) in found.iter().zip(want) {
        if value.as_slice() != *bytes {
            return false;
        }
    }
    found.len() == want.len()
}

/// Whether ranges of the value at a key are these, or there is no value.
fn reads(
    alloc: Global,
    store: &mut Store,
    key: &StoreKey,
    pairs: &[(u64, u64)],
    want: Option<&[&[u8]]>,
) -> Result<bool, StorageError> {
    let mut ranges = Vec::new(alloc);
    for (offset, length) in pairs {
        ranges.push(ByteRange {
            offset: *offset,
            length: *length,
        })?;
    }
    match (store.get_partial(key, ranges.as_slice())?, want) {
        (Some(parts), Some(want)) => Ok(are(parts.as_slice(), want)),
        (found, _) => Ok(found.is_none() && want.is_none()),
    }
}

/// Whether a store lists these keys, in this order.
pub(crate) fn lists<S: ReadableStorageTraits>(
    store: &mut S,
    want: &[&str],
) -> Result<bool, StorageError> {
    let found = store.list()?;
    for (key, text) in found.iter().zip(want) {
        if key.as_str() != *text {
            return Ok(false);
        }
    }
    Ok(found.len() == want.len())
}

/// Writes bytes where they start.
fn write(
    alloc: Global,
    store: &mut Store,
    key: &StoreKey,
    pairs: &[(u64, &[u8])],
) -> Result<(), StorageError> {
    let mut patches = Vec::new(alloc);
    for (offset, bytes) in pairs {
        let (offset, bytes) = (*offset, *bytes);
        patches.push(ValuePatch { offset, bytes })?;
    }
    store.set_partial(key, patches.as_slice())
}

/// Makes a call at a key. Whether what is read is as said.
fn made(
    alloc: Global,
    store: &mut Store,
    key: &StoreKey,
    call: Call<'_>,
) -> Result<bool, StorageError> {
    match call {
        Call::Get(want) => return gets(store, key, want),
        Call::Size(want) => return Ok(store.size_key(key)? == want),
        Call::Ranges(pairs, want) => return reads(alloc, store, key, pairs, want),
        Call::List(want) => return lists(store, want),
        Call::Set(value) => store.set(key, value)?,
        Call::Write(pairs) => write(alloc, store, key, pairs)?,
        Call::Erase => store.erase(key)?,
    }
    Ok(true)
}

/// Whether a call that did what it was to do, or did not, ended so.
fn ends(done: Result<bool, StorageError>, want: End) -> bool {
    match (done, want) {
        (Ok(is_as_said), End::Done) => is_as_said,
        (Err(StorageError::Io), End::Io) => true,
        (Err(StorageError::InvalidByteRange), End::Range) => true,
        _ => false,
    }
}

/// Makes calls one after another. Whether each ends so. `Err` where a text is no key.
pub(crate) fn answers(
    alloc: Global,
    store: &mut Store,
    calls: &[KeyedCall<'_>],
) -> Result<bool, StorageError> {
    for call in calls {
        if !ends_so(alloc, store, *call)? {
            return Ok(false);
        }
    }
    Ok(true)
}

/// Makes a call. Whether it ends so.
fn ends_so(
    alloc: Global,
    store: &mut Store,
    (name, call, want): KeyedCall<'_>,
) -> Result<bool, StorageError> {
    let key = key(alloc, name)?;
    Ok(ends(made(alloc, store, &key, call), want))
}
