//! A store that counts calls, and isn't honest.
ghost use Rattle.std.specs.Prelude.{◌≡◌, false, length};

use zarr_run::{
    ByteRange, MemoryStore, ReadableStorageTraits, StorageError, StoreKey, ValuePatch,
    WritableStorageTraits,
};

/// A store in memory that counts, of the chunks of the array at `/a`, the values fetched and the
/// bytes given, and the calls of `set_partial`, and takes ranges or none. After some calls of `get`
/// it gives one other value: the last of its bytes but two is 9, which in a document is the number
/// of its format.
#[derive(Drop)]
pub struct TestStore<const TAKES_RANGES: bool> {
    pub inner: MemoryStore,
    pub calls_before: u64,
    pub fetches: u64,
    pub bytes: u64,
    pub patches: u64,
}

/// Whether a key is that of a chunk of the array at `/a`.
fn is_of_chunk(key: &StoreKey) -> bool {
    key.as_str().starts_with("a/c/")
}

/// How many bytes these are.
fn count_bytes(parts: &[Vec<u8>]) -> u64 {
    let mut count: u64 = 0;
    for part in parts {
        count = count.wrapping_add(part.len() as u64);
    }
    count
}

impl<const TAKES_RANGES: bool> TestStore<TAKES_RANGES> {
    /// Counts a call of `get`, and tells whether it gives another value.
    fn count_fetch(&mut self, key: &StoreKey) -> bool
        ensures { self.new.inner ≡ self.old.inner }
    {
        if is_of_chunk(key) {
            self.fetches = self.fetches.wrapping_add(1);
        }
        let is_changed = self.calls_before == 0;
        self.calls_before = self.calls_before.wrapping_sub(1);
        is_changed
    }

    /// Counts bytes that were given of the value of a key.
    fn count_given(&mut self, key: &StoreKey, count: u64)
        ensures { self.new.inner ≡ self.old.inner }
    {
        if is_of_chunk(key) {
            self.bytes = self.bytes.wrapping_add(count);
        }
    }
}

/// Changes a byte of a value.
fn change(value: &mut Vec<u8>)
    ensures { length value.new.items ≡ length value.old.items }
{
    if let Some(at) = value.len().checked_sub(3) {
        value[at] = b'9';
    }
}

impl<const TAKES_RANGES: bool> ReadableStorageTraits for TestStore<TAKES_RANGES> {
    ghost held = { λ s. s.inner.held };

    ghost is_honest = { λ _. false };

    ghost refused_calls = { λ _. 0 };

    ghost given_bytes = { λ s. s.inner.given };

    ghost accepted_writes = { λ s. s.inner.accepted };

    fn get(&mut self, key: &StoreKey) -> Result<Option<Vec<u8>>, StorageError> {
        let is_changed = self.count_fetch(key);
        let Some(mut value) = self.inner.get(key)? else {
            return Ok(None);
        };
        if is_changed {
            change(&mut value);
        }
        self.count_given(key, value.len() as u64);
        Ok(Some(value))
    }

    fn get_partial(
        &mut self,
        key: &StoreKey,
        ranges: &[ByteRange],
    ) -> Result<Option<Vec<Vec<u8>>>, StorageError> {
        let Some(parts) = self.inner.get_partial(key, ranges)? else {
            return Ok(None);
        };
        self.count_given(key, count_bytes(parts.as_slice()));
        Ok(Some(parts))
    }

    fn size_key(&mut self, key: &StoreKey) -> Result<Option<u64>, StorageError> {
        self.inner.size_key(key)
    }

    fn list(&mut self) -> Result<Vec<StoreKey>, StorageError> {
        self.inner.list()
    }
}

impl<const TAKES_RANGES: bool> WritableStorageTraits for TestStore<TAKES_RANGES> {
    ghost supports_set_partial = { TAKES_RANGES };

    fn supports_set_partial(&self) -> bool {
        TAKES_RANGES
    }

    fn set(&mut self, key: &StoreKey, value: &[u8]) -> Result<(), StorageError> {
        self.inner.set(key, value)
    }

    fn set_partial(
        &mut self,
        key: &StoreKey,
        patches: &[ValuePatch<'_>],
    ) -> Result<(), StorageError> {
        self.patches = self.patches.wrapping_add(1);
        self.inner.set_partial(key, patches)
    }

    fn erase(&mut self, key: &StoreKey) -> Result<(), StorageError> {
        self.inner.erase(key)
    }
}
