//! A store that counts calls.
use zarr_array_storage::{
    ByteRange, MemoryStore, ReadableStorageTraits, StorageError, ValuePatch, WritableStorageTraits,
};
use zarr_grids_keys::StoreKey;

/// A store in memory that counts its calls for one key, and takes ranges or none.
#[derive(Drop)]
pub(crate) struct CountingStore<const TAKES_RANGES: bool> {
    pub inner: MemoryStore,
    pub reads: u64,
    pub sets: u64,
    pub patches: u64,
}

impl<const TAKES_RANGES: bool> ReadableStorageTraits for CountingStore<TAKES_RANGES> {
    ghost use Rattle.std.specs.Prelude.{true};

    ghost held = { λ s. s.inner.held };

    ghost is_honest = { λ _. true };

    ghost refused_calls = { λ _. 0 };

    ghost given_bytes = { λ s. s.inner.given };

    ghost accepted_writes = { λ s. s.inner.accepted };

    fn get(&mut self, key: &StoreKey) -> Result<Option<Vec<u8>>, StorageError> {
        self.reads = self.reads.wrapping_add(1);
        self.inner.get(key)
    }

    fn get_partial(
        &mut self,
        key: &StoreKey,
        ranges: &[ByteRange],
    ) -> Result<Option<Vec<Vec<u8>>>, StorageError> {
        self.reads = self.reads.wrapping_add(1);
        self.inner.get_partial(key, ranges)
    }

    fn size_key(&mut self, key: &StoreKey) -> Result<Option<u64>, StorageError> {
        self.reads = self.reads.wrapping_add(1);
        self.inner.size_key(key)
    }

    fn list(&mut self) -> Result<Vec<StoreKey>, StorageError> {
        self.inner.list()
    }
}

impl<const TAKES_RANGES: bool> WritableStorageTraits for CountingStore<TAKES_RANGES> {
    ghost supports_set_partial = { TAKES_RANGES };

    fn supports_set_partial(&self) -> bool {
        TAKES_RANGES
    }

    fn set(&mut self, key: &StoreKey, value: &[u8]) -> Result<(), StorageError> {
        self.sets = self.sets.wrapping_add(1);
        self.inner.set(key, value)
    }

    fn set_partial(
        &mut self,
        key: &StoreKey,
        patches: &[ValuePatch<'_>],
    ) -> Result<(), StorageError> {
        self.patches = self.patches.wrapping_add(1);
        self.inner.set_partial(key, patches)
    }

    fn erase(&mut self, key: &StoreKey) -> Result<(), StorageError> {
        self.inner.erase(key)
    }
}
