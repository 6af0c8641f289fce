//! The store in memory.
ghost use Rattle.std.specs.Prelude.{◌≡◌, true, false, IfOk};
ghost use Rattle.std.specs.FinMap as map;
ghost use Rattle.std.specs.List.{list_any};
ghost use Rattle.zarr_array_storage.specs.MemoryStores.{MemoryState};
ghost use Rattle.zarr_array_storage.specs.ValueMaps.{key_bytes};
ghost use Rattle.zarr_grids_keys.specs.Paths.{ends_with_slash};

use crate::error::StorageError;
use crate::traits::{ReadableStorageTraits, WritableStorageTraits};
use crate::value_map::ValueMap;
use std::alloc::{AllocError, Global};
use std::marker::Model;
use zarr_codecs_traits::byte_range::{any_ends_past, count_parts, read_ranges};
use zarr_codecs_traits::value_patch::any_too_far;
use zarr_codecs_traits::{ByteRange, ValuePatch};
use zarr_grids_keys::StoreKey;

/// A store that keeps its values in memory. It is honest. A call is refused where memory runs out,
/// and where a byte range is wrong, as `get_partial` and `set_partial` say.
#[derive(Drop)]
pub struct MemoryStore {
    alloc: Global,
    values: ValueMap,
    accepted: u128,
    given: u128,
}

/// A contract sees what it holds and its counts.
impl Model for MemoryStore {
    ghost use Rattle.zarr_array_storage.specs.MemoryStores.{HasStoreKeys, MemoryState, memory_code};

    ghost Value = { MemoryState };

    ghost coded = { memory_code };

    ghost view = { λ s. record { held = s.values; accepted = s.accepted; given = s.given } };

    ghost invariant = { λ s. HasStoreKeys s.values };
}

impl MemoryStore {
    /// A store with no key. What is put into it later is kept in memory of `alloc`.
    pub fn new(alloc: Global) -> Self
        ensures { result ≡ record { held = map.empty; accepted = 0; given = 0 } }
    {
        MemoryStore {
            alloc,
            values: ValueMap::new(alloc),
            accepted: 0,
            given: 0,
        }
    }
}

/// The store keys that texts are.
fn store_keys(alloc: Global, texts: Vec<String>) -> Result<Vec<StoreKey>, AllocError>
    requires { list_any ends_with_slash (key_bytes texts.items) ≡ false }
    ensures { IfOk result (λ keys. keys.items ≡ key_bytes texts.items) }
{
    let mut keys = Vec::with_capacity(alloc, texts.len())?;
    for text in texts {
        match StoreKey::new(text) {
            Ok(key) => keys.push(key)?,
            Err(_) => unreachable!(),
        }
    }
    Ok(keys)
}

impl ReadableStorageTraits for MemoryStore {
    ghost held = { λ s. s.held };

    ghost is_honest = { λ _. true };

    ghost refused_calls = { λ _. 0 };

    ghost given_bytes = { λ s. s.given };

    ghost accepted_writes = { λ s. s.accepted };

    fn get(&mut self, key: &StoreKey) -> Result<Option<Vec<u8>>, StorageError> {
        let Some(value) = self.values.get(key.as_str()) else {
            return Ok(None);
        };
        let copy = Vec::from_slice(self.alloc, value)?;
        self.given = self.given.saturating_add(copy.len() as u128);
        Ok(Some(copy))
    }

    fn lend(&self, key: &StoreKey) -> Option<&[u8]> {
        self.values.get(key.as_str())
    }

    fn get_partial(
        &mut self,
        key: &StoreKey,
        ranges: &[ByteRange],
    ) -> Result<Option<Vec<Vec<u8>>>, StorageError> {
        let Some(value) = self.values.get(key.as_str()) else {
            return Ok(None);
        };
        if any_ends_past(value, ranges) {
            return Err(StorageError::InvalidByteRange);
        }
        let parts = read_ranges(self.alloc, value, ranges)?;
        self.given = count_parts(self.given, parts.as_slice());
        Ok(Some(parts))
    }

    fn size_key(&mut self, key: &StoreKey) -> Result<Option<u64>, StorageError> {
        match self.values.size_key(key.as_str()) {
            Some(size) => Ok(Some(size as u64)),
            None => Ok(None),
        }
    }

    fn list(&mut self) -> Result<Vec<StoreKey>, StorageError> {
        let texts = self.values.list()?;
        let keys = store_keys(self.alloc, texts)?;
        Ok(keys)
    }
}

impl WritableStorageTraits for MemoryStore {
    ghost supports_set_partial = { true };

    fn supports_set_partial(&self) -> bool {
        true
    }

    fn set(&mut self, key: &StoreKey, value: &[u8]) -> Result<(), StorageError> {
        let copy = Vec::from_slice(self.alloc, value)?;
        self.values.set(key.as_str(), copy)?;
        self.accepted = self.accepted.saturating_add(1);
        Ok(())
    }

    fn set_owned(&mut self, key: &StoreKey, value: Vec<u8>) -> Result<(), StorageError> {
        self.values.set(key.as_str(), value)?;
        self.accepted = self.accepted.saturating_add(1);
        Ok(())
    }

    fn set_partial(
        &mut self,
        key: &StoreKey,
        patches: &[ValuePatch<'_>],
    ) -> Result<(), StorageError> {
        if any_too_far(patches) {
            return Err(StorageError::InvalidByteRange);
        }
        self.values.set_partial(key.as_str(), patches)?;
        self.accepted = self.accepted.saturating_add(1);
        Ok(())
    }

    fn erase(&mut self, key: &StoreKey) -> Result<(), StorageError> {
        self.values.erase(key.as_str());
        self.accepted = self.accepted.saturating_add(1);
        Ok(())
    }
}
