//! The store of files below a folder.
ghost use Rattle.std.specs.Prelude.{◌≡◌, ◌≢◌, ◌⊎◌, Err, IfOk, IfErr, OnOk, OnErr, true, false};
ghost use Rattle.std.specs.FinMap as map;
ghost use Rattle.zarr_array_meaning.specs.StoreMaps.{counted};
ghost use Rattle.zarr_array_storage.specs.Refusals.{refused_after};
ghost use Rattle.zarr_array_storage.specs.declared.error.StorageError.TheVariants.{InvalidKey, Io, Memory};
ghost use Rattle.zarr_array_folder.specs.FolderStores.{RefusesKey, RefusesKeys, accepted_by, given_by, refused_by};

use crate::file_keys::{TEMPORARY, is_file_key};
use crate::files::{is_absent, join, list_files, read_file, read_file_parts};
use std::alloc::{AllocError, Global};
use std::fs::Files;
use std::{fs, io};
use zarr_array_storage::{ReadableStorageTraits, StorageError, WritableStorageTraits};
use zarr_codecs_traits::byte_range::count_parts;
use zarr_codecs_traits::value_patch::{any_too_far, patched};
use zarr_codecs_traits::{ByteRange, ValuePatch};
use zarr_grids_keys::StoreKey;

/// A store whose values are files below a folder; a key is the path of its file. A value goes to
/// `.zarr_run.tmp` in the folder, which is then renamed, so a stop leaves the old value or the new
/// one. One program at a time may use the folder. It isn't honest: others can change files. Any
/// other key is `InvalidKey`. Links are followed.
#[derive(Drop)]
pub struct FolderStore<R: Files + AllocGlobal + Clone + Drop> {
    rt: R,
    dir: String,
    temporary: String,
    refused: u128,
    given: u128,
    accepted: u128,
}

impl<R: Files + AllocGlobal + Clone + Drop> FolderStore<R> {
    /// The store in a folder. `Io` where the folder isn't there or can't be opened.
    pub fn open(rt: R, dir: &str) -> Result<Self, StorageError>
        ensures counts { IfOk result (λ store.
            (refused_by store ≡ 0) × (given_by store ≡ 0) × (accepted_by store ≡ 0)) }
        ensures error { IfErr result (λ error. (error ≡ Io) ⊎ (error ≡ Memory)) }
    {
        if let Err(error) = fs::read_dir(&rt, dir) {
            return Err(storage_error(&error));
        }
        let temporary = join(rt.alloc(), dir, TEMPORARY)?;
        let dir = String::from_str(rt.alloc(), dir)?;
        Ok(FolderStore {
            rt,
            dir,
            temporary,
            refused: 0,
            given: 0,
            accepted: 0,
        })
    }

    /// Counts a call as refused where it was, unless for want of memory or for a wrong byte range.
    fn count_refusal<T>(&mut self, answer: Result<T, StorageError>) -> Result<T, StorageError>
        ensures same { result ≡ answer }
        ensures refused { refused_by self.new ≡ refused_after (refused_by self.old) answer }
        ensures given { given_by self.new ≡ given_by self.old }
        ensures accepted { accepted_by self.new ≡ accepted_by self.old }
    {
        match &answer {
            Ok(_) | Err(StorageError::Memory | StorageError::InvalidByteRange) => {}
            Err(_) => self.refused = self.refused.saturating_add(1),
        }
        answer
    }

    /// Counts a writing call as accepted or as refused.
    fn count_write(&mut self, answer: Result<(), StorageError>) -> Result<(), StorageError>
        ensures same { result ≡ answer }
        ensures refused { refused_by self.new ≡ refused_after (refused_by self.old) answer }
        ensures given { given_by self.new ≡ given_by self.old }
        ensures accepted { OnOk answer (accepted_by self.new ≡ counted (accepted_by self.old) 1) }
        ensures none_accepted { OnErr answer (accepted_by self.new ≡ accepted_by self.old) }
    {
        if answer.is_ok() {
            self.accepted = self.accepted.saturating_add(1);
        }
        self.count_refusal(answer)
    }

    /// Counts bytes that were given.
    fn give(&mut self, count: usize)
        ensures given { given_by self.new ≡ counted (given_by self.old) count }
        ensures refused { refused_by self.new ≡ refused_by self.old }
        ensures accepted { accepted_by self.new ≡ accepted_by self.old }
    {
        self.given = self.given.saturating_add(count as u128);
    }

    /// The path of a key's file.
    fn path_of(&self, key: &StoreKey) -> Result<String, StorageError>
        ensures key { RefusesKey key.now result }
    {
        if !is_file_key(key.as_str()) {
            return Err(StorageError::InvalidKey);
        }
        Ok(join(self.rt.alloc(), self.dir.as_str(), key.as_str())?)
    }

    fn read(&self, key: &StoreKey) -> Result<Option<Vec<u8>>, StorageError>
        ensures key { RefusesKey key.now result }
    {
        let path = self.path_of(key)?;
        match read_file(&self.rt, path.as_str()) {
            Ok(value) => Ok(Some(value)),
            Err(error) if is_absent(&error) => Ok(None),
            Err(error) => Err(storage_error(&error)),
        }
    }

    fn read_parts(
        &self,
        key: &StoreKey,
        ranges: &[ByteRange],
    ) -> Result<Option<Vec<Vec<u8>>>, StorageError>
        ensures key { RefusesKey key.now result }
    {
        let path = self.path_of(key)?;
        match read_file_parts(&self.rt, path.as_str(), ranges) {
            Ok(Some(parts)) => Ok(Some(parts)),
            Ok(None) => Err(StorageError::InvalidByteRange),
            Err(error) if is_absent(&error) => Ok(None),
            Err(error) => Err(storage_error(&error)),
        }
    }

    fn size(&self, key: &StoreKey) -> Result<Option<u64>, StorageError>
        ensures key { RefusesKey key.now result }
    {
        let path = self.path_of(key)?;
        match fs::metadata(&self.rt, path.as_str()) {
            Ok(found) if found.is_dir() => Ok(None),
            Ok(found) => Ok(Some(found.len())),
            Err(error) if is_absent(&error) => Ok(None),
            Err(error) => Err(storage_error(&error)),
        }
    }

    /// Puts a value in place of the one at a key, or leaves that as it was.
    fn write(&self, key: &StoreKey, value: &[u8]) -> Result<(), StorageError>
        ensures key { RefusesKey key.now result }
    {
        let path = self.path_of(key)?;
        match self.replace(path.as_str(), value) {
            Ok(()) => Ok(()),
            Err(error) => {
                let _ = fs::remove_file(&self.rt, self.temporary.as_str());
                Err(storage_error(&error))
            }
        }
    }

    /// Writes the temporary file and renames it. The folders on the way are made if need be.
    fn replace(&self, path: &str, value: &[u8]) -> io::Result<()> {
        fs::write(&self.rt, self.temporary.as_str(), value)?;
        match fs::rename(&self.rt, self.temporary.as_str(), path) {
            Err(error) if error.kind() == io::ErrorKind::NotFound => {}
            renamed => return renamed,
        }
        if let Some((parent, _)) = path.rsplit_once('/') {
            fs::create_dir_all(&self.rt, parent)?;
        }
        fs::rename(&self.rt, self.temporary.as_str(), path)
    }

    /// Writes ranges into the value at a key: the value is read, and written whole.
    fn write_parts(&self, key: &StoreKey, patches: &[ValuePatch<'_>]) -> Result<(), StorageError>
        ensures key { RefusesKey key.now result }
    {
        let old = self.read(key)?;
        if any_too_far(patches) {
            return Err(StorageError::InvalidByteRange);
        }
        let value = match old {
            Some(old) => patched(self.rt.alloc(), Some(old.as_slice()), patches)?,
            None => patched(self.rt.alloc(), None, patches)?,
        };
        self.write(key, value.as_slice())
    }

    fn remove(&self, key: &StoreKey) -> Result<(), StorageError>
        ensures key { RefusesKey key.now result }
    {
        let path = self.path_of(key)?;
        match fs::remove_file(&self.rt, path.as_str()) {
            Err(error) if !is_absent(&error) => Err(storage_error(&error)),
            _ => Ok(()),
        }
    }

    /// The keys of the files below the folder, sorted.
    fn keys(&self) -> Result<Vec<StoreKey>, StorageError>
        ensures { result ≢ Err InvalidKey }
    {
        match list_files(&self.rt, self.dir.as_str()) {
            Ok(mut texts) => {
                texts.sort_unstable();
                Ok(store_keys(self.rt.alloc(), texts)?)
            }
            Err(error) => Err(storage_error(&error)),
        }
    }
}

/// What an error of the system is.
fn storage_error(error: &io::Error) -> StorageError
    ensures { (result ≡ Io) ⊎ (result ≡ Memory) }
{
    match error.kind() {
        io::ErrorKind::OutOfMemory => StorageError::Memory,
        _ => StorageError::Io,
    }
}

/// The store keys that texts are.
fn store_keys(alloc: Global, texts: Vec<String>) -> Result<Vec<StoreKey>, AllocError> {
    let mut keys = Vec::with_capacity(alloc, texts.len())?;
    for text in texts {
        if let Ok(key) = StoreKey::new(text) {
            keys.push(key)?;
        }
    }
    Ok(keys)
}

impl<R: Files + AllocGlobal + Clone + Drop> ReadableStorageTraits for FolderStore<R> {
    ghost held = { λ _. map.empty };

    ghost is_honest = { λ _. false };

    ghost refused_calls = { λ store. refused_by store };

    ghost given_bytes = { λ store. given_by store };

    ghost accepted_writes = { λ store. accepted_by store };

    ghost calls = { λ _ call _. RefusesKeys call };

    fn get(&mut self, key: &StoreKey) -> Result<Option<Vec<u8>>, StorageError> {
        let answer = self.read(key);
        let found = self.count_refusal(answer)?;
        match &found {
            Some(value) => self.give(value.len()),
            None => self.give(0),
        }
        Ok(found)
    }

    fn get_partial(
        &mut self,
        key: &StoreKey,
        ranges: &[ByteRange],
    ) -> Result<Option<Vec<Vec<u8>>>, StorageError> {
        let answer = self.read_parts(key, ranges);
        let found = self.count_refusal(answer)?;
        match &found {
            Some(parts) => self.given = count_parts(self.given, parts.as_slice()),
            None => self.give(0),
        }
        Ok(found)
    }

    fn size_key(&mut self, key: &StoreKey) -> Result<Option<u64>, StorageError> {
        let answer = self.size(key);
        self.count_refusal(answer)
    }

    fn list(&mut self) -> Result<Vec<StoreKey>, StorageError> {
        let answer = self.keys();
        self.count_refusal(answer)
    }
}

impl<R: Files + AllocGlobal + Clone + Drop> WritableStorageTraits for FolderStore<R> {
    ghost supports_set_partial = { true };

    fn supports_set_partial(&self) -> bool {
        true
    }

    fn set(&mut self, key: &StoreKey, value: &[u8]) -> Result<(), StorageError> {
        let answer = self.write(key, value);
        self.count_write(answer)
    }

    fn set_partial(
        &mut self,
        key: &StoreKey,
        patches: &[ValuePatch<'_>],
    ) -> Result<(), StorageError> {
        let answer = self.write_parts(key, patches);
        self.count_write(answer)
    }

    fn erase(&mut self, key: &StoreKey) -> Result<(), StorageError> {
        let answer = self.remove(key);
        self.count_write(answer)
    }
}
