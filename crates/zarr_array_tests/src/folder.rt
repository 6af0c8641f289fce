//! The keys of a store in a folder, which no command asks for.
use crate::calls::{key, lists};
use std::fs::Files;
use std::{env, fs, io, process};
use zarr_array_folder::FolderStore;
use zarr_array_storage::{StorageError, WritableStorageTraits};

/// What the system answers, as a store's.
fn answered<T>(answer: io::Result<T>) -> Result<T, StorageError> {
    match answer {
        Ok(value) => Ok(value),
        Err(_) => Err(StorageError::Io),
    }
}

/// The store in a folder, with a value at each of these keys.
fn with_keys<R: Files + AllocGlobal + Clone + Drop>(
    rt: &R,
    dir: &str,
    keys: &[&str],
) -> Result<FolderStore<R>, StorageError> {
    let mut store = FolderStore::open(rt.clone()?, dir)?;
    for text in keys {
        store.set(&key(rt.alloc(), text)?, &[1])?;
    }
    Ok(store)
}

/// Leaves a temporary file in a folder, as a stopped program does.
fn leave_temporary<R: Files + AllocGlobal>(rt: &R, dir: &str) -> Result<(), StorageError> {
    let path = format!(in rt.alloc(); "{dir}/.zarr_run.tmp")?;
    answered(fs::write(rt, path.as_str(), &[1]))
}

/// Whether the store in a new folder lists its keys in the order of their bytes, where `.` comes
/// before `/`, and no other file.
fn lists_keys<R: Files + AllocGlobal + Clone + Drop>(
    rt: &R,
    dir: &str,
) -> Result<bool, StorageError> {
    answered(fs::create_dir(rt, dir))?;
    let mut store = with_keys(rt, dir, &["b", "a/b", "a/b.c/d", "a.b"])?;
    leave_temporary(rt, dir)?;
    lists(&mut store, &["a.b", "a/b", "a/b.c/d", "b"])
}

#[test]
fn a_folder_lists_its_keys_in_order(rt: HostRuntime) -> io::Result<()> {
    let name = format!(in rt.alloc(); "zarr_array_tests-{}", process::id(rt.process()))?;
    let dir = env::temp_dir(&rt)?.join(rt.alloc(), name.as_str())?;
    let listed = lists_keys(&rt, dir.as_str());
    fs::remove_dir_all(&rt, dir.as_path())?;
    assert!(rt; matches!(listed, Ok(true)));
    Ok(())
}
