//! Files below a folder.
use crate::file_keys::is_file_key;
use std::alloc::{AllocError, Global};
use std::fs::{DirEntry, Files, OpenFile};
use std::io::{Read, Seek, SeekFrom};
use std::{fs, io};
use zarr_codecs_traits::ByteRange;

/// Whether an error says that there is no file at a path: nothing is there, a part of the path is a
/// file, or a folder is there.
pub(crate) fn is_absent(error: &io::Error) -> bool {
    matches!(
        error.kind(),
        io::ErrorKind::NotFound | io::ErrorKind::NotADirectory | io::ErrorKind::IsADirectory
    )
}

/// The path of a name below a folder.
pub(crate) fn join(alloc: Global, dir: &str, name: &str) -> Result<String, AllocError> {
    let length = dir.len().saturating_add(name.len()).saturating_add(1);
    let mut path = String::with_capacity(alloc, length)?;
    path.push_str(dir)?;
    path.push_str("/")?;
    path.push_str(name)?;
    Ok(path)
}

/// The bytes of the file at a path.
pub(crate) fn read_file<R: Files + AllocGlobal>(rt: &R, path: &str) -> io::Result<Vec<u8>> {
    let mut file = fs::open(rt, path)?;
    let size = file_size(&file)?;
    read_bytes(rt.alloc(), &mut file, size)
}

/// The bytes of the file at a path in each range, or `None` where a range ends past its end.
pub(crate) fn read_file_parts<R: Files + AllocGlobal>(
    rt: &R,
    path: &str,
    ranges: &[ByteRange],
) -> io::Result<Option<Vec<Vec<u8>>>> {
    let mut file = fs::open(rt, path)?;
    if any_ends_past(file_size(&file)?, ranges) {
        return Ok(None);
    }
    let mut parts = Vec::with_capacity(rt.alloc(), ranges.len())?;
    for range in ranges {
        file.seek(SeekFrom::Start(range.offset))?;
        parts.push(read_bytes(rt.alloc(), &mut file, range.length)?)?;
    }
    Ok(Some(parts))
}

/// How many bytes an open file has. A folder, which opens as a file does, is refused.
fn file_size(file: &impl OpenFile) -> io::Result<u64> {
    let found = file.metadata()?;
    if found.is_dir() {
        return Err(io::Error::from(io::ErrorKind::IsADirectory));
    }
    Ok(found.len())
}

/// The next bytes of a file, as many as `count`.
fn read_bytes(alloc: Global, file: &mut impl Read, count: u64) -> io::Result<Vec<u8>> {
    let length = usize::try_from(count).unwrap_or(usize::MAX);
    let mut bytes = vec![in alloc; 0u8; length]?;
    file.read_exact(bytes.as_mut_slice())?;
    Ok(bytes)
}

fn any_ends_past(size: u64, ranges: &[ByteRange]) -> bool {
    ranges.iter().any(|range| match range.offset.checked_add(range.length) {
        Some(end) => end > size,
        None => true,
    })
}

/// The keys of the files below a folder, in any order. A link to a file counts as one, and a link
/// to a folder is passed over.
pub(crate) fn list_files<R: Files + AllocGlobal + Clone + Drop>(
    rt: &R,
    dir: &str,
) -> io::Result<Vec<String>> {
    let mut keys = Vec::new(rt.alloc());
    let mut folders = Vec::new(rt.alloc());
    folders.push(String::from_str(rt.alloc(), "")?)?;
    for _ in 0..u64::MAX {
        let Some(folder) = folders.pop() else {
            return Ok(keys);
        };
        list_folder(rt, dir, folder.as_str(), &mut keys, &mut folders)?;
    }
    Err(io::Error::from(io::ErrorKind::Other))
}

/// Adds the keys of the files in one folder, and the folders in it, which end with a slash.
fn list_folder<R: Files + AllocGlobal + Clone + Drop>(
    rt: &R,
    dir: &str,
    folder: &str,
    keys: &mut Vec<String>,
    folders: &mut Vec<String>,
) -> io::Result<()> {
    let path = join(rt.alloc(), dir, folder)?;
    for entry in fs::read_dir(rt, path.as_str())? {
        let entry = entry?;
        let mut key = String::from_str(rt.alloc(), folder)?;
        key.push_str(entry.file_name())?;
        if entry.file_type()?.is_dir() {
            key.push('/')?;
            folders.push(key)?;
        } else if is_file_key(key.as_str()) && is_file(rt, &entry)? {
            keys.push(key)?;
        }
    }
    Ok(())
}

fn is_file<R: Files + AllocGlobal>(rt: &R, entry: &DirEntry<R>) -> io::Result<bool> {
    match fs::metadata(rt, entry.path()) {
        Ok(found) => Ok(found.is_file()),
        Err(error) if is_absent(&error) => Ok(false),
        Err(error) => Err(error),
    }
}
