//! A key and its value as a line.
ghost use Rattle.std.specs.Prelude.{◌≡◌, ◌++◌, OnOk, OnErr, string_bytes};
ghost use Rattle.zarr_run_stories.specs.Entries.{entry_line};

use anyhow::{Context, Result};
use std::alloc::{AllocError, Global};
use zarr_run::{MemoryStore, StoreKey, WritableStorageTraits};

/// Puts the value of a line into a store, at the line's key.
pub(crate) fn put_entry(alloc: Global, store: &mut MemoryStore, line: &str) -> Result<()>
    ensures { OnErr result (store.new ≡ store.old) }
{
    let (digits, key) = line
        .split_once(' ')
        .context("a line of the store has no space")?;
    let value = hex::decode(alloc, digits)?;
    let key = StoreKey::new(String::from_str(alloc, key)?)
        .ok()
        .context("a key of the store ends with a slash")?;
    store.set(&key, value.as_slice())?;
    Ok(())
}

/// Appends the line of a key and its value.
pub(crate) fn append_entry(
    alloc: Global,
    text: &mut String,
    key: &str,
    value: &[u8],
) -> Result<(), AllocError>
    ensures { OnOk result
        (string_bytes text.new ≡ string_bytes text.old ++ entry_line key.now value.now) }
{
    let digits = hex::encode(alloc, value)?;
    text.push_str(digits.as_str())?;
    text.push_str(" ")?;
    text.push_str(key)?;
    text.push_str("\n")?;
    Ok(())
}
