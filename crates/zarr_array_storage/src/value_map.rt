//! The values that a store in memory holds.
ghost use Rattle.std.specs.Prelude.{◌≡◌, true, false, length, IfOk, OnOk, OnErr, option_map};
ghost use Rattle.std.specs.FinMap as map;
ghost use Rattle.zarr_array_storage.specs.Ranges.{patched_at};
ghost use Rattle.zarr_array_storage.specs.Stores.{HasBytesAt};
ghost use Rattle.zarr_array_storage.specs.ValueMaps.{key_bytes};
ghost use Rattle.zarr_codecs_meaning.specs.Types.{are_bytes};
ghost use Rattle.zarr_codecs_traits.specs.Patches.{any_too_far, extended, patched, patches_of};
ghost use Rattle.zarr_codecs_traits.specs.Sources.{value_lent};

use std::alloc::{AllocError, Global};
use std::collections::HashMap;
use std::marker::Model;
use zarr_codecs_traits::ValuePatch;
use zarr_codecs_traits::value_patch::{overwrite_each, patched};

/// Values in memory, each at a key of its own.
#[derive(Drop)]
pub(crate) struct ValueMap {
    values: HashMap<String, Vec<u8>>,
    alloc: Global,
}

impl Model for ValueMap {
    ghost use Rattle.std.specs.Prelude.{ℕ, List};
    ghost use Rattle.std.specs.Coded.{coded_ℕ, coded_list};
    ghost use Rattle.std.specs.FinMap as map;
    ghost use Rattle.zarr_array_meaning.specs.StoreMaps.{StoreMap};
    ghost use Rattle.zarr_array_storage.specs.ValueMaps.{plain_entries};

    ghost Value = { StoreMap };

    ghost coded = { map.code (coded_list coded_ℕ) (coded_list coded_ℕ) };

    ghost view = { λ m. map.from_entries (plain_entries m.values.entries) };
}

/// How many bytes a value has.
fn byte_len(value: &[u8]) -> usize
    ensures len { result ≡ length value.now }
    ensures bytes { are_bytes value.now ≡ true }
{
    value.len()
}

/// How many bytes a value has after ranges were written into it.
fn patched_len(value: &[u8], patches: &[ValuePatch<'_>]) -> usize
    requires { any_too_far (patches_of patches.now) ≡ false }
    ensures { result ≡ length (patched value.now (patches_of patches.now)) }
{
    let mut len = value.len();
    for patch in patches {
        let end = patch.offset as usize + patch.bytes.len();
        if end > len {
            len = end;
        }
    }
    len
}

/// Puts zeros to the end of a value until it has `len` bytes. An `Err` leaves it as it was.
fn extend(value: &mut Vec<u8>, len: usize) -> Result<(), AllocError>
    ensures ok { OnOk result (value.new.items ≡ extended value.old.items len) }
    ensures err { OnErr result (value.new.items ≡ value.old.items) }
{
    if len > value.len() {
        value.resize(len, 0)?;
    }
    Ok(())
}

/// Writes ranges into a value where it stands, one after another, and zeros where a range begins
/// past its end. An `Err` leaves it as it was.
fn write_each(value: &mut Vec<u8>, patches: &[ValuePatch<'_>]) -> Result<(), AllocError>
    requires { any_too_far (patches_of patches.now) ≡ false }
    ensures ok { OnOk result
        (value.new.items ≡ patched value.old.items (patches_of patches.now)) }
    ensures err { OnErr result (value.new.items ≡ value.old.items) }
{
    let len = patched_len(value.as_slice(), patches);
    extend(value, len)?;
    overwrite_each(value.as_mut_slice(), patches);
    Ok(())
}

impl ValueMap {
    /// No value. The keys and values that are put into it later are kept in memory of `alloc`.
    pub(crate) fn new(alloc: Global) -> Self
        ensures { result ≡ map.empty }
    {
        ValueMap {
            values: HashMap::new(alloc),
            alloc,
        }
    }

    /// The value at a key.
    pub(crate) fn get(&self, key: &str) -> Option<&[u8]>
        ensures { value_lent result ≡ map.get self.now key.now }
    {
        match self.values.get(key) {
            Some(value) => Some(value.as_slice()),
            None => None,
        }
    }

    /// How many bytes the value at a key has.
    pub(crate) fn size_key(&self, key: &str) -> Option<usize>
        ensures size { result ≡ option_map length (map.get self.now key.now) }
        ensures bytes { HasBytesAt self.now key.now }
    {
        match self.get(key) {
            Some(value) => Some(byte_len(value)),
            None => None,
        }
    }

    /// The keys, in the order of their bytes.
    pub(crate) fn list(&self) -> Result<Vec<String>, AllocError>
        ensures { IfOk result (λ keys. key_bytes keys.items ≡ map.keys self.now) }
    {
        let mut keys = Vec::with_capacity(self.alloc, self.values.len())?;
        for key in self.values.keys() {
            keys.push(key.clone()?)?;
        }
        keys.sort()?;
        Ok(keys)
    }

    /// Puts a value at a key, in place of the one that was there.
    pub(crate) fn set(&mut self, key: &str, value: Vec<u8>) -> Result<(), AllocError>
        ensures ok { OnOk result (self.new ≡ map.insert self.old key.now value.items) }
        ensures err { OnErr result (self.new ≡ self.old) }
    {
        if let Some(held) = self.values.get_mut(key) {
            *held = value;
            return Ok(());
        }
        let owned = String::from_str(self.alloc, key)?;
        self.values.insert(owned, value)?;
        Ok(())
    }

    /// Writes ranges into the value at a key, one after another; no value counts as empty, and
    /// zeros come where a range begins past the end. A value that is there isn't copied. An `Err`
    /// leaves all as it was.
    pub(crate) fn set_partial(
        &mut self,
        key: &str,
        patches: &[ValuePatch<'_>],
    ) -> Result<(), AllocError>
        requires { any_too_far (patches_of patches.now) ≡ false }
        ensures ok { OnOk result (self.new
            ≡ map.insert self.old key.now (patched_at self.old key.now (patches_of patches.now))) }
        ensures err { OnErr result (self.new ≡ self.old) }
    {
        if let Some(held) = self.values.get_mut(key) {
            return write_each(held, patches);
        }
        let value = patched(self.alloc, None, patches)?;
        self.set(key, value)
    }

    /// Takes the value at a key out, if there is one.
    pub(crate) fn erase(&mut self, key: &str)
        ensures { self.new ≡ map.remove self.old key.now }
    {
        let _ = self.values.remove(key);
    }
}
