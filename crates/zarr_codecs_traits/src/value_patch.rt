//! Ranges of a value that are written.
ghost use Rattle.std.specs.Prelude.{◌≡◌, ◌<◌, ◌+◌, ◌^◌, ◌≤◌, [], length, OnOk, IfOk, false, unwrap_or};
ghost use Rattle.zarr_codecs_traits.specs.Patches.{any_ends_past, any_too_far, extended, overwritten, patched, patches_in, patches_of, written_at};
ghost use Rattle.zarr_codecs_traits.specs.Sources.{value_lent};

use crate::byte_range::ByteRange;
use std::alloc::{AllocError, Global};

/// Bytes to be written into a value from `offset` on. They are lent.
#[derive(Clone, Copy, Debug)]
pub struct ValuePatch<'a> {
    pub offset: u64,
    pub bytes: &'a [u8],
}

/// Bytes to be written into ranges of a value: as many as the first range has into that one, and so
/// on. No more are written than there are, and those past the last range are left out.
#[derive(Debug, Drop)]
pub struct ValuePatches {
    pub ranges: Vec<ByteRange>,
    pub bytes: Vec<u8>,
}

impl ValuePatches {
    /// What is written into each range, in their order.
    pub fn lend(&self, alloc: Global) -> Result<Vec<ValuePatch<'_>>, AllocError>
        ensures { IfOk result (λ patches. patches_of patches.items ≡ patches_in self.now) }
    {
        let mut patches = Vec::with_capacity(alloc, self.ranges.len())?;
        let mut rest = self.bytes.as_slice();
        for range in self.ranges.as_slice() {
            let length = rest.len().min(range.length as usize);
            let (bytes, others) = rest.split_at(length);
            patches.push(ValuePatch {
                offset: range.offset,
                bytes,
            })?;
            rest = others;
        }
        Ok(patches)
    }
}

/// Whether one of the ranges to write ends past 2^63 - 1 bytes.
pub fn any_too_far(patches: &[ValuePatch<'_>]) -> bool
    ensures { result ≡ any_too_far (patches_of patches.now) }
{
    for patch in patches {
        let Some(end) = patch.offset.checked_add(patch.bytes.len() as u64) else {
            return true;
        };
        if end > 0x7fff_ffff_ffff_ffff {
            return true;
        }
    }
    false
}

/// Whether one of the ranges to write ends past the end of a value of so many bytes.
pub fn any_ends_past(patches: &[ValuePatch<'_>], len: usize) -> bool
    ensures { result ≡ any_ends_past len (patches_of patches.now) }
{
    for patch in patches {
        let Some(end) = patch.offset.checked_add(patch.bytes.len() as u64) else {
            return true;
        };
        if end > len as u64 {
            return true;
        }
    }
    false
}

/// Puts zeros to the end of a value until it has `len` bytes. An `Err` leaves it as it was.
fn extend(value: &mut Vec<u8>, len: usize) -> Result<(), AllocError>
    ensures { OnOk result (value.new.items ≡ extended value.old.items len) }
{
    if len > value.len() {
        value.resize(len, 0)?;
    }
    Ok(())
}

/// Puts bytes in the place of those from `offset` on.
fn overwrite(value: &mut [u8], offset: usize, bytes: &[u8])
    requires { offset + length bytes.now ≤ length value.old }
    ensures { value.new ≡ overwritten value.old offset bytes.now }
{
    value[offset..offset + bytes.len()].copy_from_slice(bytes);
}

/// Writes bytes into a value from `offset` on, and zeros into the gap before them.
fn write_at(value: &mut Vec<u8>, offset: usize, bytes: &[u8]) -> Result<(), AllocError>
    requires { offset + length bytes.now < 2 ^ 63 }
    ensures { OnOk result (value.new.items ≡ written_at value.old.items offset bytes.now) }
{
    extend(value, offset + bytes.len())?;
    overwrite(value.as_mut_slice(), offset, bytes);
    Ok(())
}

/// Writes ranges that lie in a value into it, one after another.
pub fn overwrite_each(value: &mut [u8], patches: &[ValuePatch<'_>])
    requires { any_ends_past (length value.old) (patches_of patches.now) ≡ false }
    ensures { value.new ≡ patched value.old (patches_of patches.now) }
{
    for patch in patches {
        overwrite(value, patch.offset as usize, patch.bytes);
    }
}

/// A copy of a value with the ranges written into it, one after another; no value counts as empty.
pub fn patched(
    alloc: Global,
    old: Option<&[u8]>,
    patches: &[ValuePatch<'_>],
) -> Result<Vec<u8>, AllocError>
    requires { any_too_far (patches_of patches.now) ≡ false }
    ensures { IfOk result
        (λ value. value.items ≡ patched (unwrap_or (value_lent old.entry) [])
        (patches_of patches.now)) }
{
    let mut value = match old {
        Some(old) => Vec::from_slice(alloc, old)?,
        None => Vec::new(alloc),
    };
    for patch in patches {
        write_at(&mut value, patch.offset as usize, patch.bytes)?;
    }
    Ok(value)
}
