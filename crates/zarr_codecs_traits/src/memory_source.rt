//! A source of bytes in memory.
ghost use Rattle.std.specs.Prelude.{◌≡◌, Some, true, false, OnOk, OnErr};
ghost use Rattle.zarr_codecs_traits.specs.Patches.{any_too_far, patched_contents, patches_of};
ghost use Rattle.zarr_codecs_traits.specs.Sources.{source_accepted, source_contents, source_given, source_length, value_bytes};

use crate::byte_range::{ByteRange, any_ends_past, count_parts, read_concat, read_ranges};
use crate::byte_source::BytesPartialDecoderTraits;
use crate::byte_target::BytesPartialEncoderTraits;
use crate::value_patch;
use crate::value_patch::{ValuePatch, any_too_far, overwrite_each, patched};
use std::alloc::{AllocError, Global};
use zarr_codecs_arrays::CodecError;

/// A source of the bytes of one value, or of none, in memory, which can be written. It refuses no
/// call but for want of memory and where a range is wrong.
#[derive(Debug, Drop)]
pub struct MemorySource {
    value: Option<Vec<u8>>,
    accepted: u128,
    given: u128,
}

impl MemorySource {
    /// A source of a value, or of none.
    pub fn new(value: Option<Vec<u8>>) -> Self
        ensures contents { source_contents result ≡ value_bytes value }
        ensures accepted { source_accepted result ≡ 0 }
        ensures given { source_given result ≡ 0 }
    {
        MemorySource {
            value,
            accepted: 0,
            given: 0,
        }
    }

    /// How many bytes the source gave. At 2^128 - 1 the count stands still.
    pub fn given_bytes(&self) -> u128
        ensures { result ≡ source_given self.now }
    {
        self.given
    }

    /// The value that the source holds.
    pub fn into_value(self) -> Option<Vec<u8>>
        ensures { value_bytes result ≡ source_contents self }
    {
        self.value
    }
}

impl BytesPartialDecoderTraits for MemorySource {
    ghost use Rattle.std.specs.Prelude.{refl};
    ghost use Rattle.std.proofs.Common.{◌∙◌};

    ghost contents = { source_contents };

    ghost is_honest = { λ _. true };

    ghost refused_calls = { λ _. 0 };

    ghost given_bytes = { source_given };

    ghost follows = { λ a b. (source_contents a ≡ source_contents b)
        × (source_accepted a ≡ source_accepted b) };

    ghost held_bytes = { source_length };

    fn size(&mut self) -> Result<Option<u64>, CodecError> {
        match &self.value {
            None => Ok(None),
            Some(value) => Ok(Some(value.len() as u64)),
        }
    }

    fn partial_decode(
        &mut self,
        alloc: Global,
        ranges: &[ByteRange],
    ) -> Result<Option<Vec<Vec<u8>>>, CodecError> {
        let given = self.given;
        let Some(value) = &self.value else {
            return Ok(None);
        };
        if any_ends_past(value, ranges) {
            return Err(CodecError::Damage);
        }
        let parts = read_ranges(alloc, value, ranges)?;
        self.given = count_parts(given, parts.as_slice());
        Ok(Some(parts))
    }

    fn partial_decode_concat(
        &mut self,
        alloc: Global,
        ranges: &[ByteRange],
    ) -> Result<Option<Vec<u8>>, CodecError> {
        let given = self.given;
        match &self.value {
            Some(value) if any_ends_past(value, ranges) => Err(CodecError::Damage),
            Some(value) => {
                let bytes = read_concat(alloc, value, ranges)?;
                self.given = given.saturating_add(bytes.len() as u128);
                Ok(Some(bytes))
            }
            _ => Ok(None),
        }
    }

    fn size_held(&self) -> usize {
        match &self.value {
            None => 0,
            Some(value) => value.len(),
        }
    }

    ghost same = { λ _ _ f. f.0 };

    ghost honest = { λ _ _ _. refl };

    ghost stays = { λ _. (refl, refl) };

    ghost goes_on = { λ _ _ _ f h. (f.0 ∙ h.0, f.1 ∙ h.1) };
}

impl BytesPartialEncoderTraits for MemorySource {
    ghost use Rattle.std.specs.Prelude.{refl};

    ghost accepted_writes = { source_accepted };

    ghost writes_ranges = { λ _. true };

    ghost rewrites = { λ _ _. Unit {0} };

    fn partial_encode(
        &mut self,
        alloc: Global,
        patches: &[ValuePatch<'_>],
    ) -> Result<(), CodecError> {
        if any_too_far(patches) {
            return Err(CodecError::Size);
        }
        patch_value(alloc, &mut self.value, patches)?;
        self.accepted = self.accepted.saturating_add(1);
        Ok(())
    }

    fn set(&mut self, value: Vec<u8>) -> Result<(), CodecError> {
        self.value = Some(value);
        self.accepted = self.accepted.saturating_add(1);
        Ok(())
    }

    fn erase(&mut self) -> Result<(), CodecError> {
        self.value = None;
        self.accepted = self.accepted.saturating_add(1);
        Ok(())
    }

    ghost reads = { λ _ _ _. tt };

    ghost unwritten = { λ _ _ f. f.1 };

    ghost still_ranges = { λ _ _ _. refl };

    ghost still_honest = { λ _ _ _. refl };

    ghost writes_on = { λ _ _ _ _ _. tt };
}

/// Writes ranges into a value, one after another; no value counts as empty. Where each of them lies
/// in the value, nothing is copied. An `Err` leaves it as it was.
fn patch_value(
    alloc: Global,
    value: &mut Option<Vec<u8>>,
    patches: &[ValuePatch<'_>],
) -> Result<(), AllocError>
    requires { any_too_far (patches_of patches.now) ≡ false }
    ensures ok { OnOk result (value_bytes value.new
        ≡ Some (patched_contents (value_bytes value.old) (patches_of patches.now))) }
    ensures err { OnErr result (value_bytes value.new ≡ value_bytes value.old) }
{
    match value {
        Some(held) => {
            if !value_patch::any_ends_past(patches, held.len()) {
                overwrite_each(held.as_mut_slice(), patches);
                return Ok(());
            }
            *held = patched(alloc, Some(held.as_slice()), patches)?;
        }
        None => *value = Some(patched(alloc, None, patches)?),
    }
    Ok(())
}
