//! Where elements of variable length begin and end.
ghost use Rattle.std.specs.Prelude.{◌≡◌, ◌+◌, ◌-◌, ◌++◌, get_or, length, map, true, IsTrue, OnOk};
ghost use Rattle.zarr_codecs_arrays.specs.Offsets.{are_rising};

use std::alloc::{AllocError, Global};

/// Where each element of variable length begins in its bytes, and where the last one ends. There
/// is one offset more than there are elements, and none is less than the one before it.
#[derive(Debug, Drop)]
pub struct ArrayBytesOffsets {
    offsets: Vec<u64>,
    ghost rising: { IsTrue (are_rising offsets.items) },
}

impl ArrayBytesOffsets {
    ghost use Rattle.std.specs.Prelude.{◌≡◌, ◌+◌, ◌-◌, ◌++◌, map, IfSome, IfNone, IfOk, false};
    ghost use Rattle.zarr_codecs_arrays.specs.Offsets.{are_rising};
    ghost use Rattle.zarr_codecs_arrays.specs.Views.{numbers_of};

    /// The offsets, or `None` where there are none or one is less than the one before it.
    pub fn new(offsets: Vec<u64>) -> Option<ArrayBytesOffsets>
        ensures some { IfSome result (λ o. numbers_of o ≡ offsets.items) }
        ensures none { IfNone result (are_rising offsets.items ≡ false) }
    {
        if !are_rising(offsets.as_slice()) {
            return None;
        }
        Some(ArrayBytesOffsets { offsets })
    }

    /// The numbers.
    pub fn as_slice(&self) -> &[u64]
        ensures { result.now ≡ numbers_of self.now }
    {
        self.offsets.as_slice()
    }

    /// These offsets, and after them those of further elements, whose bytes begin at `start`, put
    /// behind as many bytes as `base` says. `Err` only where an allocation failed, or where these
    /// are no such offsets: the last one isn't `base`, one is less than the one before it, or one
    /// is too large.
    pub(crate) fn followed(
        self,
        base: u64,
        start: u64,
        ends: &[u64],
    ) -> Result<ArrayBytesOffsets, AllocError>
        ensures { IfOk result (λ o. numbers_of o
            ≡ numbers_of self ++ map (λ end. base + (end - start)) ends.now) }
    {
        let mut offsets = self.offsets;
        match offsets.as_slice().last() {
            Some(last) => if *last != base {
                return Err(AllocError);
            },
            None => return Err(AllocError),
        }
        push_ends(&mut offsets, base, start, ends)?;
        Ok(ArrayBytesOffsets { offsets })
    }

    /// Equal offsets. `Err` only where an allocation failed.
    pub fn try_clone(&self, alloc: Global) -> Result<ArrayBytesOffsets, AllocError>
        ensures { IfOk result (λ o. numbers_of o ≡ numbers_of self.now) }
    {
        let offsets = self.offsets.as_slice().to_vec(alloc)?;
        Ok(ArrayBytesOffsets { offsets })
    }
}

/// Whether there is a number, and none is less than the one before it.
fn are_rising(offsets: &[u64]) -> bool
    ensures { result ≡ are_rising offsets.now }
{
    let Some((first, rest)) = offsets.split_first() else {
        return false;
    };
    let mut last = *first;
    for offset in rest {
        if *offset < last {
            return false;
        }
        last = *offset;
    }
    true
}

/// Appends the ends of elements whose bytes begin at `start`, put behind as many bytes as `base`
/// says, which the last offset is.
fn push_ends(offsets: &mut Vec<u64>, base: u64, start: u64, ends: &[u64]) -> Result<(), AllocError>
    requires rising { are_rising offsets.old.items ≡ true }
    requires last { get_or offsets.old.items (length offsets.old.items - 1) 0 ≡ base }
    ensures are { OnOk result (offsets.new.items ≡ offsets.old.items
        ++ map (λ end. base + (end - start)) ends.now) }
    ensures rising { OnOk result (are_rising offsets.new.items ≡ true) }
{
    let mut before = start;
    for end in ends {
        if *end < before {
            return Err(AllocError);
        }
        let Some(next) = base.checked_add(*end - start) else {
            return Err(AllocError);
        };
        offsets.push(next)?;
        before = *end;
    }
    Ok(())
}
