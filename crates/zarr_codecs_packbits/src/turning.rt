//! The bits of elements turned to those that are kept of them, and back.
ghost use Rattle.std.specs.Prelude.{◌≡◌, ◌++◌, ◌<◌, ◌≤◌, ◌+◌, ◌-◌, ◌*◌, ◌/◌, ◌^◌, length, take, drop, replicate, true, IfOk, OnOk};
ghost use Rattle.std.specs.List.{list_all};
ghost use Rattle.zarr_codecs_meaning.specs.Numbers.{digits, number};
ghost use Rattle.zarr_codecs_meaning.specs.Types.{extended};
ghost use Rattle.zarr_codecs_meaning.specs.Fits.{bits_fit};
ghost use Rattle.zarr_codecs_types.specs.Views.{component_of, components_of, sign_of};
ghost use Rattle.zarr_codecs_packbits.specs.Turning.{are_bits, bit_above, bits_read, component_turned, element_bits_read, element_turned, turned};

use std::alloc::AllocError;
use zarr_codecs_types::{Component, Sign};

/// Which way bits are turned: all of an element to those that are kept, or back.
#[derive(Clone, Copy, Debug, PartialEq, Eq)]
pub(crate) enum Way {
    Keep,
    Restore,
}

/// Which bits of each component are kept, and which way they are turned.
#[derive(Clone, Copy)]
pub(crate) struct Turn {
    pub way: Way,
    pub first: u64,
    pub last: Option<u64>,
}

impl Turn {
    ghost use Rattle.std.specs.Prelude.{◌≡◌, ◌+◌, true};
    ghost use Rattle.zarr_codecs_meaning.specs.Fits.{bits_fit, last_kept};
    ghost use Rattle.zarr_codecs_types.specs.Views.{component_of};

    /// The bit after the last one that is kept of a component.
    pub(crate) fn end(self, part: Component) -> usize
        requires { bits_fit self.first self.last (component_of part) ≡ true }
        ensures { result ≡ last_kept self.last (component_of part) + 1 }
    {
        match self.last {
            Some(last) => last as usize + 1,
            None => part.width,
        }
    }
}

/// Puts so many elements turned in place of what a vector has, of their bits or of those that were
/// kept of them.
pub(crate) fn put_turned(
    out: &mut Vec<u8>,
    turn: Turn,
    parts: &[Component],
    count: u64,
    bits: &[u8],
) -> Result<(), AllocError>
    requires fit { list_all (bits_fit turn.first turn.last) (components_of parts.now) ≡ true }
    requires bits { are_bits bits.now ≡ true }
    requires enough { count * element_bits_read turn.way turn.first turn.last
        (components_of parts.now) ≤ length bits.now }
    ensures { OnOk result (out.new.items
        ≡ turned turn (components_of parts.now) count bits.now) }
{
    out.clear();
    let mut rest = bits;
    for _element in 0..count {
        rest = push_element(out, turn, parts, rest)?;
    }
    Ok(())
}

/// Appends the first element turned, and gives the bits after it.
fn push_element<'a>(
    out: &mut Vec<u8>,
    turn: Turn,
    parts: &[Component],
    bits: &'a [u8],
) -> Result<&'a [u8], AllocError>
    requires fit { list_all (bits_fit turn.first turn.last) (components_of parts.now) ≡ true }
    requires bits { are_bits bits.now ≡ true }
    requires enough { element_bits_read turn.way turn.first turn.last (components_of parts.now)
        ≤ length bits.now }
    ensures written { OnOk result (out.new.items ≡ out.old.items
        ++ element_turned turn.way turn.first turn.last (components_of parts.now)
        (take (element_bits_read turn.way turn.first turn.last (components_of parts.now))
        bits.now)) }
    ensures rest { IfOk result (λ rest. rest.now
        ≡ drop (element_bits_read turn.way turn.first turn.last (components_of parts.now))
        bits.now) }
{
    let Some((part, others)) = parts.split_first() else {
        return Ok(bits);
    };
    let rest = push_component(out, turn, *part, bits)?;
    push_element(out, turn, others, rest)
}

/// Appends the first component turned, and gives the bits after it.
fn push_component<'a>(
    out: &mut Vec<u8>,
    turn: Turn,
    part: Component,
    bits: &'a [u8],
) -> Result<&'a [u8], AllocError>
    requires fit { bits_fit turn.first turn.last (component_of part) ≡ true }
    requires bits { are_bits bits.now ≡ true }
    requires enough { bits_read turn.way turn.first turn.last (component_of part)
        ≤ length bits.now }
    ensures written { OnOk result (out.new.items ≡ out.old.items
        ++ component_turned turn.way turn.first turn.last (component_of part)
        (take (bits_read turn.way turn.first turn.last (component_of part)) bits.now)) }
    ensures rest { IfOk result (λ rest. rest.now
        ≡ drop (bits_read turn.way turn.first turn.last (component_of part)) bits.now) }
{
    let first = turn.first as usize;
    let kept = turn.end(part) - first;
    match turn.way {
        Way::Keep => {
            let (component, rest) = bits.split_at(8 * part.byte_count);
            push_kept(out, component, first, kept)?;
            Ok(rest)
        }
        Way::Restore => {
            let (component, rest) = bits.split_at(kept);
            push_restored(out, part, component, first)?;
            Ok(rest)
        }
    }
}

/// Appends so many bits of a component from one of them on. Zeros stand for those that aren't
/// there.
fn push_kept(
    out: &mut Vec<u8>,
    component: &[u8],
    first: usize,
    kept: usize,
) -> Result<(), AllocError>
    requires { are_bits component.now ≡ true }
    ensures { OnOk result (out.new.items
        ≡ out.old.items ++ digits 2 kept (number 2 component.now / 2 ^ first)) }
{
    let Some(end) = out.len().checked_add(kept) else {
        return Err(AllocError);
    };
    let (_below, rest) = component.split_at(first.min(component.len()));
    out.extend_from_slice(rest)?;
    fill_to(out, end, 0)
}

/// Appends the bits of a component of those that were kept: zeros below them, and above them zeros
/// or copies of the last one.
fn push_restored(
    out: &mut Vec<u8>,
    part: Component,
    kept: &[u8],
    first: usize,
) -> Result<(), AllocError>
    requires bits { are_bits kept.now ≡ true }
    requires some { 0 < length kept.now }
    ensures { OnOk result (out.new.items ≡ out.old.items ++ digits 2 (8 * part.byte_count)
        (extended (sign_of part.sign) (first + length kept.now) part.byte_count
        (number 2 kept.now * 2 ^ first))) }
{
    let Some(count) = part.byte_count.checked_mul(8) else {
        return Err(AllocError);
    };
    let Some(from) = out.len().checked_add(first) else {
        return Err(AllocError);
    };
    let Some(end) = out.len().checked_add(count) else {
        return Err(AllocError);
    };
    let above = bit_above(part.sign, kept);
    fill_to(out, from, 0)?;
    out.extend_from_slice(kept)?;
    fill_to(out, end, above)
}

/// The bit that stands above those that were kept.
fn bit_above(sign: Sign, kept: &[u8]) -> u8
    requires { 0 < length kept.now }
    ensures { result ≡ bit_above (sign_of sign) kept.now }
{
    match sign {
        Sign::Unsigned => 0,
        Sign::Signed => kept[kept.len() - 1],
    }
}

/// Cuts bits to so many, or appends copies of one up to so many.
fn fill_to(out: &mut Vec<u8>, end: usize, bit: u8) -> Result<(), AllocError>
    ensures { OnOk result (out.new.items ≡ take end out.old.items
        ++ replicate (end - length out.old.items) bit) }
{
    out.resize(end, bit)
}
