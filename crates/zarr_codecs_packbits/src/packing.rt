//! Elements packed, and unpacked.
ghost use Rattle.std.specs.Prelude.{◌≡◌, ◌*◌, ◌<◌, ◌++◌, length, true, unwrap_or, IfOk, OnOk};
ghost use Rattle.std.specs.List.{list_all};
ghost use Rattle.zarr_codecs_meaning.specs.Decoding.{without_padding};
ghost use Rattle.zarr_codecs_meaning.specs.Encoding.{with_padding};
ghost use Rattle.zarr_codecs_meaning.specs.Fits.{bits_fit, packed_size};
ghost use Rattle.zarr_codecs_meaning.specs.Types.{bytes_in};
ghost use Rattle.zarr_codecs_types.specs.Views.{components_of};
ghost use Rattle.zarr_codecs_packbits.specs.Packing.{bytes_of, kept_of};
ghost use Rattle.zarr_codecs_packbits.specs.Turning.{bits_of};
ghost use Rattle.zarr_codecs_packbits.specs.Views.{padding_of};

use crate::bits::{push_packed, put_bits};
use crate::codec::PackBitsCodec;
use crate::eights::{kept_of_byte, pack_bytes};
use crate::padding::{with_padding, without_padding};
use crate::restoring::unpack_bytes;
use crate::turning::{Way, put_turned};
use std::alloc::{AllocError, Global};
use zarr_codecs_types::Component;

/// The value that so many elements are encoded to.
pub(crate) fn pack(
    alloc: Global,
    codec: PackBitsCodec,
    parts: &[Component],
    count: u64,
    bytes: &[u8],
) -> Result<Vec<u8>, AllocError>
    requires fit { list_all (bits_fit (unwrap_or codec.first_bit 0) codec.last_bit)
        (components_of parts.now) ≡ true }
    requires positive { 0 < bytes_in (components_of parts.now) }
    requires whole { length bytes.now ≡ count * bytes_in (components_of parts.now) }
    ensures { IfOk result (λ value. value.items ≡ with_padding (padding_of codec.padding)
        (kept_of (unwrap_or codec.first_bit 0) codec.last_bit (components_of parts.now)
        bytes.now)) }
{
    match kept_of_byte(codec.turn(Way::Keep), parts) {
        Some(kept) => pack_bytes(alloc, codec.padding, kept, bytes),
        None => pack_bits(alloc, codec, parts, count, bytes),
    }
}

/// The value that so many elements of any components are encoded to. While it works, each of their
/// bits takes a byte.
fn pack_bits(
    alloc: Global,
    codec: PackBitsCodec,
    parts: &[Component],
    count: u64,
    bytes: &[u8],
) -> Result<Vec<u8>, AllocError>
    requires fit { list_all (bits_fit (unwrap_or codec.first_bit 0) codec.last_bit)
        (components_of parts.now) ≡ true }
    requires positive { 0 < bytes_in (components_of parts.now) }
    requires whole { length bytes.now ≡ count * bytes_in (components_of parts.now) }
    ensures { IfOk result (λ value. value.items ≡ with_padding (padding_of codec.padding)
        (kept_of (unwrap_or codec.first_bit 0) codec.last_bit (components_of parts.now)
        bytes.now)) }
{
    let mut bits = Vec::new(alloc);
    put_bits(&mut bits, bytes)?;
    let mut kept = Vec::new(alloc);
    put_turned(
        &mut kept,
        codec.turn(Way::Keep),
        parts,
        count,
        bits.as_slice(),
    )?;
    with_padding(alloc, codec.padding, kept.as_slice())
}

/// The bytes of elements that were unpacked, to which those of more are appended, and two vectors
/// that are lent for the bits of these.
#[derive(Drop)]
pub(crate) struct Unpacker {
    pub bytes: Vec<u8>,
    pub bits: Vec<u8>,
    pub turned: Vec<u8>,
}

impl Unpacker {
    ghost use Rattle.std.specs.Prelude.{◌≡◌, [], IfOk};

    /// No elements yet, and room for so many bytes.
    pub(crate) fn with_capacity(alloc: Global, capacity: usize) -> Result<Unpacker, AllocError>
        ensures { IfOk result (λ made. made.bytes.items ≡ []) }
    {
        Ok(Unpacker {
            bytes: Vec::with_capacity(alloc, capacity)?,
            bits: Vec::new(alloc),
            turned: Vec::new(alloc),
        })
    }
}

/// The bytes of so many elements of a value.
pub(crate) fn unpack(
    alloc: Global,
    codec: PackBitsCodec,
    parts: &[Component],
    count: u64,
    value: &[u8],
) -> Result<Vec<u8>, AllocError>
    requires fit { list_all (bits_fit (unwrap_or codec.first_bit 0) codec.last_bit)
        (components_of parts.now) ≡ true }
    requires whole { length value.now ≡ packed_size (padding_of codec.padding)
        (unwrap_or codec.first_bit 0) codec.last_bit (components_of parts.now) count }
    ensures { IfOk result (λ bytes. bytes.items ≡ bytes_of (unwrap_or codec.first_bit 0)
        codec.last_bit (components_of parts.now) count
        (bits_of (without_padding (padding_of codec.padding) value.now))) }
{
    // An element has at least a bit of the value, so a number of them that the value can't hold
    // asks for no memory.
    let room = (count as usize).min(value.len().saturating_mul(8));
    let mut made = Unpacker::with_capacity(alloc, room)?;
    push_unpacked(&mut made, codec, parts, count, value)?;
    Ok(made.bytes)
}

/// Appends the bytes of so many elements of a value.
pub(crate) fn push_unpacked(
    made: &mut Unpacker,
    codec: PackBitsCodec,
    parts: &[Component],
    count: u64,
    value: &[u8],
) -> Result<(), AllocError>
    requires fit { list_all (bits_fit (unwrap_or codec.first_bit 0) codec.last_bit)
        (components_of parts.now) ≡ true }
    requires whole { length value.now ≡ packed_size (padding_of codec.padding)
        (unwrap_or codec.first_bit 0) codec.last_bit (components_of parts.now) count }
    ensures { OnOk result (made.new.bytes.items ≡ made.old.bytes.items
        ++ bytes_of (unwrap_or codec.first_bit 0) codec.last_bit (components_of parts.now) count
        (bits_of (without_padding (padding_of codec.padding) value.now))) }
{
    match kept_of_byte(codec.turn(Way::Restore), parts) {
        Some(kept) => {
            let packed = without_padding(codec.padding, value);
            unpack_bytes(&mut made.bytes, kept, count, packed)
        }
        None => unpack_bits(made, codec, parts, count, value),
    }
}

/// Appends the bytes of so many elements of any components of a value. While it works, each of
/// their bits takes a byte.
fn unpack_bits(
    made: &mut Unpacker,
    codec: PackBitsCodec,
    parts: &[Component],
    count: u64,
    value: &[u8],
) -> Result<(), AllocError>
    requires fit { list_all (bits_fit (unwrap_or codec.first_bit 0) codec.last_bit)
        (components_of parts.now) ≡ true }
    requires whole { length value.now ≡ packed_size (padding_of codec.padding)
        (unwrap_or codec.first_bit 0) codec.last_bit (components_of parts.now) count }
    ensures { OnOk result (made.new.bytes.items ≡ made.old.bytes.items
        ++ bytes_of (unwrap_or codec.first_bit 0) codec.last_bit (components_of parts.now) count
        (bits_of (without_padding (padding_of codec.padding) value.now))) }
{
    put_bits(&mut made.bits, without_padding(codec.padding, value))?;
    put_turned(
        &mut made.turned,
        codec.turn(Way::Restore),
        parts,
        count,
        made.bits.as_slice(),
    )?;
    push_packed(&mut made.bytes, made.turned.as_slice())
}
