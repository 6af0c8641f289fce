//! Bytes as bits, one in each `u8`, bits as bytes, and bytes whose bits were moved.
ghost use Rattle.std.specs.Prelude.{◌≡◌, ◌++◌, ◌≤◌, ◌<◌, ◌*◌, take, drop, get_or, length, replicate, true, OnOk};
ghost use Rattle.zarr_codecs_meaning.specs.Encoding.{packed};
ghost use Rattle.zarr_codecs_meaning.specs.Numbers.{digits, number};
ghost use Rattle.zarr_codecs_packbits.specs.Turning.{are_bits, bits_of};

use std::alloc::AllocError;

/// Puts the bits of bytes in place of what a vector has, eight for each, lowest first.
pub(crate) fn put_bits(bits: &mut Vec<u8>, bytes: &[u8]) -> Result<(), AllocError>
    ensures { OnOk result (bits.new.items ≡ bits_of bytes.now) }
{
    bits.clear();
    for byte in bytes {
        push_bits(bits, *byte)?;
    }
    Ok(())
}

/// Puts so many bytes in place of what a vector has, whose bits are those of other bytes from the
/// bit `skip` on. Zeros stand for the bits past the end.
pub(crate) fn put_shifted(
    made: &mut Vec<u8>,
    bytes: &[u8],
    skip: usize,
    count: usize,
) -> Result<(), AllocError>
    requires skip { skip < 8 }
    requires count { count ≤ length bytes.now }
    ensures { OnOk result (bits_of made.new.items
        ≡ take (8 * count) (drop skip (bits_of bytes.now ++ replicate skip 0))) }
{
    made.clear();
    for index in 0..count {
        let (_before, rest) = bytes.split_at(index);
        made.push(first_shifted(rest, skip))?;
    }
    Ok(())
}

/// The byte of eight bits of bytes, from the bit `skip` on. Zeros stand for those past the end.
fn first_shifted(bytes: &[u8], skip: usize) -> u8
    requires skip { skip < 8 }
    requires some { 0 < length bytes.now }
    ensures { digits 2 8 result
        ≡ take 8 (drop skip (bits_of bytes.now ++ replicate skip 0)) }
{
    let two = byte_at(bytes, 0) as u64 + 256 * byte_at(bytes, 1) as u64;
    ((two >> skip) % 256) as u8
}

/// The byte at an index, or zero past the end.
fn byte_at(bytes: &[u8], index: usize) -> u8
    ensures { result ≡ get_or bytes.now index 0 }
{
    match bytes.get(index) {
        Some(byte) => *byte,
        None => 0,
    }
}

/// Appends the bits of a byte.
fn push_bits(bits: &mut Vec<u8>, byte: u8) -> Result<(), AllocError>
    ensures { OnOk result (bits.new.items ≡ bits.old.items ++ digits 2 8 byte) }
{
    let mut rest = byte;
    for _bit in 0..8u32 {
        bits.push(rest % 2)?;
        rest /= 2;
    }
    Ok(())
}

/// Appends the bytes of bits, eight for each, the first one lowest. Zeros fill the last byte.
pub(crate) fn push_packed(bytes: &mut Vec<u8>, bits: &[u8]) -> Result<(), AllocError>
    requires { are_bits bits.now ≡ true }
    ensures { OnOk result (bytes.new.items ≡ bytes.old.items ++ packed bits.now) }
{
    for n in 0..(bits.len() + 7) / 8 {
        let (_before, rest) = bits.split_at(8 * n);
        bytes.push(first_byte(rest))?;
    }
    Ok(())
}

/// The byte of the first eight bits; zeros stand for those that aren't there.
fn first_byte(bits: &[u8]) -> u8
    requires { are_bits bits.now ≡ true }
    ensures { result ≡ number 2 (take 8 bits.now) }
{
    let low = bit_at(bits, 0) + 2 * bit_at(bits, 1) + 4 * bit_at(bits, 2) + 8 * bit_at(bits, 3);
    let high = bit_at(bits, 4) + 2 * bit_at(bits, 5) + 4 * bit_at(bits, 6) + 8 * bit_at(bits, 7);
    low + 16 * high
}

/// The bit at an index, or zero past the end.
fn bit_at(bits: &[u8], index: usize) -> u8
    requires { are_bits bits.now ≡ true }
    ensures value { result ≡ get_or bits.now index 0 }
    ensures small { result < 2 }
{
    match bits.get(index) {
        Some(bit) => *bit,
        None => 0,
    }
}
