//! Elements of one byte, packed eight at a time.
ghost use Rattle.std.specs.Prelude.{◌≡◌, ◌++◌, ◌≤◌, ◌<◌, ◌+◌, ◌*◌, length, true, IfOk, IfSome, OnOk};
ghost use Rattle.std.specs.List.{list_all};
ghost use Rattle.zarr_codecs_meaning.specs.Encoding.{packed, padding_bits, with_padding};
ghost use Rattle.zarr_codecs_meaning.specs.Fits.{bits_fit};
ghost use Rattle.zarr_codecs_meaning.specs.Numbers.{digits, number};
ghost use Rattle.zarr_codecs_types.specs.Views.{components_of};
ghost use Rattle.zarr_codecs_packbits.specs.Packing.{AreSingle, bits_from};
ghost use Rattle.zarr_codecs_packbits.specs.Views.{padding_of};

use crate::codec::PackBitsPaddingEncoding;
use crate::kept::KeptBits;
use crate::turning::Turn;
use std::alloc::{AllocError, Global};
use zarr_codecs_types::Component;

/// Which bits are kept, where an element is one component of one byte.
pub(crate) fn kept_of_byte(turn: Turn, parts: &[Component]) -> Option<KeptBits>
    requires { list_all (bits_fit turn.first turn.last) (components_of parts.now) ≡ true }
    ensures { IfSome result (AreSingle turn.first turn.last (components_of parts.now)) }
{
    let (part, others) = parts.split_first()?;
    if !others.is_empty() || part.byte_count != 1 {
        return None;
    }
    let end = turn.end(*part);
    if end > 8 {
        return None;
    }
    let first = turn.first as usize;
    let count = end - first;
    Some(KeptBits {
        first,
        count,
        sign: part.sign,
    })
}

/// The value that elements of one byte are encoded to.
pub(crate) fn pack_bytes(
    alloc: Global,
    padding: PackBitsPaddingEncoding,
    kept: KeptBits,
    bytes: &[u8],
) -> Result<Vec<u8>, AllocError>
    ensures { IfOk result (λ value. value.items
        ≡ with_padding (padding_of padding) (bits_from kept.first kept.count bytes.now)) }
{
    let told = padding_of_bytes(kept, bytes);
    let room = bytes.len() / 8 * kept.count;
    let mut value = Vec::with_capacity(alloc, room.saturating_add(16))?;
    match padding {
        PackBitsPaddingEncoding::None => push_bytes(&mut value, kept, bytes)?,
        PackBitsPaddingEncoding::FirstByte => {
            value.push(told)?;
            push_bytes(&mut value, kept, bytes)?;
        }
        PackBitsPaddingEncoding::LastByte => {
            push_bytes(&mut value, kept, bytes)?;
            value.push(told)?;
        }
    }
    Ok(value)
}

/// How many zero bits fill the last byte.
fn padding_of_bytes(kept: KeptBits, bytes: &[u8]) -> u8
    ensures { result ≡ padding_bits (bits_from kept.first kept.count bytes.now) }
{
    ((8 - bytes.len() % 8 * kept.count % 8) % 8) as u8
}

/// Appends what the kept bits of bytes are packed to. Zeros fill the last byte.
fn push_bytes(value: &mut Vec<u8>, kept: KeptBits, bytes: &[u8]) -> Result<(), AllocError>
    ensures { OnOk result (value.new.items
        ≡ value.old.items ++ packed (bits_from kept.first kept.count bytes.now)) }
{
    let mut rest = bytes;
    while let Some((eight, others)) = rest.split_first_chunk::<8>() {
        push_eight(value, kept, eight)?;
        rest = others;
    }
    push_word(
        value,
        word_of(kept, rest),
        (rest.len() * kept.count + 7) / 8,
    )?;
    Ok(())
}

/// Appends what the kept bits of eight bytes are packed to. Where each is kept of its lowest bit
/// alone, as of a `bool`, this is one byte, which is made at once.
fn push_eight(value: &mut Vec<u8>, kept: KeptBits, eight: &[u8; 8]) -> Result<(), AllocError>
    ensures { OnOk result (value.new.items ≡ value.old.items
        ++ digits 256 kept.count (number 2 (bits_from kept.first kept.count eight.now))) }
{
    if kept.first == 0 && kept.count == 1 {
        value.push(lowest_bits(eight))?;
        return Ok(());
    }
    push_word(value, word_of(kept, eight), kept.count)
}

/// The byte that the lowest bits of eight bytes write, lowest first.
fn lowest_bits(bytes: &[u8; 8]) -> u8
    ensures { result ≡ number 2 (bits_from 0 1 bytes.now) }
{
    let [a, b, c, d, e, f, g, h] = *bytes;
    let low = a % 2 + b % 2 * 2 + c % 2 * 4 + d % 2 * 8;
    let high = e % 2 * 16 + f % 2 * 32 + g % 2 * 64 + h % 2 * 128;
    low + high
}

/// The number that the kept bits of at most eight bytes write, lowest first.
pub(crate) fn word_of(kept: KeptBits, bytes: &[u8]) -> u64
    requires { length bytes.now ≤ 8 }
    ensures { result ≡ number 2 (bits_from kept.first kept.count bytes.now) }
{
    let scale = kept.scale();
    let mut word: u64 = 0;
    for i in 0..bytes.len() {
        let low = kept.number_of(bytes[bytes.len() - 1 - i]);
        word = word * scale + low;
    }
    word
}

/// Appends so many of the lowest bytes of a word.
fn push_word(value: &mut Vec<u8>, word: u64, count: usize) -> Result<(), AllocError>
    requires { count ≤ 8 }
    ensures { OnOk result (value.new.items ≡ value.old.items ++ digits 256 count word) }
{
    let bytes = word.to_le_bytes();
    value.extend_from_slice(&bytes[..count])?;
    Ok(())
}
