//! Packed bits, with the byte that tells their padding.
ghost use Rattle.std.specs.Prelude.{◌≡◌, true, IfOk};
ghost use Rattle.zarr_codecs_meaning.specs.Decoding.{without_padding};
ghost use Rattle.zarr_codecs_meaning.specs.Encoding.{padding_bits, with_padding};
ghost use Rattle.zarr_codecs_packbits.specs.Turning.{are_bits};
ghost use Rattle.zarr_codecs_packbits.specs.Views.{padding_of};

use crate::bits::push_packed;
use crate::codec::PackBitsPaddingEncoding;
use std::alloc::{AllocError, Global};

/// The bytes of bits, with the byte that tells how many zero bits fill the last one, where there is
/// such a byte.
pub(crate) fn with_padding(
    alloc: Global,
    padding: PackBitsPaddingEncoding,
    bits: &[u8],
) -> Result<Vec<u8>, AllocError>
    requires { are_bits bits.now ≡ true }
    ensures { IfOk result (λ value. value.items ≡ with_padding (padding_of padding) bits.now) }
{
    let mut value = Vec::new(alloc);
    match padding {
        PackBitsPaddingEncoding::None => push_packed(&mut value, bits)?,
        PackBitsPaddingEncoding::FirstByte => {
            value.push(padding_bits(bits))?;
            push_packed(&mut value, bits)?;
        }
        PackBitsPaddingEncoding::LastByte => {
            push_packed(&mut value, bits)?;
            value.push(padding_bits(bits))?;
        }
    }
    Ok(value)
}

/// How many zero bits fill the last byte.
fn padding_bits(bits: &[u8]) -> u8
    ensures { result ≡ padding_bits bits.now }
{
    ((8 - bits.len() % 8) % 8) as u8
}

/// The bytes of bits, without the byte that tells the padding.
pub(crate) fn without_padding(padding: PackBitsPaddingEncoding, value: &[u8]) -> &[u8]
    ensures { result.now ≡ without_padding (padding_of padding) value.now }
{
    match padding {
        PackBitsPaddingEncoding::None => value,
        PackBitsPaddingEncoding::FirstByte => match value.split_first() {
            Some((_told, rest)) => rest,
            None => value,
        },
        PackBitsPaddingEncoding::LastByte => match value.split_last() {
            Some((_told, rest)) => rest,
            None => value,
        },
    }
}
