//! Elements of one byte, unpacked eight at a time.
ghost use Rattle.std.specs.Prelude.{◌≡◌, ◌++◌, ◌≤◌, ◌*◌, length, OnOk};
ghost use Rattle.zarr_codecs_meaning.specs.Numbers.{digits, number};
ghost use Rattle.zarr_codecs_packbits.specs.Packing.{bytes_restored};
ghost use Rattle.zarr_codecs_packbits.specs.Turning.{bits_of};

use crate::eights::word_of;
use crate::kept::KeptBits;
use std::alloc::AllocError;
use zarr_codecs_types::Sign;

/// Appends so many elements of one byte, of bytes that their kept bits were packed to.
pub(crate) fn unpack_bytes(
    bytes: &mut Vec<u8>,
    kept: KeptBits,
    count: u64,
    value: &[u8],
) -> Result<(), AllocError>
    requires { count * kept.count ≤ 8 * length value.now }
    ensures { OnOk result (bytes.new.items
        ≡ bytes.old.items ++ bytes_restored kept count (bits_of value.now)) }
{
    let mut rest = value;
    let mut left = count;
    while left > 0 {
        let some = left.min(8);
        let (front, others) = rest.split_at(rest.len().min(kept.count));
        push_restored(bytes, kept, word_in(front), some)?;
        rest = others;
        left -= some;
    }
    Ok(())
}

/// The number that at most eight bytes write, lowest first.
fn word_in(bytes: &[u8]) -> u64
    requires { length bytes.now ≤ 8 }
    ensures { result ≡ number 2 (bits_of bytes.now) }
{
    let all = KeptBits {
        first: 0,
        count: 8,
        sign: Sign::Unsigned,
    };
    word_of(all, bytes)
}

/// Appends so many elements, of the number that their kept bits write. Eight whose lowest bits
/// alone were kept, as of `bool`, are made at once.
fn push_restored(
    bytes: &mut Vec<u8>,
    kept: KeptBits,
    word: u64,
    count: u64,
) -> Result<(), AllocError>
    ensures { OnOk result (bytes.new.items ≡ bytes.old.items
        ++ bytes_restored kept count (digits 2 (count * kept.count) word)) }
{
    if kept.is_lowest_bit() && count == 8 {
        return bytes.extend_from_slice(&bits_in(word));
    }
    let scale = kept.scale();
    let mut rest = word;
    for n in 0..count {
        bytes.push(kept.byte_of(rest % scale))?;
        rest /= scale;
    }
    Ok(())
}

/// The lowest eight bits of a number, lowest first.
fn bits_in(word: u64) -> [u8; 8]
    ensures { result ≡ digits 2 8 word }
{
    let byte = (word % 256) as u8;
    [
        byte % 2,
        byte / 2 % 2,
        byte / 4 % 2,
        byte / 8 % 2,
        byte / 16 % 2,
        byte / 32 % 2,
        byte / 64 % 2,
        byte / 128,
    ]
}
