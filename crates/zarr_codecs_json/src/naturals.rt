//! Numbers without a sign, in digits.
ghost use Rattle.std.specs.Prelude.{◌≡◌, ◌<◌, ◌+◌, ◌%◌, ◌++◌, decimal, OnOk, OnErr};

use itoa::Buffer;
use std::alloc::AllocError;

/// Appends a number in digits.
#[inline(always)]
pub(crate) fn push_natural(text: &mut Vec<u8>, word: u64) -> Result<(), AllocError>
    ensures ok { OnOk result (text.new.items ≡ text.old.items ++ decimal word) }
    ensures err { OnErr result (text.new.items ≡ text.old.items) }
{
    if word < 100_000 {
        return push_short(text, word as u32);
    }
    let mut buffer = Buffer::new();
    text.extend_from_slice(buffer.format(word).as_bytes())
}

/// Appends a number of up to five digits. They are copied as so many bytes, with no loop.
fn push_short(text: &mut Vec<u8>, word: u32) -> Result<(), AllocError>
    requires { word < 100000 }
    ensures ok { OnOk result (text.new.items ≡ text.old.items ++ decimal word) }
    ensures err { OnErr result (text.new.items ≡ text.old.items) }
{
    let tens = word / 10;
    let hundreds = tens / 10;
    let thousands = hundreds / 10;
    let (one, ten, hundred) = (digit(word), digit(tens), digit(hundreds));
    if word < 10 {
        return text.extend_from_slice(&[one]);
    }
    if word < 100 {
        return text.extend_from_slice(&[ten, one]);
    }
    if word < 1_000 {
        return text.extend_from_slice(&[hundred, ten, one]);
    }
    let thousand = digit(thousands);
    if word < 10_000 {
        return text.extend_from_slice(&[thousand, hundred, ten, one]);
    }
    text.extend_from_slice(&[digit(thousands / 10), thousand, hundred, ten, one])
}

/// The last digit of a number.
#[inline(always)]
pub(crate) fn digit(number: u32) -> u8
    ensures { result ≡ 48 + number % 10 }
{
    b'0' + (number % 10) as u8
}
