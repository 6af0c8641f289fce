//! Lists of numbers of at most 16 bits without a sign, as JSON. Their text is put together in a
//! small room, and appended where the room is full.
ghost use Rattle.std.specs.Prelude.{◌≡◌, ℕ, ◌≤◌, ◌<◌, ◌+◌, ◌/◌, ◌++◌, ◌∷◌, [], decimal, false, length, take, IfOk, OnOk, OnErr};
ghost use Rattle.serde_json.specs.Written.{comma_if, items_text};
ghost use Rattle.zarr_codecs_meaning.specs.Numbers.{number};
ghost use Rattle.zarr_codecs_json.specs.Texts.{Begins, element_text, fixed_data, kind_type};
ghost use Rattle.zarr_codecs_json.specs.declared.numbers.Kind.TheVariants as kind;

use crate::naturals::digit;
use std::alloc::AllocError;

/// How many bytes of text the room has.
const ROOM: usize = 256;

/// The most bytes that an element takes: a comma and five digits.
const LONGEST: usize = 6;

/// Puts a byte after the text at the front of a room.
#[inline(always)]
fn put_byte(room: &mut [u8], at: usize, byte: u8) -> usize
    requires { at < length room.old }
    ensures text { take result room.new ≡ take at room.old ++ byte ∷ [] }
    ensures end { result ≡ at + 1 }
    ensures size { length room.new ≡ length room.old }
{
    room[at] = byte;
    at + 1
}

/// Puts a number of one or two digits after the text at the front of a room.
#[inline(always)]
#[tactic(auto, using(crate::proofs::FewDigits::only_digit, crate::proofs::FewDigits::last_digit))]
fn put_two_digits(room: &mut [u8], at: usize, word: u32) -> usize
    requires small { word < 100 }
    requires room { at + 2 ≤ length room.old }
    ensures text { take result room.new ≡ take at room.old ++ decimal word }
    ensures end { result ≤ at + 2 }
    ensures size { length room.new ≡ length room.old }
{
    if word < 10 {
        return put_byte(room, at, digit(word));
    }
    let next = put_byte(room, at, digit(word / 10));
    put_byte(room, next, digit(word))
}

/// Puts a number of up to three digits after the text at the front of a room.
#[inline(always)]
#[tactic(auto, using(crate::proofs::FewDigits::only_digit, crate::proofs::FewDigits::last_digit))]
fn put_three_digits(room: &mut [u8], at: usize, word: u32) -> usize
    requires small { word < 1000 }
    requires room { at + 3 ≤ length room.old }
    ensures text { take result room.new ≡ take at room.old ++ decimal word }
    ensures end { result ≤ at + 3 }
    ensures size { length room.new ≡ length room.old }
{
    if word < 10 {
        return put_byte(room, at, digit(word));
    }
    let next = put_two_digits(room, at, word / 10);
    put_byte(room, next, digit(word))
}

/// Puts a number of up to four digits after the text at the front of a room.
#[inline(always)]
#[tactic(auto, using(crate::proofs::FewDigits::only_digit, crate::proofs::FewDigits::last_digit))]
fn put_four_digits(room: &mut [u8], at: usize, word: u32) -> usize
    requires small { word < 10000 }
    requires room { at + 4 ≤ length room.old }
    ensures text { take result room.new ≡ take at room.old ++ decimal word }
    ensures end { result ≤ at + 4 }
    ensures size { length room.new ≡ length room.old }
{
    if word < 10 {
        return put_byte(room, at, digit(word));
    }
    let next = put_three_digits(room, at, word / 10);
    put_byte(room, next, digit(word))
}

/// Puts a number of up to five digits after the text at the front of a room.
#[inline(always)]
#[tactic(auto, using(crate::proofs::FewDigits::only_digit, crate::proofs::FewDigits::last_digit))]
fn put_five_digits(room: &mut [u8], at: usize, word: u32) -> usize
    requires small { word < 100000 }
    requires room { at + 5 ≤ length room.old }
    ensures text { take result room.new ≡ take at room.old ++ decimal word }
    ensures end { result ≤ at + 5 }
    ensures size { length room.new ≡ length room.old }
{
    if word < 10 {
        return put_byte(room, at, digit(word));
    }
    let next = put_four_digits(room, at, word / 10);
    put_byte(room, next, digit(word))
}

/// The number that one or two bytes write, the lowest first.
#[inline(always)]
fn short_number(bytes: &[u8]) -> u32
    requires { length bytes.now ≤ 2 }
    ensures value { result ≡ number 256 bytes.now }
    ensures small { result < 65536 }
{
    match bytes {
        [a] => *a as u32,
        [a, b] => *a as u32 + 256 * *b as u32,
        _ => 0,
    }
}

/// Puts an element after the text at the front of a room, and a comma before it where another
/// element stands before it.
#[inline(always)]
fn put_element(room: &mut [u8], at: usize, later: bool, element: &[u8]) -> usize
    requires few { length element.now ≤ 2 }
    requires room { at + 6 ≤ length room.old }
    ensures text { (width : ℕ) → take result room.new
        ≡ take at room.old ++ (comma_if later ++ element_text kind.Unsigned width element.now) }
    ensures end { result ≤ at + 6 }
    ensures size { length room.new ≡ length room.old }
{
    let word = short_number(element);
    if !later {
        return put_five_digits(room, at, word);
    }
    let next = put_byte(room, at, b',');
    put_five_digits(room, next, word)
}

/// Where the next element goes in a room with text at its front. Where there may be too little room
/// for it, that text is appended first.
#[inline(always)]
fn make_room(text: &mut Vec<u8>, room: &[u8], at: usize) -> Result<usize, AllocError>
    requires within { at ≤ length room.now }
    requires size { length room.now ≡ 256 }
    ensures ok { IfOk result (λ next. text.new.items ++ take next room.now
        ≡ text.old.items ++ take at room.now) }
    ensures begins { OnOk result (Begins text.old.items text.new.items) }
    ensures next { IfOk result (λ next. next + 6 ≤ 256) }
    ensures err { OnErr result (text.new.items ≡ text.old.items) }
{
    if at <= ROOM - LONGEST {
        return Ok(at);
    }
    text.extend_from_slice(&room[..at])?;
    Ok(0)
}

/// Appends the numbers without a sign that bytes are, with commas between them, and the list's end.
/// Compiled for each type of its own.
#[inline(always)]
pub(crate) fn push_short_numbers(
    text: &mut Vec<u8>,
    width: usize,
    bytes: &[u8],
) -> Result<(), AllocError>
    requires some { 0 < width }
    requires narrow { width ≤ 16 }
    ensures ok { OnOk result (text.new.items ≡ text.old.items
        ++ items_text false (fixed_data (kind_type kind.Unsigned width)
        ((width + 7) / 8) bytes.now)) }
    ensures err { OnErr result (Begins text.old.items text.new.items) }
{
    let count = (width + 7) / 8;
    let mut room = [0u8; ROOM];
    let mut at = 0;
    let mut rest = bytes;
    let mut later = false;
    while rest.len() >= count {
        let (element, others) = rest.split_at(count);
        let next = make_room(text, &room, at)?;
        at = put_element(&mut room, next, later, element);
        later = true;
        rest = others;
    }
    text.extend_from_slice(&room[..at])?;
    text.push(b']')?;
    Ok(())
}
