//! Strings as JSON.
ghost use Rattle.std.specs.Prelude.{◌≡◌, ◌==◌, ◌&&◌, ◌<◌, ◌≤◌, ◌++◌, [], ◌∷◌, true, not, nat_lt, take, length, IfOk, OnOk, OnErr};
ghost use Rattle.std.specs.Char.{digit_char};
ghost use Rattle.std.specs.List.{list_all};
ghost use Rattle.json.specs.Print.{escape, escape_byte, escape_letter, quoted};
ghost use Rattle.zarr_codecs_meaning.specs.Types as types;
ghost use Rattle.zarr_codecs_types.specs.FillMetadata.{bytes_data};
ghost use Rattle.zarr_codecs_json.specs.Texts.{Appends, Begins};

use std::alloc::AllocError;

/// Appends a string in quotes, with the shortest escapes. False where the bytes are not UTF-8.
pub(crate) fn push_string(text: &mut Vec<u8>, bytes: &[u8]) -> Result<bool, AllocError>
    ensures ok { IfOk result
        (Appends (bytes_data types.string bytes.now) text.old.items text.new.items) }
    ensures err { OnErr result (Begins text.old.items text.new.items) }
{
    if are_plain(bytes) {
        push_plain(text, bytes)?;
        return Ok(true);
    }
    let Ok(string) = str::from_utf8(bytes) else {
        return Ok(false);
    };
    push_quoted(text, string)?;
    Ok(true)
}

/// Whether all bytes are ASCII that stands for itself in a string in quotes.
fn are_plain(bytes: &[u8]) -> bool
    ensures { result ≡ list_all
        (λ b. ((nat_lt 31 b && not (b == 34)) && not (b == 92)) && nat_lt b 128) bytes.now }
{
    bytes.iter().all(|byte| is_plain(*byte) && *byte < 128)
}

/// Whether a byte stands for itself in a string in quotes.
#[inline(always)]
fn is_plain(byte: u8) -> bool
    ensures { result ≡ ((nat_lt 31 byte && not (byte == 34)) && not (byte == 92)) }
{
    byte > 31 && byte != b'"' && byte != b'\\'
}

/// Appends bytes in quotes.
fn push_plain(text: &mut Vec<u8>, bytes: &[u8]) -> Result<(), AllocError>
    ensures ok { OnOk result
        (text.new.items ≡ text.old.items ++ 34 ∷ (bytes.now ++ 34 ∷ [])) }
    ensures err { OnErr result (Begins text.old.items text.new.items) }
{
    text.push(b'"')?;
    text.extend_from_slice(bytes)?;
    text.push(b'"')?;
    Ok(())
}

/// Appends a string in quotes, run by run of bytes that need no escape.
fn push_quoted(text: &mut Vec<u8>, string: &str) -> Result<(), AllocError>
    ensures ok { OnOk result (text.new.items ≡ text.old.items ++ quoted string.now) }
    ensures err { OnErr result (Begins text.old.items text.new.items) }
{
    text.push(b'"')?;
    let mut rest = string.as_bytes();
    'runs: while !rest.is_empty() {
        rest = push_run(text, rest)?;
    }
    text.push(b'"')?;
    Ok(())
}

/// Appends the bytes before the first that needs an escape, and this one's escape. Returns the
/// bytes after it.
fn push_run<'a>(text: &mut Vec<u8>, bytes: &'a [u8]) -> Result<&'a [u8], AllocError>
    requires { 0 < length bytes.now }
    ensures ok { IfOk result (λ rest.
        text.new.items ++ escape rest.now ≡ text.old.items ++ escape bytes.now) }
    ensures shorter { IfOk result (λ rest. length rest.now < length bytes.now) }
    ensures begins { Begins text.old.items text.new.items }
{
    let (run, others) = bytes.split_at(plain_len(bytes));
    text.extend_from_slice(run)?;
    match others {
        [byte, rest @ ..] => {
            push_escape(text, *byte)?;
            Ok(rest)
        }
        [] => Ok(others),
    }
}

/// How many bytes there are before the first that needs an escape.
fn plain_len(bytes: &[u8]) -> usize
    ensures within { result ≤ length bytes.now }
    ensures plain { list_all (λ b. (nat_lt 31 b && not (b == 34)) && not (b == 92))
        (take result bytes.now) ≡ true }
{
    let mut count = 0;
    while count < bytes.len() && is_plain(bytes[count]) {
        count += 1;
    }
    count
}

/// Appends the escape of a byte, or the byte where it has none.
fn push_escape(text: &mut Vec<u8>, byte: u8) -> Result<(), AllocError>
    ensures ok { OnOk result (text.new.items ≡ text.old.items ++ escape_byte byte) }
    ensures err { OnErr result (text.new.items ≡ text.old.items) }
{
    let letter = escape_letter(byte);
    if letter > 0 {
        return text.extend_from_slice(&[b'\\', letter]);
    }
    if byte < 32 {
        let (high, low) = (digit_char(byte / 16), digit_char(byte % 16));
        return text.extend_from_slice(&[b'\\', b'u', b'0', b'0', high, low]);
    }
    text.extend_from_slice(&[byte])
}

/// The letter of a byte's short escape, or 0 where it has none.
fn escape_letter(byte: u8) -> u8
    ensures { result ≡ escape_letter byte }
{
    match byte {
        b'"' | b'\\' => byte,
        8 => b'b',
        12 => b'f',
        10 => b'n',
        13 => b'r',
        9 => b't',
        _ => 0,
    }
}

/// The hexadecimal digit of a number.
fn digit_char(number: u8) -> u8
    requires { number < 16 }
    ensures { result ≡ digit_char number }
{
    if number < 10 {
        b'0' + number
    } else {
        b'a' + (number - 10)
    }
}
