//! Numbers as bytes, little endian.
ghost use Rattle.std.specs.Prelude.{◌≡◌, ◌++◌, ◌+◌, ◌<◌, length, take, drop, OnOk, MatchOption};
ghost use Rattle.zarr_codecs_meaning.specs.Numbers.{number, word};

use std::alloc::AllocError;

/// Appends a number as eight bytes.
pub(crate) fn push_word(bytes: &mut Vec<u8>, n: u64) -> Result<(), AllocError>
    ensures { OnOk result (bytes.new.items ≡ bytes.old.items ++ word n) }
{
    let word = n.to_le_bytes();
    bytes.extend_from_slice(&word)?;
    Ok(())
}

/// The number that the first eight bytes write, and the bytes after them.
pub(crate) fn split_word(bytes: &[u8]) -> Option<(u64, &[u8])>
    ensures { MatchOption result (length bytes.now < 8) (λ split.
        (split.0 ≡ number 256 (take 8 bytes.now)) × (split.1.now ≡ drop 8 bytes.now)
        × (length split.1.now + 8 ≡ length bytes.now)) }
{
    let (told, rest) = bytes.split_first_chunk::<8>()?;
    Some((u64::from_le_bytes(*told), rest))
}

/// The number that eight bytes write.
pub(crate) fn word_in(bytes: &[u8]) -> u64
    requires { length bytes.now ≡ 8 }
    ensures { result ≡ number 256 bytes.now }
{
    match split_word(bytes) {
        Some((n, _)) => n,
        None => 0,
    }
}
