//! Bytes that are all one byte.
ghost use Rattle.std.specs.Prelude.{◌≡◌, ◌==◌};
ghost use Rattle.std.specs.List.{list_all};

/// Whether each byte is `byte`. It compares the slice with itself shifted by one, which is as fast
/// as reading memory.
pub fn is_all(bytes: &[u8], byte: u8) -> bool
    ensures { result ≡ list_all (λ b. b == byte) bytes.now }
{
    if bytes.is_empty() {
        return true;
    }
    bytes[0] == byte && bytes[1..] == bytes[..bytes.len() - 1]
}
