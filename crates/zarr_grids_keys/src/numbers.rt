//! The numbers in the keys of chunks.
ghost use Rattle.std.specs.Prelude.{◌≡◌, ◌++◌, OnOk};
ghost use Rattle.std.specs.String.{string_bytes};
ghost use Rattle.zarr_grids_keys.specs.Keys.{numbers_after};
ghost use Rattle.zarr_grids_keys.specs.Separators.{separator_byte};

use crate::separator::ChunkKeySeparator;
use itoa::Buffer;
use std::alloc::AllocError;

/// Writes each index after a separator. An `Err` leaves a part there.
pub(crate) fn push_numbers(
    key: &mut String,
    separator: ChunkKeySeparator,
    chunk: &[u64],
) -> Result<(), AllocError>
    ensures { OnOk result (string_bytes key.new
        ≡ string_bytes key.old ++ numbers_after (separator_byte separator) chunk.now) }
{
    let separator = separator.as_str();
    let mut digits = Buffer::new();
    for index in chunk {
        key.push_str(separator)?;
        key.push_str(digits.format(*index))?;
    }
    Ok(())
}

/// A bound on the bytes of an encoded key of a chunk: an index has at most 20 digits.
pub(crate) fn longest_key(chunk: &[u64]) -> usize {
    chunk.len().saturating_mul(21).saturating_add(1)
}
