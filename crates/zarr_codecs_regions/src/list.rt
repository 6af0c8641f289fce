//! Elements of an array by their numbers.
ghost use Rattle.std.specs.Prelude.{◌≡◌, ◌*◌, ◌+◌, ◌/◌, ◌<◌, ◌≤◌, length, take, drop, true, nat_lt, IfOk};
ghost use Rattle.std.specs.List.{list_all};
ghost use Rattle.zarr_codecs_meaning.specs.Payloads.{fixed_cells};
ghost use Rattle.zarr_codecs_meaning.specs.Places.{gather};
ghost use Rattle.zarr_codecs_meaning.specs.Types.{Cell};

use std::alloc::{AllocError, Global};

/// Whether all numbers are below a count.
pub fn are_below(numbers: &[u64], count: u64) -> bool
    ensures { result ≡ list_all (λ n. nat_lt n count) numbers.now }
{
    numbers.iter().all(|number| *number < count)
}

/// The elements with some numbers, in their order. `bytes` has elements of `width` bytes each, and
/// each number is below their count. `Err` only where an allocation failed.
pub fn extract_list(
    alloc: Global,
    bytes: &[u8],
    numbers: &[u64],
    width: usize,
) -> Result<Vec<u8>, AllocError>
    requires positive { 0 < width }
    requires inside { list_all (λ n. nat_lt n (length bytes.now / width)) numbers.now ≡ true }
    ensures elements { (other : Cell) → IfOk result (λ extracted. fixed_cells width extracted.items
        ≡ gather other (fixed_cells width bytes.now) numbers.now) }
    ensures length { IfOk result
        (λ extracted. length extracted.items ≡ length numbers.now * width) }
{
    let mut extracted = Vec::new(alloc);
    for number in numbers {
        extracted.extend_from_slice(element(bytes, *number, width))?;
    }
    Ok(extracted)
}

/// The bytes of the element with this number.
fn element(bytes: &[u8], number: u64, width: usize) -> &[u8]
    requires { number * width + width ≤ length bytes.now }
    ensures { result.now ≡ take width (drop (number * width) bytes.now) }
{
    let start = number as usize * width;
    &bytes[start..start + width]
}
