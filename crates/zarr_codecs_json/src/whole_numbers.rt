//! Elements that are given as whole numbers.
ghost use Rattle.std.specs.Prelude.{◌≡◌, ℕ, pos, ◌≤◌, ◌<◌, ◌++◌, nat_lt, None, IfOk, OnOk, IfSome, IfNone};
ghost use Rattle.serde_json.specs.View.{items_view};
ghost use Rattle.zarr_codecs_meaning.specs.Types as types;
ghost use Rattle.zarr_codecs_types.specs.FillMetadata.{integer_fits};
ghost use Rattle.zarr_codecs_types.specs.Given.{elements_in};
ghost use Rattle.zarr_codecs_types.specs.Integers.{integer_bytes};
ghost use Rattle.zarr_codecs_types.specs.Views.{type_of, sign_of};
ghost use Rattle.zarr_codecs_arrays.specs.Views.{payload_of};
ghost use Rattle.zarr_codecs_json.specs.Numbers.{number_items};
ghost use Rattle.zarr_codecs_json.specs.Outcomes.{AreGiven};

use crate::reading::elements_in;
use serde_json::Value;
use std::alloc::{AllocError, Global};
use zarr_codecs_arrays::ArrayBytes;
use zarr_codecs_types::{DataType, Sign};

/// The elements of a data type that whole numbers say, as `elements_in` of the JSON list of them.
pub fn elements_of_numbers(
    alloc: Global,
    data_type: &DataType,
    numbers: &[u64],
) -> Result<Option<ArrayBytes>, AllocError>
    ensures some { IfOk result (λ o. IfSome o (λ a.
        AreGiven (type_of data_type.now) (number_items numbers.now) (payload_of a))) }
    ensures none { IfOk result (λ o. IfNone o
        (elements_in (type_of data_type.now) (number_items numbers.now) ≡ None)) }
{
    match data_type {
        DataType::Int2 => integers_of(alloc, Sign::Signed, 2, numbers),
        DataType::Int4 => integers_of(alloc, Sign::Signed, 4, numbers),
        DataType::Int8 => integers_of(alloc, Sign::Signed, 8, numbers),
        DataType::Int16 => integers_of(alloc, Sign::Signed, 16, numbers),
        DataType::Int32 => integers_of(alloc, Sign::Signed, 32, numbers),
        DataType::Int64 => integers_of(alloc, Sign::Signed, 64, numbers),
        DataType::UInt2 => integers_of(alloc, Sign::Unsigned, 2, numbers),
        DataType::UInt4 => integers_of(alloc, Sign::Unsigned, 4, numbers),
        DataType::UInt8 => integers_of(alloc, Sign::Unsigned, 8, numbers),
        DataType::UInt16 => integers_of(alloc, Sign::Unsigned, 16, numbers),
        DataType::UInt32 => integers_of(alloc, Sign::Unsigned, 32, numbers),
        DataType::UInt64 => integers_of(alloc, Sign::Unsigned, 64, numbers),
        _ => {
            let values = values_of(alloc, numbers)?;
            elements_in(alloc, data_type, values.as_slice())
        }
    }
}

/// Whole numbers as JSON values.
fn values_of(alloc: Global, numbers: &[u64]) -> Result<Vec<Value>, AllocError>
    ensures { IfOk result (λ values. items_view values.items ≡ number_items numbers.now) }
{
    let mut values = Vec::with_capacity(alloc, numbers.len())?;
    for number in numbers {
        values.push(Value::from(*number))?;
    }
    Ok(values)
}

/// The least whole number that is too large for an integer of so many bits.
#[inline(always)]
fn limit_of(sign: Sign, width: usize) -> u128
    requires narrow { width ≤ 64 }
    ensures { (n : ℕ) → integer_fits (sign_of sign) width (pos n) ≡ nat_lt n result }
{
    match sign {
        Sign::Unsigned => 2u128.pow(width as u32),
        Sign::Signed => 2u128.pow(width.saturating_sub(1) as u32),
    }
}

/// Appends the lowest bytes of a whole number, lowest first.
#[inline(always)]
fn push_bytes(bytes: &mut Vec<u8>, count: usize, number: u64) -> Result<(), AllocError>
    requires some { 0 < count }
    requires few { count ≤ 8 }
    ensures { OnOk result
        (bytes.new.items ≡ bytes.old.items ++ integer_bytes count (pos number)) }
{
    let word = (number as i128).to_le_bytes();
    if count == 1 {
        bytes.push(word[0])?;
        return Ok(());
    }
    bytes.extend_from_slice(&word[..count])?;
    Ok(())
}

/// Integers of so many bits, little endian. `None` where a number is not in their range. Compiled
/// for each type of its own.
#[inline(always)]
fn integers_of(
    alloc: Global,
    sign: Sign,
    width: usize,
    numbers: &[u64],
) -> Result<Option<ArrayBytes>, AllocError>
    requires some { 0 < width }
    requires narrow { width ≤ 64 }
    ensures some { IfOk result (λ o. IfSome o (λ a.
        AreGiven (types.integer (sign_of sign) width) (number_items numbers.now)
        (payload_of a))) }
    ensures none { IfOk result (λ o. IfNone o
        (elements_in (types.integer (sign_of sign) width) (number_items numbers.now)
        ≡ None)) }
{
    let count = (width + 7) / 8;
    let Some(total) = numbers.len().checked_mul(count) else {
        return Err(AllocError);
    };
    let limit = limit_of(sign, width);
    let mut bytes = Vec::with_capacity(alloc, total)?;
    for number in numbers {
        if *number as u128 >= limit {
            return Ok(None);
        }
        push_bytes(&mut bytes, count, *number)?;
    }
    Ok(Some(ArrayBytes::Fixed(bytes)))
}
