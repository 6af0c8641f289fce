//! How many bytes elements of one size have.
ghost use Rattle.std.specs.Prelude.{◌≡◌, ◌≢◌, ◌*◌, ◌^◌, ◌<◌, length, true, IfOk, IfErr};
ghost use Rattle.zarr_grids_boxes.specs.Boxes.{product};
ghost use Rattle.zarr_codecs_meaning.specs.Types.{components, bytes_in, is_fixed, IsTooLarge};
ghost use Rattle.zarr_codecs_types.specs.Views.{type_of, components_of};
ghost use Rattle.zarr_codecs_bytes.specs.Orders.{have_one_byte};

use zarr_codecs_arrays::CodecError;
use zarr_codecs_types::{Component, DataType};
use zarr_grids_boxes::walk::count_places;

/// How many bytes so many elements of one size have. `Size` where they are 2^63 or more, or have as
/// many bytes; `Memory` where an element has no bytes, which no array holds.
pub(crate) fn byte_count(data_type: &DataType, count: u64) -> Result<u64, CodecError>
    requires { is_fixed (type_of data_type.now) ≡ true }
    ensures ok { IfOk result (λ n. n ≡ count * bytes_in (components (type_of data_type.now))) }
    ensures some { IfOk result (λ n. 0 < bytes_in (components (type_of data_type.now))) }
    ensures small { IfOk result (λ n. n < 2 ^ 63) }
    ensures err { IfErr result (λ e. e ≢ CodecError.Memory
        → (e ≡ CodecError.Size) × IsTooLarge (type_of data_type.now) count) }
{
    let Some(width) = data_type.byte_width() else {
        return if count == 0 {
            Ok(0)
        } else {
            Err(CodecError::Size)
        };
    };
    if width == 0 {
        return Err(CodecError::Memory);
    }
    match count.checked_mul(width as u64) {
        Some(bytes) if bytes < 1 << 63 => Ok(bytes),
        _ => Err(CodecError::Size),
    }
}

/// How many bytes the elements of an array have. `Size` where they are 2^63 or more, or have as
/// many bytes; `Memory` where an element has no bytes, which no array holds.
pub(crate) fn array_size(data_type: &DataType, shape: &[u64]) -> Result<u64, CodecError>
    requires { is_fixed (type_of data_type.now) ≡ true }
    ensures ok { IfOk result
        (λ n. n ≡ product shape.now * bytes_in (components (type_of data_type.now))) }
    ensures some { IfOk result (λ n. 0 < bytes_in (components (type_of data_type.now))) }
    ensures small { IfOk result (λ n. n < 2 ^ 63) }
    ensures err { IfErr result (λ e. e ≢ CodecError.Memory
        → (e ≡ CodecError.Size) × IsTooLarge (type_of data_type.now) (product shape.now)) }
{
    match count_places(shape) {
        Some(count) => byte_count(data_type, count),
        None => Err(CodecError::Size),
    }
}

/// How many elements of one size a value is, which is to be an array of them. `Damage` where it has
/// more bytes or fewer than the array's elements, also where these are 2^63 or more; `Memory` where
/// an element has no bytes, which no array holds.
pub(crate) fn whole_count(
    data_type: &DataType,
    shape: &[u64],
    value: &[u8],
) -> Result<u64, CodecError>
    requires { is_fixed (type_of data_type.now) ≡ true }
    ensures count { IfOk result (λ count. count ≡ product shape.now) }
    ensures some { IfOk result (λ count. 0 < bytes_in (components (type_of data_type.now))) }
    ensures long { IfOk result
        (λ count. length value.now ≡ count * bytes_in (components (type_of data_type.now))) }
    ensures err { IfErr result (λ e. e ≢ CodecError.Memory → (e ≡ CodecError.Damage)
        × (length value.now ≢ product shape.now * bytes_in (components (type_of data_type.now)))) }
{
    let Some(count) = count_places(shape) else {
        return match byte_count(data_type, 0) {
            Ok(_) => Err(CodecError::Damage),
            Err(_) => Err(CodecError::Memory),
        };
    };
    match byte_count(data_type, count) {
        Ok(length) => if value.len() as u64 == length {
            Ok(count)
        } else {
            Err(CodecError::Damage)
        },
        Err(CodecError::Size) => Err(CodecError::Damage),
        Err(_) => Err(CodecError::Memory),
    }
}

/// Whether no component has several bytes, so that none needs an order.
pub(crate) fn have_one_byte(data_type: &DataType) -> bool
    ensures { result ≡ have_one_byte (components (type_of data_type.now)) }
{
    match data_type {
        DataType::Int16
        | DataType::Int32
        | DataType::Int64
        | DataType::UInt16
        | DataType::UInt32
        | DataType::UInt64 => false,
        DataType::Custom(parts) => are_single(parts.as_slice()),
        _ => true,
    }
}

fn are_single(parts: &[Component]) -> bool
    ensures { result ≡ have_one_byte (components_of parts.now) }
{
    for part in parts {
        if part.byte_count > 1 {
            return false;
        }
    }
    true
}
