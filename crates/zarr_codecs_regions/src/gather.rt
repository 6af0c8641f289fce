//! Elements of an array by their numbers.
ghost use Rattle.std.specs.Prelude.{◌≡◌, ◌*◌, List, map, length, slice_index, take, drop, nat_lt};
ghost use Rattle.std.specs.Prelude.{Some, true, IfOk, IfSome, flat_map};
ghost use Rattle.std.specs.List.{list_all};
ghost use Rattle.zarr_codecs_meaning.specs.Payloads.{cells_in, optional};
ghost use Rattle.zarr_codecs_meaning.specs.Places.{gather};
ghost use Rattle.zarr_codecs_meaning.specs.Types.{Cell};
ghost use Rattle.zarr_codecs_types.specs.Views.{type_of};
ghost use Rattle.zarr_codecs_arrays.specs.Views.{payload_of, elements_of};

use crate::variable::gather_variable;
use std::alloc::{AllocError, Global};
use zarr_codecs_arrays::{ArrayBytes, Elements};
use zarr_codecs_types::DataType;

/// The elements with these numbers, in this order. Each number is below the count of elements.
/// `Err` only where an allocation failed, or where these are no elements of the data type or have
/// no such number.
pub fn gather_elements(
    alloc: Global,
    bytes: &ArrayBytes,
    elements: &Elements,
    numbers: &[u64],
) -> Result<ArrayBytes, AllocError>
    ensures { (cells : List Cell)
        → cells_in (elements_of elements.now).type (payload_of bytes.now) ≡ Some cells
        → list_all (λ n. nat_lt n (length cells)) numbers.now ≡ true
        → IfOk result (λ made. cells_in (elements_of elements.now).type (payload_of made)
        ≡ Some (gather (elements_of elements.now).fill cells numbers.now)) }
{
    gather(alloc, bytes, elements.data_type(), numbers)
}

/// The elements of a data type with these numbers.
pub(crate) fn gather(
    alloc: Global,
    bytes: &ArrayBytes,
    data_type: &DataType,
    numbers: &[u64],
) -> Result<ArrayBytes, AllocError>
    ensures { (cells : List Cell) (other : Cell)
        → cells_in (type_of data_type.now) (payload_of bytes.now) ≡ Some cells
        → list_all (λ n. nat_lt n (length cells)) numbers.now ≡ true
        → IfOk result (λ made. cells_in (type_of data_type.now) (payload_of made)
        ≡ Some (gather other cells numbers.now)) }
{
    match bytes {
        ArrayBytes::Fixed(bytes) => match data_type.byte_width() {
            Some(width) => {
                let gathered = gather_fixed(alloc, bytes.as_slice(), width, numbers)?;
                Ok(ArrayBytes::Fixed(gathered))
            }
            None => Err(AllocError),
        },
        ArrayBytes::Variable(bytes, offsets) => {
            gather_variable(alloc, bytes.as_slice(), offsets.as_slice(), numbers)
        }
        ArrayBytes::Optional(inner, mask) => match data_type {
            DataType::Optional(of_type) => {
                let gathered = gather(alloc, inner, of_type, numbers)?;
                let mask = gather_mask(alloc, mask.as_slice(), numbers)?;
                masked(alloc, gathered, mask)
            }
            _ => Err(AllocError),
        },
    }
}

/// Elements with a mask.
pub(crate) fn masked(
    alloc: Global,
    inner: ArrayBytes,
    mask: Vec<u8>,
) -> Result<ArrayBytes, AllocError>
    ensures { IfOk result (λ a. payload_of a ≡ optional (payload_of inner) mask.items) }
{
    Ok(ArrayBytes::Optional(Box::new(alloc, inner)?, mask))
}

/// The bytes of the elements with these numbers, of so many bytes each.
fn gather_fixed(
    alloc: Global,
    bytes: &[u8],
    width: usize,
    numbers: &[u64],
) -> Result<Vec<u8>, AllocError>
    ensures { IfOk result (λ v.
        v.items ≡ flat_map (λ n. take width (drop (n * width) bytes.now)) numbers.now) }
{
    let mut gathered = Vec::with_capacity(alloc, numbers.len().saturating_mul(width))?;
    for number in numbers {
        let Some(element) = element_at(bytes, width, *number) else {
            return Err(AllocError);
        };
        gathered.extend_from_slice(element)?;
    }
    Ok(gathered)
}

/// The bytes of the element with this number, where there is one.
fn element_at(bytes: &[u8], width: usize, number: u64) -> Option<&[u8]>
    ensures { IfSome result
        (λ element. element.now ≡ take width (drop (number * width) bytes.now)) }
{
    let start = (number as usize).checked_mul(width)?;
    let end = start.checked_add(width)?;
    bytes.get(start..end)
}

/// The numbers of a mask that stand at these places.
fn gather_mask(alloc: Global, mask: &[u8], numbers: &[u64]) -> Result<Vec<u8>, AllocError>
    ensures { IfOk result (λ v. v.items ≡ map (slice_index mask.now) numbers.now) }
{
    let mut gathered = Vec::with_capacity(alloc, numbers.len())?;
    for number in numbers {
        let Some(mark) = mask.get(*number as usize) else {
            return Err(AllocError);
        };
        gathered.push(*mark)?;
    }
    Ok(gathered)
}
