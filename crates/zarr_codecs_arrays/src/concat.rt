//! Elements one after another.
ghost use Rattle.std.specs.Prelude.{◌≡◌, ◌++◌, List, Some, IfOk};
ghost use Rattle.zarr_codecs_meaning.specs.Payloads.{cells_in, fixed, optional, variable_in};
ghost use Rattle.zarr_codecs_meaning.specs.Types as types;
ghost use Rattle.zarr_codecs_types.specs.Views.{type_of};
ghost use Rattle.zarr_codecs_arrays.specs.Joined.{IsVariable};
ghost use Rattle.zarr_codecs_arrays.specs.Views.{numbers_of, payload_of};

use crate::array_bytes::ArrayBytes;
use crate::offsets::ArrayBytesOffsets;
use std::alloc::{AllocError, Global};
use zarr_codecs_types::DataType;

/// Elements of a data type, and after them others of it. Those that are there already aren't moved
/// one by one, so that appending many times takes time linear in what is appended. `Err` only where
/// an allocation failed, or where these are no elements of the data type.
pub fn concat_elements(
    alloc: Global,
    first: ArrayBytes,
    second: &ArrayBytes,
    data_type: &DataType,
) -> Result<ArrayBytes, AllocError>
    ensures { (front back : List types.Cell)
        → cells_in (type_of data_type.now) (payload_of first) ≡ Some front
        → cells_in (type_of data_type.now) (payload_of second.now) ≡ Some back
        → IfOk result (λ made.
        cells_in (type_of data_type.now) (payload_of made) ≡ Some (front ++ back)) }
{
    match first {
        ArrayBytes::Fixed(bytes) => match second {
            ArrayBytes::Fixed(others) => concat_fixed(bytes, others.as_slice()),
            _ => Err(AllocError),
        },
        ArrayBytes::Variable(bytes, offsets) => match second {
            ArrayBytes::Variable(others, cuts) => {
                concat_variable(bytes, offsets, others.as_slice(), cuts.as_slice())
            }
            _ => Err(AllocError),
        },
        ArrayBytes::Optional(inner, mask) => match second {
            ArrayBytes::Optional(others, marks) => match data_type {
                DataType::Optional(of_type) => {
                    let inner = concat_elements(alloc, Box::into_inner(inner), others, of_type)?;
                    concat_masks(alloc, inner, mask, marks.as_slice())
                }
                _ => Err(AllocError),
            },
            _ => Err(AllocError),
        },
    }
}

/// Bytes, and after them others.
fn concat_fixed(bytes: Vec<u8>, others: &[u8]) -> Result<ArrayBytes, AllocError>
    ensures { IfOk result (λ a. payload_of a ≡ fixed (bytes.items ++ others.now)) }
{
    let mut bytes = bytes;
    bytes.extend_from_slice(others)?;
    Ok(ArrayBytes::Fixed(bytes))
}

/// Elements with a mask, to which other numbers are appended.
fn concat_masks(
    alloc: Global,
    inner: ArrayBytes,
    mask: Vec<u8>,
    marks: &[u8],
) -> Result<ArrayBytes, AllocError>
    ensures { IfOk result
        (λ a. payload_of a ≡ optional (payload_of inner) (mask.items ++ marks.now)) }
{
    let mut mask = mask;
    mask.extend_from_slice(marks)?;
    Ok(ArrayBytes::Optional(Box::new(alloc, inner)?, mask))
}

/// Elements of variable length, and after them others.
fn concat_variable(
    bytes: Vec<u8>,
    offsets: ArrayBytesOffsets,
    others: &[u8],
    cuts: &[u64],
) -> Result<ArrayBytes, AllocError>
    ensures { (front back : List types.Cell)
        → variable_in (numbers_of offsets) bytes.items ≡ Some front
        → variable_in cuts.now others.now ≡ Some back
        → IfOk result (IsVariable (front ++ back)) }
{
    let Some((start, ends)) = cuts.split_first() else {
        return Err(AllocError);
    };
    let Some(rest) = others.get(*start as usize..) else {
        return Err(AllocError);
    };
    let offsets = offsets.followed(bytes.as_slice().len() as u64, *start, ends)?;
    let mut bytes = bytes;
    bytes.extend_from_slice(rest)?;
    Ok(ArrayBytes::Variable(bytes, offsets))
}
