//! How many elements of a data type there are.
ghost use Rattle.std.specs.Prelude.{◌≡◌, List, Option, length, option_map, option_and_then};
ghost use Rattle.zarr_codecs_meaning.specs.Payloads as payloads;
ghost use Rattle.zarr_codecs_meaning.specs.Types.{Cell};
ghost use Rattle.zarr_codecs_types.specs.Views.{type_of};
ghost use Rattle.zarr_codecs_arrays.specs.Views.{payload_of, numbers_of};
ghost use Rattle.zarr_codecs_arrays.specs.Outcomes.{form_error};

use crate::array_bytes::ArrayBytes;
use crate::error::CodecError;
use crate::fixed::{are_below, fixed_count};
use crate::offsets::ArrayBytesOffsets;
use zarr_codecs_types::DataType;

/// How many elements of a data type these are. `None` where they are none of the type's.
pub(crate) fn counted(elements: &ArrayBytes, data_type: &DataType) -> Option<usize>
    ensures { result ≡ option_map length
        (payloads.cells_in (type_of data_type.now) (payload_of elements.now)) }
{
    match elements {
        ArrayBytes::Fixed(bytes) => fixed_count(data_type, bytes.as_slice()),
        ArrayBytes::Variable(bytes, offsets) => {
            if data_type.is_variable() {
                variable_count(bytes.as_slice(), offsets)
            } else {
                None
            }
        }
        ArrayBytes::Optional(inner, mask) => match data_type {
            DataType::Optional(of_type) => masked_count(counted(inner, of_type), mask.as_slice()),
            _ => None,
        },
    }
}

/// How many elements offsets cut bytes into. `None` where the last one does not end with the
/// bytes.
fn variable_count(bytes: &[u8], offsets: &ArrayBytesOffsets) -> Option<usize>
    ensures { result
        ≡ option_map length (payloads.variable_in (numbers_of offsets.now) bytes.now) }
{
    let offsets = offsets.as_slice();
    if offsets.is_empty() {
        return None;
    }
    let count = offsets.len() - 1;
    if offsets[count] == bytes.len() as u64 {
        Some(count)
    } else {
        None
    }
}

/// How many elements there are with a mask, where so many stand below it. `None` where the mask is
/// longer or shorter, or has other numbers than 0 and 1.
fn masked_count(count: Option<usize>, mask: &[u8]) -> Option<usize>
    ensures { (below : Option (List Cell)) → count ≡ option_map length below → result
        ≡ option_map length (option_and_then (λ cells. payloads.masked_in cells mask.now) below) }
{
    if count? == mask.len() && are_below(mask, 2) {
        count
    } else {
        None
    }
}

/// Why elements are none of a data type's, where they are not.
#[tactic(auto, using(crate::proofs::Counts::string_form, crate::proofs::Counts::bytes_form))]
pub(crate) fn form_error(elements: &ArrayBytes, data_type: &DataType) -> CodecError
    ensures { result ≡ form_error (type_of data_type.now) (payload_of elements.now) }
{
    match data_type {
        DataType::String | DataType::Bytes => CodecError::ExpectedVariableLengthBytes,
        DataType::Optional(of_type) => match elements {
            ArrayBytes::Optional(inner, _) => match counted(inner, of_type) {
                None => form_error(inner, of_type),
                Some(_) => CodecError::ExpectedOptionalBytes,
            },
            _ => CodecError::ExpectedOptionalBytes,
        },
        _ => match elements {
            ArrayBytes::Fixed(_) => CodecError::InvalidNumberOfElements,
            _ => CodecError::ExpectedFixedLengthBytes,
        },
    }
}
