//! Elements taken out of an array, and fill values put into a target. What is put into an array is
//! in calls/parts.calls and calls/sections.calls.
use crate::samples::{elements, fixed};
use std::alloc::Global;
use zarr_codecs::{
    ArrayBytes, ArrayBytesOffsets, ArraySubset, CodecError, DataType, FillValue, Indexer,
    OptionalTarget, TargetBytes, copy_fill_value_into, data_type, extract_array_subset,
};

/// The strings "a", "bb", "ccc" and "dddd".
fn four_strings(alloc: Global) -> Result<ArrayBytes, CodecError> {
    match ArrayBytesOffsets::new([0, 1, 3, 6, 10].to_vec(alloc)?) {
        Some(offsets) => Ok(ArrayBytes::Variable(b"abbcccdddd".to_vec(alloc)?, offsets)),
        None => Err(CodecError::Unsupported),
    }
}

/// These strings in the second column of two rows of two.
fn second_column(alloc: Global) -> Result<ArrayBytes, CodecError> {
    let region = ArraySubset::new_with_ranges(alloc, &[0..2, 1..2])?;
    let (array, asked) = (four_strings(alloc)?, Indexer::Subset(&region));
    extract_array_subset(alloc, &array, &[2, 2], asked, &DataType::String)
}

/// Whether these are strings with these bytes and offsets.
fn are_strings(found: Result<ArrayBytes, CodecError>, bytes: &[u8], offsets: &[u64]) -> bool {
    match found {
        Ok(ArrayBytes::Variable(joined, cuts)) => {
            joined.as_slice() == bytes && cuts.as_slice() == offsets
        }
        _ => false,
    }
}

#[test]
fn a_box_of_strings_is_taken_out(rt: HostRuntime) {
    assert!(rt; are_strings(second_column(rt.alloc()), b"bbdddd", &[0, 2, 6]));
}

/// The byte at a place of two.
fn byte_at(alloc: Global, place: u64) -> Result<ArrayBytes, CodecError> {
    let (array, asked) = (fixed(alloc, &[1, 2])?, [place]);
    extract_array_subset(alloc, &array, &[2], Indexer::List(&asked), &DataType::UInt8)
}

#[test]
fn no_byte_is_taken_from_outside(rt: HostRuntime) {
    let found = byte_at(rt.alloc(), 2);
    assert!(rt; matches!(found, Err(CodecError::IncompatibleIndexer)));
}

/// Fills the last two of three optional elements with 5.
fn fill_two(alloc: Global, bytes: &mut [u8], mask: &mut [u8]) -> Result<(), CodecError> {
    let five = FillValue::present(alloc, FillValue::from_u8(alloc, 5)?)?;
    let elements = elements(data_type::optional(alloc, data_type::uint8())?, five)?;
    let region = ArraySubset::new_with_ranges(alloc, &[1..3])?;
    let inner = TargetBytes {
        bytes,
        shape: &[3],
        region: &region,
        width: 1,
    };
    let mask = TargetBytes {
        bytes: mask,
        shape: &[3],
        region: &region,
        width: 1,
    };
    let mut target = OptionalTarget { inner, mask };
    copy_fill_value_into(alloc, &elements, &mut target)
}

#[test]
fn a_target_is_filled(rt: HostRuntime) {
    let (mut bytes, mut mask) = ([9, 9, 9], [0, 0, 0]);
    assert!(rt; fill_two(rt.alloc(), &mut bytes, &mut mask).is_ok());
    assert!(rt; bytes == [9, 5, 5] && mask == [0, 1, 1]);
}
