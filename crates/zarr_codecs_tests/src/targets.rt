//! Values that are decoded into boxes of other elements, with bytes typed in by hand.
use crate::samples::{elements, fixed};
use std::alloc::Global;
use std::marker::Sync;
use std::ops::Range;
use std::thread::Threads;
use zarr_codecs::{
    ArrayBytes, ArrayBytesDecodeIntoTarget, ArraySubset, ArrayToBytesCodecTraits, BytesCodec,
    CodecError, CodecOptions, EncodedArray, FillValue, OptionalTarget, TargetBytes, WholeArray,
    data_type,
};

/// Decodes two elements of 16 bits, the highest byte first, into a box of six in two rows.
fn decode_two(
    rt: &(impl Threads + Sync),
    alloc: Global,
    value: &[u8],
    bytes: &mut [u8],
    ranges: &[Range<u64>],
) -> Result<(), CodecError> {
    let elements = elements(data_type::uint16(), FillValue::from_u16(alloc, 0)?)?;
    let region = ArraySubset::new_with_ranges(alloc, ranges)?;
    let array = WholeArray {
        elements: &elements,
        shape: &[2],
    };
    let mut target = TargetBytes {
        bytes,
        shape: &[2, 3],
        region: &region,
        width: 2,
    };
    let encoded = EncodedArray {
        value: value.to_vec(alloc)?,
        array,
    };
    BytesCodec::big().decode_into(rt, alloc, encoded, &mut target, &CodecOptions::default())
}

const NINES: [u8; 12] = [9, 9, 9, 9, 9, 9, 9, 9, 9, 9, 9, 9];

#[test]
fn elements_stand_in_the_box_and_others_stay(rt: HostRuntime) {
    let mut bytes = NINES;
    let done = decode_two(&rt, rt.alloc(), &[0, 1, 0, 2], &mut bytes, &[0..2, 1..2]);
    assert!(rt; done.is_ok());
    assert!(rt; bytes == [9, 9, 1, 0, 9, 9, 9, 9, 2, 0, 9, 9]);
}

#[test]
fn a_box_of_three_takes_no_two_elements(rt: HostRuntime) {
    let mut bytes = NINES;
    let refused = decode_two(&rt, rt.alloc(), &[0, 1, 0, 2], &mut bytes, &[0..1, 0..3]);
    assert!(rt; matches!(refused, Err(CodecError::InvalidNumberOfElements)));
}

#[test]
fn a_damaged_value_leaves_the_target(rt: HostRuntime) {
    let mut bytes = NINES;
    let refused = decode_two(&rt, rt.alloc(), &[0, 1, 0], &mut bytes, &[0..2, 1..2]);
    assert!(rt; matches!(refused, Err(CodecError::Damage)));
    assert!(rt; bytes == NINES);
}

/// Puts three elements into a box of four optional ones.
fn put_three(
    alloc: Global,
    elements: &ArrayBytes,
    bytes: &mut [u8],
    mask: &mut [u8],
) -> Result<(), CodecError> {
    let region = ArraySubset::new_with_ranges(alloc, &[1..4])?;
    let inner = TargetBytes {
        bytes,
        shape: &[4],
        region: &region,
        width: 1,
    };
    let mask = TargetBytes {
        bytes: mask,
        shape: &[4],
        region: &region,
        width: 1,
    };
    let mut target = OptionalTarget { inner, mask };
    target.put(alloc, elements)
}

/// Puts five, none and seven there.
fn put_optional(alloc: Global, bytes: &mut [u8], mask: &mut [u8]) -> Result<(), CodecError> {
    let values = Box::new(alloc, fixed(alloc, &[5, 0, 7])?)?;
    let elements = ArrayBytes::Optional(values, vec![in alloc; 1, 0, 1]?);
    put_three(alloc, &elements, bytes, mask)
}

#[test]
fn optional_elements_have_a_mask(rt: HostRuntime) {
    let (mut bytes, mut mask) = ([9, 9, 9, 9], [1, 1, 1, 1]);
    assert!(rt; put_optional(rt.alloc(), &mut bytes, &mut mask).is_ok());
    assert!(rt; bytes == [9, 5, 0, 7] && mask == [1, 1, 0, 1]);
}

/// Puts three bytes there that have no mask.
fn put_plain(alloc: Global, bytes: &mut [u8], mask: &mut [u8]) -> Result<(), CodecError> {
    put_three(alloc, &fixed(alloc, &[5, 6, 7])?, bytes, mask)
}

#[test]
fn elements_without_a_mask_are_refused(rt: HostRuntime) {
    let (mut bytes, mut mask) = ([9, 9, 9, 9], [1, 1, 1, 1]);
    let refused = put_plain(rt.alloc(), &mut bytes, &mut mask);
    assert!(rt; matches!(refused, Err(CodecError::ExpectedOptionalBytes)));
    assert!(rt; bytes == [9, 9, 9, 9]);
}
