//! A type of a caller's own, whose elements are two numbers each, with values typed in by hand.
use crate::samples::{are, elements, fixed};
use std::alloc::{AllocError, Global};
use std::marker::Sync;
use std::thread::Threads;
use zarr_codecs::{
    ArrayBytes, ArrayToBytesCodecTraits, BytesCodec, CodecError, CodecOptions, Component, DataType,
    DataTypeError, Elements, FillValue, FillValueError, Sign, WholeArray,
};

/// A 16-bit number without a sign and a 4-bit one with a sign, in three bytes.
fn two_numbers(alloc: Global) -> Result<DataType, AllocError> {
    let parts = [
        Component {
            width: 16,
            byte_count: 2,
            sign: Sign::Unsigned,
        },
        Component {
            width: 4,
            byte_count: 1,
            sign: Sign::Signed,
        },
    ];
    Ok(DataType::Custom(parts.to_vec(alloc)?))
}

/// How many numbers a cell of two has, and whether its type has no metadata.
fn numbers_of_two(alloc: Global) -> Result<(usize, bool), DataTypeError> {
    let own = two_numbers(alloc)?;
    Ok((own.components(alloc)?.len(), own.metadata(alloc)?.is_none()))
}

#[test]
fn a_type_has_the_numbers_of_its_cells(rt: HostRuntime) {
    assert!(rt; matches!(numbers_of_two(rt.alloc()), Ok((2, true))));
}

/// Whether bytes are a value of two numbers, and whether they have no metadata.
fn are_two_numbers(alloc: Global, bytes: &[u8]) -> Result<(bool, bool), FillValueError> {
    let own = two_numbers(alloc)?;
    let fill = FillValue::new(bytes.to_vec(alloc)?);
    Ok((
        fill.is_value_of(&own),
        fill.to_metadata(alloc, &own)?.is_none(),
    ))
}

#[test]
fn the_bytes_of_several_numbers_are_in_turn(rt: HostRuntime) {
    assert!(rt; matches!(are_two_numbers(rt.alloc(), &[1, 2, 255]), Ok((true, true))));
    assert!(rt; matches!(are_two_numbers(rt.alloc(), &[1, 2, 8]), Ok((false, true))));
}

/// Elements that are two numbers each, of which all are 0.
fn pairs(alloc: Global) -> Result<Elements, CodecError> {
    elements(
        two_numbers(alloc)?,
        FillValue::new([0, 0, 0].to_vec(alloc)?),
    )
}

/// Whether `bytes` with the highest byte first makes this value of the bytes of two pairs.
fn is_encoded(
    rt: &(impl Threads + Sync),
    alloc: Global,
    bytes: &[u8],
    value: &[u8],
) -> Result<bool, CodecError> {
    let (elements, given) = (pairs(alloc)?, fixed(alloc, bytes)?);
    let array = WholeArray {
        elements: &elements,
        shape: &[2],
    };
    let made = BytesCodec::big().encode(rt, alloc, given, array, &CodecOptions::default())?;
    Ok(made.as_slice() == value)
}

/// The two pairs that it makes of a value.
fn decoded(
    rt: &(impl Threads + Sync),
    alloc: Global,
    value: &[u8],
) -> Result<ArrayBytes, CodecError> {
    let (elements, value) = (pairs(alloc)?, value.to_vec(alloc)?);
    let array = WholeArray {
        elements: &elements,
        shape: &[2],
    };
    BytesCodec::big().decode(rt, alloc, value, array, &CodecOptions::default())
}

const PAIRS: [u8; 6] = [1, 2, 7, 3, 4, 248];

const STORED: [u8; 6] = [2, 1, 7, 4, 3, 248];

#[test]
fn each_number_of_an_element_is_put_the_other_way_round(rt: HostRuntime) {
    assert!(rt; matches!(is_encoded(&rt, rt.alloc(), &PAIRS, &STORED), Ok(true)));
    let found = decoded(&rt, rt.alloc(), &STORED);
    assert!(rt; matches!(&found, Ok(found) if are(found, &PAIRS)));
}
