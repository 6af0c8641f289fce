//! Fill values of numbers, optional ones and their type, with values typed in by hand.
use std::alloc::{AllocError, Global};
use zarr_codecs::{Cell, DataType, FillValue, data_type};

/// Whether a fill value was made of these bytes, and is equal to its copy.
fn is_made(alloc: Global, made: Result<FillValue, AllocError>, bytes: &[u8]) -> bool {
    let (Ok(fill), Ok(bytes)) = (made, bytes.to_vec(alloc)) else {
        return false;
    };
    match fill.try_clone(alloc) {
        Ok(copy) => copy == fill && fill == FillValue::new(bytes),
        Err(_) => false,
    }
}

#[test]
fn an_integer_is_little_endian_bytes(rt: HostRuntime) {
    let alloc = rt.alloc();
    let are_made = [
        is_made(alloc, FillValue::from_bool(alloc, true), &[1]),
        is_made(alloc, FillValue::from_u8(alloc, 200), &[200]),
        is_made(alloc, FillValue::from_u16(alloc, 0x0102), &[2, 1]),
        is_made(alloc, FillValue::from_u32(alloc, 1), &[1, 0, 0, 0]),
        is_made(
            alloc,
            FillValue::from_u64(alloc, 258),
            &[2, 1, 0, 0, 0, 0, 0, 0],
        ),
    ];
    assert!(rt; are_made == [true; 5]);
}

#[test]
fn a_negative_integer_is_its_complement(rt: HostRuntime) {
    let alloc = rt.alloc();
    let are_made = [
        is_made(alloc, FillValue::from_i8(alloc, -2), &[254]),
        is_made(alloc, FillValue::from_i16(alloc, -5), &[251, 255]),
        is_made(alloc, FillValue::from_i32(alloc, -1), &[255; 4]),
        is_made(alloc, FillValue::from_i64(alloc, -1), &[255; 8]),
    ];
    assert!(rt; are_made == [true; 4]);
}

/// Whether 5 is a value of optional integers of 8 bits; whether it is as a present cell; and
/// whether no cell is, and another one.
fn are_values(alloc: Global) -> Result<(bool, bool, bool, bool), AllocError> {
    let optional = data_type::optional(alloc, data_type::uint8())?;
    let five = FillValue::from_u8(alloc, 5)?;
    let bare = five.is_value_of(&optional);
    let present = FillValue::present(alloc, five)?;
    let is_present = present.is_value_of(&optional);
    let absent = FillValue::from(Cell::Absent).is_value_of(&optional);
    Ok((bare, is_present, absent, FillValue::absent() != present))
}

#[test]
fn an_absent_cell_is_no_present_one(rt: HostRuntime) {
    assert!(rt; matches!(are_values(rt.alloc()), Ok((false, true, true, true))));
}

/// Whether optional integers of 8 bits are an optional type.
fn is_optional(alloc: Global) -> Result<bool, AllocError> {
    let optional = data_type::optional(alloc, data_type::uint8())?;
    Ok(optional.is_optional() && optional == DataType::Optional(Box::new(alloc, DataType::UInt8)?))
}

#[test]
fn an_optional_type_is_made_of_another(rt: HostRuntime) {
    assert!(rt; matches!(is_optional(rt.alloc()), Ok(true)));
}
