//! The texts of replies that no session gives. How cells of each type are printed is in
//! calls/types.calls, and how refusals are in the stories.
use std::alloc::{AllocError, Global};
use zarr_codecs::{Component, Sign};
use zarr_run::{ArrayBytes, Cause, DataType, Reply};
use zarr_run_samples::is_answered;

/// Whether cells with these bytes have no text.
fn have_no_text(
    alloc: Global,
    data_type: Option<&DataType>,
    bytes: &[u8],
) -> Result<bool, AllocError> {
    let reply = Reply::Cells(ArrayBytes::Fixed(bytes.to_vec(alloc)?));
    is_answered(alloc, data_type, &reply, r#"{"fault":"text"}"#)
}

#[test]
fn cells_of_no_array_or_no_value_have_no_text(rt: HostRuntime) {
    assert!(rt; matches!(have_no_text(rt.alloc(), None, &[1]), Ok(true)));
    assert!(rt;
        matches!(
            have_no_text(rt.alloc(), Some(&DataType::Bool), &[1, 2]),
            Ok(true)
        )
    );
}

/// Whether cells of a type of a caller's own, two numbers each, have none.
fn own_have_no_text(alloc: Global) -> Result<bool, AllocError> {
    let first = Component {
        width: 16,
        byte_count: 2,
        sign: Sign::Unsigned,
    };
    let second = Component {
        width: 4,
        byte_count: 1,
        sign: Sign::Signed,
    };
    let own = DataType::Custom(vec![in alloc; first, second]?);
    have_no_text(alloc, Some(&own), &[1, 2, 3])
}

#[test]
fn cells_of_two_numbers_have_no_text(rt: HostRuntime) {
    assert!(rt; matches!(own_have_no_text(rt.alloc()), Ok(true)));
}

const MOST: &str = r#"{"applied":18446744073709551615,"refused":"DocumentChanged"}"#;

#[test]
fn a_refusal_says_how_many_chunks_were_applied(rt: HostRuntime) {
    let reply = Reply::Refused {
        cause: Cause::DocumentChanged,
        applied: u64::MAX,
    };
    assert!(rt; matches!(is_answered(rt.alloc(), None, &reply, MOST), Ok(true)));
}
