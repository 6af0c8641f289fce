//! Calls of stores by the traits of storage, with values typed in by hand.

use crate::calls::Call::{Erase, Get, List, Ranges, Set, Size, Write};
use crate::calls::End::{Done, Io, Range};
use crate::calls::{KeyedCall, answers, key};
use std::alloc::Global;
use zarr_array_storage::{
    CallKind, MemoryStore, RefusingStore, StorageError, WritableStorageTraits,
};

/// A store with 1, 2, 3, 4 at `a`.
pub(crate) fn four_bytes(alloc: Global) -> Result<MemoryStore, StorageError> {
    let mut store = MemoryStore::new(alloc);
    store.set(&key(alloc, "a")?, &[1, 2, 3, 4])?;
    Ok(store)
}

/// Whether calls of that store end so, where it refuses a call of a kind with a number.
fn do_end(
    alloc: Global,
    kind: CallKind,
    number: u64,
    calls: &[KeyedCall<'_>],
) -> Result<bool, StorageError> {
    answers(
        alloc,
        &mut RefusingStore::new(four_bytes(alloc)?, kind, number),
        calls,
    )
}

/// The same where it refuses none: the 0th call is none.
fn all_end(alloc: Global, calls: &[KeyedCall<'_>]) -> bool {
    matches!(do_end(alloc, CallKind::Write, 0, calls), Ok(true))
}

const SETS: [KeyedCall<'static>; 4] = [
    ("a", Get(Some(&[1, 2, 3, 4])), Done),
    ("a", Set(&[5]), Done),
    ("a", Get(Some(&[5])), Done),
    ("b", Get(None), Done),
];

#[test]
fn a_value_that_is_set_is_read(rt: HostRuntime) {
    assert!(rt; all_end(rt.alloc(), &SETS));
}

const SIZES: [KeyedCall<'static>; 4] = [
    ("a", Size(Some(4)), Done),
    ("b", Size(None), Done),
    ("b", Set(&[]), Done),
    ("b", Size(Some(0)), Done),
];

#[test]
fn a_size_is_that_of_the_value(rt: HostRuntime) {
    assert!(rt; all_end(rt.alloc(), &SIZES));
}

const THREE_RANGES: [KeyedCall<'static>; 1] = [(
    "a",
    Ranges(
        &[(1, 2), (4, 0), (0, 4)],
        Some(&[&[2, 3], &[], &[1, 2, 3, 4]]),
    ),
    Done,
)];

#[test]
fn ranges_are_read(rt: HostRuntime) {
    assert!(rt; all_end(rt.alloc(), &THREE_RANGES));
}

const PAST_THE_END: [KeyedCall<'static>; 4] = [
    ("a", Ranges(&[(3, 2)], None), Range),
    ("a", Ranges(&[(5, 0)], None), Range),
    ("a", Ranges(&[(18446744073709551615, 1)], None), Range),
    ("b", Ranges(&[(3, 2)], None), Done),
];

#[test]
fn a_range_past_the_end_is_refused(rt: HostRuntime) {
    assert!(rt; all_end(rt.alloc(), &PAST_THE_END));
}

const KEYS: [KeyedCall<'static>; 4] = [
    ("b/c", Set(&[]), Done),
    ("b.c", Set(&[]), Done),
    ("b", Set(&[]), Done),
    ("a", List(&["a", "b", "b.c", "b/c"]), Done),
];

#[test]
fn keys_are_listed_in_order(rt: HostRuntime) {
    assert!(rt; all_end(rt.alloc(), &KEYS));
}

const OVERLAPPING: [KeyedCall<'static>; 2] = [
    ("a", Write(&[(1, &[7, 7]), (2, &[8, 8, 8])]), Done),
    ("a", Get(Some(&[1, 7, 8, 8, 8])), Done),
];

#[test]
fn ranges_are_written_in_their_order(rt: HostRuntime) {
    assert!(rt; all_end(rt.alloc(), &OVERLAPPING));
}

const WITHIN: [KeyedCall<'static>; 2] = [
    ("a", Write(&[(1, &[7]), (3, &[8])]), Done),
    ("a", Get(Some(&[1, 7, 3, 8])), Done),
];

#[test]
fn ranges_within_a_value_leave_its_other_bytes(rt: HostRuntime) {
    assert!(rt; all_end(rt.alloc(), &WITHIN));
}

const GAPS: [KeyedCall<'static>; 4] = [
    ("a", Write(&[(6, &[9])]), Done),
    ("b", Write(&[(2, &[9])]), Done),
    ("a", Get(Some(&[1, 2, 3, 4, 0, 0, 9])), Done),
    ("b", Get(Some(&[0, 0, 9])), Done),
];

#[test]
fn a_gap_has_zeros(rt: HostRuntime) {
    assert!(rt; all_end(rt.alloc(), &GAPS));
}

const TOO_FAR: [KeyedCall<'static>; 3] = [
    ("a", Write(&[(0, &[9]), (9223372036854775807, &[9])]), Range),
    (
        "a",
        Write(&[(0, &[9]), (18446744073709551615, &[9])]),
        Range,
    ),
    ("a", Get(Some(&[1, 2, 3, 4])), Done),
];

#[test]
fn of_patches_with_one_too_far_none_is_written(rt: HostRuntime) {
    assert!(rt; all_end(rt.alloc(), &TOO_FAR));
}

const ERASED: [KeyedCall<'static>; 7] = [
    ("b", Erase, Done),
    ("b", Set(&[1]), Done),
    ("b", Erase, Done),
    ("b", Get(None), Done),
    ("a", List(&["a"]), Done),
    ("a", Erase, Done),
    ("a", List(&[]), Done),
];

#[test]
fn an_absent_key_is_erased(rt: HostRuntime) {
    assert!(rt; all_end(rt.alloc(), &ERASED));
}

/// Whether calls of a store that refuses the writing call with a number end so.
fn end_unless_written(alloc: Global, number: u64, calls: &[KeyedCall<'_>]) -> bool {
    matches!(do_end(alloc, CallKind::Write, number, calls), Ok(true))
}

const THIRD_REFUSED: [KeyedCall<'static>; 8] = [
    ("a", Set(&[1]), Done),
    ("a", Erase, Done),
    ("a", Get(None), Done),
    ("a", Set(&[3]), Io),
    ("a", Get(None), Done),
    ("a", Set(&[4]), Done),
    ("a", Write(&[(1, &[5])]), Done),
    ("a", Get(Some(&[4, 5])), Done),
];

#[test]
fn the_third_write_is_refused_and_later_ones_are_accepted(rt: HostRuntime) {
    assert!(rt; end_unless_written(rt.alloc(), 3, &THIRD_REFUSED));
}

const WRITE_REFUSED: [KeyedCall<'static>; 2] = [
    ("a", Write(&[(0, &[9])]), Io),
    ("a", Get(Some(&[1, 2, 3, 4])), Done),
];

const ERASURE_REFUSED: [KeyedCall<'static>; 2] = [
    ("a", Erase, Io),
    ("a", Get(Some(&[1, 2, 3, 4])), Done),
];

#[test]
fn a_refused_write_changes_nothing(rt: HostRuntime) {
    assert!(rt; end_unless_written(rt.alloc(), 1, &WRITE_REFUSED));
    assert!(rt; end_unless_written(rt.alloc(), 1, &ERASURE_REFUSED));
}

const FOURTH_REFUSED: [KeyedCall<'static>; 6] = [
    ("a", Get(Some(&[1, 2, 3, 4])), Done),
    ("a", Set(&[1]), Done),
    ("a", Ranges(&[], Some(&[])), Done),
    ("a", Size(Some(1)), Done),
    ("a", List(&[]), Io),
    ("a", List(&["a"]), Done),
];

#[test]
fn each_reading_call_is_counted(rt: HostRuntime) {
    let done = do_end(rt.alloc(), CallKind::Read, 4, &FOURTH_REFUSED);
    assert!(rt; matches!(done, Ok(true)));
}

/// Whether a store in memory takes parts of values, and one that refuses a call takes what it is
/// made of does.
fn take_parts(alloc: Global) -> bool {
    let store = MemoryStore::new(alloc);
    let is_taken = store.supports_set_partial();
    is_taken && RefusingStore::new(store, CallKind::Write, 1).supports_set_partial()
}

#[test]
fn stores_take_parts_of_values(rt: HostRuntime) {
    assert!(rt; take_parts(rt.alloc()));
}
