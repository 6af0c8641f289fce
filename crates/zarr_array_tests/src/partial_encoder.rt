//! The value at a key of a store, written in part, with values typed in by hand.
use crate::calls::{Store, gets, key};
use crate::counting_store::CountingStore;
use crate::storage::four_bytes;
use std::alloc::Global;
use zarr_array_storage::{
    CallKind, RefusingStore, StorageError, StoragePartialEncoder, ValuePatch,
};
use zarr_codecs_arrays::CodecError;
use zarr_codecs_traits::{BytesPartialDecoderTraits, BytesPartialEncoderTraits};
use zarr_grids_keys::StoreKey;

/// What a store answers, as a codec's.
fn answered<T>(answer: Result<T, StorageError>) -> Result<T, CodecError> {
    match answer {
        Ok(value) => Ok(value),
        Err(_) => Err(CodecError::Unsupported),
    }
}

/// The key `a`.
fn a(alloc: Global) -> Result<StoreKey, CodecError> {
    answered(key(alloc, "a"))
}

/// A store with 1, 2, 3, 4 at `a`, which counts calls.
fn counting<const TAKES_RANGES: bool>(
    alloc: Global,
) -> Result<CountingStore<TAKES_RANGES>, CodecError> {
    Ok(CountingStore {
        inner: answered(four_bytes(alloc))?,
        reads: 0,
        sets: 0,
        patches: 0,
    })
}

/// 7, 7 from the second byte on, and 8, 8, 8 from the third.
fn two_patches() -> [ValuePatch<'static>; 2] {
    let first = ValuePatch {
        offset: 1,
        bytes: &[7, 7],
    };
    let second = ValuePatch {
        offset: 2,
        bytes: &[8, 8, 8],
    };
    [first, second]
}

/// Writes the two patches into the value at a key.
fn patch<const TAKES_RANGES: bool>(
    alloc: Global,
    store: &mut CountingStore<TAKES_RANGES>,
    key: &StoreKey,
) -> Result<(), CodecError> {
    StoragePartialEncoder::new(store, key).partial_encode(alloc, &two_patches())
}

/// How many calls read, set and write parts for the two patches, where the value is right then.
fn count<const TAKES_RANGES: bool>(alloc: Global) -> Result<Option<(u64, u64, u64)>, CodecError> {
    let (key, mut store) = (a(alloc)?, counting::<TAKES_RANGES>(alloc)?);
    patch(alloc, &mut store, &key)?;
    let counts = (store.reads, store.sets, store.patches);
    let is_written = gets(&mut store, &key, Some(&[1, 7, 8, 8, 8]));
    Ok(answered(is_written)?.then_some(counts))
}

#[test]
fn ranges_are_one_call_of_a_store_that_takes_them(rt: HostRuntime) {
    assert!(rt; matches!(count::<true>(rt.alloc()), Ok(Some((0, 0, 1)))));
}

#[test]
fn a_store_that_takes_no_ranges_is_read_and_set(rt: HostRuntime) {
    assert!(rt; matches!(count::<false>(rt.alloc()), Ok(Some((1, 1, 0)))));
}

/// The size of a value that is replaced by one byte.
fn size_of_one<E: BytesPartialEncoderTraits>(
    alloc: Global,
    value: &mut E,
) -> Result<Option<u64>, CodecError> {
    value.set([5].to_vec(alloc)?)?;
    value.size()
}

/// The size of a value that is taken away, and whether it is there.
fn size_of_none<E: BytesPartialEncoderTraits>(
    value: &mut E,
) -> Result<(Option<u64>, bool), CodecError> {
    value.erase()?;
    Ok((value.size()?, value.exists()?))
}

/// Both of the value at `a`.
fn sizes(alloc: Global) -> Result<(Option<u64>, Option<u64>, bool), CodecError> {
    let (key, mut store) = (a(alloc)?, answered(four_bytes(alloc))?);
    let mut value = StoragePartialEncoder::new(&mut store, &key);
    let one = size_of_one(alloc, &mut value)?;
    let (none, there) = size_of_none(&mut value)?;
    Ok((one, none, there))
}

#[test]
fn a_value_is_replaced_and_taken_away(rt: HostRuntime) {
    assert!(rt; matches!(sizes(rt.alloc()), Ok((Some(1), None, false))));
}

/// Whether a value is not taken away.
fn stays<E: BytesPartialEncoderTraits>(value: &mut E) -> bool {
    value.erase().is_err()
}

/// Whether a store had a reason to refuse, which is taken now.
fn tells_why(value: &mut StoragePartialEncoder<'_, Store>) -> bool {
    value.take_refusal().is_some()
}

/// Whether an erasure is refused by the store, and its reason is kept until it is taken.
fn keeps_the_reason(store: &mut Store, key: &StoreKey) -> bool {
    let mut value = StoragePartialEncoder::new(store, key);
    stays(&mut value) && tells_why(&mut value) && !tells_why(&mut value)
}

/// The same where the value is left as it was.
fn is_refused(alloc: Global) -> Result<bool, CodecError> {
    let (key, store) = (a(alloc)?, answered(four_bytes(alloc))?);
    let mut store = RefusingStore::new(store, CallKind::Write, 1);
    let is_kept = keeps_the_reason(&mut store, &key);
    Ok(is_kept && answered(gets(&mut store, &key, Some(&[1, 2, 3, 4])))?)
}

#[test]
fn it_keeps_why_the_store_refused(rt: HostRuntime) {
    assert!(rt; matches!(is_refused(rt.alloc()), Ok(true)));
}
