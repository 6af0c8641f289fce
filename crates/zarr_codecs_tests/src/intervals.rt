//! Intervals of a source as sources, with values typed in by hand.
use crate::samples::{are, zeros};
use std::alloc::Global;
use std::marker::Sync;
use std::thread::Threads;
use zarr_codecs::{
    ArrayBytes, ArrayPart, ArrayToBytesCodecTraits, ByteRange, BytesCodec,
    BytesPartialDecoderTraits, CodecError, CodecOptions, Indexer, IntervalSource, MemorySource,
};

const EIGHT: [u8; 8] = [0, 1, 2, 3, 4, 5, 6, 7];

/// The four bytes in the middle of eight.
const MIDDLE: ByteRange = ByteRange {
    offset: 2,
    length: 4,
};

/// The cell with a number that `bytes` reads of four.
fn read(
    rt: &(impl Threads + Sync),
    alloc: Global,
    source: &mut IntervalSource<'_, MemorySource>,
    number: u64,
) -> Result<ArrayBytes, CodecError> {
    let elements = zeros(alloc)?;
    let part = ArrayPart {
        elements: &elements,
        shape: &[4],
        indexer: Indexer::List(&[number]),
    };
    BytesCodec::new(None).partial_decode(rt, alloc, source, part, &CodecOptions::default())
}

/// Whether the second cell of four that stand in the middle of eight bytes is this one, and how
/// many bytes are taken for it.
fn is_read(
    rt: &(impl Threads + Sync),
    alloc: Global,
    want: u8,
) -> Result<(bool, u128), CodecError> {
    let mut source = MemorySource::new(Some(EIGHT.to_vec(alloc)?));
    let mut interval = IntervalSource {
        source: &mut source,
        range: MIDDLE,
    };
    let found = read(rt, alloc, &mut interval, 1)?;
    Ok((are(&found, &[want]), source.given_bytes()))
}

#[test]
fn an_interval_is_read_as_a_value(rt: HostRuntime) {
    assert!(rt; matches!(is_read(&rt, rt.alloc(), 3), Ok((true, 1))));
}

/// What a range past the end of an interval of four bytes in the middle of eight gives.
fn past_the_interval(alloc: Global) -> Result<Option<Vec<Vec<u8>>>, CodecError> {
    let mut source = MemorySource::new(Some(EIGHT.to_vec(alloc)?));
    let mut interval = IntervalSource {
        source: &mut source,
        range: MIDDLE,
    };
    let past = ByteRange {
        offset: 3,
        length: 2,
    };
    interval.partial_decode(alloc, &[past])
}

#[test]
fn an_interval_ends_where_its_range_does(rt: HostRuntime) {
    assert!(rt; matches!(past_the_interval(rt.alloc()), Err(CodecError::Damage)));
}
