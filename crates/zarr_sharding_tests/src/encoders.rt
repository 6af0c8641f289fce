//! A shard behind a lock, with bytes typed in by hand.
use std::alloc::Global;
use std::marker::Sync;
use std::sync::Wait;
use std::thread::Threads;
use zarr_codecs::{
    ArrayBytes, BytesCodec, CodecError, CodecOptions, Elements, Indexer, MemorySource, WholeArray,
};
use zarr_sharding::{ShardState, ShardingIndexLocation, ShardingPartialEncoder};
use zarr_sharding_samples::{NINE_PUT, ONE_OF_FOUR, Shards, are, bytes_of, elements, is, shards};

type Encoder<'a> = ShardingPartialEncoder<'a, BytesCodec, BytesCodec, MemorySource>;

/// The shard of [4,4] in subchunks of [2,2], of which one is present, behind a lock.
fn shared<'a>(
    alloc: Global,
    codec: &'a Shards,
    elements: &'a Elements,
) -> Result<Encoder<'a>, CodecError> {
    let source = MemorySource::new(Some(bytes_of(alloc, ONE_OF_FOUR)?));
    let array = WholeArray {
        elements,
        shape: &[4, 4],
    };
    match ShardState::open(alloc, codec, source, array) {
        Ok(state) => Ok(ShardingPartialEncoder::new(state)),
        Err((_, error)) => Err(error),
    }
}

/// Whether the first, the third and the sixth place are read as 9, 5 and 0 once 9 is put at the
/// first one.
fn reads<R: Threads + Wait + Sync>(
    rt: &R,
    alloc: Global,
    encoder: &Encoder<'_>,
) -> Result<bool, CodecError> {
    let (given, options) = (
        ArrayBytes::Fixed([9].to_vec(alloc)?),
        CodecOptions::default(),
    );
    encoder.partial_encode(rt, alloc, Indexer::List(&[0]), given, &options)?;
    let read = encoder.partial_decode(rt, alloc, Indexer::List(&[0, 2, 5]), &options)?;
    Ok(are(&read, &[9, 5, 0]))
}

/// Whether that is so of that shard, and its source then has the slice of the first subchunk behind
/// the other one.
fn is_put<R: Threads + Wait + Sync>(rt: &R, alloc: Global) -> Result<bool, CodecError> {
    let codec = shards(alloc, &[2, 2], ShardingIndexLocation::End)?;
    let elements = elements(alloc, 0)?;
    let encoder = shared(alloc, &codec, &elements)?;
    let is_read = reads(rt, alloc, &encoder);
    let value = encoder.into_state().into_source().into_value();
    let is_left = is(alloc, value, Some(NINE_PUT));
    Ok(matches!((is_read, is_left), (Ok(true), Ok(true))))
}

#[test]
fn a_part_is_put_and_read_behind_a_lock(rt: HostRuntime) {
    assert!(rt; matches!(is_put(&rt, rt.alloc()), Ok(true)));
}

/// Whether the source of that shard holds no value once the shard is taken away.
fn is_taken_away<R: Wait>(rt: &R, alloc: Global) -> Result<bool, CodecError> {
    let codec = shards(alloc, &[2, 2], ShardingIndexLocation::End)?;
    let elements = elements(alloc, 0)?;
    let encoder = shared(alloc, &codec, &elements)?;
    let erased = encoder.erase(rt, alloc);
    let value = encoder.into_state().into_source().into_value();
    Ok(erased.is_ok() && value.is_none())
}

#[test]
fn a_shard_is_taken_away_behind_a_lock(rt: HostRuntime) {
    assert!(rt; matches!(is_taken_away(&rt, rt.alloc()), Ok(true)));
}
