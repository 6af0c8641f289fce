//! Shards encoded and decoded with workers: subchunks by several threads.

use crate::samples::{WaitingChain, are_ones, chain};
use crate::waiting_codec::WaitingCodec;
use std::alloc::Global;
use std::marker::Sync;
use std::thread::Threads;
use zarr_codecs::{
    ArrayBytes, ArrayToBytesCodecTraits, CodecError, CodecOptions, Elements, FillValue, WholeArray,
    data_type,
};
use zarr_grids::ChunkShape;
use zarr_sharding::{ShardingCodec, ShardingIndexLocation};

/// How many cells a shard has.
const CELLS: usize = 1 << 22;

/// Shards of subchunks of 256 KiB, which are encoded by `bytes` and the codec that waits.
fn shards(alloc: Global, codec: WaitingCodec) -> Option<ShardingCodec<WaitingChain, WaitingChain>> {
    let shape = ChunkShape::new(vec![in alloc; 1u64 << 18].ok()?).ok()?;
    let inner = chain(alloc, vec![in alloc; codec].ok()?);
    let index = chain(alloc, Vec::new(alloc));
    Some(ShardingCodec::new(shape, inner, index, ShardingIndexLocation::End))
}

/// What sixteen subchunks of ones are decoded to once they are encoded, both with workers or not.
fn coded<R: Threads + Sync, C: ArrayToBytesCodecTraits + Sync>(
    rt: &R,
    alloc: Global,
    codec: &C,
    workers: bool,
) -> Option<Result<ArrayBytes, CodecError>> {
    let elements = Elements::new(data_type::uint8(), FillValue::from_u8(alloc, 0).ok()?)?;
    let array = WholeArray {
        elements: &elements,
        shape: &[CELLS as u64],
    };
    let options = &CodecOptions::default().with_workers(workers);
    let cells = ArrayBytes::Fixed(vec![in alloc; 1u8; CELLS].ok()?);
    match codec.encode(rt, alloc, cells, array, options) {
        Ok(value) => Some(codec.decode(rt, alloc, value, array, options)),
        Err(error) => Some(Err(error)),
    }
}

/// The same by the shards, whose encoding and decoding wait for so many turns.
fn outcome(
    rt: &(impl Threads + Sync),
    alloc: Global,
    (encoding, decoding): (u64, u64),
    workers: bool,
) -> Option<Result<ArrayBytes, CodecError>> {
    let codec = shards(alloc, WaitingCodec::new(encoding, decoding))?;
    coded(rt, alloc, &codec, workers)
}

#[test]
fn subchunks_are_decoded_by_several_threads(rt: HostRuntime) {
    let found = outcome(&rt, rt.alloc(), (0, 1 << 26), true);
    assert!(rt; matches!(&found, Some(Ok(read)) if are_ones(read, CELLS)));
}

#[test]
fn subchunks_are_encoded_by_several_threads(rt: HostRuntime) {
    let found = outcome(&rt, rt.alloc(), (1 << 26, 0), true);
    assert!(rt; matches!(&found, Some(Ok(read)) if are_ones(read, CELLS)));
}

#[test]
fn without_workers_subchunks_are_decoded_one_after_another(rt: HostRuntime) {
    let found = outcome(&rt, rt.alloc(), (0, 1 << 10), false);
    assert!(rt; matches!(found, Some(Err(CodecError::Memory))));
}

#[test]
fn without_workers_subchunks_are_encoded_one_after_another(rt: HostRuntime) {
    let found = outcome(&rt, rt.alloc(), (1 << 10, 0), false);
    assert!(rt; matches!(found, Some(Err(CodecError::Memory))));
}
