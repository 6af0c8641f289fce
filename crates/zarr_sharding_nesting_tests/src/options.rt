//! Options of shards.
use std::alloc::Global;
use std::marker::Sync;
use std::thread::Threads;
use zarr_codecs::{ArrayToBytesCodecTraits, BytesCodec, CodecError};
use zarr_codecs_reverse::ReverseCodec;
use zarr_sharding::{
    ArrayChain, ShardedChain, ShardingCodec, ShardingCodecOptions, ShardingIndexLocation,
    SubchunkWriteOrder, TakesShardingOptions,
};
use zarr_sharding_samples::{NONE, Nested, Shards, Value, chunk_shape, makes, plain};

#[test]
fn an_order_that_is_set_is_told(rt: HostRuntime) {
    let mut options = ShardingCodecOptions::default();
    options.set_subchunk_write_order(SubchunkWriteOrder::C);
    assert!(rt; options.subchunk_write_order() == SubchunkWriteOrder::C);
}

#[test]
fn options_are_made_with_an_order(rt: HostRuntime) {
    let options = ShardingCodecOptions::default();
    let others = options.with_subchunk_write_order(SubchunkWriteOrder::Random);
    assert!(rt; others.subchunk_write_order() == SubchunkWriteOrder::Random);
    assert!(rt; options.subchunk_write_order() == SubchunkWriteOrder::Unordered);
}

/// Options with subchunks written row-major.
fn row_major() -> ShardingCodecOptions {
    ShardingCodecOptions::default().with_subchunk_write_order(SubchunkWriteOrder::C)
}

/// Shards of subchunks of [2,2] that are shards of [1,2], in any order.
fn in_any_order(alloc: Global) -> Result<Nested, CodecError> {
    let (inner, outer) = (chunk_shape(alloc, &[1, 2])?, chunk_shape(alloc, &[2, 2])?);
    let end = ShardingIndexLocation::End;
    let shards: Shards = ShardingCodec::new(inner, BytesCodec::little(), BytesCodec::little(), end);
    Ok(ShardingCodec::new(outer, shards, BytesCodec::little(), end))
}

/// Whether what the shards are encoded to depends on their cells alone once they have the options,
/// and not before.
fn is_then_exact(alloc: Global) -> Result<bool, CodecError> {
    let codec = in_any_order(alloc)?;
    let before = codec.encoding_is_function();
    Ok(!before && codec.with_options(row_major()).encoding_is_function())
}

#[test]
fn options_say_the_order_at_every_depth(rt: HostRuntime) {
    assert!(rt; matches!(is_then_exact(rt.alloc()), Ok(true)));
}

/// Cells of which two subchunks of the first shard aren't fill.
const CELLS: [u8; 16] = [1, 2, 0, 0, 3, 4, 0, 0, 0, 0, 0, 0, 0, 0, 0, 0];

/// Their shard, of which each subchunk has two bytes, row-major: the inner shard has the pairs (0,
/// 2) and (2, 2).
const STORED: Value<'static> = Value {
    front: &[
        1, 2, 3, 4, 0, 0, 0, 0, 0, 0, 0, 0, 2, 0, 0, 0, 0, 0, 0, 0, 2, 0, 0, 0, 0, 0, 0, 0, 2, 0,
        0, 0, 0, 0, 0, 0,
    ],
    pairs: &[0, 36, NONE, NONE, NONE, NONE, NONE, NONE],
    back: &[],
};

/// Whether a shard of shards with the options makes it.
fn is_row_major(rt: &(impl Threads + Sync), alloc: Global) -> Result<bool, CodecError> {
    makes(
        rt,
        alloc,
        &in_any_order(alloc)?.with_options(row_major()),
        CELLS,
        STORED,
    )
}

#[test]
fn options_change_no_shard_but_its_order(rt: HostRuntime) {
    assert!(rt; matches!(is_row_major(&rt, rt.alloc()), Ok(true)));
}

/// The chain of an array whose shards of subchunks of [2,2] have shards of subchunks of [1,2].
fn array_chain(alloc: Global) -> Result<ArrayChain<ReverseCodec>, CodecError> {
    let (inner, outer) = (chunk_shape(alloc, &[1, 2])?, chunk_shape(alloc, &[2, 2])?);
    let end = ShardingIndexLocation::End;
    let shards = ShardingCodec::new(inner, plain(alloc), plain(alloc), end);
    let shards = ShardedChain::new(Vec::new(alloc), shards, Vec::new(alloc));
    let shards = ShardingCodec::new(outer, shards, plain(alloc), end);
    Ok(ArrayChain::Nested(ShardedChain::new(Vec::new(alloc), shards, Vec::new(alloc))))
}

/// Whether the chain of an array makes it that is given the options.
fn array_is_row_major(rt: &(impl Threads + Sync), alloc: Global) -> Result<bool, CodecError> {
    let chain = array_chain(alloc)?.with_codec_specific_options(row_major());
    makes(rt, alloc, &chain, CELLS, STORED)
}

#[test]
fn shards_of_an_array_are_written_in_the_order_of_their_options(rt: HostRuntime) {
    assert!(rt; matches!(array_is_row_major(&rt, rt.alloc()), Ok(true)));
}
