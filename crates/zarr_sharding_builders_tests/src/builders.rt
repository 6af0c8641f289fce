//! Shards that a builder makes, and chains around them, with bytes typed in by hand. What shards of
//! other parts are encoded to is in calls/sharding.calls.
use std::alloc::{AllocError, Global};
use std::marker::Sync;
use std::thread::Threads;
use zarr_codecs::{ArrayToBytesCodec, BytesCodec, CodecError, data_type};
use zarr_codecs_reverse::ReverseCodec;
use zarr_sharding::{ShardedChain, ShardingCodec, ShardingCodecBuilder, ShardingIndexLocation};
use zarr_sharding_samples::{Chain, NONE, ONE_OF_FOUR, Value, chunk_shape, makes, transposition};

type Builder = ShardingCodecBuilder<ReverseCodec>;

type Built = ShardingCodec<Chain, Chain>;

/// A builder of shards of [4,4] of the type uint8 in subchunks of [2,2].
fn builder(alloc: Global) -> Result<Builder, CodecError> {
    let shape = chunk_shape(alloc, &[2, 2])?;
    Ok(ShardingCodecBuilder::new(alloc, shape, &data_type::uint8())?)
}

/// Cells of which the upper right subchunk is 5, 6, 7 and 8.
const CELLS: [u8; 16] = [0, 0, 5, 6, 0, 0, 7, 8, 0, 0, 0, 0, 0, 0, 0, 0];

/// Whether a builder makes shards of `bytes`, with the index at the end.
fn is_made_by_default(rt: &(impl Threads + Sync), alloc: Global) -> Result<bool, CodecError> {
    makes(rt, alloc, &builder(alloc)?.build(), CELLS, ONE_OF_FOUR)
}

#[test]
fn a_builder_makes_what_is_not_said_by_default(rt: HostRuntime) {
    assert!(rt; matches!(is_made_by_default(&rt, rt.alloc()), Ok(true)));
}

/// Whether the codec that a builder shares makes them too.
fn is_shared(rt: &(impl Threads + Sync), alloc: Global) -> Result<bool, CodecError> {
    let codec = builder(alloc)?.build_arc(alloc)?;
    makes(rt, alloc, &*codec, CELLS, ONE_OF_FOUR)
}

#[test]
fn a_builder_shares_what_it_makes(rt: HostRuntime) {
    assert!(rt; matches!(is_shared(&rt, rt.alloc()), Ok(true)));
}

/// A builder that is told of the codecs of subchunks.
fn told_of_subchunks(alloc: Global) -> Result<Builder, CodecError> {
    let reversal = vec![in alloc; ReverseCodec]?;
    let told = builder(alloc)?
        .array_to_array_codecs(transposition(alloc)?)
        .array_to_bytes_codec(ArrayToBytesCodec::Bytes(BytesCodec::new(None)))
        .bytes_to_bytes_codecs(reversal);
    Ok(told)
}

/// A builder that is also told of the index.
fn told(alloc: Global) -> Result<Built, CodecError> {
    let reversal = vec![in alloc; ReverseCodec]?;
    let told = told_of_subchunks(alloc)?
        .index_array_to_bytes_codec(ArrayToBytesCodec::Bytes(BytesCodec::big()))
        .index_bytes_to_bytes_codecs(reversal)
        .index_location(ShardingIndexLocation::Start);
    Ok(told.build())
}

const TOLD: &str =
    r#"{"configuration":{"chunk_shape":[2,2],"codecs":[{"configuration":{"order":[1,0]},"name":"transpose"},"bytes","x-reverse"],"index_codecs":[{"configuration":{"endian":"big"},"name":"bytes"},"x-reverse"],"index_location":"start"},"name":"sharding_indexed"}"#;

/// The text of the metadata of a codec.
fn text_of(alloc: Global, codec: &Built) -> Result<String, AllocError> {
    let metadata = codec.configuration(alloc)?.metadata(alloc)?;
    metadata.to_value(alloc)?.to_string(alloc)
}

/// Whether each part that a builder is told of stands in the metadata of its codec.
fn is_as_told(alloc: Global) -> Result<bool, CodecError> {
    Ok(text_of(alloc, &told(alloc)?)?.as_str() == TOLD)
}

#[test]
fn a_builder_takes_each_part_that_it_is_told_of(rt: HostRuntime) {
    assert!(rt; matches!(is_as_told(rt.alloc()), Ok(true)));
}

/// Whether a chain of a transposition, a shard and a reversal makes a reversed shard of the
/// transposed cells.
fn is_made_of_its_parts(rt: &(impl Threads + Sync), alloc: Global) -> Result<bool, CodecError> {
    let reversal = vec![in alloc; ReverseCodec]?;
    let chain = ShardedChain::new(transposition(alloc)?, builder(alloc)?.build(), reversal);
    let want = Value {
        front: &[],
        pairs: &[NONE, NONE, 0x0400_0000_0000_0000, 0, NONE, NONE, NONE, NONE],
        back: &[8, 6, 7, 5],
    };
    makes(rt, alloc, &chain, CELLS, want)
}

#[test]
fn a_chain_is_made_of_its_parts(rt: HostRuntime) {
    assert!(rt; matches!(is_made_of_its_parts(&rt, rt.alloc()), Ok(true)));
}
