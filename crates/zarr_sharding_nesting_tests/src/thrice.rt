//! Shards of shards of shards. As types they nest without limit; documents have at most two in one
//! another.
use std::alloc::Global;
use zarr_codecs::{ArrayBytes, ArrayToBytesCodecTraits, BytesCodec, CodecError};
use zarr_sharding::{ShardingCodec, ShardingIndexLocation, SubchunkWriteOrder};
use zarr_sharding_samples::{NONE, Nested, Value, are, bytes_of, chunk_shape, elements, nested};

/// Shards of [2,4], whose subchunks are shards of [2,2], and theirs shards of [1,2].
fn thrice(alloc: Global) -> Result<ShardingCodec<Nested, BytesCodec>, CodecError> {
    let end = ShardingIndexLocation::End;
    let (shape, inner) = (chunk_shape(alloc, &[2, 4])?, nested(alloc, end)?);
    let codec = ShardingCodec::new(shape, inner, BytesCodec::little(), end);
    Ok(codec.with_subchunk_write_order(SubchunkWriteOrder::C))
}

/// Cells of which only the first two aren't fill.
const CELLS: [u8; 16] = [1, 2, 0, 0, 0, 0, 0, 0, 0, 0, 0, 0, 0, 0, 0, 0];

/// Their shard: each level has a pair for the one of its subchunks that is there.
const STORED: Value<'static> = Value {
    front: &[1, 2],
    pairs: &[0, 2, NONE, NONE, 0, 34, NONE, NONE, 0, 66, NONE, NONE],
    back: &[],
};

/// Whether the shard is decoded to these cells.
fn reads(alloc: Global) -> Result<bool, CodecError> {
    let (value, elements) = (bytes_of(alloc, STORED)?, elements(alloc, 0)?);
    let read = thrice(alloc)?.decode_in_order(alloc, value, &elements, &[4, 4])?;
    Ok(are(&read, &CELLS))
}

/// Whether these cells are encoded to the shard.
fn writes(alloc: Global) -> Result<bool, CodecError> {
    let (given, elements) = (ArrayBytes::Fixed(CELLS.to_vec(alloc)?), elements(alloc, 0)?);
    let made = thrice(alloc)?.encode_in_order(alloc, given, &elements, &[4, 4])?;
    Ok(made.as_slice() == bytes_of(alloc, STORED)?.as_slice())
}

#[test]
fn shards_nest_thrice(rt: HostRuntime) {
    assert!(rt; matches!(writes(rt.alloc()), Ok(true)));
    assert!(rt; matches!(reads(rt.alloc()), Ok(true)));
}
