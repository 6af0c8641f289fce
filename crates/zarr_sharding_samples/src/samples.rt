//! What tests of shards share, with bytes typed in by hand.
use std::alloc::Global;
use std::marker::Sync;
use std::thread::Threads;
use zarr_codecs::{
    ArrayBytes, ArrayToArrayCodec, ArrayToBytesCodec, ArrayToBytesCodecTraits, BytesCodec,
    CodecChain, CodecError, CodecOptions, Elements, FillValue, TransposeCodec, TransposeOrder,
    WholeArray, data_type,
};
use zarr_codecs_reverse::ReverseCodec;
use zarr_grids::ChunkShape;
use zarr_sharding::{ShardingCodec, ShardingIndexLocation, SubchunkWriteOrder};

/// Both numbers of an absent subchunk's pair.
pub const NONE: u64 = u64::MAX;

/// Shards whose subchunks and index are encoded by `bytes`.
pub type Shards = ShardingCodec<BytesCodec, BytesCodec>;

/// A chain without shards.
pub type Chain = CodecChain<ReverseCodec>;

/// Shards whose subchunks are shards.
pub type Nested = ShardingCodec<Shards, BytesCodec>;

/// Elements of the type uint8 that fill with a number.
pub fn elements(alloc: Global, fill: u8) -> Result<Elements, CodecError> {
    match Elements::new(data_type::uint8(), FillValue::from_u8(alloc, fill)?) {
        Some(elements) => Ok(elements),
        None => Err(CodecError::Fit),
    }
}

/// A shape that chunks may have.
pub fn chunk_shape(alloc: Global, edges: &[u64]) -> Result<ChunkShape, CodecError> {
    match ChunkShape::new(edges.to_vec(alloc)?) {
        Ok(shape) => Ok(shape),
        Err(_) => Err(CodecError::Fit),
    }
}

/// Shards of subchunks of this shape, written row-major.
pub fn shards(
    alloc: Global,
    edges: &[u64],
    location: ShardingIndexLocation,
) -> Result<Shards, CodecError> {
    let (inner, index) = (BytesCodec::little(), BytesCodec::little());
    let codec = ShardingCodec::new(chunk_shape(alloc, edges)?, inner, index, location);
    Ok(codec.with_subchunk_write_order(SubchunkWriteOrder::C))
}

/// Shards of [2,2] whose subchunks are shards of [1,2], written row-major.
pub fn nested(alloc: Global, location: ShardingIndexLocation) -> Result<Nested, CodecError> {
    let (shape, inner) = (
        chunk_shape(alloc, &[2, 2])?,
        shards(alloc, &[1, 2], location)?,
    );
    let codec = ShardingCodec::new(shape, inner, BytesCodec::little(), location);
    Ok(codec.with_subchunk_write_order(SubchunkWriteOrder::C))
}

/// The chain of `bytes` alone.
pub fn plain(alloc: Global) -> Chain {
    let bytes = ArrayToBytesCodec::Bytes(BytesCodec::little());
    CodecChain::new(Vec::new(alloc), bytes, Vec::new(alloc))
}

/// The transposition of two dimensions.
pub fn transposition(alloc: Global) -> Result<Vec<ArrayToArrayCodec>, CodecError> {
    let Some(order) = TransposeOrder::new(alloc, vec![in alloc; 1, 0]?)? else {
        return Err(CodecError::Fit);
    };
    let codec = ArrayToArrayCodec::Transpose(TransposeCodec::new(order));
    Ok(vec![in alloc; codec]?)
}

/// A value: bytes, then numbers of eight bytes, and then bytes again.
#[derive(Clone, Copy)]
pub struct Value<'x> {
    pub front: &'x [u8],
    pub pairs: &'x [u64],
    pub back: &'x [u8],
}

/// The shard of [4,4] in subchunks of [2,2] of which the upper right one is 5, 6, 7 and 8.
pub const ONE_OF_FOUR: Value<'static> = Value {
    front: &[5, 6, 7, 8],
    pairs: &[NONE, NONE, 0, 4, NONE, NONE, NONE, NONE],
    back: &[],
};

/// The same once 9 is put at the first place.
pub const NINE_PUT: Value<'static> = Value {
    front: &[5, 6, 7, 8, 9, 0, 0, 0],
    pairs: &[4, 4, 0, 4, NONE, NONE, NONE, NONE],
    back: &[],
};

/// The bytes of a value.
pub fn bytes_of(alloc: Global, value: Value<'_>) -> Result<Vec<u8>, CodecError> {
    let mut all = value.front.to_vec(alloc)?;
    for number in value.pairs {
        all.extend_from_slice(&number.to_le_bytes())?;
    }
    all.extend_from_slice(value.back)?;
    Ok(all)
}

/// Whether what a source held is this value, or is none.
pub fn is(
    alloc: Global,
    found: Option<Vec<u8>>,
    want: Option<Value<'_>>,
) -> Result<bool, CodecError> {
    match (found, want) {
        (Some(found), Some(want)) => Ok(found.as_slice() == bytes_of(alloc, want)?.as_slice()),
        (found, _) => Ok(found.is_none() && want.is_none()),
    }
}

/// Whether elements of one size are these bytes.
pub fn are(elements: &ArrayBytes, bytes: &[u8]) -> bool {
    match elements {
        ArrayBytes::Fixed(read) => read.as_slice() == bytes,
        _ => false,
    }
}

/// Whether a codec makes this value of 16 cells in four rows.
pub fn makes<R: Threads + Sync, C: ArrayToBytesCodecTraits + Sync>(
    rt: &R,
    alloc: Global,
    codec: &C,
    cells: [u8; 16],
    want: Value<'_>,
) -> Result<bool, CodecError> {
    let (given, elements) = (ArrayBytes::Fixed(cells.to_vec(alloc)?), elements(alloc, 0)?);
    let array = WholeArray {
        elements: &elements,
        shape: &[4, 4],
    };
    let made = codec.encode(rt, alloc, given, array, &CodecOptions::default())?;
    Ok(made.as_slice() == bytes_of(alloc, want)?.as_slice())
}
