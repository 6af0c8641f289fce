//! A shard of two subchunks that threads encode and decode.

use std::marker::Sync;
use std::thread::Threads;
use zarr_codecs::{
    ArrayBytes, ArrayToBytesCodecTraits, BytesCodec, CodecOptions, DataType, Elements, FillValue,
    WholeArray,
};
use zarr_grids::ChunkShape;
use zarr_scarcity_scripts::{Stop, expect};
use zarr_sharding::{ShardingCodec, ShardingIndexLocation};

/// Whether these are 2^19 bytes, each 1.
fn are_ones(read: &ArrayBytes) -> bool {
    match read {
        ArrayBytes::Fixed(bytes) => bytes.len() == 1 << 19 && bytes.iter().all(|byte| *byte == 1),
        _ => false,
    }
}

/// The shard encoded and decoded with workers: 256 KiB for each of two threads.
pub(crate) fn run<R: AllocGlobal + Threads + Sync>(rt: &R) -> Result<(), Stop> {
    let alloc = rt.alloc();
    let shape = ChunkShape::new(vec![in alloc; 1u64 << 18]?)?;
    let end = ShardingIndexLocation::End;
    let (inner, index) = (BytesCodec::big(), BytesCodec::little());
    let codec = ShardingCodec::new(shape, inner, index, end);
    let fill = FillValue::from_u8(alloc, 0)?;
    let Some(elements) = Elements::new(DataType::UInt8, fill) else {
        return Err(Stop::Other);
    };
    let array = WholeArray {
        elements: &elements,
        shape: &[1 << 19],
    };
    let options = &CodecOptions::default().with_workers(true);
    let cells = ArrayBytes::Fixed(vec![in alloc; 1u8; 1 << 19]?);
    let value = codec.encode(rt, alloc, cells, array, options)?;
    let read = codec.decode(rt, alloc, value, array, options)?;
    expect(are_ones(&read))
}
