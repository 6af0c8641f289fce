//! An index of many subchunks, few of which are present.
use std::alloc::Global;
use std::marker::Sync;
use std::thread::Threads;
use zarr_codecs::{
    ArrayBytes, ArrayToBytesCodecTraits, CodecError, CodecOptions, MemorySource, WholeArray,
};
use zarr_sharding::{ShardingIndexLocation, ShardingPartialDecoder};
use zarr_sharding_samples::{elements, shards};

/// The shard of a million subchunks of one cell each, of which every hundred thousandth is present.
fn million(rt: &(impl Threads + Sync), alloc: Global) -> Result<Vec<u8>, CodecError> {
    let mut cells = vec![in alloc; 0u8; 1_000_000]?;
    for cell in cells.as_mut_slice().chunks_mut(100_000) {
        if let Some(first) = cell.first_mut() {
            *first = 1;
        }
    }
    let codec = shards(alloc, &[1], ShardingIndexLocation::End)?;
    let (given, elements) = (ArrayBytes::Fixed(cells), elements(alloc, 0)?);
    let array = WholeArray {
        elements: &elements,
        shape: &[1_000_000],
    };
    codec.encode(rt, alloc, given, array, &CodecOptions::default())
}

/// How many bytes a decoder of it keeps.
fn kept(rt: &(impl Threads + Sync), alloc: Global) -> Result<usize, CodecError> {
    let codec = shards(alloc, &[1], ShardingIndexLocation::End)?;
    let elements = elements(alloc, 0)?;
    let array = WholeArray {
        elements: &elements,
        shape: &[1_000_000],
    };
    let mut source = MemorySource::new(Some(million(rt, alloc)?));
    let decoder = ShardingPartialDecoder::new(alloc, &codec, &mut source, array)?;
    Ok(decoder.size_held())
}

#[test]
fn of_a_million_pairs_ten_are_kept(rt: HostRuntime) {
    assert!(rt; matches!(kept(&rt, rt.alloc()), Ok(240)));
}
