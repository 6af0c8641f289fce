//! Where the parts of a shard stand among its bytes.
ghost use Rattle.std.specs.Prelude.{◌≡◌, IfOk};
ghost use Rattle.zarr_codecs_meaning.specs.Encoding.{joined};
ghost use Rattle.zarr_sharding_compaction.specs.Layout.{Splits};
ghost use Rattle.zarr_sharding_index.specs.Views.{location_of};

use std::alloc::AllocError;
use zarr_grids_boxes::ChunkShape;
use zarr_sharding_index::ShardingIndexLocation;

/// How a shard is laid out: the shape of its array and of its subchunks, where its index stands,
/// and how many bytes that has.
#[derive(Clone, Copy)]
pub struct ShardLayout<'a> {
    pub shape: &'a [u64],
    pub subchunk_shape: &'a ChunkShape,
    pub index_location: ShardingIndexLocation,
    pub index_size: u64,
}

/// The bytes of the index of a shard, of which there are so many, and those of its data part.
/// `None` where the value is shorter than the index.
pub fn split_shard(
    location: ShardingIndexLocation,
    size: u64,
    value: &[u8],
) -> Option<(&[u8], &[u8])>
    ensures { Splits (location_of location) size value.now result }
{
    if size > value.len() as u64 {
        return None;
    }
    match location {
        ShardingIndexLocation::Start => Some(value.split_at(size as usize)),
        ShardingIndexLocation::End => {
            let (data, index) = value.split_at(value.len() - size as usize);
            Some((index, data))
        }
    }
}

/// The index before or behind the data.
pub fn join_shard(
    location: ShardingIndexLocation,
    index: Vec<u8>,
    data: Vec<u8>,
) -> Result<Vec<u8>, AllocError>
    ensures { IfOk result
        (λ value. value.items ≡ joined (location_of location) index.items data.items) }
{
    let (mut front, back) = match location {
        ShardingIndexLocation::Start => (index, data),
        ShardingIndexLocation::End => (data, index),
    };
    front.extend_from_slice(back.as_slice())?;
    Ok(front)
}
