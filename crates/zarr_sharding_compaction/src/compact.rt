//! Compaction of one shard.
ghost use Rattle.std.specs.Prelude.{◌≡◌, ◌*◌, ◌^◌, ◌<◌, length, true, IsTrue};
ghost use Rattle.zarr_codecs_meaning.specs.Encoding.{index_size};
ghost use Rattle.zarr_codecs_meaning.specs.Places.{index_shape};
ghost use Rattle.zarr_codecs_meaning.specs.Standing.{index_layout};
ghost use Rattle.zarr_grids_boxes.specs.Boxes.{product};
ghost use Rattle.zarr_sharding_changes.specs.Refusals.{shard_layout};
ghost use Rattle.zarr_sharding_compaction.specs.Outcomes.{CompactsShard, MakesShard};
ghost use Rattle.zarr_sharding_index.specs.Stored.{index_fits};
ghost use Rattle.zarr_sharding_index.specs.Views.{location_of, pairs_of};

use crate::layout::{ShardLayout, join_shard, split_shard};
use crate::slices::{SlicedData, copy_slices, present_length};
use std::alloc::Global;
use zarr_codecs_arrays::CodecError;
use zarr_codecs_traits::ArrayToBytesCodecTraits;
use zarr_sharding_index::shapes::index_shape;
use zarr_sharding_index::stored::{read_index, write_index};

/// A shard with its present slices row-major without gaps, and their index, which these codecs read
/// and write. `None` exactly where the shard is already as long as its index and its present slices
/// together, in whatever order these stand (this project's profile). `Damage` where the value is
/// shorter than the index, the index isn't decoded, or a present pair lies outside the data part;
/// `Size` where the shard would have 2^63 bytes or more; `Codec` where a caller's codec refuses the
/// new index. What the slices hold isn't decoded.
pub fn compact_shard<X: ArrayToBytesCodecTraits>(
    alloc: Global,
    codecs: &X,
    layout: ShardLayout<'_>,
    value: &[u8],
) -> Result<Option<Vec<u8>>, CodecError>
    requires rank { length layout.shape.now ≡ length layout.subchunk_shape.now }
    requires fit { index_fits (X.meaning codecs.now)
        (index_shape layout.shape.now layout.subchunk_shape.now) ≡ true }
    requires size { layout.index_size ≡ index_size (X.meaning codecs.now)
        (index_shape layout.shape.now layout.subchunk_shape.now) }
    requires function { IsTrue (X.is_function codecs.now) }
    ensures { CompactsShard (shard_layout layout.entry.subchunk_shape.now (X.meaning codecs.now)
        (location_of layout.entry.index_location) layout.entry.shape.now) value.now result }
{
    let Some((stored, data)) = split_shard(layout.index_location, layout.index_size, value) else {
        return Err(CodecError::Damage);
    };
    let pairs_shape = index_shape(alloc, layout.shape, layout.subchunk_shape)?;
    let pairs_shape = pairs_shape.as_slice();
    match read_index(alloc, codecs, stored.to_vec(alloc)?, pairs_shape) {
        Ok(index) => {
            let base = layout.index_location.base(layout.index_size);
            let sliced = SlicedData {
                index: &index,
                data,
                base,
            };
            let Some(present) = present_length(sliced) else {
                return Err(CodecError::Damage);
            };
            let total = layout.index_size as u128 + present;
            if total == value.len() as u128 {
                return Ok(None);
            }
            if total > 0x7fff_ffff_ffff_ffff {
                return Err(CodecError::Size);
            }
            write_slices(alloc, codecs, sliced, layout)
        }
        Err(error) => Err(error),
    }
}

/// The shard of the present slices row-major without gaps. `Damage` where a present pair lies
/// outside the data part; `Codec` and `Size` as `write_index` answers them.
fn write_slices<X: ArrayToBytesCodecTraits>(
    alloc: Global,
    codecs: &X,
    sliced: SlicedData<'_>,
    layout: ShardLayout<'_>,
) -> Result<Option<Vec<u8>>, CodecError>
    requires rank { length layout.shape.now ≡ length layout.subchunk_shape.now }
    requires fit { index_fits (X.meaning codecs.now)
        (index_shape layout.shape.now layout.subchunk_shape.now) ≡ true }
    requires many { product (index_shape layout.shape.now layout.subchunk_shape.now)
        ≡ 2 * length (pairs_of sliced.index.now) }
    requires low { sliced.base < 2 ^ 63 }
    requires function { IsTrue (X.is_function codecs.now) }
    ensures { MakesShard (index_layout (X.meaning codecs.now)
        (location_of layout.entry.index_location)
        (index_shape layout.entry.shape.now layout.entry.subchunk_shape.now)) sliced.entry.base
        sliced.entry.data.now (pairs_of sliced.entry.index.now) result }
{
    let Some((data, index)) = copy_slices(alloc, sliced)? else {
        return Err(CodecError::Damage);
    };
    let pairs_shape = index_shape(alloc, layout.shape, layout.subchunk_shape)?;
    match write_index(alloc, codecs, index, pairs_shape.as_slice()) {
        Ok(stored) => Ok(Some(join_shard(layout.index_location, stored, data)?)),
        Err(error) => Err(error),
    }
}
