//! What is known of a shard once its index is fetched.
ghost use Rattle.std.specs.Prelude.{◌≡◌, ◌^◌, ◌<◌, ◌%◌, is_some, IfOk, IfSome};
ghost use Rattle.std.specs.List.{list_all};
ghost use Rattle.zarr_sharding_index.specs.Present.{all_pairs};
ghost use Rattle.zarr_sharding_index.specs.Views.{location_of, pair_of, pairs_of};
ghost use Rattle.zarr_sharding_index.specs.Held.{lies_between, lies_within};
ghost use Rattle.zarr_sharding_index.specs.Opened.{Opens, data_end, IsLaid};
ghost use Rattle.zarr_grids_boxes.specs.Boxes.{product};

use crate::fetched_index::{IndexLayout, WholeIndex};
use crate::index::ShardIndex;
use crate::known_shard::KnownShard;
use crate::location::ShardingIndexLocation;
use crate::pair::is_absent;
use crate::present::PresentPairs;
use std::alloc::{AllocError, Global};
use zarr_codecs_arrays::CodecError;
use zarr_codecs_traits::ByteRange;
use zarr_grids_boxes::walk::count_places;

/// The index of a shard and where its data part ends, where each present pair lies in that.
/// `Damage` where one doesn't, and `Size` where the data part ends past 2^63 - 1 bytes.
pub(crate) fn open_fetched(
    alloc: Global,
    fetched: Option<WholeIndex>,
    layout: IndexLayout<'_>,
) -> Result<KnownShard, CodecError>
    requires low { layout.size < 2 ^ 63 }
    requires even { product layout.shape.now % 2 ≡ 0 }
    ensures opens { Opens (location_of layout.entry.location) layout.entry.shape.now
        layout.entry.size fetched result }
    ensures laid { IfOk result (IsLaid (location_of layout.entry.location)
        layout.entry.shape.now layout.entry.size) }
{
    let Some(count) = count_places(layout.shape) else {
        return Err(CodecError::Memory);
    };
    let (location, size) = (layout.location, layout.size);
    let shape = layout.shape.to_vec(alloc)?;
    let base = location.base(size);
    let Some(found) = fetched else {
        let pairs = PresentPairs::all_absent(alloc, (count / 2) as usize);
        return Ok(KnownShard {
            pairs,
            end: base,
            location,
            shape,
            size,
        });
    };
    let Some(end) = data_end(location, size, found.total) else {
        return Err(CodecError::Damage);
    };
    if found.index.len() as u64 != count / 2 {
        return Err(CodecError::Damage);
    }
    let Some(pairs) = pairs_between(alloc, found.index, base, end)? else {
        return Err(CodecError::Damage);
    };
    if end > 0x7fff_ffff_ffff_ffff {
        return Err(CodecError::Size);
    }
    Ok(KnownShard {
        pairs,
        end,
        location,
        shape,
        size,
    })
}

/// Where the data part ends of a shard of so many bytes, or `None` where these are fewer than those
/// of its index.
fn data_end(location: ShardingIndexLocation, size: u64, total: u64) -> Option<u64>
    ensures { result ≡ data_end (location_of location) size total }
{
    let rest = total.checked_sub(size)?;
    match location {
        ShardingIndexLocation::Start => Some(total),
        ShardingIndexLocation::End => Some(rest),
    }
}

/// The pairs of an index, or `None` where a present one doesn't lie in a data part from `base` to
/// `end`. Where each pair lies there, each subchunk is present, and one pass is enough.
fn pairs_between(
    alloc: Global,
    index: ShardIndex,
    base: u64,
    end: u64,
) -> Result<Option<PresentPairs>, AllocError>
    ensures some { IfOk result (λ found. IfSome found (λ pairs. all_pairs pairs ≡ pairs_of index)) }
    ensures lie { IfOk result (λ found. is_some found
        ≡ list_all (lies_between base end) (pairs_of index)) }
{
    if all_lie_within(&index, base, end) {
        return Ok(Some(PresentPairs::from_all_present(index)));
    }
    let pairs = PresentPairs::from_index(alloc, index)?;
    if all_lie_between(&pairs, base, end) {
        Ok(Some(pairs))
    } else {
        Ok(None)
    }
}

/// Whether each pair lies in a data part from `base` to `end`.
fn all_lie_within(index: &ShardIndex, base: u64, end: u64) -> bool
    ensures { result ≡ list_all (lies_within base end) (pairs_of index.now) }
{
    for n in 0..index.len() {
        if !lies_within(index.get(n), base, end) {
            return false;
        }
    }
    true
}

/// Whether each present pair lies in a data part from `base` to `end`.
fn all_lie_between(pairs: &PresentPairs, base: u64, end: u64) -> bool
    ensures { result ≡ list_all (lies_between base end) (all_pairs pairs.now) }
{
    for k in 0..pairs.count_present() {
        if !lies_between(pairs.nth(k).range, base, end) {
            return false;
        }
    }
    true
}

/// Whether a pair is absent, or lies in a data part from `base` to `end`.
fn lies_between(pair: ByteRange, base: u64, end: u64) -> bool
    ensures { result ≡ lies_between base end (pair_of pair) }
{
    lies_within(pair, base, end) || is_absent(pair)
}

/// Whether a pair lies in a data part from `base` to `end`.
fn lies_within(pair: ByteRange, base: u64, end: u64) -> bool
    ensures { result ≡ lies_within base end (pair_of pair) }
{
    base <= pair.offset && pair.offset <= end && pair.length <= end - pair.offset
}
