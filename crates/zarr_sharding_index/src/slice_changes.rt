//! What replaces the slices of some subchunks.
ghost use Rattle.std.specs.Prelude.{◌≡◌, ◌+◌, ◌^◌, ◌<◌, ◌≤◌, ◌∷◌, ℕ, List, [], Option, Some, length, true, unwrap_or, IfNone, IfOk, IfSome, IsTrue, OnOk};
ghost use Rattle.std.specs.List.{list_all};
ghost use Rattle.zarr_codecs_traits.specs.Patches.{any_too_far, patched_contents, patches_of};
ghost use Rattle.zarr_sharding_changes.specs.Changes.{appended, pairs_after};
ghost use Rattle.zarr_sharding_index.specs.Present.{all_pairs};
ghost use Rattle.zarr_sharding_index.specs.Views.{location_of};
ghost use Rattle.zarr_sharding_index.specs.Calls.{CalledToWrite};
ghost use Rattle.zarr_sharding_index.specs.Held.{shard_length};
ghost use Rattle.zarr_sharding_index.specs.SliceChanges.{changes_of, is_below};
ghost use Rattle.zarr_sharding_index.specs.Written.{AppendRefused, with_slices};

use crate::location::ShardingIndexLocation;
use crate::pair::ABSENT;
use crate::present::PresentPairs;
use std::alloc::{AllocError, Global};
use zarr_codecs_arrays::CodecError;
use zarr_codecs_traits::{ByteRange, BytesPartialEncoderTraits, ValuePatch};

/// The number of a subchunk and the slice that it is encoded as anew, or none where it became all
/// fill.
#[derive(Debug, Drop)]
pub struct SliceChange {
    pub number: usize,
    pub slice: Option<Vec<u8>>,
}

/// The bytes of an index, and slices in a row.
#[derive(Clone, Copy)]
pub(crate) struct ShardBytes<'a> {
    pub index: &'a [u8],
    pub slices: &'a [u8],
}

/// The slices of changes in a row.
pub(crate) fn join_slices(alloc: Global, changes: &[SliceChange]) -> Result<Vec<u8>, AllocError>
    ensures { IfOk result (λ made. made.items ≡ appended (changes_of changes.now)) }
{
    let mut made = Vec::new(alloc);
    for change in changes {
        if let Some(bytes) = &change.slice {
            made.extend_from_slice(bytes.as_slice())?;
        }
    }
    Ok(made)
}

/// The number and the slice of the only change, where there is one alone and it has a slice; the
/// slice is taken out of it.
pub(crate) fn take_only_slice(changes: &mut Vec<SliceChange>) -> Option<(usize, Vec<u8>)>
    ensures some { IfSome result (λ taken. changes_of changes.old.items
        ≡ (taken.0, Some taken.1.items) ∷ []) }
    ensures none { IfNone result (changes.new.items ≡ changes.old.items) }
{
    if changes.len() != 1 {
        return None;
    }
    let number = changes[0].number;
    match changes[0].slice.take() {
        Some(slice) => Some((number, slice)),
        None => None,
    }
}

/// How many bytes the slices of changes have together, if that is below 2^64.
pub(crate) fn appended_length(changes: &[SliceChange]) -> Option<u64>
    ensures some { IfSome result (λ count. count ≡ length (appended (changes_of changes.now))) }
    ensures none { IfNone result (2 ^ 64 ≤ length (appended (changes_of changes.now))) }
{
    let mut count: u64 = 0;
    for change in changes {
        if let Some(bytes) = &change.slice {
            count = count.checked_add(bytes.len() as u64)?;
        }
    }
    Some(count)
}

/// The pairs after changes whose slices are appended from `end` on.
pub(crate) fn changed_pairs(
    alloc: Global,
    pairs: &PresentPairs,
    changes: &[SliceChange],
    end: u64,
) -> Result<PresentPairs, AllocError>
    requires room { end + length (appended (changes_of changes.now)) < 2 ^ 63 }
    requires below { list_all (is_below (length (all_pairs pairs.now))) changes.now ≡ true }
    ensures { IfOk result (λ made. all_pairs made
        ≡ pairs_after end (changes_of changes.now) (all_pairs pairs.now)) }
{
    let mut made = pairs.try_clone(alloc)?;
    put_changes(alloc, &mut made, changes, end)?;
    Ok(made)
}

/// Puts the pairs of slices among others, the first of which begins at `end`.
fn put_changes(
    alloc: Global,
    pairs: &mut PresentPairs,
    changes: &[SliceChange],
    end: u64,
) -> Result<(), AllocError>
    requires room { end + length (appended (changes_of changes.now)) < 2 ^ 63 }
    requires below { list_all (is_below (length (all_pairs pairs.old))) changes.now ≡ true }
    ensures { OnOk result (all_pairs pairs.new
        ≡ pairs_after end (changes_of changes.now) (all_pairs pairs.old)) }
{
    let mut offset = end;
    for change in changes {
        match &change.slice {
            Some(bytes) => {
                let length = bytes.len() as u64;
                pairs.put(alloc, change.number, ByteRange { offset, length })?;
                offset += length;
            }
            None => pairs.put(alloc, change.number, ABSENT)?,
        }
    }
    Ok(())
}

/// Appends slices to the data part of a shard, which ends at `end`, and puts another index in the
/// place of the one that was there, by one writing call.
pub(crate) fn append_bytes<E: BytesPartialEncoderTraits>(
    alloc: Global,
    source: &mut E,
    location: ShardingIndexLocation,
    end: u64,
    bytes: ShardBytes<'_>,
) -> Result<(), CodecError>
    requires { end + length bytes.slices.now < 2 ^ 63 }
    ensures ok { IsTrue (E.is_honest source.old) → OnOk result
        (E.contents source.new ≡ Some (with_slices (location_of location) end
        bytes.entry.index.now bytes.entry.slices.now (unwrap_or (E.contents source.old) []))) }
    ensures cause { IsTrue (E.is_honest source.old) → AppendRefused
        (shard_length (location_of location) (length bytes.entry.index.now)
        (end + length bytes.entry.slices.now)) result }
    ensures call { CalledToWrite E.BytesPartialEncoderTraits.own E.BytesPartialDecoderTraits
        source.old source.new result }
{
    source.partial_encode(alloc, &slice_patches(location, end, bytes))
}

/// The ranges to be written into a shard whose data part ends at `end`, so that slices are appended
/// to it, and its index is replaced.
fn slice_patches<'a>(
    location: ShardingIndexLocation,
    end: u64,
    bytes: ShardBytes<'a>,
) -> [ValuePatch<'a>; 2]
    requires { end + length bytes.slices.now < 2 ^ 63 }
    ensures patched { (contents : Option (List ℕ)) → patched_contents contents (patches_of result)
        ≡ with_slices (location_of location) end bytes.entry.index.now bytes.entry.slices.now
        (unwrap_or contents []) }
    ensures far { IsTrue (any_too_far (patches_of result)) → 2 ^ 63
        ≤ shard_length (location_of location) (length bytes.entry.index.now)
        (end + length bytes.entry.slices.now) }
{
    let (index, slices) = (bytes.index, bytes.slices);
    let after = end + slices.len() as u64;
    match location {
        ShardingIndexLocation::Start => [
            ValuePatch {
                offset: 0,
                bytes: index,
            },
            ValuePatch {
                offset: end,
                bytes: slices,
            },
        ],
        ShardingIndexLocation::End => [
            ValuePatch {
                offset: end,
                bytes: slices,
            },
            ValuePatch {
                offset: after,
                bytes: index,
            },
        ],
    }
}
