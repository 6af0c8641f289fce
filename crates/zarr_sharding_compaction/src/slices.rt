//! The slices that the present pairs of a shard's index have in its data part.
ghost use Rattle.std.specs.Prelude.{◌≡◌, ◌+◌, ◌^◌, ◌<◌, ◌++◌, ◌∷◌, [], length, get_or, IfOk, IfSome, OnOk};
ghost use Rattle.zarr_codecs_meaning.specs.Encoding.{absent_pair, pair_at, slice_bytes};
ghost use Rattle.zarr_sharding_changes.specs.Compaction.{stored_at};
ghost use Rattle.zarr_sharding_compaction.specs.Copying.{Copies, Sizes, stored_lent};
ghost use Rattle.zarr_sharding_index.specs.Views.{pairs_of, slice_lent};

use std::alloc::{AllocError, Global};
use zarr_codecs_traits::ByteRange;
use zarr_sharding_index::ShardIndex;
use zarr_sharding_index::pair::{ABSENT, is_absent, slice_in};

/// The pairs of a shard, its data part, and where that begins.
#[derive(Clone, Copy)]
pub struct SlicedData<'a> {
    pub index: &'a ShardIndex,
    pub data: &'a [u8],
    pub base: u64,
}

/// The slice of a subchunk, `Some(None)` where it is absent, and `None` where its pair lies outside
/// the data part.
pub fn stored_at<'a>(sliced: SlicedData<'a>, n: usize) -> Option<Option<&'a [u8]>>
    requires { n < length (pairs_of sliced.index.now) }
    ensures { stored_lent result ≡ stored_at sliced.entry.base sliced.entry.data.now
        (get_or (pairs_of sliced.entry.index.now) n absent_pair) }
{
    let pair = sliced.index.get(n);
    if is_absent(pair) {
        return Some(None);
    }
    match slice_in(sliced.base, sliced.data, pair) {
        Some(slice) => Some(Some(slice)),
        None => None,
    }
}

/// How many bytes a slice has, if there is one.
fn slice_length(stored: Option<&[u8]>) -> u64
    ensures length { result ≡ length (slice_bytes (slice_lent stored.entry)) }
    ensures bound { result < 2 ^ 63 }
{
    match stored {
        Some(slice) => slice.len() as u64,
        None => 0,
    }
}

/// Puts a slice behind others that begin at `base`, and its pair into their index.
fn push_slice(
    stored: Option<&[u8]>,
    base: u64,
    copied: &mut Vec<u8>,
    index: &mut ShardIndex,
) -> Result<(), AllocError>
    requires { base < 2 ^ 63 }
    ensures slice { OnOk result (copied.new.items
        ≡ copied.old.items ++ slice_bytes (slice_lent stored.entry)) }
    ensures pair { OnOk result (pairs_of index.new ≡ pairs_of index.old
        ++ pair_at (base + length copied.old.items) (slice_lent stored.entry) ∷ []) }
{
    match stored {
        Some(slice) => {
            index.push(ByteRange {
                offset: base + copied.len() as u64,
                length: slice.len() as u64,
            })?;
            copied.extend_from_slice(slice)?;
            Ok(())
        }
        None => index.push(ABSENT),
    }
}

/// How many bytes the present slices have together, also where they overlap. `None` where a present
/// pair lies outside the data part.
pub fn present_length(sliced: SlicedData<'_>) -> Option<u128>
    ensures length { Sizes sliced.entry.base sliced.entry.data.now
        (pairs_of sliced.entry.index.now) result }
    ensures bound { IfSome result (λ total. total < 2 ^ 127) }
{
    let mut total = 0u128;
    for n in 0..sliced.index.len() {
        let Some(stored) = stored_at(sliced, n) else {
            return None;
        };
        total += slice_length(stored) as u128;
    }
    Some(total)
}

/// How many bytes to make room for: those of the present slices, sixteen for each pair, and a few
/// more, since a checksum may follow these.
fn room_for(sliced: SlicedData<'_>) -> usize {
    let index = sliced.index.len().saturating_mul(16).saturating_add(16);
    match present_length(sliced) {
        Some(present) => index.saturating_add(present.min(usize::MAX as u128) as usize),
        None => 0,
    }
}

/// The present slices row-major without gaps, and the index of them, where the first begins where
/// the data part did. `None` where a present pair lies outside the data part.
pub fn copy_slices(
    alloc: Global,
    sliced: SlicedData<'_>,
) -> Result<Option<(Vec<u8>, ShardIndex)>, AllocError>
    requires { sliced.base < 2 ^ 63 }
    ensures { IfOk result (Copies sliced.entry.base sliced.entry.data.now
        (pairs_of sliced.entry.index.now)) }
{
    let mut copied = Vec::with_capacity(alloc, room_for(sliced))?;
    let mut index = ShardIndex::new(alloc);
    for n in 0..sliced.index.len() {
        let Some(stored) = stored_at(sliced, n) else {
            return Ok(None);
        };
        push_slice(stored, sliced.base, &mut copied, &mut index)?;
    }
    Ok(Some((copied, index)))
}
