//! Pairs of a shard's index, and the slices of a value that they are.
ghost use Rattle.std.specs.Prelude.{◌≡◌, MatchOption};
ghost use Rattle.zarr_codecs_meaning.specs.Decoding.{is_absent, slice_at};
ghost use Rattle.zarr_codecs_meaning.specs.Encoding.{absent_pair};
ghost use Rattle.zarr_sharding_changes.specs.Compaction.{slice_in};
ghost use Rattle.zarr_sharding_index.specs.Views.{pair_of, slice_lent};

use zarr_codecs_traits::ByteRange;

/// The pair of a subchunk that is absent: both numbers are 2^64 - 1.
pub const ABSENT: ByteRange = ByteRange {
    offset: u64::MAX,
    length: u64::MAX,
};

/// The pair of a subchunk that is present, and the row-major number of that subchunk.
#[derive(Clone, Copy, Debug, PartialEq, Eq)]
pub struct PresentPair {
    pub number: usize,
    pub range: ByteRange,
}

/// Whether a pair is that of an absent subchunk.
pub fn is_absent(pair: ByteRange) -> bool
    ensures { result ≡ is_absent (pair_of pair) }
{
    pair.offset == u64::MAX && pair.length == u64::MAX
}

/// The bytes of a pair, or `None` where it ends past the end of the value.
pub fn slice_at(value: &[u8], pair: ByteRange) -> Option<&[u8]>
    ensures { slice_lent result ≡ slice_at value.now (pair_of pair) }
{
    let end = pair.offset.checked_add(pair.length)?;
    if end > value.len() as u64 {
        return None;
    }
    value.get(pair.offset as usize..end as usize)
}

/// The bytes of a pair in a data part that begins at `base`, or `None` where they don't lie in it.
pub fn slice_in(base: u64, data: &[u8], pair: ByteRange) -> Option<&[u8]>
    ensures { slice_lent result ≡ slice_in base data.now (pair_of pair) }
{
    let start = pair.offset.checked_sub(base)?;
    slice_at(
        data,
        ByteRange {
            offset: start,
            length: pair.length,
        },
    )
}
