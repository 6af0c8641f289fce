//! Worked examples and laws of shards under change. Each function does nothing: its contract is the
//! law.
ghost use Rattle.zarr_sharding_changes.specs.Laws.{ChangesWritten, RegionWritten, PartOverlaid, PartKept, CompactedStands, CompactedEncoded, GaplessKept, PlainGapless, PlainKept, UnmetKept};
ghost use Rattle.zarr_sharding_changes.specs.WorkedChanges.{ChangeRows};
ghost use Rattle.zarr_sharding_changes.specs.WorkedCompaction.{CompactionRows};
ghost use Rattle.zarr_sharding_changes.specs.WorkedCompactions.{ChainCompactionRows};
ghost use Rattle.zarr_sharding_changes.specs.WorkedGapless.{GaplessRows, HeldRows};

/// What changes make of pairs, of a data part and of subchunks, and what a region makes of a box.
pub fn change_rows()
    ensures { ChangeRows }
{}

/// Shards whose slices are copied row-major without gaps, and shards that are damaged.
pub fn compaction_rows()
    ensures { CompactionRows }
{}

/// Slices that are appended and pairs that are replaced stand for the changed subchunks, together
/// with all others.
pub fn changes_written()
    ensures { ChangesWritten }
{}

/// After a box of cells was put over an array that it lies in, the array has those cells at its
/// places.
pub fn region_written()
    ensures { RegionWritten }
{}

/// A box of cells put over an array is that box put over each subchunk.
pub fn part_overlaid()
    ensures { PartOverlaid }
{}

/// A subchunk that shares no place with the box keeps its cells.
pub fn part_kept()
    ensures { PartKept }
{}

/// The slices of a value that stands, copied row-major without gaps, stand for the same cells.
pub fn compacted_stands()
    ensures { CompactedStands }
{}

/// A tight value, compacted, is the encoding of its cells.
pub fn compacted_encoded()
    ensures { CompactedEncoded }
{}

/// What compaction makes of values of chains, with a shard and without one.
pub fn chain_compaction_rows()
    ensures { ChainCompactionRows }
{}

/// Compaction leaves each value of a chain without a shard as it is, damaged or not.
pub fn plain_kept()
    ensures { PlainKept }
{}

/// A subchunk that a write in part doesn't change keeps its pair and its slice.
pub fn unmet_kept()
    ensures { UnmetKept }
{}

/// Each value of a chain without a shard has no gaps.
pub fn plain_gapless()
    ensures { PlainGapless }
{}

/// Compaction leaves a value without gaps as it is.
pub fn gapless_kept()
    ensures { GaplessKept }
{}

/// Values with gaps and without.
pub fn gapless_rows()
    ensures { GaplessRows }
{}

/// What shards hold, and what appended slices make of that.
pub fn held_rows()
    ensures { HeldRows }
{}
