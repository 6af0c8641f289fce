//! Laws of compaction. Each function does nothing: its contract is the law.
ghost use Rattle.zarr_sharding_compaction.specs.Laws.{ChainCompactedOnce, CompactedOnce};

/// What compaction made of a shard gains nothing by another one.
pub fn compacted_once()
    ensures { CompactedOnce }
{}

/// What compaction made of a value of any chain gains nothing by another one, with array codecs
/// before the shard and bytes codecs after it too.
pub fn chain_compacted_once()
    ensures { ChainCompactedOnce }
{}
