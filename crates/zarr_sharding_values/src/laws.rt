//! Laws of what compaction makes of values of any chain, and of reads of shards. Each function does
//! nothing: its contract is the law.
ghost use Rattle.zarr_sharding_values.specs.Laws.{ChainCompactedStands, ChainCompactedEncoded, StandingUndamaged, EncodedGainsNothing, ChainCompactedShows};
ghost use Rattle.zarr_sharding_values.specs.Local.{ReadIsLocal};

/// What compaction makes of a value that stands, stands for the same cells.
pub fn chain_compacted_stands()
    ensures { ChainCompactedStands }
{}

/// What compaction makes of a tight value is what encoding its cells means.
pub fn chain_compacted_encoded()
    ensures { ChainCompactedEncoded }
{}

/// No present slice of a value that stands lies outside its data part.
pub fn standing_undamaged()
    ensures { StandingUndamaged }
{}

/// What encoding writes gains nothing by compaction.
pub fn encoded_gains_nothing()
    ensures { EncodedGainsNothing }
{}

/// What compaction makes of a value is read as that value, at each place by itself.
pub fn chain_compacted_shows()
    ensures { ChainCompactedShows }
{}

/// A read of places of a shard depends on its length, its index and the slices that it meets alone.
pub fn read_is_local()
    ensures { ReadIsLocal }
{}
