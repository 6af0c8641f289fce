//! The definitions on small examples, and laws of them. The functions do nothing: their contracts
//! are the rows and the laws.
ghost use Rattle.zarr_sharding_metadata.specs.Laws.{InnerSaid, NoneSaid, PlainSaid, ShardSaid};
ghost use Rattle.zarr_sharding_metadata.specs.WorkedMetadata.{MetadataRows};

/// What metadata of `sharding_indexed` says, worked out by hand.
pub fn worked_metadata()
    ensures { MetadataRows }
{}

/// Metadata that names no shard says what it says without shards, and metadata that names one says
/// nothing without them.
pub fn said_without_shards()
    ensures plain { PlainSaid }
    ensures none { NoneSaid }
{}

/// Metadata that names a shard says a chain in which a shard stands, whose subchunks' chain has one
/// shard less.
pub fn said_with_shards()
    ensures shard { ShardSaid }
    ensures inner { InnerSaid }
{}
