//! Worked examples and laws of codec chains. Each function does nothing: its contract is the law.
ghost use Rattle.zarr_codecs_meaning.specs.Laws.{EncodedSize, ShardSize, EncodedStands, StandsDecoded, StandingAlike, EncodedTight, TightStands, PartDecoded, PartSelects};
ghost use Rattle.zarr_codecs_meaning.specs.KeptLaws.{KeptDecoded, KeptCells, KeptTwice, KeptEncoded, KeptLossless};
ghost use Rattle.zarr_codecs_meaning.specs.ChunkLaws.{ChunkStored, StoredDecoded, StoredPart, StoredOnce};
ghost use Rattle.zarr_codecs_meaning.specs.Making.{EncodedMade, PlainMade};
ghost use Rattle.zarr_codecs_meaning.specs.Refusals.{EncodingRefused};
ghost use Rattle.zarr_codecs_meaning.specs.WorkedValues.{ValueRows, FitRows};
ghost use Rattle.zarr_codecs_meaning.specs.WorkedPlain.{PlainRows};
ghost use Rattle.zarr_codecs_meaning.specs.WorkedShards.{ShardRows, StandingRows, DamageRows};
ghost use Rattle.zarr_codecs_meaning.specs.WorkedMaking.{MakingRows};
ghost use Rattle.zarr_codecs_meaning.specs.WorkedRefusals.{RefusalRows};

/// Which bytes are values of which types.
pub fn value_rows()
    ensures { ValueRows }
{}

/// Which arrays a chain fits, what it keeps, and how long what it writes is.
pub fn fit_rows()
    ensures { FitRows }
{}

/// What codecs without shards make of cells, and what those bytes are decoded to.
pub fn plain_rows()
    ensures { PlainRows }
{}

/// Shards and their parts.
pub fn shard_rows()
    ensures { ShardRows }
{}

/// Values that stand though encoding writes others.
pub fn standing_rows()
    ensures { StandingRows }
{}

/// Values that are damaged, whole or in part.
pub fn damage_rows()
    ensures { DamageRows }
{}

/// Bytes that a chain may make of cells, and bytes that it doesn't make.
pub fn making_rows()
    ensures { MakingRows }
{}

/// Cells that a caller's codec refuses, and cells that it doesn't.
pub fn refusal_rows()
    ensures { RefusalRows }
{}

/// What a chain encodes has the size that `representation_of` tells, or at most that size.
pub fn encoded_size()
    ensures { EncodedSize }
{}

/// A shard is as long as its index and the slices of the subchunks that are present.
pub fn shard_size()
    ensures { ShardSize }
{}

/// What a chain refuses to encode, a caller's codec refuses, or an offset or a length is too large
/// for where it is written.
pub fn encoding_refused()
    ensures { EncodingRefused }
{}

/// What encoding writes is one of the values that a chain may make of cells.
pub fn encoded_made()
    ensures { EncodedMade }
{}

/// A chain without shards makes of cells nothing but what encoding writes.
pub fn plain_made()
    ensures { PlainMade }
{}

/// What a lossless chain encodes stands for the cells.
pub fn encoded_stands()
    ensures { EncodedStands }
{}

/// What stands for cells is decoded to them, however it was written.
pub fn stands_decoded()
    ensures { StandsDecoded }
{}

/// Values that stand for the same cells are decoded alike.
pub fn standing_alike()
    ensures { StandingAlike }
{}

/// What a lossless chain encodes is tight.
pub fn encoded_tight()
    ensures { EncodedTight }
{}

/// What is tight for cells stands for them.
pub fn tight_stands()
    ensures { TightStands }
{}

/// Where a value is decoded, a part of it is the cells at its places.
pub fn part_decoded()
    ensures { PartDecoded }
{}

/// A part of what stands for cells is read as those cells at its places.
pub fn part_selects()
    ensures { PartSelects }
{}

/// What a chain encodes is decoded to what it keeps of the cells.
pub fn kept_decoded()
    ensures { KeptDecoded }
{}

/// What a chain keeps of cells are cells of the array again.
pub fn kept_cells()
    ensures { KeptCells }
{}

/// Of what a chain keeps it keeps all.
pub fn kept_twice()
    ensures { KeptTwice }
{}

/// A chain without shards makes of what it keeps what it makes of the cells.
pub fn kept_encoded()
    ensures { KeptEncoded }
{}

/// A lossless chain keeps all.
pub fn kept_lossless()
    ensures { KeptLossless }
{}

/// What is to be stored for a chunk's cells stands for them.
pub fn chunk_stored()
    ensures { ChunkStored }
{}

/// What is stored for a chunk is decoded to the cells that it stands for.
pub fn stored_decoded()
    ensures { StoredDecoded }
{}

/// A part of what is stored for a chunk is the cells at its places.
pub fn stored_part()
    ensures { StoredPart }
{}

/// What is stored for a chunk stands for no other cells.
pub fn stored_once()
    ensures { StoredOnce }
{}
