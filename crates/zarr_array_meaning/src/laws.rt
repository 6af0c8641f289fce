//! Laws of written documents, of the cells that a store shows, of what reads and writes of boxes
//! may leave, and of how many bytes reads take. Each function does nothing: its contract is the
//! law.
ghost use Rattle.zarr_array_meaning.specs.Laws.{MetadataReadsBack, DocumentReadsBack, WrittenOnce, KeepsVersion, KeepsGiven, ConvertedSaysSame, StoredReadsBack, HasOneDocument};
ghost use Rattle.zarr_array_meaning.specs.Versions.{RetrievesOne, ErasedAreGone};
ghost use Rattle.zarr_array_meaning.specs.Boxes.{ReadsOneWay};
ghost use Rattle.zarr_array_meaning.specs.Standing.{StandingShows, NothingStoredShows, ShowingSomething, ReadsValues};
ghost use Rattle.zarr_array_meaning.specs.Writing.{WrittenUndamaged, WrittenKeysAlike, RewrittenAlike};
ghost use Rattle.zarr_array_meaning.specs.WorkedReads.{BoxReadRows, ChunkReadRows};

/// What is written for a document that opens says what that one says, with the mark among its
/// attributes.
pub fn metadata_reads_back()
    ensures { MetadataReadsBack }
{}

/// So cells and where they are stored stay the same.
pub fn document_reads_back()
    ensures { DocumentReadsBack }
{}

/// What is written for a written document is that document.
pub fn written_once()
    ensures { WrittenOnce }
{}

/// What is written for a document has its version.
pub fn keeps_version()
    ensures { KeepsVersion }
{}

/// What is written for a version 2 document keeps its fields, also those that aren't known.
pub fn keeps_given()
    ensures { KeepsGiven }
{}

/// The version 3 document that a version 2 document is converted to says what it says.
pub fn converted_says_same()
    ensures { ConvertedSaysSame }
{}

/// A written document that was stored is read again.
pub fn stored_reads_back()
    ensures { StoredReadsBack }
{}

/// Of one version a path has no more than one document.
pub fn has_one_document()
    ensures { HasOneDocument }
{}

/// A path has no more than one document of the version that is asked for.
pub fn retrieves_one()
    ensures { RetrievesOne }
{}

/// Once the keys of some versions are erased, no document of them is left, and no other key
/// changed.
pub fn erased_are_gone()
    ensures { ErasedAreGone }
{}

/// What stands for cells shows no others.
pub fn standing_shows()
    ensures { StandingShows }
{}

/// Where nothing is stored for a chunk, the fill value is shown.
pub fn nothing_stored_shows()
    ensures { NothingStoredShows }
{}

/// Whatever is stored, it shows no more than one cell at each place.
pub fn showing_something()
    ensures { ShowingSomething }
{}

/// A cell that is read of a chunk that fits is a value of the type.
pub fn reads_values()
    ensures { ReadsValues }
{}

/// A box is read, or the first chunk of it that isn't read is damaged, or that chunk doesn't fit:
/// over the same store no two of these hold.
pub fn reads_one_way()
    ensures { ReadsOneWay }
{}

/// No chunk that was written was damaged where a part of it is to stay.
pub fn written_undamaged()
    ensures { WrittenUndamaged }
{}

/// Writes of the same cells over the same store leave keys to the same chunks, whatever the chain
/// keeps of the cells.
pub fn written_keys_alike()
    ensures { WrittenKeysAlike }
{}

/// Where what the codecs make of cells depends on these alone, as without shards, a second write of
/// the same cells leaves the value of a first one, where the chunk is decoded before both, and what
/// stays alike.
pub fn rewritten_alike()
    ensures { RewrittenAlike }
{}

/// How many bytes are taken at most of what is stored for chunks, worked out by hand.
pub fn chunk_read_rows()
    ensures { ChunkReadRows }
{}

/// How many bytes reads take at most of what is stored for two chunks, worked out by hand.
pub fn box_read_rows()
    ensures { BoxReadRows }
{}
