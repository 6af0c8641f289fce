//! Laws of boxes. Each function does nothing: its contract is the law.
ghost use Rattle.zarr_run_meaning.specs.BoxLaws.{ReadsAgree, ReadsOfParts, PartsReadWhole, StoresBack};
ghost use Rattle.zarr_run_meaning.specs.BoxLaws.{WritesCommute, WritesCommuteApart, BoxesAlike, AnsweredAlike};
ghost use Rattle.zarr_run_meaning.specs.LocalReads.{ReadsAreLocal};

/// In one world, whatever is stored, two reads give the same cell at each place of both boxes.
pub fn reads_agree()
    ensures { ReadsAgree }
{}

/// A read of a box depends only on what is stored for its places: of a shard that stands alone on
/// its length, its index and the slices that they lie in, of any other value on all of it.
pub fn reads_are_local()
    ensures { ReadsAreLocal }
{}

/// The cells of a box are those of its parts put together, whatever is stored.
pub fn reads_of_parts()
    ensures { ReadsOfParts }
{}

/// A box is refused neither for damage nor because a chunk doesn't fit, where its parts are read.
pub fn parts_read_whole()
    ensures { PartsReadWhole }
{}

/// A write of just the cells that were read changes no cell, whatever is answered, where the chain
/// keeps every bit.
pub fn stores_back()
    ensures { StoresBack }
{}

/// Two writes without a common place leave the array with one table, in either order.
pub fn writes_commute()
    ensures { WritesCommute }
{}

/// Two writes to arrays at unrelated paths leave each with one table, in either order.
pub fn writes_commute_apart()
    ensures { WritesCommuteApart }
{}

/// Two arrays of one data type, whose chains keep every bit, answer the same accepted
/// commands on boxes alike, where they have the same cells at the places that are read. They then
/// have the same cells at each place of the boxes, and wherever they had before.
pub fn boxes_alike()
    ensures { BoxesAlike }
{}

/// Two such arrays that have the same cells at the places that both grids cover answer alike, and
/// have the same cells there still.
pub fn answered_alike()
    ensures { AnsweredAlike }
{}
