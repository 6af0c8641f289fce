//! Laws of what storing cells afresh leaves. Each function does nothing: its contract is the law.
ghost use Rattle.zarr_sharding_values.specs.Fresh.{EncodedFresh, AbsentFresh, FreshOnce, FreshTight, DecodedCells, StoredAnewShows};

/// What is there exactly where cells aren't all fill, and is their encoding, is what storing them
/// afresh leaves.
pub fn encoded_fresh()
    ensures { EncodedFresh }
{}

/// A chunk without a value that stands for its cells holds what storing them afresh leaves.
pub fn absent_fresh()
    ensures { AbsentFresh }
{}

/// Cells have one such value.
pub fn fresh_once()
    ensures { FreshOnce }
{}

/// What storing cells afresh leaves is tight.
pub fn fresh_tight()
    ensures { FreshTight }
{}

/// The cells that a value stands for are those that it is decoded to.
pub fn decoded_cells()
    ensures { DecodedCells }
{}

/// Where what a value is decoded to is stored anew, each place is read as before.
pub fn stored_anew_shows()
    ensures { StoredAnewShows }
{}
