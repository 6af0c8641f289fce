//! Laws of boxes and of numbers of indices. Each function does nothing: its contract is the law.
ghost use Rattle.zarr_grids_boxes.specs.Laws.{NumberTellsIndex, NumberHasIndex, OverlapIsShared, BoundIsBelow, SharedPlaces, EmptyHasNoPlace, PlacesByNumber};

/// An index below a shape has a number below the shape's product, and that number tells it.
pub fn number_tells_index()
    ensures { NumberTellsIndex }
{}

/// Each number below a shape's product is that of an index below the shape.
pub fn number_has_index()
    ensures { NumberHasIndex }
{}

/// The overlap of two boxes has exactly the places in both.
pub fn overlap_is_shared()
    ensures { OverlapIsShared }
{}

/// A bounded box has exactly the places of the box that lie below the end.
pub fn bound_is_below()
    ensures { BoundIsBelow }
{}

/// Two boxes share a place exactly where some place lies in both.
pub fn shared_places()
    ensures { SharedPlaces }
{}

/// A box has no place exactly where its product is 0.
pub fn empty_has_no_place()
    ensures { EmptyHasNoPlace }
{}

/// The walk `indices` goes over `places`, which has each place of the box once, row-major: the n-th
/// is the place whose number is n.
pub fn places_by_number()
    ensures { PlacesByNumber }
{}
