//! Worked examples and laws of boxes through an array codec. Each function does nothing: its
//! contract is the law.
ghost use Rattle.zarr_codecs_boxes.specs.Laws.{RegionRead, RegionUndone, UpdateEncoded, UpdateOverlaid};
ghost use Rattle.zarr_codecs_boxes.specs.WorkedRegions.{RegionRows};

/// Which box of the encoded array a box of an array becomes, and with which cells.
pub fn region_rows()
    ensures { RegionRows }
{}

/// New cells that are put at the places of a box are the box put over the array.
pub fn update_overlaid()
    ensures { UpdateOverlaid }
{}

/// A box put over an array, and then an array codec, is the codec, and then the box put over the
/// coordinates that the codec makes of it; through a `transpose` and through a `squeeze`.
pub fn update_encoded()
    ensures { UpdateEncoded }
{}

/// A box of the encoded array has the cells of the box that it came from, as the codec makes them.
pub fn region_read()
    ensures { RegionRead }
{}

/// A box is read by reading the box that it becomes, and undoing the codec as of an array of its
/// shape.
pub fn region_undone()
    ensures { RegionUndone }
{}
