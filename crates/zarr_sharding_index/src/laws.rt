//! Laws of a shard in a source. Each function does nothing: its contract is the law.
ghost use Rattle.zarr_sharding_index.specs.Laws.{ChangedStands, HeldStands, NothingStands, OpenedStands};

/// Where a value stands for the cells of its subchunks, so does what is known of it once it is
/// opened.
pub fn opened_stands()
    ensures { OpenedStands }
{}

/// What is held is a value that stands for the cells of its subchunks.
pub fn held_stands()
    ensures { HeldStands }
{}

/// Where no value is held, all cells are the fill value.
pub fn nothing_stands()
    ensures { NothingStands }
{}

/// After changes are written, what is held stands for the changed subchunks, together with all
/// others.
pub fn changed_stands()
    ensures { ChangedStands }
{}
