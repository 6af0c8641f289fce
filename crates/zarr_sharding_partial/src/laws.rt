//! Laws of what is read of a shard. Each function does nothing: its contract is the law.
ghost use Rattle.zarr_sharding_partial.specs.Laws.{PartIsLocal};

/// What a part of a shard is read as depends on the index and on the slices that it meets alone.
pub fn part_is_local()
    ensures { PartIsLocal }
{}
