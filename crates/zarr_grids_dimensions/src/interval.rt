//! Where a chunk lies along one dimension.
ghost use Rattle.std.specs.Prelude.{◌≡◌, option_map};
ghost use Rattle.zarr_grids_chunks.specs.Grids.{addressable};
ghost use Rattle.zarr_grids_dimensions.specs.Intervals.{interval_of, addressable_of};

/// A chunk's first place, which may pass 2^64 - 1, and how many places it has.
#[derive(Clone, Copy, Debug, PartialEq, Eq)]
pub struct ChunkInterval {
    pub first: u128,
    pub count: u64,
}

/// The interval of a chunk whose end is at most 2^64 - 1.
#[derive(Clone, Copy, Debug, PartialEq, Eq)]
pub struct AddressableInterval {
    pub first: u64,
    pub count: u64,
}

impl ChunkInterval {
    /// The same interval, if its end is at most 2^64 - 1.
    pub fn addressable(self) -> Option<AddressableInterval>
        ensures { option_map addressable_of result ≡ addressable (interval_of self) }
    {
        if self.first > (u64::MAX - self.count) as u128 {
            return None;
        }
        Some(AddressableInterval {
            first: self.first as u64,
            count: self.count,
        })
    }
}
