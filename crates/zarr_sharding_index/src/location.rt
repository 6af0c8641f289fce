//! Where the index of a shard stands.
ghost use Rattle.std.specs.Prelude.{◌≡◌, ◌≤◌, ◌+◌, ℕ, List, length};
ghost use Rattle.zarr_codecs_meaning.specs.Decoding.{index_bytes};
ghost use Rattle.zarr_codecs_meaning.specs.Encoding.{base_of};
ghost use Rattle.zarr_codecs_traits.specs.Sources.{bytes_at};
ghost use Rattle.zarr_sharding_index.specs.Views.{location_of};

use zarr_codecs_traits::ByteRange;

/// Where the index of a shard stands: before its data part, or after it (Zarr sharding codec,
/// "Configuration parameters").
#[derive(Clone, Copy, Debug, PartialEq, Eq)]
pub enum ShardingIndexLocation {
    Start,
    End,
}

impl ShardingIndexLocation {
    /// Where the data part of a shard begins whose index has so many bytes.
    pub fn base(self, size: u64) -> u64
        ensures { result ≡ base_of (location_of self) size }
    {
        match self {
            ShardingIndexLocation::Start => size,
            ShardingIndexLocation::End => 0,
        }
    }

    /// The bytes of the index among those of a value, which has at least as many.
    pub fn index_range(self, size: u64, total: u64) -> ByteRange
        requires { size ≤ total }
        ensures bytes { (value : List ℕ) → length value ≡ total
            → bytes_at value result ≡ index_bytes (location_of self) size value }
        ensures within { result.offset + result.length ≤ total }
        ensures size { result.length ≡ size }
    {
        let offset = match self {
            ShardingIndexLocation::Start => 0,
            ShardingIndexLocation::End => total - size,
        };
        ByteRange {
            offset,
            length: size,
        }
    }
}
