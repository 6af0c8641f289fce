//! How `vlen` writes its index.

use zarr_codecs_types::DataType;

/// The data type of the offsets in the index of `vlen`.
#[derive(Clone, Copy, Debug, PartialEq, Eq)]
pub enum VlenIndexDataType {
    UInt32,
    UInt64,
}

/// Where the index of `vlen` stands: before the data or behind it.
#[derive(Clone, Copy, Debug, PartialEq, Eq)]
pub enum VlenIndexLocation {
    Start,
    End,
}

impl VlenIndexDataType {
    ghost use Rattle.std.specs.Prelude.{◌≡◌, ◌+◌, ◌/◌, ◌^◌, ◌<◌, ◌≤◌};
    ghost use Rattle.zarr_codecs_meaning.specs.Types as types;
    ghost use Rattle.zarr_codecs_types.specs.Views.{type_of};
    ghost use Rattle.zarr_codecs_sections.specs.Views.{width_of};

    /// The data type of the offsets.
    pub fn data_type(self) -> DataType
        ensures { type_of result ≡ types.integer types.unsigned (width_of self) }
    {
        match self {
            VlenIndexDataType::UInt32 => DataType::UInt32,
            VlenIndexDataType::UInt64 => DataType::UInt64,
        }
    }

    /// How many bytes an offset takes.
    pub(crate) fn byte_count(self) -> usize
        ensures count { result ≡ (width_of self + 7) / 8 }
        ensures some { 0 < result }
        ensures few { result ≤ 8 }
    {
        match self {
            VlenIndexDataType::UInt32 => 4,
            VlenIndexDataType::UInt64 => 8,
        }
    }

    /// The greatest offset.
    pub(crate) fn greatest(self) -> u64
        ensures { result + 1 ≡ 2 ^ width_of self }
    {
        match self {
            VlenIndexDataType::UInt32 => u32::MAX as u64,
            VlenIndexDataType::UInt64 => u64::MAX,
        }
    }
}
