//! Which elements below a mask are encoded.
ghost use Rattle.std.specs.Prelude.{◌≡◌};
ghost use Rattle.zarr_codecs_chains.specs.Chosen.{AreCounted};

use zarr_codecs_sections::count_ones;
use zarr_codecs_types::DataType;

/// Which elements of a type are encoded: those whose marks are 1, and how many these are. The
/// others are below masks that have them absent.
#[derive(Clone, Copy)]
pub(crate) struct Chosen<'m, 't> {
    pub(crate) marks: &'m [u8],
    pub(crate) count: u64,
    pub(crate) data_type: &'t DataType,
}

/// Those whose marks are 1.
pub(crate) fn choose<'m, 't>(marks: &'m [u8], data_type: &'t DataType) -> Chosen<'m, 't>
    ensures marks { result.marks.now ≡ marks.now }
    ensures count { AreCounted result }
    ensures data_type { result.data_type.now ≡ data_type.now }
{
    Chosen {
        marks,
        count: count_ones(marks),
        data_type,
    }
}
