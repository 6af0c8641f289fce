//! Equality of data types and of cells: two are equal where they mean the same.
ghost use Rattle.std.specs.Prelude.{◌≡◌, Decides};
ghost use Rattle.zarr_codecs_meaning.specs.Types as types;
ghost use Rattle.zarr_codecs_types.specs.Views.{type_of, cell_of, components_of};
ghost use Rattle.zarr_codecs_types.specs.Same.{same_type, same_components};

use crate::cell::Cell;
use crate::data_type::{Component, DataType};

impl PartialEq for DataType {
    ghost use Rattle.std.specs.Cmp.{on_per, partial_equiv_from_equiv};
    ghost use Rattle.zarr_codecs_types.specs.Views.{type_of};
    ghost use Rattle.zarr_codecs_types.specs.Same.{same_type};
    ghost use Rattle.zarr_codecs_types.specs.SameEquivalence.{same_type_equiv};

    ghost eq = { λ a b. same_type (type_of a) (type_of b) };

    ghost laws = { on_per type_of (partial_equiv_from_equiv same_type_equiv) };

    fn eq(&self, other: &DataType) -> bool {
        same_type(self, other)
    }
}

impl Eq for DataType {
    ghost use Rattle.std.specs.Cmp.{on_equiv};
    ghost use Rattle.zarr_codecs_types.specs.Views.{type_of};
    ghost use Rattle.zarr_codecs_types.specs.SameEquivalence.{same_type_equiv};

    ghost laws = { on_equiv type_of same_type_equiv };
}

impl PartialEq for Cell {
    ghost use Rattle.std.specs.Cmp.{on_per, partial_equiv_from_equiv};
    ghost use Rattle.zarr_codecs_meaning.specs.Types.{same_cell};
    ghost use Rattle.zarr_codecs_types.specs.Views.{cell_of};
    ghost use Rattle.zarr_codecs_types.specs.SameEquivalence.{same_cell_equiv};

    ghost eq = { λ a b. same_cell (cell_of a) (cell_of b) };

    ghost laws = { on_per cell_of (partial_equiv_from_equiv same_cell_equiv) };

    fn eq(&self, other: &Cell) -> bool {
        same_cell(self, other)
    }
}

impl Eq for Cell {
    ghost use Rattle.std.specs.Cmp.{on_equiv};
    ghost use Rattle.zarr_codecs_types.specs.Views.{cell_of};
    ghost use Rattle.zarr_codecs_types.specs.SameEquivalence.{same_cell_equiv};

    ghost laws = { on_equiv cell_of same_cell_equiv };
}

fn same_type(a: &DataType, b: &DataType) -> bool
    ensures { result ≡ same_type (type_of a.now) (type_of b.now) }
{
    match a {
        DataType::Bool => matches!(b, DataType::Bool),
        DataType::Int2 => matches!(b, DataType::Int2),
        DataType::Int4 => matches!(b, DataType::Int4),
        DataType::Int8 => matches!(b, DataType::Int8),
        DataType::Int16 => matches!(b, DataType::Int16),
        DataType::Int32 => matches!(b, DataType::Int32),
        DataType::Int64 => matches!(b, DataType::Int64),
        DataType::UInt2 => matches!(b, DataType::UInt2),
        DataType::UInt4 => matches!(b, DataType::UInt4),
        DataType::UInt8 => matches!(b, DataType::UInt8),
        DataType::UInt16 => matches!(b, DataType::UInt16),
        DataType::UInt32 => matches!(b, DataType::UInt32),
        DataType::UInt64 => matches!(b, DataType::UInt64),
        DataType::String => matches!(b, DataType::String),
        DataType::Bytes => matches!(b, DataType::Bytes),
        DataType::Optional(inner) => match b {
            DataType::Optional(other) => same_type(inner, other),
            _ => false,
        },
        DataType::Custom(parts) => match b {
            DataType::Custom(others) => same_components(parts.as_slice(), others.as_slice()),
            _ => false,
        },
    }
}

fn same_components(parts: &[Component], others: &[Component]) -> bool
    ensures { result ≡ same_components (components_of parts.now) (components_of others.now) }
{
    parts == others
}

fn same_cell(a: &Cell, b: &Cell) -> bool
    ensures { result ≡ types.same_cell (cell_of a.now) (cell_of b.now) }
{
    match a {
        Cell::Bytes(bytes) => match b {
            Cell::Bytes(others) => bytes.as_slice() == others.as_slice(),
            _ => false,
        },
        Cell::Absent => matches!(b, Cell::Absent),
        Cell::Present(cell) => match b {
            Cell::Present(other) => same_cell(cell, other),
            _ => false,
        },
    }
}
