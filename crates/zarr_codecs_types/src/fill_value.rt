//! Fill values: the value of the elements that nobody wrote.
ghost use Rattle.std.specs.Prelude.{◌≡◌};

use crate::cell::Cell;
use crate::data_type::DataType;
use crate::values::is_value;
use std::alloc::{AllocError, Global};

/// The value of the elements that nobody wrote. Two are equal where their cells are.
#[derive(Debug, PartialEq, Eq, Drop)]
pub struct FillValue {
    cell: Cell,
}

impl From<Cell> for FillValue {
    ghost use Rattle.zarr_codecs_types.specs.Views.{held_cell};

    ghost from_gives = { λ cell value. held_cell value ≡ cell };

    fn from(cell: Cell) -> FillValue {
        FillValue { cell }
    }
}

impl FillValue {
    ghost use Rattle.std.specs.Prelude.{◌≡◌, ◌∷◌, [], IfOk, if◌then◌else◌};
    ghost use Rattle.zarr_codecs_meaning.specs.Numbers.{digits};
    ghost use Rattle.zarr_codecs_meaning.specs.Types as types;
    ghost use Rattle.zarr_codecs_types.specs.Views.{type_of, cell_of, fill_of};
    ghost use Rattle.zarr_codecs_types.specs.Integers.{integer_bytes};

    /// The value with these bytes in memory, little endian: an element of a fixed type, or a
    /// string.
    pub fn new(bytes: Vec<u8>) -> FillValue
        ensures { fill_of result ≡ types.of_bytes bytes.items }
    {
        FillValue {
            cell: Cell::Bytes(bytes),
        }
    }

    /// The value of an optional type that is absent.
    pub fn absent() -> FillValue
        ensures { fill_of result ≡ types.absent }
    {
        FillValue { cell: Cell::Absent }
    }

    /// The value of an optional type that is present. `Err` only where an allocation failed.
    pub fn present(alloc: Global, value: FillValue) -> Result<FillValue, AllocError>
        ensures { IfOk result (λ v. fill_of v ≡ types.present (fill_of value)) }
    {
        let cell = Box::new(alloc, value.cell)?;
        Ok(FillValue {
            cell: Cell::Present(cell),
        })
    }

    /// The value with a copy of these bytes. `Err` only where an allocation failed.
    fn copied(alloc: Global, bytes: &[u8]) -> Result<FillValue, AllocError>
        ensures { IfOk result (λ v. fill_of v ≡ types.of_bytes bytes.now) }
    {
        Ok(FillValue::new(bytes.to_vec(alloc)?))
    }

    /// The byte of a boolean. `Err` only where an allocation failed.
    pub fn from_bool(alloc: Global, value: bool) -> Result<FillValue, AllocError>
        ensures { IfOk result
            (λ v. fill_of v ≡ types.of_bytes ((if value then 1 else 0) ∷ [])) }
    {
        FillValue::copied(alloc, &[value as u8])
    }

    /// The byte of an integer. `Err` only where an allocation failed.
    pub fn from_u8(alloc: Global, value: u8) -> Result<FillValue, AllocError>
        ensures { IfOk result (λ v. fill_of v ≡ types.of_bytes (digits 256 1 value)) }
    {
        FillValue::copied(alloc, &value.to_le_bytes())
    }

    /// The bytes of an integer. `Err` only where an allocation failed.
    pub fn from_u16(alloc: Global, value: u16) -> Result<FillValue, AllocError>
        ensures { IfOk result (λ v. fill_of v ≡ types.of_bytes (digits 256 2 value)) }
    {
        FillValue::copied(alloc, &value.to_le_bytes())
    }

    /// The bytes of an integer. `Err` only where an allocation failed.
    pub fn from_u32(alloc: Global, value: u32) -> Result<FillValue, AllocError>
        ensures { IfOk result (λ v. fill_of v ≡ types.of_bytes (digits 256 4 value)) }
    {
        FillValue::copied(alloc, &value.to_le_bytes())
    }

    /// The bytes of an integer. `Err` only where an allocation failed.
    pub fn from_u64(alloc: Global, value: u64) -> Result<FillValue, AllocError>
        ensures { IfOk result (λ v. fill_of v ≡ types.of_bytes (digits 256 8 value)) }
    {
        FillValue::copied(alloc, &value.to_le_bytes())
    }

    /// The byte of an integer, in two's complement. `Err` only where an allocation failed.
    pub fn from_i8(alloc: Global, value: i8) -> Result<FillValue, AllocError>
        ensures { IfOk result (λ v. fill_of v ≡ types.of_bytes (integer_bytes 1 value)) }
    {
        FillValue::copied(alloc, &value.to_le_bytes())
    }

    /// The bytes of an integer, in two's complement. `Err` only where an allocation failed.
    pub fn from_i16(alloc: Global, value: i16) -> Result<FillValue, AllocError>
        ensures { IfOk result (λ v. fill_of v ≡ types.of_bytes (integer_bytes 2 value)) }
    {
        FillValue::copied(alloc, &value.to_le_bytes())
    }

    /// The bytes of an integer, in two's complement. `Err` only where an allocation failed.
    pub fn from_i32(alloc: Global, value: i32) -> Result<FillValue, AllocError>
        ensures { IfOk result (λ v. fill_of v ≡ types.of_bytes (integer_bytes 4 value)) }
    {
        FillValue::copied(alloc, &value.to_le_bytes())
    }

    /// The bytes of an integer, in two's complement. `Err` only where an allocation failed.
    pub fn from_i64(alloc: Global, value: i64) -> Result<FillValue, AllocError>
        ensures { IfOk result (λ v. fill_of v ≡ types.of_bytes (integer_bytes 8 value)) }
    {
        FillValue::copied(alloc, &value.to_le_bytes())
    }

    /// The value as an element.
    pub fn as_cell(&self) -> &Cell
        ensures { cell_of result.now ≡ fill_of self.now }
    {
        &self.cell
    }

    /// The element that the value is.
    pub fn into_cell(self) -> Cell
        ensures { cell_of result ≡ fill_of self }
    {
        let FillValue { cell } = self;
        cell
    }

    /// An equal value. `Err` only where an allocation failed.
    pub fn try_clone(&self, alloc: Global) -> Result<FillValue, AllocError>
        ensures { IfOk result (λ v. fill_of v ≡ fill_of self.now) }
    {
        let cell = self.cell.try_clone(alloc)?;
        Ok(FillValue { cell })
    }

    /// Whether it is a value of a data type.
    pub fn is_value_of(&self, data_type: &DataType) -> bool
        ensures { result ≡ types.is_value (type_of data_type.now) (fill_of self.now) }
    {
        is_value(data_type, self.as_cell())
    }
}
