//! The elements of arrays.
use std::alloc::{AllocError, Global};

/// An element: its bytes in memory, little endian, or for an optional type absent, or present
/// with an element of the inner type.
#[derive(Debug, Drop)]
pub enum Cell {
    Bytes(Vec<u8>),
    Absent,
    Present(Box<Cell>),
}

impl Cell {
    ghost use Rattle.std.specs.Prelude.{◌≡◌, IfOk};
    ghost use Rattle.zarr_codecs_types.specs.Views.{cell_of};

    /// An equal element. `Err` only where an allocation failed.
    pub fn try_clone(&self, alloc: Global) -> Result<Cell, AllocError>
        ensures { IfOk result (λ c. cell_of c ≡ cell_of self.now) }
    {
        match self {
            Cell::Bytes(bytes) => Ok(Cell::Bytes(bytes.as_slice().to_vec(alloc)?)),
            Cell::Absent => Ok(Cell::Absent),
            Cell::Present(cell) => {
                let copy = cell.try_clone(alloc)?;
                Ok(Cell::Present(Box::new(alloc, copy)?))
            }
        }
    }
}
