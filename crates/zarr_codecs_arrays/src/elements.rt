//! What the elements of an array are.
ghost use Rattle.std.specs.Prelude.{◌≡◌, true};
ghost use Rattle.zarr_codecs_meaning.specs.Types.{is_value};
ghost use Rattle.zarr_codecs_types.specs.Views.{type_of, fill_of};

use std::alloc::{AllocError, Global};
use zarr_codecs_types::{DataType, FillValue};

/// What the elements of an array are: their data type, and the value of those that nobody wrote,
/// which is a value of that type.
#[derive(Debug, Drop)]
pub struct Elements {
    data_type: DataType,
    fill_value: FillValue,
    ghost fills: { is_value (type_of data_type) (fill_of fill_value) ≡ true },
}

impl Elements {
    ghost use Rattle.std.specs.Prelude.{◌≡◌, IfSome, IfNone, IfOk, false};
    ghost use Rattle.zarr_codecs_meaning.specs.Types.{is_value};
    ghost use Rattle.zarr_codecs_types.specs.Views.{type_of, fill_of};
    ghost use Rattle.zarr_codecs_arrays.specs.Views.{elements_of};

    /// Elements of a data type that fill with a value, or `None` where it is no value of the type.
    pub fn new(data_type: DataType, fill_value: FillValue) -> Option<Elements>
        ensures some { IfSome result (λ elements. elements_of elements
            ≡ record { type = type_of data_type; fill = fill_of fill_value }) }
        ensures none { IfNone result (is_value (type_of data_type) (fill_of fill_value) ≡ false) }
    {
        if !fill_value.is_value_of(&data_type) {
            return None;
        }
        Some(Elements {
            data_type,
            fill_value,
        })
    }

    /// The data type.
    pub fn data_type(&self) -> &DataType
        ensures { type_of result.now ≡ (elements_of self.now).type }
    {
        &self.data_type
    }

    /// The value of the elements that nobody wrote.
    pub fn fill_value(&self) -> &FillValue
        ensures { fill_of result.now ≡ (elements_of self.now).fill }
    {
        &self.fill_value
    }

    /// Equal elements. `Err` only where an allocation failed.
    pub fn try_clone(&self, alloc: Global) -> Result<Elements, AllocError>
        ensures { IfOk result (λ e. elements_of e ≡ elements_of self.now) }
    {
        let data_type = self.data_type.try_clone(alloc)?;
        let fill_value = self.fill_value.try_clone(alloc)?;
        Ok(Elements {
            data_type,
            fill_value,
        })
    }
}
