//! What the elements of inner arrays are.
ghost use Rattle.std.specs.Prelude.{◌≡◌, IfOk};
ghost use Rattle.zarr_codecs_meaning.specs.Types as types;
ghost use Rattle.zarr_codecs_types.specs.Views.{type_of, fill_of};
ghost use Rattle.zarr_codecs_arrays.specs.Views.{elements_of};

use std::alloc::{AllocError, Global};
use zarr_codecs_arrays::Elements;
use zarr_codecs_types::{DataType, FillValue};

/// Elements of a data type that fill with zero: zero bytes, no bytes, or absent. The arrays inside
/// of `vlen` and `optional` have such elements. `Err` only where an allocation failed.
pub fn zero_filled(alloc: Global, data_type: DataType) -> Result<Elements, AllocError>
    ensures { IfOk result (λ made. elements_of made ≡ types.zero_filled (type_of data_type)) }
{
    let fill_value = zero_value(alloc, &data_type)?;
    match Elements::new(data_type, fill_value) {
        Some(elements) => Ok(elements),
        None => unreachable!(),
    }
}

/// The zero of a data type.
fn zero_value(alloc: Global, data_type: &DataType) -> Result<FillValue, AllocError>
    ensures { IfOk result (λ value. fill_of value ≡ types.zero_cell (type_of data_type.now)) }
{
    match data_type {
        DataType::Optional(_) => Ok(FillValue::absent()),
        DataType::String | DataType::Bytes => Ok(FillValue::new(Vec::new(alloc))),
        _ => match data_type.byte_width() {
            Some(width) => Ok(FillValue::new(vec![in alloc; 0u8; width]?)),
            None => Err(AllocError),
        },
    }
}
