//! The elements of an array as plain bytes, of which all are values. So what is put into a chunk's
//! value is put beside any other bytes, which stay.
ghost use Rattle.std.specs.Prelude.{◌≡◌, map, true, IfSome, IfOk};
ghost use Rattle.zarr_array_core.specs.ChunkValues.{plain_component, plain_elements};
ghost use Rattle.zarr_codecs_arrays.specs.Views.{elements_of};
ghost use Rattle.zarr_codecs_meaning.specs.Types.{is_fixed};
ghost use Rattle.zarr_codecs_types.specs.Views.{component_of};

use std::alloc::{AllocError, Global};
use zarr_codecs_arrays::Elements;
use zarr_codecs_types::{Component, DataType, Sign};

/// A component of as many bytes whose bits are all its own. `None` where a `usize` is too small
/// for the number of the bits.
fn plain_component(part: Component) -> Option<Component>
    ensures { IfSome result
        (λ plain. component_of plain ≡ plain_component (component_of part)) }
{
    let byte_count = part.byte_count;
    let width = byte_count.checked_mul(8)?;
    let sign = Sign::Unsigned;
    Some(Component {
        width,
        byte_count,
        sign,
    })
}

/// Components of as many bytes whose bits are all their own. `Err` where an allocation failed, or
/// the bits of one are too many for a `usize`.
fn plain_components(alloc: Global, parts: &[Component]) -> Result<Vec<Component>, AllocError>
    ensures { IfOk result (λ plain. map component_of plain.items
        ≡ map (λ part. plain_component (component_of part)) parts.now) }
{
    let mut plain = Vec::with_capacity(alloc, parts.len())?;
    for part in parts {
        let Some(component) = plain_component(*part) else {
            return Err(AllocError);
        };
        plain.push(component)?;
    }
    Ok(plain)
}

/// Elements of as many bytes that fill with the same value, of which any bytes are one. `Err` where
/// an allocation failed, or the bits of a component are too many for a `usize`.
pub(crate) fn as_plain_bytes(alloc: Global, elements: &Elements) -> Result<Elements, AllocError>
    requires { is_fixed (elements_of elements.now).type ≡ true }
    ensures { IfOk result
        (λ plain. elements_of plain ≡ plain_elements (elements_of elements.now)) }
{
    let parts = elements.data_type().components(alloc)?;
    let plain = plain_components(alloc, parts.as_slice())?;
    let fill_value = elements.fill_value().try_clone(alloc)?;
    match Elements::new(DataType::Custom(plain), fill_value) {
        Some(made) => Ok(made),
        None => unreachable!(),
    }
}
