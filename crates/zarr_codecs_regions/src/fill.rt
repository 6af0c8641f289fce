//! Fill values put into a target.
ghost use Rattle.std.specs.Prelude.{◌≡◌, OnOk, OnErr, IfErr};
ghost use Rattle.zarr_codecs_arrays.specs.Views.{elements_of};
ghost use Rattle.zarr_codecs_regions.specs.Filling.{IsFilled, IsNotFilled};

use std::alloc::Global;
use zarr_codecs_arrays::{ArrayBytes, CodecError, Elements};
use zarr_codecs_traits::ArrayBytesDecodeIntoTarget;

/// Puts the fill value over each of the elements that a target takes. `Size` where they are 2^63
/// or more or would have as many bytes, and the errors of the target's `put`; it is then as it was.
/// For a type whose elements have no bytes it answers `Memory`.
pub fn copy_fill_value_into<T: ArrayBytesDecodeIntoTarget>(
    alloc: Global,
    elements: &Elements,
    target: &mut T,
) -> Result<(), CodecError>
    ensures ok { OnOk result (IsFilled (elements_of elements.now) (T.count target.old)
        (λ payload. T.puts target.old payload target.new)) }
    ensures err { OnErr result (target.new ≡ target.old) }
    ensures cause { IfErr result (IsNotFilled (elements_of elements.now) (T.count target.old)
        (T.misfits target.old)) }
{
    let Some(count) = target.num_elements() else {
        return Err(CodecError::Size);
    };
    match ArrayBytes::new_fill_value(alloc, elements, count) {
        Ok(fill) => target.put(alloc, &fill),
        Err(error) => Err(error),
    }
}
