//! Bytes that decoded elements are put into.
ghost use Rattle.std.specs.Prelude.{◌≡◌, ◌<◌, ◌^◌, ℕ, OnOk, OnErr, IfErr};
ghost use Rattle.std.specs.Option.{SomeIff};
ghost use Rattle.zarr_codecs_arrays.specs.Views.{payload_of};
ghost use Rattle.zarr_codecs_arrays.specs.declared.error.CodecError.{CodecError};
ghost use Rattle.zarr_codecs_meaning.specs.Payloads.{Payload};
ghost use Rattle.zarr_grids_boxes.specs.Boxes.{product};
ghost use Rattle.zarr_codecs_traits.specs.Targets.{IsNotPut};

use crate::target_bytes::TargetBytes;
use std::alloc::Global;
use zarr_codecs_arrays::{ArrayBytes, CodecError};
use zarr_grids_boxes::walk::count_places;

/// Where decoded elements are put: over those in a box of other elements. `TargetBytes` takes
/// elements of one size, `OptionalTarget` optional ones.
pub trait ArrayBytesDecodeIntoTarget {
    /// How many elements are put into it.
    ghost count: { Self → ℕ };

    /// Whether the second is the first after elements were put over its own.
    ghost puts: { Self → Payload → Self → Type 0 };

    /// Why elements are not put over its own.
    ghost misfits: { Self → Payload → CodecError → Type 0 };

    /// How many elements are put into it, or `None` where these are 2^63 or more.
    fn num_elements(&self) -> Option<u64>
        ensures { SomeIff result (count self.now < 2 ^ 63) (count self.now) };

    /// Puts elements over its own. A refusal leaves it as it was: `ExpectedFixedLengthBytes` or
    /// `ExpectedOptionalBytes` where their form is another than the target's,
    /// `InvalidNumberOfElements` where they are more or fewer than the places of its box or its
    /// bytes are not those of its array, and `IncompatibleIndexer` where a box of it ends outside
    /// of its array.
    fn put(&mut self, alloc: Global, elements: &ArrayBytes) -> Result<(), CodecError>
        ensures ok { OnOk result (puts self.old (payload_of elements.now) self.new) }
        ensures err { OnErr result (self.new ≡ self.old) }
        ensures cause { IfErr result (misfits self.old (payload_of elements.now)) };
}

impl ArrayBytesDecodeIntoTarget for TargetBytes<'_, '_> {
    ghost use Rattle.std.specs.Prelude.{◌⊎◌};
    ghost use Rattle.zarr_codecs_traits.specs.Targets.{IsBytesMisfit, IsNotFixed, IsPut, OnFixed};

    ghost count = { λ t. product t.region.now.shape.items };

    ghost puts = { λ a payload b. OnFixed payload (λ bytes. IsPut a bytes b) };

    ghost misfits = { λ t payload e. IsNotFixed payload e
        ⊎ OnFixed payload (λ bytes. IsBytesMisfit t bytes e) };

    fn num_elements(&self) -> Option<u64> {
        count_places(self.region.shape())
    }

    fn put(&mut self, alloc: Global, elements: &ArrayBytes) -> Result<(), CodecError> {
        let ArrayBytes::Fixed(bytes) = elements else {
            return Err(CodecError::ExpectedFixedLengthBytes);
        };
        match self.whole_for(alloc, bytes) {
            Ok(whole) => {
                self.put_in(&whole, bytes);
                Ok(())
            }
            Err(error) => Err(error),
        }
    }
}

/// Where decoded optional elements are put: the elements over those of an inner target, and the
/// mask, one byte for each element, over a mask's bytes.
#[derive(Drop)]
pub struct OptionalTarget<'t, 'a, T> {
    pub inner: T,
    pub mask: TargetBytes<'t, 'a>,
}

impl<T: ArrayBytesDecodeIntoTarget> ArrayBytesDecodeIntoTarget for OptionalTarget<'_, '_, T> {
    ghost use Rattle.std.specs.Prelude.{◌⊎◌};
    ghost use Rattle.zarr_codecs_traits.specs.Targets.{IsBytesMisfit, IsNotOptional, IsPut, OnOptional};

    ghost count = { λ t. T.count t.inner };

    ghost puts = { λ a payload b. OnOptional payload (λ values present.
        T.puts a.inner values b.inner × IsPut a.mask present b.mask) };

    ghost misfits = { λ t payload e. IsNotOptional payload e ⊎ OnOptional payload
        (λ values present. IsBytesMisfit t.mask present e ⊎ T.misfits t.inner values e) };

    fn num_elements(&self) -> Option<u64> {
        self.inner.num_elements()
    }

    fn put(&mut self, alloc: Global, elements: &ArrayBytes) -> Result<(), CodecError> {
        let ArrayBytes::Optional(values, present) = elements else {
            return Err(CodecError::ExpectedOptionalBytes);
        };
        match self.mask.whole_for(alloc, present) {
            Ok(whole) => match self.inner.put(alloc, values) {
                Ok(()) => {
                    self.mask.put_in(&whole, present);
                    Ok(())
                }
                Err(error) => Err(error),
            },
            Err(error) => Err(error),
        }
    }
}

/// Puts the elements of an array of this shape over those of a target. `InvalidNumberOfElements`
/// where the target has more or fewer, `Size` where they are 2^63 or more, and the errors of its
/// `put`; it is then as it was.
pub(crate) fn put_all<T: ArrayBytesDecodeIntoTarget>(
    alloc: Global,
    elements: &ArrayBytes,
    shape: &[u64],
    target: &mut T,
) -> Result<(), CodecError>
    ensures ok { OnOk result ((T.count target.old ≡ product shape.now)
        × T.puts target.old (payload_of elements.now) target.new) }
    ensures err { OnErr result (target.new ≡ target.old) }
    ensures cause { IfErr result (IsNotPut shape.now (T.count target.old)
        (T.misfits target.old (payload_of elements.now))) }
{
    let Some(count) = count_places(shape) else {
        return Err(CodecError::Size);
    };
    if target.num_elements() != Some(count) {
        return Err(CodecError::InvalidNumberOfElements);
    }
    target.put(alloc, elements)
}
