//! Elements of an array of which nothing is stored.
ghost use Rattle.std.specs.Prelude.{◌≡◌, ◌≢◌, ◌↔◌, ℕ, Err, IfErr, IfNone, IfOk, IfSome, IsTrue, None, true};
ghost use Rattle.zarr_grids_boxes.specs.Boxes.{product};
ghost use Rattle.zarr_codecs_meaning.specs.Chains.{Chain};
ghost use Rattle.zarr_codecs_meaning.specs.Fits.{fits};
ghost use Rattle.zarr_codecs_meaning.specs.Types.{IsTooLarge};
ghost use Rattle.zarr_codecs_arrays.specs.Views.{elements_of, payload_of};
ghost use Rattle.zarr_codecs_traits.specs.Arrays.{coded_part};
ghost use Rattle.zarr_codecs_traits.specs.Indexers.{are_inside, asked_of};
ghost use Rattle.zarr_codecs_traits.specs.Outcomes.{DecodesPart};
ghost use Rattle.zarr_codecs_traits.specs.Sources.{refused_after};
ghost use Rattle.zarr_codecs_regions.specs.Filling.{AreFill, IsBoxTooLarge};

use std::alloc::Global;
use zarr_codecs_arrays::{ArrayBytes, CodecError, Elements};
use zarr_codecs_traits::{ArrayPart, Indexer};
use zarr_grids_boxes::walk::count_places;

/// How many elements an array of this shape has; `None` where they are 2^63 or more or have as many
/// bytes.
pub fn count_elements(shape: &[u64], elements: &Elements) -> Option<u64>
    ensures some { IfSome result (λ count. count ≡ product shape.now) }
    ensures few { IfSome result (λ count. IsTooLarge (elements_of elements.now).type count → ⊥) }
    ensures none { IfNone result
        (IsTooLarge (elements_of elements.now).type (product shape.now)) }
{
    let count = count_places(shape)?;
    if elements.is_too_large(count) {
        return None;
    }
    Some(count)
}

/// Whether a box that is asked for has 2^63 elements or more, or as many bytes. Places that are
/// listed aren't measured.
pub fn is_box_too_large(part: ArrayPart<'_>) -> bool
    ensures { IsTrue result ↔ IsBoxTooLarge (elements_of part.entry.elements.now).type
        (asked_of part.entry.indexer) }
{
    match part.indexer {
        Indexer::Subset(region) => match count_elements(region.shape(), part.elements) {
            Some(_count) => false,
            None => true,
        },
        Indexer::List(_numbers) => false,
    }
}

/// As many fill values as an array of this shape has elements. `Size` where they are 2^63 or more
/// or would have as many bytes, before any memory is asked for.
pub fn fill_array(
    alloc: Global,
    elements: &Elements,
    shape: &[u64],
) -> Result<ArrayBytes, CodecError>
    ensures ok { IfOk result
        (λ made. AreFill (elements_of elements.now) (product shape.now) (payload_of made)) }
    ensures err { IfErr result (λ e. e ≢ CodecError.Memory → (e ≡ CodecError.Size)
        × IsTooLarge (elements_of elements.now).type (product shape.now)) }
    ensures large { IsTooLarge (elements_of elements.now).type (product shape.now)
        → result ≡ Err CodecError.Size }
    ensures no_source { (count : ℕ) → refused_after count result ≡ count }
{
    let Some(count) = count_places(shape) else {
        return Err(CodecError::Size);
    };
    ArrayBytes::new_fill_value(alloc, elements, count)
}

/// As many fill values as places are asked for, of an array of which nothing is stored. `Size`
/// where a box has 2^63 places or more or would have as many bytes, before any memory is asked
/// for; places that are listed are filled whatever size they have.
pub fn fill_asked(alloc: Global, part: ArrayPart<'_>) -> Result<ArrayBytes, CodecError>
    requires inside { are_inside part.shape.now (asked_of part.indexer) ≡ true }
    ensures part { (chain : Chain) → fits chain (elements_of part.entry.elements.now).type
        part.entry.shape.now ≡ true → DecodesPart (coded_part chain part.entry) None
        (asked_of part.entry.indexer) result }
    ensures large { IsBoxTooLarge (elements_of part.entry.elements.now).type
        (asked_of part.entry.indexer) → result ≡ Err CodecError.Size }
    ensures no_source { (count : ℕ) → refused_after count result ≡ count }
{
    match part.indexer {
        Indexer::Subset(region) => fill_array(alloc, part.elements, region.shape()),
        Indexer::List(numbers) => {
            Ok(ArrayBytes::fill_values(alloc, part.elements, numbers.len())?)
        }
    }
}
