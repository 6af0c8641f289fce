//! Parts of arrays, decoded by a codec after array to array codecs.
ghost use Rattle.std.specs.Prelude.{◌≡◌, ◌≤◌, ◌+◌, ◌^◌, ◌<◌, true, IsTrue};
ghost use Rattle.zarr_grids_boxes.specs.Boxes.{product};
ghost use Rattle.zarr_grids_boxes.specs.Subsets.{region_of};
ghost use Rattle.zarr_codecs_arrays.specs.Views.{elements_of};
ghost use Rattle.zarr_codecs_traits.specs.Indexers.{are_inside, asked_of, in_box};
ghost use Rattle.zarr_codecs_traits.specs.Arrays.{coded, coded_part};
ghost use Rattle.zarr_codecs_traits.specs.Outcomes.{DecodesPart};
ghost use Rattle.zarr_codecs_traits.specs.ReadBytes.{most_read};
ghost use Rattle.zarr_codecs_traits.specs.Sources.{refused_after};
ghost use Rattle.zarr_codecs_bytes.specs.Parts.{GivesListed, most_of_listed};
ghost use Rattle.zarr_codecs_around.specs.Boxes.{takes_any_order};
ghost use Rattle.zarr_codecs_around.specs.Views.{chain_after};

use crate::array_codecs::AfterArrayCodecs;
use crate::boxes::{BoxPart, takes_any_order};
use crate::moved_boxes::{box_after, split_boxed, undo_box};
use crate::moved_numbers::move_numbers;
use std::alloc::Global;
use zarr_codecs_arrays::{ArrayBytes, CodecError};
use zarr_codecs_bytes::part::ListedPart;
use zarr_codecs_regions::{numbers_asked, test_asked};
use zarr_codecs_traits::{ArrayPart, ArrayToBytesCodecTraits, BytesPartialDecoderTraits, Indexer};
use zarr_grids_boxes::walk::count_places;

/// The elements at the places that are asked for, of the value that a source holds, each of which
/// goes through the array codecs. Errors as those of `ArrayToBytesCodecTraits::partial_decode`.
pub fn decode_part_after<A: ArrayToBytesCodecTraits, D: BytesPartialDecoderTraits>(
    chain: AfterArrayCodecs<'_, A>,
    alloc: Global,
    source: &mut D,
    part: ArrayPart<'_>,
) -> Result<ArrayBytes, CodecError>
    ensures part { IsTrue (D.is_honest source.old) → DecodesPart
        (coded_part (chain_after A.meaning chain.entry) part.entry) (D.contents source.old)
        (asked_of part.entry.indexer) result }
    ensures refused { D.refused_calls source.new ≡
        refused_after (D.refused_calls source.old) result }
    ensures given { IsTrue (D.is_honest source.old) → D.given_bytes source.new
        ≤ D.given_bytes source.old + most_read (chain_after A.meaning chain.entry)
        (elements_of part.entry.elements.now).type part.entry.shape.now (D.contents source.old)
        (asked_of part.entry.indexer) }
    ensures follows { D.follows source.old source.new }
{
    let (elements, shape) = (part.elements, part.shape);
    if let Err(error) = test_asked(shape, part.indexer) {
        return Err(error);
    }
    if count_places(shape).is_none() {
        return Err(CodecError::Size);
    }
    let Indexer::Subset(subset) = part.indexer else {
        return decode_asked_after(chain, alloc, source, part);
    };
    if chain.array_to_array.is_empty() || !takes_any_order(chain.rest) {
        return decode_asked_after(chain, alloc, source, part);
    }
    let boxed = BoxPart {
        elements,
        shape,
        subset,
    };
    decode_box_after(chain, alloc, source, boxed)
}

/// The elements of a box, of the value that a source holds. What comes after the codecs before a
/// `reshape` is asked for the box that the box becomes through these.
fn decode_box_after<A: ArrayToBytesCodecTraits, D: BytesPartialDecoderTraits>(
    chain: AfterArrayCodecs<'_, A>,
    alloc: Global,
    source: &mut D,
    part: BoxPart<'_>,
) -> Result<ArrayBytes, CodecError>
    requires small { product part.shape.now < 2 ^ 63 }
    requires any_order { takes_any_order (A.meaning chain.rest.now) ≡ true }
    ensures part { IsTrue (D.is_honest source.old) → DecodesPart
        (coded (chain_after A.meaning chain.entry) (elements_of part.entry.elements.now)
        part.entry.shape.now) (D.contents source.old) (in_box (region_of part.entry.subset.now))
        result }
    ensures refused { D.refused_calls source.new ≡
        refused_after (D.refused_calls source.old) result }
    ensures given { IsTrue (D.is_honest source.old) → D.given_bytes source.new
        ≤ D.given_bytes source.old + most_read (chain_after A.meaning chain.entry)
        (elements_of part.entry.elements.now).type part.entry.shape.now (D.contents source.old)
        (in_box (region_of part.entry.subset.now)) }
    ensures follows { D.follows source.old source.new }
{
    let AfterArrayCodecs {
        array_to_array,
        rest,
    } = chain;
    let (first, last) = split_boxed(array_to_array);
    let place = match box_after(alloc, first, part) {
        Ok(place) => place,
        Err(error) => return Err(error),
    };
    let inner = BoxPart {
        elements: part.elements,
        shape: place.shape.as_slice(),
        subset: &place.subset,
    };
    let left = AfterArrayCodecs {
        array_to_array: last,
        rest,
    };
    match decode_inner_box(left, alloc, source, inner) {
        Ok(found) => undo_box(alloc, first, found, part),
        Err(error) => Err(error),
    }
}

/// The elements of a box, of the value that a source holds. What comes after the codecs is asked
/// for the box itself, where there are none, and else for its places.
fn decode_inner_box<A: ArrayToBytesCodecTraits, D: BytesPartialDecoderTraits>(
    chain: AfterArrayCodecs<'_, A>,
    alloc: Global,
    source: &mut D,
    part: BoxPart<'_>,
) -> Result<ArrayBytes, CodecError>
    requires small { product part.shape.now < 2 ^ 63 }
    ensures part { IsTrue (D.is_honest source.old) → DecodesPart
        (coded (chain_after A.meaning chain.entry) (elements_of part.entry.elements.now)
        part.entry.shape.now) (D.contents source.old) (in_box (region_of part.entry.subset.now))
        result }
    ensures refused { D.refused_calls source.new ≡
        refused_after (D.refused_calls source.old) result }
    ensures given { IsTrue (D.is_honest source.old) → D.given_bytes source.new
        ≤ D.given_bytes source.old + most_read (chain_after A.meaning chain.entry)
        (elements_of part.entry.elements.now).type part.entry.shape.now (D.contents source.old)
        (in_box (region_of part.entry.subset.now)) }
    ensures follows { D.follows source.old source.new }
{
    let (elements, shape, subset) = (part.elements, part.shape, part.subset);
    let indexer = Indexer::Subset(subset);
    let all = ArrayPart {
        elements,
        shape,
        indexer,
    };
    decode_asked_after(chain, alloc, source, all)
}

/// The elements at the places that are asked for, of the value that a source holds. The array
/// codecs move the numbers of these places.
fn decode_asked_after<A: ArrayToBytesCodecTraits, D: BytesPartialDecoderTraits>(
    chain: AfterArrayCodecs<'_, A>,
    alloc: Global,
    source: &mut D,
    part: ArrayPart<'_>,
) -> Result<ArrayBytes, CodecError>
    requires inside { are_inside part.shape.now (asked_of part.indexer) ≡ true }
    requires small { product part.shape.now < 2 ^ 63 }
    ensures part { IsTrue (D.is_honest source.old) → DecodesPart
        (coded_part (chain_after A.meaning chain.entry) part.entry) (D.contents source.old)
        (asked_of part.entry.indexer) result }
    ensures refused { D.refused_calls source.new ≡
        refused_after (D.refused_calls source.old) result }
    ensures given { IsTrue (D.is_honest source.old) → D.given_bytes source.new
        ≤ D.given_bytes source.old + most_read (chain_after A.meaning chain.entry)
        (elements_of part.entry.elements.now).type part.entry.shape.now (D.contents source.old)
        (asked_of part.entry.indexer) }
    ensures follows { D.follows source.old source.new }
{
    let AfterArrayCodecs {
        array_to_array,
        rest,
    } = chain;
    let Some((first, others)) = array_to_array.split_first() else {
        return rest.partial_decode_in_order(alloc, source, part);
    };
    let (elements, shape) = (part.elements, part.shape);
    let numbers = numbers_asked(alloc, shape, part.indexer)?;
    let listed = ListedPart {
        elements,
        shape,
        numbers: numbers.as_slice(),
    };
    let moved = match move_numbers(alloc, first, others, listed) {
        Ok(moved) => moved,
        Err(error) => return Err(error),
    };
    let inner = ListedPart {
        elements,
        shape: moved.shape.as_slice(),
        numbers: moved.numbers.as_slice(),
    };
    decode_numbers(rest, alloc, source, inner)
}

/// The elements with some numbers, of the value that a source holds, which the codec decodes.
fn decode_numbers<A: ArrayToBytesCodecTraits, D: BytesPartialDecoderTraits>(
    codec: &A,
    alloc: Global,
    source: &mut D,
    part: ListedPart<'_>,
) -> Result<ArrayBytes, CodecError>
    ensures part { IsTrue (D.is_honest source.old) → GivesListed (A.meaning codec.now)
        (D.contents source.old) part.entry result }
    ensures refused { D.refused_calls source.new ≡
        refused_after (D.refused_calls source.old) result }
    ensures given { IsTrue (D.is_honest source.old) → D.given_bytes source.new
        ≤ D.given_bytes source.old
        + most_of_listed (A.meaning codec.now) (D.contents source.old) part.entry }
    ensures follows { D.follows source.old source.new }
{
    let (elements, shape, numbers) = (part.elements, part.shape, part.numbers);
    let indexer = Indexer::List(numbers);
    let all = ArrayPart {
        elements,
        shape,
        indexer,
    };
    codec.partial_decode_in_order(alloc, source, all)
}
