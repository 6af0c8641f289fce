//! Elements put in the place of others by a codec after array to array codecs.
ghost use Rattle.std.specs.Prelude.{◌≡◌, ◌^◌, ◌<◌, true, IsTrue, OnErr, OnOk};
ghost use Rattle.zarr_grids_boxes.specs.Boxes.{product};
ghost use Rattle.zarr_codecs_meaning.specs.Fits.{fits};
ghost use Rattle.zarr_codecs_arrays.specs.Views.{elements_of};
ghost use Rattle.zarr_codecs_traits.specs.Indexers.{are_inside, asked_of};
ghost use Rattle.zarr_codecs_traits.specs.Arrays.{update_part};
ghost use Rattle.zarr_codecs_traits.specs.PartWriting.{EncodesInto, WritesOnce};
ghost use Rattle.zarr_codecs_traits.specs.Sources.{refused_after};
ghost use Rattle.zarr_codecs_around.specs.Parts.{IsAsRest, WritesPart, boxed_in, coded_listed, part_in, source_write, update_boxed, update_listed};
ghost use Rattle.zarr_codecs_around.specs.Views.{chain_after};

use crate::array_codecs::AfterArrayCodecs;
use crate::boxes::BoxPart;
use crate::moved_boxes::{MovedElements, move_box, split_boxed};
use crate::moved_numbers::move_numbers;
use crate::whole_arrays::fits_after;
use std::alloc::Global;
use zarr_codecs_arrays::{ArrayBytes, CodecError};
use zarr_codecs_bytes::part::ListedPart;
use zarr_codecs_regions::{numbers_asked, test_asked};
use zarr_codecs_traits::{ArrayPart, ArrayToBytesCodecTraits, BytesPartialEncoderTraits, Indexer};
use zarr_grids_boxes::walk::count_places;

/// Puts elements in the place of those at the places that are asked for, in the value that a source
/// holds, each where the array codecs move it. Errors as those of
/// `ArrayToBytesCodecTraits::partial_encode`; their causes are told where the array codecs leave a
/// codec that can be encoded in part so, as all do but a `reshape` before a shard.
#[tactic(auto, using(crate::proofs::WritingAfter::unread_writes))]
pub fn encode_part_after<A: ArrayToBytesCodecTraits, E: BytesPartialEncoderTraits>(
    chain: AfterArrayCodecs<'_, A>,
    alloc: Global,
    source: &mut E,
    bytes: ArrayBytes,
    part: ArrayPart<'_>,
) -> Result<(), CodecError>
    ensures ok { IsTrue (E.is_honest source.old) → OnOk result
        (EncodesInto (part_in A.meaning chain.entry part.entry) (A.is_function chain.entry.rest.now)
        (update_part part.entry bytes (E.contents source.old)) (E.contents source.new)) }
    ensures err { IsTrue (E.is_honest source.old) →
        OnErr result (E.contents source.new ≡ E.contents source.old) }
    ensures writes { IsTrue (E.is_honest source.old) → IsAsRest A.meaning chain.entry →
        WritesPart (part_in A.meaning chain.entry part.entry)
        (update_part part.entry bytes (E.contents source.old))
        (source_write (E.contents source.new) (E.writes_ranges source.old)
        (E.given_bytes source.old) (E.given_bytes source.new)) result }
    ensures refused { E.refused_calls source.new ≡
        refused_after (E.refused_calls source.old) result }
    ensures once { WritesOnce (E.accepted_writes source.old) (E.accepted_writes source.new) result }
    ensures rewrites { E.rewrites source.old source.new }
{
    let (elements, shape) = (part.elements, part.shape);
    if let Err(error) = test_asked(shape, part.indexer) {
        return Err(error);
    }
    if count_places(shape).is_none() {
        return Err(CodecError::Size);
    }
    if chain.array_to_array.is_empty() {
        return encode_asked_after(chain, alloc, source, bytes, part);
    }
    let Indexer::Subset(subset) = part.indexer else {
        return encode_asked_after(chain, alloc, source, bytes, part);
    };
    if !fits_after(
        chain.rest,
        alloc,
        chain.array_to_array,
        elements.data_type(),
        shape,
    )? {
        return Err(CodecError::Fit);
    }
    let boxed = BoxPart {
        elements,
        shape,
        subset,
    };
    encode_box_after(chain, alloc, source, bytes, boxed)
}

/// Puts elements in the place of those of a box, in the value that a source holds. What comes after
/// the codecs before a `reshape` is given the box that the box becomes through these.
fn encode_box_after<A: ArrayToBytesCodecTraits, E: BytesPartialEncoderTraits>(
    chain: AfterArrayCodecs<'_, A>,
    alloc: Global,
    source: &mut E,
    bytes: ArrayBytes,
    part: BoxPart<'_>,
) -> Result<(), CodecError>
    requires small { product part.shape.now < 2 ^ 63 }
    requires fits { fits (chain_after A.meaning chain) (elements_of part.elements.now).type
        part.shape.now ≡ true }
    ensures ok { IsTrue (E.is_honest source.old) → OnOk result
        (EncodesInto (boxed_in A.meaning chain.entry part.entry)
        (A.is_function chain.entry.rest.now) (update_boxed part.entry bytes (E.contents source.old))
        (E.contents source.new)) }
    ensures err { IsTrue (E.is_honest source.old) →
        OnErr result (E.contents source.new ≡ E.contents source.old) }
    ensures writes { IsTrue (E.is_honest source.old) → IsAsRest A.meaning chain.entry →
        WritesPart (boxed_in A.meaning chain.entry part.entry)
        (update_boxed part.entry bytes (E.contents source.old))
        (source_write (E.contents source.new) (E.writes_ranges source.old)
        (E.given_bytes source.old) (E.given_bytes source.new)) result }
    ensures refused { E.refused_calls source.new ≡
        refused_after (E.refused_calls source.old) result }
    ensures once { WritesOnce (E.accepted_writes source.old) (E.accepted_writes source.new) result }
    ensures rewrites { E.rewrites source.old source.new }
{
    let AfterArrayCodecs {
        array_to_array,
        rest,
    } = chain;
    let (first, last) = split_boxed(array_to_array);
    let moved = match move_box(alloc, first, bytes, part) {
        Ok(moved) => moved,
        Err(error) => return Err(error),
    };
    let MovedElements {
        place,
        bytes: turned,
    } = moved;
    let inner = BoxPart {
        elements: part.elements,
        shape: place.shape.as_slice(),
        subset: &place.subset,
    };
    let left = AfterArrayCodecs {
        array_to_array: last,
        rest,
    };
    encode_inner_box(left, alloc, source, turned, inner)
}

/// Puts elements in the place of those of a box, in the value that a source holds. What comes after
/// the codecs is given the box itself, where there are none, and else its places.
fn encode_inner_box<A: ArrayToBytesCodecTraits, E: BytesPartialEncoderTraits>(
    chain: AfterArrayCodecs<'_, A>,
    alloc: Global,
    source: &mut E,
    bytes: ArrayBytes,
    part: BoxPart<'_>,
) -> Result<(), CodecError>
    requires small { product part.shape.now < 2 ^ 63 }
    ensures ok { IsTrue (E.is_honest source.old) → OnOk result
        (EncodesInto (boxed_in A.meaning chain.entry part.entry)
        (A.is_function chain.entry.rest.now) (update_boxed part.entry bytes (E.contents source.old))
        (E.contents source.new)) }
    ensures err { IsTrue (E.is_honest source.old) →
        OnErr result (E.contents source.new ≡ E.contents source.old) }
    ensures writes { IsTrue (E.is_honest source.old) → IsAsRest A.meaning chain.entry →
        WritesPart (boxed_in A.meaning chain.entry part.entry)
        (update_boxed part.entry bytes (E.contents source.old))
        (source_write (E.contents source.new) (E.writes_ranges source.old)
        (E.given_bytes source.old) (E.given_bytes source.new)) result }
    ensures refused { E.refused_calls source.new ≡
        refused_after (E.refused_calls source.old) result }
    ensures once { WritesOnce (E.accepted_writes source.old) (E.accepted_writes source.new) result }
    ensures rewrites { E.rewrites source.old source.new }
{
    let (elements, shape, subset) = (part.elements, part.shape, part.subset);
    let indexer = Indexer::Subset(subset);
    let all = ArrayPart {
        elements,
        shape,
        indexer,
    };
    encode_asked_after(chain, alloc, source, bytes, all)
}

/// Puts elements in the place of those at the places that are asked for, in the value that a source
/// holds. The array codecs move the numbers of these places.
#[tactic(auto, using(crate::proofs::WritingAfter::unread_writes))]
fn encode_asked_after<A: ArrayToBytesCodecTraits, E: BytesPartialEncoderTraits>(
    chain: AfterArrayCodecs<'_, A>,
    alloc: Global,
    source: &mut E,
    bytes: ArrayBytes,
    part: ArrayPart<'_>,
) -> Result<(), CodecError>
    requires inside { are_inside part.shape.now (asked_of part.indexer) ≡ true }
    requires small { product part.shape.now < 2 ^ 63 }
    ensures ok { IsTrue (E.is_honest source.old) → OnOk result
        (EncodesInto (part_in A.meaning chain.entry part.entry) (A.is_function chain.entry.rest.now)
        (update_part part.entry bytes (E.contents source.old)) (E.contents source.new)) }
    ensures err { IsTrue (E.is_honest source.old) →
        OnErr result (E.contents source.new ≡ E.contents source.old) }
    ensures writes { IsTrue (E.is_honest source.old) → IsAsRest A.meaning chain.entry →
        WritesPart (part_in A.meaning chain.entry part.entry)
        (update_part part.entry bytes (E.contents source.old))
        (source_write (E.contents source.new) (E.writes_ranges source.old)
        (E.given_bytes source.old) (E.given_bytes source.new)) result }
    ensures refused { E.refused_calls source.new ≡
        refused_after (E.refused_calls source.old) result }
    ensures once { WritesOnce (E.accepted_writes source.old) (E.accepted_writes source.new) result }
    ensures rewrites { E.rewrites source.old source.new }
{
    let AfterArrayCodecs {
        array_to_array,
        rest,
    } = chain;
    let Some((first, others)) = array_to_array.split_first() else {
        return rest.partial_encode_in_order(alloc, source, bytes, part);
    };
    let (elements, shape) = (part.elements, part.shape);
    let numbers = numbers_asked(alloc, shape, part.indexer)?;
    let listed = ListedPart {
        elements,
        shape,
        numbers: numbers.as_slice(),
    };
    let moved = match move_numbers(alloc, first, others, listed) {
        Ok(moved) => moved,
        Err(error) => return Err(error),
    };
    let inner = ListedPart {
        elements,
        shape: moved.shape.as_slice(),
        numbers: moved.numbers.as_slice(),
    };
    encode_numbers(rest, alloc, source, bytes, inner)
}

/// Puts elements in the place of those with some numbers, in the value that a source holds, which
/// the codec makes.
fn encode_numbers<A: ArrayToBytesCodecTraits, E: BytesPartialEncoderTraits>(
    codec: &A,
    alloc: Global,
    source: &mut E,
    bytes: ArrayBytes,
    part: ListedPart<'_>,
) -> Result<(), CodecError>
    ensures ok { IsTrue (E.is_honest source.old) → OnOk result
        (EncodesInto (coded_listed (A.meaning codec.now) part.entry) (A.is_function codec.now)
        (update_listed part.entry bytes (E.contents source.old)) (E.contents source.new)) }
    ensures err { IsTrue (E.is_honest source.old) →
        OnErr result (E.contents source.new ≡ E.contents source.old) }
    ensures writes { IsTrue (E.is_honest source.old) → WritesPart
        (coded_listed (A.meaning codec.now) part.entry)
        (update_listed part.entry bytes (E.contents source.old))
        (source_write (E.contents source.new) (E.writes_ranges source.old)
        (E.given_bytes source.old) (E.given_bytes source.new)) result }
    ensures refused { E.refused_calls source.new ≡
        refused_after (E.refused_calls source.old) result }
    ensures once { WritesOnce (E.accepted_writes source.old) (E.accepted_writes source.new) result }
    ensures rewrites { E.rewrites source.old source.new }
{
    let (elements, shape, numbers) = (part.elements, part.shape, part.numbers);
    let indexer = Indexer::List(numbers);
    let all = ArrayPart {
        elements,
        shape,
        indexer,
    };
    codec.partial_encode_in_order(alloc, source, bytes, all)
}
