//! Values and arrays decoded and encoded piece by piece.
ghost use Rattle.std.specs.Prelude.{◌≡◌, ◌≤◌, ◌+◌, ◌<◌, IfOk, IsTrue, length};
ghost use Rattle.zarr_codecs_arrays.specs.Views.{elements_of, payload_of};
ghost use Rattle.zarr_codecs_traits.specs.Arrays.{coded_array, coded_part};
ghost use Rattle.zarr_codecs_traits.specs.Indexers.{asked_of};
ghost use Rattle.zarr_codecs_traits.specs.Outcomes.{Decodes, DecodesPart, Encodes};
ghost use Rattle.zarr_codecs_traits.specs.Pieces.{AnswersPiece, AreMade};
ghost use Rattle.zarr_codecs_traits.specs.ReadBytes.{most_read};
ghost use Rattle.zarr_codecs_traits.specs.Sources.{CountsRead};

use crate::array_part::{ArrayPart, WholeArray};
use crate::array_to_bytes::ArrayToBytesCodecTraits;
use crate::byte_source::BytesPartialDecoderTraits;
use crate::pieces::{ArrayPieces, SplitArray, SplitValue, ValuePieces};
use rayon::prelude::*;
use std::alloc::{AllocError, Global};
use std::marker::Sync;
use std::thread::Threads;
use zarr_codecs_arrays::{ArrayBytes, CodecError, Elements};
use zarr_codecs_options::CodecOptions;

/// The bytes that the elements of an array are encoded to, piece by piece where the options ask for
/// workers. Errors as those of `encode`.
pub fn encode_by<C: ArrayToBytesCodecTraits + Sync, R: Threads + Sync>(
    codec: &C,
    rt: &R,
    alloc: Global,
    bytes: ArrayBytes,
    array: WholeArray<'_>,
    options: &CodecOptions,
) -> Result<Vec<u8>, CodecError>
    ensures { Encodes (coded_array (C.meaning codec.now) array.entry) (C.is_function codec.now)
        (payload_of bytes) result }
{
    let (elements, shape) = (array.elements, array.shape);
    if !options.workers() {
        return codec.encode_in_order(alloc, bytes, elements, shape);
    }
    match codec.split_array(alloc, bytes, elements, shape) {
        Ok(SplitArray::Encoded(value)) => Ok(value),
        Ok(SplitArray::Cut(pieces)) => {
            let made = encode_pieces(codec, rt, alloc, &pieces, elements)?;
            codec.join_pieces(alloc, pieces, made, elements, shape)
        }
        Err(error) => Err(error),
    }
}

/// The elements of an array that a value is decoded to, piece by piece where the options ask for
/// workers. Errors as those of `decode`.
pub fn decode_by<C: ArrayToBytesCodecTraits + Sync, R: Threads + Sync>(
    codec: &C,
    rt: &R,
    alloc: Global,
    value: Vec<u8>,
    array: WholeArray<'_>,
    options: &CodecOptions,
) -> Result<ArrayBytes, CodecError>
    ensures { Decodes (coded_array (C.meaning codec.now) array.entry) value.items result }
{
    let (elements, shape) = (array.elements, array.shape);
    if !options.workers() {
        return codec.decode_in_order(alloc, value, elements, shape);
    }
    match codec.split_value(alloc, value, elements, shape) {
        Ok(SplitValue::Decoded(found)) => Ok(found),
        Ok(SplitValue::Cut(pieces)) => {
            let made = decode_pieces(codec, rt, alloc, &pieces, elements)?;
            codec.put_pieces(alloc, pieces, made, elements, shape)
        }
        Err(error) => Err(error),
    }
}

/// The elements at the places that are asked for, piece by piece where the options ask for workers:
/// all pieces are read before one is decoded. Errors as those of `partial_decode`.
#[tactic(auto, using(crate::proofs::CountedReads::read_counted, crate::proofs::CountedReads::pieces_counted, crate::proofs::CountedReads::refusal_counted, crate::proofs::CountedReads::stopped_counted))]
pub fn part_by<C: ArrayToBytesCodecTraits + Sync, R: Threads + Sync, D: BytesPartialDecoderTraits>(
    codec: &C,
    rt: &R,
    alloc: Global,
    source: &mut D,
    part: ArrayPart<'_>,
    options: &CodecOptions,
) -> Result<ArrayBytes, CodecError>
    ensures part { IsTrue (D.is_honest source.old) → DecodesPart
        (coded_part (C.meaning codec.now) part.entry) (D.contents source.old)
        (asked_of part.entry.indexer) result }
    ensures refused { CountsRead (D.refused_calls source.old) result
        (D.refused_calls source.new) }
    ensures given { IsTrue (D.is_honest source.old) → D.given_bytes source.new
        ≤ D.given_bytes source.old + most_read (C.meaning codec.now)
        (elements_of part.entry.elements.now).type part.entry.shape.now
        (D.contents source.old) (asked_of part.entry.indexer) }
    ensures follows { D.follows source.old source.new }
{
    if !options.workers() {
        return codec.partial_decode_in_order(alloc, source, part);
    }
    match codec.split_part(alloc, source, part) {
        Ok(SplitValue::Decoded(found)) => Ok(found),
        Ok(SplitValue::Cut(pieces)) => {
            let made = decode_pieces(codec, rt, alloc, &pieces, part.elements)?;
            codec.put_part(alloc, pieces, made, part)
        }
        Err(error) => Err(error),
    }
}

/// How many pieces a thread is given at least: one where they are heavy, many where they are small.
fn least_pieces(bytes: usize, count: usize) -> usize {
    let Some(each) = bytes.checked_div(count) else {
        return 1;
    };
    if each == 0 {
        return 1024;
    }
    (1usize << 18).div_ceil(each).clamp(1, 1024)
}

/// What each of the pieces of a value is decoded to, in their order, by as many threads as there
/// are.
fn decode_pieces<C: ArrayToBytesCodecTraits + Sync, R: Threads + Sync>(
    codec: &C,
    rt: &R,
    alloc: Global,
    pieces: &ValuePieces,
    elements: &Elements,
) -> Result<Vec<Result<ArrayBytes, CodecError>>, AllocError>
    ensures { IfOk result (λ made. AreMade
        (C.decodes_piece codec.now (elements_of elements.now) pieces.now)
        (length pieces.now.slices.items) made.items) }
{
    let count = pieces.slices.len();
    (0..count)
        .into_par_iter()
        .with_min_len(least_pieces(pieces.data.len(), count))
        .map(
            |n: usize| -> Result<ArrayBytes, CodecError>
                requires { n < length pieces.now.slices.items }
                ensures { AnswersPiece (C.decodes_piece codec.entry.now
                    (elements_of elements.entry.now) pieces.entry.now n) result }
            { codec.decode_piece(alloc, pieces, n, elements) },
        )
        .collect(rt, alloc)
}

/// What each of the pieces of an array is encoded to, in their order, by as many threads as there
/// are.
fn encode_pieces<C: ArrayToBytesCodecTraits + Sync, R: Threads + Sync>(
    codec: &C,
    rt: &R,
    alloc: Global,
    pieces: &ArrayPieces,
    elements: &Elements,
) -> Result<Vec<Result<Option<Vec<u8>>, CodecError>>, AllocError>
    ensures { IfOk result (λ made. AreMade
        (C.encodes_piece codec.now (elements_of elements.now) pieces.now) pieces.now.count
        made.items) }
{
    (0..pieces.count)
        .into_par_iter()
        .with_min_len(1)
        .map(
            |n: usize| -> Result<Option<Vec<u8>>, CodecError>
                requires { n < pieces.now.count }
                ensures { AnswersPiece (C.encodes_piece codec.entry.now
                    (elements_of elements.entry.now) pieces.entry.now n) result }
            { codec.encode_piece(alloc, pieces, n, elements) },
        )
        .collect(rt, alloc)
}
