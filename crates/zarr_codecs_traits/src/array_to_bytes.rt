//! Codecs between arrays and bytes.
ghost use Rattle.std.specs.Prelude.{◌≡◌, ◌≤◌, ◌+◌, ◌<◌, ℕ, Bool, List, Option, Result, Vec, IfErr, IfOk, IsTrue, OnErr, OnOk, length, true};
ghost use Rattle.std.specs.declared.alloc.Global.{Global};
ghost use Rattle.zarr_codecs_meaning.specs.Chains.{Chain};
ghost use Rattle.zarr_codecs_meaning.specs.Fits.{fits, is_plain};
ghost use Rattle.zarr_codecs_meaning.specs.Laws.{IsLawfulChain};
ghost use Rattle.zarr_codecs_meaning.specs.Partial.{encodes_in_part};
ghost use Rattle.zarr_codecs_meaning.specs.Payloads.{Payload};
ghost use Rattle.zarr_codecs_meaning.specs.Types.{Elements};
ghost use Rattle.zarr_codecs_types.specs.Views.{type_of};
ghost use Rattle.zarr_codecs_arrays.specs.Views.{payload_of, elements_of};
ghost use Rattle.zarr_codecs_arrays.specs.declared.array_bytes.ArrayBytes.{ArrayBytes};
ghost use Rattle.zarr_codecs_arrays.specs.declared.error.CodecError.{CodecError};
ghost use Rattle.zarr_codecs_traits.specs.Arrays.{Coded, coded, coded_array, coded_part, update_given, update_part};
ghost use Rattle.zarr_codecs_traits.specs.Capabilities.{decodes_parts, encodes_as_is, granularity};
ghost use Rattle.zarr_codecs_traits.specs.Compactions.{Compacts};
ghost use Rattle.zarr_codecs_traits.specs.Indexers.{Asked, asked_of};
ghost use Rattle.zarr_codecs_traits.specs.Outcomes.{Encodes, Decodes, DecodesPart};
ghost use Rattle.zarr_codecs_traits.specs.PartEncoding.{EncodesAsked, takes_patches};
ghost use Rattle.zarr_codecs_traits.specs.PartWriting.{EncodesInto, NotEncodedInto, WritesOnce};
ghost use Rattle.zarr_codecs_traits.specs.Pieces.{AnswersPiece, AreMade, IsStoppedBy, SplitsArray, SplitsPart, SplitsValue, refused_splitting};
ghost use Rattle.zarr_codecs_traits.specs.ReadBytes.{most_read};
ghost use Rattle.zarr_codecs_traits.specs.Representations.{RepresentsArray};
ghost use Rattle.zarr_codecs_traits.specs.ShardWrites.{GivesWriting, LeavesParts};
ghost use Rattle.zarr_codecs_traits.specs.Sources.{CountsRead, refused_after};
ghost use Rattle.zarr_codecs_traits.specs.Targets.{IsDecodedInto, NotDecodedInto};
ghost use Rattle.zarr_codecs_traits.specs.declared.pieces.ArrayPieces.{ArrayPieces};
ghost use Rattle.zarr_codecs_traits.specs.declared.pieces.ValuePieces.{ValuePieces};

use crate::array_part::{ArrayPart, EncodedArray, GivenPart, WholeArray};
use crate::by_pieces::{decode_by, encode_by, part_by};
use crate::byte_source::BytesPartialDecoderTraits;
use crate::byte_target::BytesPartialEncoderTraits;
use crate::bytes_representation::BytesRepresentation;
use crate::pieces::{ArrayPieces, SplitArray, SplitValue, ValuePieces};
use crate::target::{ArrayBytesDecodeIntoTarget, put_all};
use crate::value_patch::ValuePatches;
use std::alloc::{AllocError, Global};
use std::marker::Sync;
use std::thread::Threads;
use zarr_codecs_arrays::{ArrayBytes, CodecError, Elements};
use zarr_codecs_options::CodecOptions;
use zarr_codecs_types::DataType;

/// A codec between arrays and bytes: an array to bytes codec alone, or a whole chain with it (Zarr
/// core specification, "Codecs"). Shapes count elements, one number for each dimension. The calls
/// that end in `in_order` start no thread: codecs write these, and call one another by them.
/// Callers use the others, which take the runtime and options.
pub trait ArrayToBytesCodecTraits: Sized + Drop {
    /// The chain that it does.
    ghost meaning: { Self → Chain };

    /// Whether what it makes of elements depends on these alone: it is then what encoding them
    /// means, else any value that the chain may make of them.
    ghost is_function: { Self → Bool };

    /// Whether the second is a copy of the first: its codecs keep their names, and the subchunks of
    /// its shards are written in the same orders.
    ghost copied: { Self → Self → Type 0 };

    /// Whether these are the pieces of a value of an array.
    ghost cuts_value: { Self → Coded → List ℕ → ValuePieces → Type 0 } = { λ _ _ _ _. ⊥ };

    /// Whether these are the pieces that hold what is asked for of an array, in what is stored.
    ghost cuts_part: { Self → Coded → Option (List ℕ) → Asked
        → ValuePieces → Type 0 } = { λ _ _ _ _ _. ⊥ };

    /// Whether this is what decoding one of the pieces of a value answers.
    ghost decodes_piece: { Self → Elements → ValuePieces → ℕ
        → Result ArrayBytes CodecError → Type 0 } = { λ _ _ _ _ _. Unit {0} };

    /// Whether these are the pieces of an array of these elements.
    ghost cuts_array: { Self → Coded → Payload → ArrayPieces → Type 0 } = { λ _ _ _ _. ⊥ };

    /// Whether this is what encoding one of the pieces of an array answers.
    ghost encodes_piece: { Self → Elements → ArrayPieces → ℕ
        → Result (Option (Vec ℕ Global)) CodecError → Type 0 } = { λ _ _ _ _ _. Unit {0} };

    /// Whether what the codec makes of elements depends on these alone, and not on what was written
    /// before or on an order of writing.
    fn encoding_is_function(&self) -> bool
        ensures { result ≡ is_function self.now };

    /// Whether the codec suits arrays of a data type and a shape. `Err` only where an allocation
    /// failed.
    fn fits(&self, alloc: Global, data_type: &DataType, shape: &[u64]) -> Result<bool, AllocError>
        ensures { IfOk result
            (λ fit. fit ≡ fits (meaning self.now) (type_of data_type.now) shape.now) };

    /// What the data type and the shape of an array tell of the size of the value that it is
    /// encoded to. `Fit` where the codec doesn't suit the array; `Size` where one of the codecs
    /// tells a size of 2^63 or more, and else only where the array has 2^63 elements or bytes or
    /// more.
    fn encoded_representation(
        &self,
        alloc: Global,
        data_type: &DataType,
        shape: &[u64],
    ) -> Result<BytesRepresentation, CodecError>
        ensures { RepresentsArray (meaning self.now) (type_of data_type.now) shape.now result };

    /// Whether the value of elements of one size is their bytes, in the order that they have in
    /// memory, so that nothing need be encoded: the codec is `bytes` alone, and not big endian.
    fn encodes_as_is(&self) -> bool
        ensures { result ≡ encodes_as_is (meaning self.now) };

    /// Whether a part of an array can be decoded from a part of its value (this project's profile).
    /// The values of other codecs are read whole.
    fn partial_decoder_capability(&self) -> bool
        ensures { result ≡ decodes_parts (meaning self.now) };

    /// Whether a part of an array can be encoded as a part of its value (this project's profile).
    /// The values of other codecs are written whole.
    fn partial_encoder_capability(&self) -> bool
        ensures { result ≡ encodes_in_part (meaning self.now) };

    /// The shape of the parts of an array that `partial_decode` decodes one by one: that of a
    /// shard's subchunks, where no array codec precedes the shard, else that of the array. `Err`
    /// only where an allocation failed.
    fn partial_decode_granularity(
        &self,
        alloc: Global,
        shape: &[u64],
    ) -> Result<Vec<u64>, AllocError>
        ensures { IfOk result (λ part. part.items ≡ granularity (meaning self.now) shape.now) };

    /// Whether elements can be replaced by `encode_patches` in values that nobody reads. Each value
    /// with as many bytes as the array's elements is then decoded, and no other.
    fn takes_patches(&self, data_type: &DataType) -> bool
        ensures { result ≡ takes_patches (meaning self.now) (type_of data_type.now) };

    /// The ranges to be written into a value, so that the elements of a box are replaced. `None`
    /// exactly where the codec tells none: it isn't `bytes` alone, or places are asked for by their
    /// numbers. Errors as those of `encode`, the elements being those of the box, and
    /// `IncompatibleIndexer` where it doesn't lie in the shape.
    fn encode_patches(
        &self,
        alloc: Global,
        bytes: ArrayBytes,
        part: ArrayPart<'_>,
    ) -> Result<Option<ValuePatches>, CodecError>
        ensures { EncodesAsked (coded_part (meaning self.now) part.entry) (is_function self.now)
            (asked_of part.entry.indexer) (payload_of bytes) result };

    /// An equal codec, whose codecs keep their names and whose shards their orders. A caller's
    /// codec keeps its name only if codecs with the same meaning are written alike. `Err` only
    /// where an allocation failed.
    fn try_clone(&self, alloc: Global) -> Result<Self, AllocError>
        ensures meaning { IfOk result (λ copy. meaning copy ≡ meaning self.now) }
        ensures function { IfOk result (λ copy. is_function copy ≡ is_function self.now) }
        ensures copied { IfOk result (λ copy. copied self.now copy) };

    /// What `encode` answers, with no thread started.
    fn encode_in_order(
        &self,
        alloc: Global,
        bytes: ArrayBytes,
        elements: &Elements,
        shape: &[u64],
    ) -> Result<Vec<u8>, CodecError>
        ensures { Encodes (coded (meaning self.now) (elements_of elements.now) shape.now)
            (is_function self.now) (payload_of bytes) result };

    /// What `decode` answers, with no thread started.
    fn decode_in_order(
        &self,
        alloc: Global,
        value: Vec<u8>,
        elements: &Elements,
        shape: &[u64],
    ) -> Result<ArrayBytes, CodecError>
        ensures { Decodes (coded (meaning self.now) (elements_of elements.now) shape.now)
            value.items result };

    /// What `partial_decode` answers, with no thread started. Where the source refuses, nothing
    /// more is decoded.
    fn partial_decode_in_order<D: BytesPartialDecoderTraits>(
        &self,
        alloc: Global,
        source: &mut D,
        part: ArrayPart<'_>,
    ) -> Result<ArrayBytes, CodecError>
        ensures part { IsTrue (D.is_honest source.old) → DecodesPart
            (coded_part (meaning self.now) part.entry) (D.contents source.old)
            (asked_of part.entry.indexer) result }
        ensures refused { D.refused_calls source.new ≡
            refused_after (D.refused_calls source.old) result }
        ensures given { IsTrue (D.is_honest source.old) → D.given_bytes source.new
            ≤ D.given_bytes source.old + most_read (meaning self.now)
            (elements_of part.entry.elements.now).type part.entry.shape.now
            (D.contents source.old) (asked_of part.entry.indexer) }
        ensures follows { D.follows source.old source.new };

    /// What `partial_encode` answers, with no thread started.
    fn partial_encode_in_order<E: BytesPartialEncoderTraits>(
        &self,
        alloc: Global,
        source: &mut E,
        bytes: ArrayBytes,
        part: ArrayPart<'_>,
    ) -> Result<(), CodecError>
        ensures ok { IsTrue (E.is_honest source.old) → OnOk result (EncodesInto
            (coded_part (meaning self.now) part.entry) (is_function self.now)
            (update_part part.entry bytes (E.contents source.old)) (E.contents source.new)) }
        ensures parts { IsTrue (E.is_honest source.old) → OnOk result (LeavesParts
            (coded_part (meaning self.now) part.entry)
            (update_part part.entry bytes (E.contents source.old)) (E.contents source.new)) }
        ensures err { IsTrue (E.is_honest source.old) →
            OnErr result (E.contents source.new ≡ E.contents source.old) }
        ensures cause { IsTrue (E.is_honest source.old) → NotEncodedInto
            (coded_part (meaning self.now) part.entry)
            (update_part part.entry bytes (E.contents source.old)) result }
        ensures refused { E.refused_calls source.new ≡
            refused_after (E.refused_calls source.old) result }
        ensures once { WritesOnce (E.accepted_writes source.old) (E.accepted_writes source.new)
            result }
        ensures given { IsTrue (E.is_honest source.old) → GivesWriting
            (coded_part (meaning self.now) part.entry)
            (update_part part.entry bytes (E.contents source.old)) (E.writes_ranges source.old)
            (E.given_bytes source.old) (E.given_bytes source.new) }
        ensures rewrites { E.rewrites source.old source.new };

    /// What `compact` answers, with no thread started.
    fn compact_in_order(
        &self,
        alloc: Global,
        value: &[u8],
        elements: &Elements,
        shape: &[u64],
    ) -> Result<Option<Vec<u8>>, CodecError>
        ensures { Compacts (meaning self.now) (elements_of elements.now).type shape.now value.now
            result };

    /// Cuts a value into pieces that can be decoded each by itself, or decodes it. Errors as those
    /// of `decode`.
    fn split_value(
        &self,
        alloc: Global,
        value: Vec<u8>,
        elements: &Elements,
        shape: &[u64],
    ) -> Result<SplitValue, CodecError>
        ensures { SplitsValue
            (cuts_value self.now (coded (meaning self.now) (elements_of elements.now) shape.now)
            value.items)
            (coded (meaning self.now) (elements_of elements.now) shape.now) value.items result }
    {
        match self.decode_in_order(alloc, value, elements, shape) {
            Ok(found) => Ok(SplitValue::Decoded(found)),
            Err(error) => Err(error),
        }
    }

    /// Reads the pieces that hold the elements at the places that are asked for, or decodes these
    /// elements. Errors as those of `partial_decode`; where a piece is refused after others, these
    /// are given, with why there are no more.
    fn split_part<D: BytesPartialDecoderTraits>(
        &self,
        alloc: Global,
        source: &mut D,
        part: ArrayPart<'_>,
    ) -> Result<SplitValue, CodecError>
        ensures part { IsTrue (D.is_honest source.old) → SplitsPart
            (cuts_part self.now (coded_part (meaning self.now) part.entry)
            (D.contents source.old) (asked_of part.entry.indexer))
            (coded_part (meaning self.now) part.entry) (D.contents source.old)
            (asked_of part.entry.indexer) result }
        ensures refused { D.refused_calls source.new ≡
            refused_splitting (D.refused_calls source.old) result }
        ensures given { IsTrue (D.is_honest source.old) → D.given_bytes source.new
            ≤ D.given_bytes source.old + most_read (meaning self.now)
            (elements_of part.entry.elements.now).type part.entry.shape.now
            (D.contents source.old) (asked_of part.entry.indexer) }
        ensures follows { D.follows source.old source.new }
    {
        match self.partial_decode_in_order(alloc, source, part) {
            Ok(found) => Ok(SplitValue::Decoded(found)),
            Err(error) => Err(error),
        }
    }

    /// The elements of one of the pieces of a value, or those of its places that are asked for. A
    /// codec that cuts values has to write it. Errors as those of `decode`.
    fn decode_piece(
        &self,
        alloc: Global,
        pieces: &ValuePieces,
        n: usize,
        elements: &Elements,
    ) -> Result<ArrayBytes, CodecError>
        requires { n < length pieces.now.slices.items }
        ensures { AnswersPiece
            (decodes_piece self.now (elements_of elements.now) pieces.now n) result }
    {
        Err(CodecError::Memory)
    }

    /// The elements of an array, put together from what its value's pieces were decoded to, in
    /// their order. The first refusal among these decides.
    fn put_pieces(
        &self,
        alloc: Global,
        pieces: ValuePieces,
        made: Vec<Result<ArrayBytes, CodecError>>,
        elements: &Elements,
        shape: &[u64],
    ) -> Result<ArrayBytes, CodecError>
        ensures { (value : List ℕ) → cuts_value self.now
            (coded (meaning self.now) (elements_of elements.now) shape.now) value pieces
            → AreMade (decodes_piece self.now (elements_of elements.now) pieces)
            (length pieces.slices.items) made.items → Decodes
            (coded (meaning self.now) (elements_of elements.now) shape.now) value result }
    {
        Err(CodecError::Memory)
    }

    /// The elements at the places that are asked for, put together from what the pieces were
    /// decoded to that hold them, in their order. The first refusal among these decides, and then
    /// why there are no more.
    fn put_part(
        &self,
        alloc: Global,
        pieces: ValuePieces,
        made: Vec<Result<ArrayBytes, CodecError>>,
        part: ArrayPart<'_>,
    ) -> Result<ArrayBytes, CodecError>
        ensures part { (stored : Option (List ℕ)) → cuts_part self.now
            (coded_part (meaning self.now) part.entry) stored (asked_of part.entry.indexer) pieces
            → AreMade (decodes_piece self.now (elements_of part.entry.elements.now) pieces)
            (length pieces.slices.items) made.items → DecodesPart
            (coded_part (meaning self.now) part.entry) stored (asked_of part.entry.indexer)
            result }
        ensures stopped { AreMade
            (decodes_piece self.now (elements_of part.entry.elements.now) pieces)
            (length pieces.slices.items) made.items → IsStoppedBy pieces.stopped result }
    {
        Err(CodecError::Memory)
    }

    /// Cuts an array into pieces that can be encoded each by itself, or encodes it. Errors as those
    /// of `encode`.
    fn split_array(
        &self,
        alloc: Global,
        bytes: ArrayBytes,
        elements: &Elements,
        shape: &[u64],
    ) -> Result<SplitArray, CodecError>
        ensures { SplitsArray
            (cuts_array self.now (coded (meaning self.now) (elements_of elements.now) shape.now)
            (payload_of bytes)) (coded (meaning self.now) (elements_of elements.now) shape.now)
            (is_function self.now) (payload_of bytes) result }
    {
        match self.encode_in_order(alloc, bytes, elements, shape) {
            Ok(value) => Ok(SplitArray::Encoded(value)),
            Err(error) => Err(error),
        }
    }

    /// What is stored of one of the pieces of an array: nothing where all its elements are the fill
    /// value. A codec that cuts arrays has to write it. Errors as those of `encode`.
    fn encode_piece(
        &self,
        alloc: Global,
        pieces: &ArrayPieces,
        n: usize,
        elements: &Elements,
    ) -> Result<Option<Vec<u8>>, CodecError>
        requires { n < pieces.now.count }
        ensures { AnswersPiece
            (encodes_piece self.now (elements_of elements.now) pieces.now n) result }
    {
        Err(CodecError::Memory)
    }

    /// The bytes that an array is encoded to, put together from what its pieces were encoded to, in
    /// their order. The first refusal among these decides.
    fn join_pieces(
        &self,
        alloc: Global,
        pieces: ArrayPieces,
        made: Vec<Result<Option<Vec<u8>>, CodecError>>,
        elements: &Elements,
        shape: &[u64],
    ) -> Result<Vec<u8>, CodecError>
        ensures { (payload : Payload) → cuts_array self.now
            (coded (meaning self.now) (elements_of elements.now) shape.now) payload pieces
            → AreMade (encodes_piece self.now (elements_of elements.now) pieces) pieces.count
            made.items → Encodes
            (coded (meaning self.now) (elements_of elements.now) shape.now)
            (is_function self.now) payload result }
    {
        Err(CodecError::Memory)
    }

    /// The bytes that the elements of an array are encoded to, without gaps. `Fit` where the codec
    /// doesn't suit the array; `InvalidNumberOfElements`, `Expected..` or `CellOutOfRange` where
    /// these are not its elements; `Codec` where a caller's codec refuses; `Size` where an offset, a
    /// length or the array itself is too large.
    final fn encode<R: Threads + Sync>(
        &self,
        rt: &R,
        alloc: Global,
        bytes: ArrayBytes,
        array: WholeArray<'_>,
        options: &CodecOptions,
    ) -> Result<Vec<u8>, CodecError>
    where
        Self: Sync,
        ensures { Encodes (coded_array (meaning self.now) array.entry) (is_function self.now)
            (payload_of bytes) result }
    {
        encode_by(self, rt, alloc, bytes, array, options)
    }

    /// The elements of an array that a value is decoded to. `Fit` where the codec doesn't suit the
    /// array; `Damage` where the value isn't that of such an array; `Size` where the array has 2^63
    /// elements or bytes or more.
    final fn decode<R: Threads + Sync>(
        &self,
        rt: &R,
        alloc: Global,
        value: Vec<u8>,
        array: WholeArray<'_>,
        options: &CodecOptions,
    ) -> Result<ArrayBytes, CodecError>
    where
        Self: Sync,
        ensures { Decodes (coded_array (meaning self.now) array.entry) value.items result }
    {
        decode_by(self, rt, alloc, value, array, options)
    }

    /// Decodes a value as `decode` does, and puts the elements over those of a target. A refusal
    /// leaves the target as it was. Errors as those of `decode`; `InvalidNumberOfElements` where
    /// the target has more or fewer elements than the array, and the errors of the target's `put`.
    final fn decode_into<R: Threads + Sync, T: ArrayBytesDecodeIntoTarget>(
        &self,
        rt: &R,
        alloc: Global,
        encoded: EncodedArray<'_>,
        target: &mut T,
        options: &CodecOptions,
    ) -> Result<(), CodecError>
    where
        Self: Sync,
        ensures ok { OnOk result (IsDecodedInto
            (coded_array (meaning self.now) encoded.entry.array) encoded.entry.value.items
            (T.count target.old) (λ payload. T.puts target.old payload target.new)) }
        ensures err { OnErr result (target.new ≡ target.old) }
        ensures cause { IfErr result (NotDecodedInto
            (coded_array (meaning self.now) encoded.entry.array) encoded.entry.value.items
            (T.count target.old) (T.misfits target.old)) }
    {
        let EncodedArray { value, array } = encoded;
        match self.decode(rt, alloc, value, array, options) {
            Ok(elements) => put_all(alloc, &elements, array.shape, target),
            Err(error) => Err(error),
        }
    }

    /// The elements at the places that are asked for, in their order; fill values where the source
    /// holds no value. Errors as those of `decode`, and `IncompatibleIndexer` where a place isn't
    /// the array's, `Source` where the source refuses. Only what is asked for has to be decoded,
    /// and no more bytes are read than `most_read` says.
    final fn partial_decode<R: Threads + Sync, D: BytesPartialDecoderTraits>(
        &self,
        rt: &R,
        alloc: Global,
        source: &mut D,
        part: ArrayPart<'_>,
        options: &CodecOptions,
    ) -> Result<ArrayBytes, CodecError>
    where
        Self: Sync,
        ensures part { IsTrue (D.is_honest source.old) → DecodesPart
            (coded_part (meaning self.now) part.entry) (D.contents source.old)
            (asked_of part.entry.indexer) result }
        ensures refused { CountsRead (D.refused_calls source.old) result
            (D.refused_calls source.new) }
        ensures given { IsTrue (D.is_honest source.old) → D.given_bytes source.new
            ≤ D.given_bytes source.old + most_read (meaning self.now)
            (elements_of part.entry.elements.now).type part.entry.shape.now
            (D.contents source.old) (asked_of part.entry.indexer) }
        ensures follows { D.follows source.old source.new }
    {
        part_by(self, rt, alloc, source, part, options)
    }

    /// Puts elements at the places asked for, in their order, by at most one writing call. A
    /// shard's new slices are appended where there is room; a shard of fill alone is taken away.
    /// Errors as those of `encode` and `partial_decode`: `Damage` where the value stops the write,
    /// `Size` also where it would grow too long. A refusal changes nothing.
    final fn partial_encode<R: Threads + Sync, E: BytesPartialEncoderTraits>(
        &self,
        rt: &R,
        alloc: Global,
        source: &mut E,
        given: GivenPart<'_>,
        options: &CodecOptions,
    ) -> Result<(), CodecError>
    where
        Self: Sync,
        ensures ok { IsTrue (E.is_honest source.old) → OnOk result (EncodesInto
            (coded_part (meaning self.now) given.entry.part) (is_function self.now)
            (update_given given.entry (E.contents source.old)) (E.contents source.new)) }
        ensures parts { IsTrue (E.is_honest source.old) → OnOk result (LeavesParts
            (coded_part (meaning self.now) given.entry.part)
            (update_given given.entry (E.contents source.old)) (E.contents source.new)) }
        ensures err { IsTrue (E.is_honest source.old) →
            OnErr result (E.contents source.new ≡ E.contents source.old) }
        ensures cause { IsTrue (E.is_honest source.old) → NotEncodedInto
            (coded_part (meaning self.now) given.entry.part)
            (update_given given.entry (E.contents source.old)) result }
        ensures refused { E.refused_calls source.new ≡
            refused_after (E.refused_calls source.old) result }
        ensures once { WritesOnce (E.accepted_writes source.old) (E.accepted_writes source.new)
            result }
        ensures given { IsTrue (E.is_honest source.old) → GivesWriting
            (coded_part (meaning self.now) given.entry.part)
            (update_given given.entry (E.contents source.old)) (E.writes_ranges source.old)
            (E.given_bytes source.old) (E.given_bytes source.new) }
        ensures rewrites { E.rewrites source.old source.new }
    {
        let GivenPart { bytes, part } = given;
        self.partial_encode_in_order(alloc, source, bytes, part)
    }

    /// The value with its shards written anew: their present slices row-major without gaps. `None`
    /// where nothing is gained, as for codecs that make no shard. `Fit` where the codec doesn't
    /// suit the array; `Damage` where a present slice lies outside its data part; `Codec` where a
    /// caller's codec refuses; `Size` where an index or a shard is too large.
    final fn compact<R: Threads + Sync>(
        &self,
        rt: &R,
        alloc: Global,
        value: &[u8],
        array: WholeArray<'_>,
        options: &CodecOptions,
    ) -> Result<Option<Vec<u8>>, CodecError>
    where
        Self: Sync,
        ensures { Compacts (meaning self.now) (elements_of array.entry.elements.now).type
            array.entry.shape.now value.now result }
    {
        self.compact_in_order(alloc, value, array.elements, array.shape)
    }

    ghost lawful: { (codec : Self) → IsLawfulChain (meaning codec) };

    ghost plain: { (codec : Self) → is_plain (meaning codec) ≡ true → IsTrue (is_function codec) };
}
