//! Parts of an array encoded into a lent source.
ghost use Rattle.std.specs.Prelude.{◌≡◌, ◌≤◌, ◌+◌, None, IfOk, IsTrue, OnErr, OnOk, is_some};
ghost use Rattle.zarr_codecs_meaning.specs.Partial.{encodes_in_part};
ghost use Rattle.zarr_codecs_arrays.specs.Views.{elements_of};
ghost use Rattle.zarr_codecs_traits.specs.Indexers.{asked_of};
ghost use Rattle.zarr_codecs_traits.specs.Outcomes.{DecodesPart};
ghost use Rattle.zarr_codecs_traits.specs.PartWriting.{EncodesInto, NotEncodedInto, WritesOnce};
ghost use Rattle.zarr_codecs_traits.specs.ReadBytes.{most_read};
ghost use Rattle.zarr_codecs_traits.specs.ShardWrites.{GivesWriting, LeavesParts};
ghost use Rattle.zarr_codecs_traits.specs.Sources.{CountsRead, ReadRefused, refused_after};
ghost use Rattle.zarr_codecs_traits.specs.Writes.{WriteRefused, accepted_after};
ghost use Rattle.zarr_codecs_coders.specs.Encoders.{IsEncoder, array_of, coded_in, codec_of, reference_of, source_of, update_in};

use std::alloc::Global;
use std::marker::Sync;
use std::thread::Threads;
use zarr_codecs_arrays::{ArrayBytes, CodecError};
use zarr_codecs_options::CodecOptions;
use zarr_codecs_traits::{
    ArrayPart, ArrayToBytesCodecTraits, BytesPartialEncoderTraits, GivenPart, Indexer, WholeArray,
};

/// What encodes parts of one array by a codec into the value that a lent source holds, and decodes
/// them again. It keeps no bytes of its own.
#[derive(Drop)]
pub struct CodecPartialEncoder<'a, C, E> {
    pub(crate) codec: &'a C,
    pub(crate) source: &'a mut E,
    pub(crate) array: WholeArray<'a>,
}

impl<'a, C: ArrayToBytesCodecTraits, E: BytesPartialEncoderTraits> CodecPartialEncoder<'a, C, E> {
    /// The encoder of an array's parts by a codec, into the value that a source holds.
    pub fn new(codec: &'a C, source: &'a mut E, array: WholeArray<'a>) -> Self
        ensures same_reference { reference_of result ≡ source.entry.ghost_name }
        ensures source { source_of result ≡ source.old }
        ensures codec { codec_of result ≡ codec.now }
        ensures elements { (array_of result).elements.now ≡ array.entry.elements.now }
        ensures shape { (array_of result).shape.now ≡ array.entry.shape.now }
    {
        CodecPartialEncoder {
            codec,
            source,
            array,
        }
    }

    /// Whether a part of the array can be encoded as a part of its value. Else the value is read
    /// and written whole, once a call.
    pub fn supports_partial_encode(&self) -> bool
        ensures { result ≡ encodes_in_part (C.meaning (codec_of self.now)) }
    {
        self.codec.partial_encoder_capability()
    }

    /// Whether there is a value. `Source` where the source refuses.
    pub fn exists(&mut self) -> Result<bool, CodecError>
        ensures exists { IsTrue (E.is_honest (source_of self.old)) →
            IfOk result (λ there. there ≡ is_some (E.contents (source_of self.old))) }
        ensures cause { ReadRefused result }
        ensures refused { E.refused_calls (source_of self.new) ≡
            refused_after (E.refused_calls (source_of self.old)) result }
        ensures given { E.given_bytes (source_of self.new) ≡ E.given_bytes (source_of self.old) }
        ensures follows { E.follows (source_of self.old) (source_of self.new) }
        ensures same { IsEncoder self.old self.new }
    {
        self.source.exists()
    }

    /// How many bytes are kept in memory for it: those that the source keeps.
    pub fn size_held(&self) -> usize
        ensures { result ≡ E.held_bytes (source_of self.now) }
    {
        self.source.size_held()
    }

    /// Takes the value away, so that each element is the fill value. That there is none is fine.
    /// `Source` where the source refuses.
    pub fn erase(&mut self) -> Result<(), CodecError>
        ensures ok { IsTrue (E.is_honest (source_of self.old)) →
            OnOk result (E.contents (source_of self.new) ≡ None) }
        ensures err { IsTrue (E.is_honest (source_of self.old)) →
            OnErr result (E.contents (source_of self.new) ≡ E.contents (source_of self.old)) }
        ensures cause { WriteRefused result }
        ensures refused { E.refused_calls (source_of self.new) ≡
            refused_after (E.refused_calls (source_of self.old)) result }
        ensures accepted { E.accepted_writes (source_of self.new) ≡
            accepted_after (E.accepted_writes (source_of self.old)) result }
        ensures rewrites { E.rewrites (source_of self.old) (source_of self.new) }
        ensures same { IsEncoder self.old self.new }
    {
        self.source.erase()
    }
}

impl<'a, C: ArrayToBytesCodecTraits + Sync, E: BytesPartialEncoderTraits> CodecPartialEncoder<
    'a,
    C,
    E,
> {
    /// The elements at the places that are asked for, in their order; errors as those of
    /// `ArrayToBytesCodecTraits::partial_decode`.
    pub fn partial_decode<R: Threads + Sync>(
        &mut self,
        rt: &R,
        alloc: Global,
        indexer: Indexer<'_>,
        options: &CodecOptions,
    ) -> Result<ArrayBytes, CodecError>
        ensures part { IsTrue (E.is_honest (source_of self.old)) → DecodesPart
            (coded_in C.meaning self.old) (E.contents (source_of self.old))
            (asked_of indexer.entry) result }
        ensures refused { CountsRead (E.refused_calls (source_of self.old)) result
            (E.refused_calls (source_of self.new)) }
        ensures given { IsTrue (E.is_honest (source_of self.old)) →
            E.given_bytes (source_of self.new) ≤ E.given_bytes (source_of self.old)
            + most_read (C.meaning (codec_of self.old))
            (elements_of (array_of self.old).elements.now).type (array_of self.old).shape.now
            (E.contents (source_of self.old)) (asked_of indexer.entry) }
        ensures follows { E.follows (source_of self.old) (source_of self.new) }
        ensures same { IsEncoder self.old self.new }
    {
        let part = ArrayPart {
            elements: self.array.elements,
            shape: self.array.shape,
            indexer,
        };
        self.codec
            .partial_decode(rt, alloc, &mut *self.source, part, options)
    }

    /// Puts elements in the place of those at the places that are asked for, in their order, by at
    /// most one writing call; a refusal leaves the source as it was. Errors as those of
    /// `ArrayToBytesCodecTraits::partial_encode`.
    pub fn partial_encode<R: Threads + Sync>(
        &mut self,
        rt: &R,
        alloc: Global,
        indexer: Indexer<'_>,
        bytes: ArrayBytes,
        options: &CodecOptions,
    ) -> Result<(), CodecError>
        ensures ok { IsTrue (E.is_honest (source_of self.old)) → OnOk result (EncodesInto
            (coded_in C.meaning self.old) (C.is_function (codec_of self.old))
            (update_in E.contents self.old indexer.entry bytes) (E.contents (source_of self.new))) }
        ensures parts { IsTrue (E.is_honest (source_of self.old)) → OnOk result (LeavesParts
            (coded_in C.meaning self.old) (update_in E.contents self.old indexer.entry bytes)
            (E.contents (source_of self.new))) }
        ensures err { IsTrue (E.is_honest (source_of self.old)) →
            OnErr result (E.contents (source_of self.new) ≡ E.contents (source_of self.old)) }
        ensures cause { IsTrue (E.is_honest (source_of self.old)) → NotEncodedInto (coded_in
            C.meaning self.old) (update_in E.contents self.old indexer.entry bytes) result }
        ensures refused { E.refused_calls (source_of self.new) ≡
            refused_after (E.refused_calls (source_of self.old)) result }
        ensures given { IsTrue (E.is_honest (source_of self.old)) → GivesWriting
            (coded_in C.meaning self.old) (update_in E.contents self.old indexer.entry bytes)
            (E.writes_ranges (source_of self.old)) (E.given_bytes (source_of self.old))
            (E.given_bytes (source_of self.new)) }
        ensures once { WritesOnce (E.accepted_writes (source_of self.old))
            (E.accepted_writes (source_of self.new)) result }
        ensures rewrites { E.rewrites (source_of self.old) (source_of self.new) }
        ensures same { IsEncoder self.old self.new }
    {
        let part = ArrayPart {
            elements: self.array.elements,
            shape: self.array.shape,
            indexer,
        };
        let given = GivenPart { bytes, part };
        self.codec
            .partial_encode(rt, alloc, &mut *self.source, given, options)
    }
}
