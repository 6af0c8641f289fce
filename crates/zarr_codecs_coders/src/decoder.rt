//! Parts of an array decoded of a lent source.
ghost use Rattle.std.specs.Prelude.{◌≡◌, ◌≤◌, ◌+◌, IfErr, IfOk, IsTrue, OnErr, OnOk, is_some};
ghost use Rattle.zarr_codecs_arrays.specs.Views.{elements_of};
ghost use Rattle.zarr_codecs_traits.specs.Capabilities.{decodes_parts};
ghost use Rattle.zarr_codecs_traits.specs.Indexers.{asked_of};
ghost use Rattle.zarr_codecs_traits.specs.Outcomes.{DecodesPart, IsPart};
ghost use Rattle.zarr_codecs_traits.specs.ReadBytes.{most_read};
ghost use Rattle.zarr_codecs_traits.specs.Sources.{CountsRead, IsRefusedAfter, ReadRefused, refused_after};
ghost use Rattle.zarr_codecs_coders.specs.Coders.{IsPartNotPut, IsPartPut};
ghost use Rattle.zarr_codecs_coders.specs.Decoders.{IsDecoder, array_of, coded_in, codec_of, reference_of, source_of};

use std::alloc::Global;
use std::marker::Sync;
use std::thread::Threads;
use zarr_codecs_arrays::{ArrayBytes, CodecError};
use zarr_codecs_options::CodecOptions;
use zarr_codecs_traits::{
    ArrayBytesDecodeIntoTarget, ArrayPart, ArrayToBytesCodecTraits, BytesPartialDecoderTraits,
    Indexer, WholeArray,
};

/// What decodes parts of one array by a codec, of the value that a lent source holds. It keeps no
/// bytes of its own: each call reads of the source what it needs.
#[derive(Drop)]
pub struct CodecPartialDecoder<'a, C, D> {
    pub(crate) codec: &'a C,
    pub(crate) source: &'a mut D,
    pub(crate) array: WholeArray<'a>,
}

impl<'a, C: ArrayToBytesCodecTraits, D: BytesPartialDecoderTraits> CodecPartialDecoder<'a, C, D> {
    /// The decoder of an array's parts by a codec, of the value that a source holds.
    pub fn new(codec: &'a C, source: &'a mut D, array: WholeArray<'a>) -> Self
        ensures same_reference { reference_of result ≡ source.entry.ghost_name }
        ensures source { source_of result ≡ source.old }
        ensures codec { codec_of result ≡ codec.now }
        ensures elements { (array_of result).elements.now ≡ array.entry.elements.now }
        ensures shape { (array_of result).shape.now ≡ array.entry.shape.now }
    {
        CodecPartialDecoder {
            codec,
            source,
            array,
        }
    }

    /// Whether a part of the array can be decoded from a part of its value. Else the value is read
    /// whole, once a call.
    pub fn supports_partial_decode(&self) -> bool
        ensures { result ≡ decodes_parts (C.meaning (codec_of self.now)) }
    {
        self.codec.partial_decoder_capability()
    }

    /// Whether there is a value. `Source` where the source refuses.
    pub fn exists(&mut self) -> Result<bool, CodecError>
        ensures exists { IsTrue (D.is_honest (source_of self.old)) →
            IfOk result (λ there. there ≡ is_some (D.contents (source_of self.old))) }
        ensures cause { ReadRefused result }
        ensures refused { D.refused_calls (source_of self.new) ≡
            refused_after (D.refused_calls (source_of self.old)) result }
        ensures given { D.given_bytes (source_of self.new) ≡ D.given_bytes (source_of self.old) }
        ensures follows { D.follows (source_of self.old) (source_of self.new) }
        ensures same { IsDecoder self.old self.new }
    {
        self.source.exists()
    }

    /// How many bytes are kept in memory for it: those that the source keeps.
    pub fn size_held(&self) -> usize
        ensures { result ≡ D.held_bytes (source_of self.now) }
    {
        self.source.size_held()
    }
}

impl<'a, C: ArrayToBytesCodecTraits + Sync, D: BytesPartialDecoderTraits> CodecPartialDecoder<
    'a,
    C,
    D,
> {
    /// The elements at the places that are asked for, in their order; errors as those of
    /// `ArrayToBytesCodecTraits::partial_decode`.
    pub fn partial_decode<R: Threads + Sync>(
        &mut self,
        rt: &R,
        alloc: Global,
        indexer: Indexer<'_>,
        options: &CodecOptions,
    ) -> Result<ArrayBytes, CodecError>
        ensures part { IsTrue (D.is_honest (source_of self.old)) → DecodesPart
            (coded_in C.meaning self.old) (D.contents (source_of self.old))
            (asked_of indexer.entry) result }
        ensures refused { CountsRead (D.refused_calls (source_of self.old)) result
            (D.refused_calls (source_of self.new)) }
        ensures given { IsTrue (D.is_honest (source_of self.old)) →
            D.given_bytes (source_of self.new) ≤ D.given_bytes (source_of self.old)
            + most_read (C.meaning (codec_of self.old))
            (elements_of (array_of self.old).elements.now).type (array_of self.old).shape.now
            (D.contents (source_of self.old)) (asked_of indexer.entry) }
        ensures follows { D.follows (source_of self.old) (source_of self.new) }
        ensures same { IsDecoder self.old self.new }
    {
        let part = ArrayPart {
            elements: self.array.elements,
            shape: self.array.shape,
            indexer,
        };
        self.codec
            .partial_decode(rt, alloc, &mut *self.source, part, options)
    }

    /// Decodes the elements at the places that are asked for, and puts them over those of a target.
    /// A refusal leaves the target as it was. Errors as those of `partial_decode` and of the
    /// target's `put`.
    pub fn partial_decode_into<R: Threads + Sync, T: ArrayBytesDecodeIntoTarget>(
        &mut self,
        rt: &R,
        alloc: Global,
        indexer: Indexer<'_>,
        target: &mut T,
        options: &CodecOptions,
    ) -> Result<(), CodecError>
        ensures ok { IsTrue (D.is_honest (source_of self.old)) → OnOk result (IsPartPut
            (coded_in C.meaning self.old) (D.contents (source_of self.old))
            (asked_of indexer.entry) (λ payload. T.puts target.old payload target.new)) }
        ensures err { OnErr result (target.new ≡ target.old) }
        ensures cause { IsTrue (D.is_honest (source_of self.old)) → IfErr result (IsPartNotPut
            (coded_in C.meaning self.old) (D.contents (source_of self.old))
            (asked_of indexer.entry) (T.misfits target.old)) }
        ensures refused { IsRefusedAfter (λ payload. IsTrue (D.is_honest (source_of self.old)) →
            IsPart (coded_in C.meaning self.old) (D.contents (source_of self.old))
            (asked_of indexer.entry) payload) (T.misfits target.old)
            (D.refused_calls (source_of self.old)) result (D.refused_calls (source_of self.new)) }
        ensures given { IsTrue (D.is_honest (source_of self.old)) →
            D.given_bytes (source_of self.new) ≤ D.given_bytes (source_of self.old)
            + most_read (C.meaning (codec_of self.old))
            (elements_of (array_of self.old).elements.now).type (array_of self.old).shape.now
            (D.contents (source_of self.old)) (asked_of indexer.entry) }
        ensures follows { D.follows (source_of self.old) (source_of self.new) }
        ensures same { IsDecoder self.old self.new }
    {
        match self.partial_decode(rt, alloc, indexer, options) {
            Ok(elements) => target.put(alloc, &elements),
            Err(error) => Err(error),
        }
    }
}
