//! What decodes and encodes parts of arrays by chains.

use crate::chain::CodecChain;
use zarr_codecs_coders::{CodecPartialDecoder, CodecPartialEncoder};
use zarr_codecs_traits::{
    BytesPartialDecoderTraits, BytesPartialEncoderTraits, BytesToBytesCodecTraits, WholeArray,
};

impl<B: BytesToBytesCodecTraits> CodecChain<B> {
    ghost use Rattle.std.specs.Prelude.{◌≡◌};
    ghost use Rattle.zarr_codecs_coders.specs.Decoders as decoders;
    ghost use Rattle.zarr_codecs_coders.specs.Encoders as encoders;

    /// What decodes parts of an array by the chain, of the value that a source holds. It borrows
    /// the source, and keeps no bytes of its own.
    pub fn partial_decoder<'a, D: BytesPartialDecoderTraits>(
        &'a self,
        source: &'a mut D,
        array: WholeArray<'a>,
    ) -> CodecPartialDecoder<'a, CodecChain<B>, D>
        ensures same_reference { decoders.reference_of result ≡ source.entry.ghost_name }
        ensures source { decoders.source_of result ≡ source.old }
        ensures chain { decoders.codec_of result ≡ self.now }
        ensures elements { (decoders.array_of result).elements.now ≡ array.entry.elements.now }
        ensures shape { (decoders.array_of result).shape.now ≡ array.entry.shape.now }
    {
        CodecPartialDecoder::new(self, source, array)
    }

    /// What encodes parts of an array by the chain, into the value that a source holds, and decodes
    /// them again. It borrows the source, and keeps no bytes of its own. Where
    /// `partial_encoder_capability` says so, the bytes of a part alone are written, else the value
    /// whole; each write is one call of the source.
    pub fn partial_encoder<'a, E: BytesPartialEncoderTraits>(
        &'a self,
        source: &'a mut E,
        array: WholeArray<'a>,
    ) -> CodecPartialEncoder<'a, CodecChain<B>, E>
        ensures same_reference { encoders.reference_of result ≡ source.entry.ghost_name }
        ensures source { encoders.source_of result ≡ source.old }
        ensures chain { encoders.codec_of result ≡ self.now }
        ensures elements { (encoders.array_of result).elements.now ≡ array.entry.elements.now }
        ensures shape { (encoders.array_of result).shape.now ≡ array.entry.shape.now }
    {
        CodecPartialEncoder::new(self, source, array)
    }
}
