//! Any codec between arrays and bytes.
ghost use Rattle.std.specs.Prelude.{◌≡◌, ◌≢◌, Some, None, option_and_then, IfOk, IfErr};
ghost use Rattle.zarr_grids_metadata.specs.Views.{point_of};
ghost use Rattle.zarr_codecs_metadata.specs.Allowed.{allowed};
ghost use Rattle.zarr_codecs_metadata.specs.Chains.{array_to_bytes_in};
ghost use Rattle.zarr_codecs_chains.specs.Names.{Names};
ghost use Rattle.zarr_codecs_chains.specs.Refusals.{RefusesCodec};
ghost use Rattle.zarr_codecs_chains.specs.Views.{codec_chain};

use crate::allowing::codec_is_allowed;
use crate::copying::copy_codec;
use crate::decoding::decode_codec;
use crate::encoding::encode_codec;
use crate::fitting::fits_codec;
use crate::optional::OptionalCodec;
use crate::reading::read_codec;
use crate::representing::represent_codec;
use crate::selecting::decode_asked;
use crate::vlen::VlenCodec;
use crate::writing::codec_metadata;
use std::alloc::{AllocError, Global};
use zarr_codecs_arrays::{ArrayBytes, CodecError, Elements};
use zarr_codecs_bytes::BytesCodec;
use zarr_codecs_configurations::is_too_deep;
use zarr_codecs_packbits::PackBitsCodec;
use zarr_codecs_regions::encode_whole;
use zarr_codecs_traits::{
    ArrayPart, ArrayToBytesCodecTraits, BytesPartialDecoderTraits, BytesPartialEncoderTraits,
    BytesRepresentation, BytesToBytesCodecTraits, ValuePatches, WholeArray,
};
use zarr_codecs_types::DataType;
use zarr_grids_metadata::{MetadataV3, PluginCreateError};

/// Any of the codecs between arrays and bytes.
#[cycle(codec)]
#[derive(Debug, Drop)]
pub enum ArrayToBytesCodec<B: BytesToBytesCodecTraits> {
    Bytes(BytesCodec),
    PackBits(PackBitsCodec),
    Vlen(Box<VlenCodec<B>>),
    Optional(Box<OptionalCodec<B>>),
}

impl<B: BytesToBytesCodecTraits> ArrayToBytesCodec<B> {
    ghost use Rattle.std.specs.Prelude.{◌≡◌, ◌≢◌, ◌⊎◌, Some, None, true, false, option_and_then, IfOk, IfErr};
    ghost use Rattle.zarr_grids_metadata.specs.Views.{point_of};
    ghost use Rattle.zarr_codecs_metadata.specs.Allowed.{allowed, is_allowed};
    ghost use Rattle.zarr_codecs_metadata.specs.Chains.{array_to_bytes_in, is_too_deep};
    ghost use Rattle.zarr_codecs_chains.specs.Names.{Names};
    ghost use Rattle.zarr_codecs_chains.specs.Refusals.{RefusesReadCodec};
    ghost use Rattle.zarr_codecs_chains.specs.Views.{codec_chain, codec_point};

    /// The codec that metadata describes, with all chains inside of it, each codec under the name
    /// that it has there. `TooDeep`, before all else, where it nests deeper than
    /// `CodecChain::from_metadata` reads; `NameUnsupported` where its name is that of none;
    /// `MetadataInvalid` where its configuration is not one of the name's, or where an array to
    /// array codec stands in it where none may: in the data chain of `vlen` or `optional`, or in
    /// any chain inside that of `optional` (this project's profile). Codecs inside of it are
    /// refused as they are elsewhere. `Memory` where an allocation failed.
    pub fn from_metadata(
        alloc: Global,
        metadata: &MetadataV3,
    ) -> Result<ArrayToBytesCodec<B>, PluginCreateError>
        ensures ok { IfOk result (λ codec.
            option_and_then allowed (array_to_bytes_in B.reads (point_of metadata.now))
            ≡ Some (codec_chain B.meaning codec)) }
        ensures names { IfOk result (λ codec. Names codec (point_of metadata.now)) }
        ensures shallow { IfOk result (λ _. is_too_deep (point_of metadata.now) ≡ false) }
        ensures err { IfErr result (λ e. e ≢ PluginCreateError.Memory →
            (is_too_deep (point_of metadata.now) ≡ true)
            ⊎ (option_and_then allowed (array_to_bytes_in B.reads (point_of metadata.now))
            ≡ None)) }
        ensures refused { IfErr result (λ e. e ≢ PluginCreateError.Memory →
            RefusesReadCodec B.reads (point_of metadata.now) e) }
    {
        if is_too_deep(metadata) {
            return Err(PluginCreateError::TooDeep);
        }
        read_allowed_codec(alloc, metadata)
    }

    /// The codec's metadata under the names that its codecs keep, of which `from_metadata` makes an
    /// equal codec where array to array codecs stand only where they may. An equal codec is read
    /// again only if it nests no deeper than 127 levels as it is written. `Err` only where an
    /// allocation failed.
    pub fn metadata(&self, alloc: Global) -> Result<MetadataV3, AllocError>
        ensures written { IfOk result
            (λ metadata. point_of metadata ≡ codec_point B.described self.now) }
        ensures reads_back { IfOk result (λ metadata. array_to_bytes_in B.reads (point_of metadata)
            ≡ Some (codec_chain B.meaning self.now)) }
        ensures made_again { is_allowed (codec_chain B.meaning self.now) ≡ true → IfOk result
            (λ metadata. option_and_then allowed (array_to_bytes_in B.reads (point_of metadata))
            ≡ Some (codec_chain B.meaning self.now)) }
    {
        codec_metadata(self, alloc)
    }
}

impl<B: BytesToBytesCodecTraits> ArrayToBytesCodecTraits for ArrayToBytesCodec<B> {
    ghost use Rattle.std.specs.Prelude.{◌≡◌, IfOk, refl, true};
    ghost use Rattle.zarr_grids_metadata.specs.ExtensionPoints.{ExtensionPoint};
    ghost use Rattle.zarr_codecs_chains.specs.Names.{WritesAlike};
    ghost use Rattle.zarr_codecs_chains.specs.Views.{codec_chain, codec_lawful, codec_point};

    ghost meaning = { codec_chain B.meaning };

    ghost is_function = { λ codec. true };

    ghost copied = { λ codec copy. (described : B → ExtensionPoint)
        → WritesAlike B.meaning described
        → codec_point described copy ≡ codec_point described codec };

    fn encoding_is_function(&self) -> bool {
        true
    }

    fn fits(&self, alloc: Global, data_type: &DataType, shape: &[u64]) -> Result<bool, AllocError> {
        fits_codec(self, alloc, data_type, shape)
    }

    fn encode_in_order(
        &self,
        alloc: Global,
        bytes: ArrayBytes,
        elements: &Elements,
        shape: &[u64],
    ) -> Result<Vec<u8>, CodecError> {
        let array = WholeArray { elements, shape };
        encode_codec(self, alloc, bytes, array)
    }

    fn decode_in_order(
        &self,
        alloc: Global,
        value: Vec<u8>,
        elements: &Elements,
        shape: &[u64],
    ) -> Result<ArrayBytes, CodecError> {
        let array = WholeArray { elements, shape };
        decode_codec(self, alloc, value, array)
    }

    fn encoded_representation(
        &self,
        alloc: Global,
        data_type: &DataType,
        shape: &[u64],
    ) -> Result<BytesRepresentation, CodecError> {
        represent_codec(self, alloc, data_type, shape)
    }

    fn partial_decoder_capability(&self) -> bool {
        match self {
            ArrayToBytesCodec::Bytes(codec) => codec.partial_decoder_capability(),
            ArrayToBytesCodec::PackBits(codec) => codec.partial_decoder_capability(),
            ArrayToBytesCodec::Vlen(_) | ArrayToBytesCodec::Optional(_) => false,
        }
    }

    fn partial_encoder_capability(&self) -> bool {
        match self {
            ArrayToBytesCodec::Bytes(codec) => codec.partial_encoder_capability(),
            ArrayToBytesCodec::PackBits(codec) => codec.partial_encoder_capability(),
            ArrayToBytesCodec::Vlen(_) | ArrayToBytesCodec::Optional(_) => false,
        }
    }

    fn encodes_as_is(&self) -> bool {
        match self {
            ArrayToBytesCodec::Bytes(codec) => codec.encodes_as_is(),
            ArrayToBytesCodec::PackBits(codec) => codec.encodes_as_is(),
            ArrayToBytesCodec::Vlen(_) | ArrayToBytesCodec::Optional(_) => false,
        }
    }

    fn partial_decode_granularity(
        &self,
        alloc: Global,
        shape: &[u64],
    ) -> Result<Vec<u64>, AllocError> {
        match self {
            ArrayToBytesCodec::Bytes(codec) => codec.partial_decode_granularity(alloc, shape),
            ArrayToBytesCodec::PackBits(codec) => codec.partial_decode_granularity(alloc, shape),
            ArrayToBytesCodec::Vlen(_) | ArrayToBytesCodec::Optional(_) => shape.to_vec(alloc),
        }
    }

    fn partial_decode_in_order<D: BytesPartialDecoderTraits>(
        &self,
        alloc: Global,
        source: &mut D,
        part: ArrayPart<'_>,
    ) -> Result<ArrayBytes, CodecError> {
        match self {
            ArrayToBytesCodec::Bytes(codec) => codec.partial_decode_in_order(alloc, source, part),
            ArrayToBytesCodec::PackBits(codec) => {
                codec.partial_decode_in_order(alloc, source, part)
            }
            ArrayToBytesCodec::Vlen(_) | ArrayToBytesCodec::Optional(_) => {
                decode_asked(self, alloc, source, part)
            }
        }
    }

    fn takes_patches(&self, data_type: &DataType) -> bool {
        match self {
            ArrayToBytesCodec::Bytes(codec) => codec.takes_patches(data_type),
            ArrayToBytesCodec::PackBits(codec) => codec.takes_patches(data_type),
            ArrayToBytesCodec::Vlen(_) | ArrayToBytesCodec::Optional(_) => false,
        }
    }

    fn encode_patches(
        &self,
        alloc: Global,
        bytes: ArrayBytes,
        part: ArrayPart<'_>,
    ) -> Result<Option<ValuePatches>, CodecError> {
        match self {
            ArrayToBytesCodec::Bytes(codec) => codec.encode_patches(alloc, bytes, part),
            ArrayToBytesCodec::PackBits(codec) => codec.encode_patches(alloc, bytes, part),
            ArrayToBytesCodec::Vlen(_) | ArrayToBytesCodec::Optional(_) => Ok(None),
        }
    }

    #[tactic(auto, using(zarr_codecs_traits::proofs::WrittenWhole::whole_parts, zarr_codecs_traits::proofs::WrittenWhole::whole_given))]
    fn partial_encode_in_order<E: BytesPartialEncoderTraits>(
        &self,
        alloc: Global,
        source: &mut E,
        bytes: ArrayBytes,
        part: ArrayPart<'_>,
    ) -> Result<(), CodecError> {
        match self {
            ArrayToBytesCodec::Bytes(codec) => {
                codec.partial_encode_in_order(alloc, source, bytes, part)
            }
            ArrayToBytesCodec::PackBits(_)
            | ArrayToBytesCodec::Vlen(_)
            | ArrayToBytesCodec::Optional(_) => { encode_whole(self, alloc, source, bytes, part) }
        }
    }

    fn compact_in_order(
        &self,
        alloc: Global,
        _: &[u8],
        elements: &Elements,
        shape: &[u64],
    ) -> Result<Option<Vec<u8>>, CodecError> {
        if !fits_codec(self, alloc, elements.data_type(), shape)? {
            return Err(CodecError::Fit);
        }
        Ok(None)
    }

    /// An equal codec, which keeps its name, as each codec of this library inside of it does. `Err`
    /// only where an allocation failed.
    fn try_clone(&self, alloc: Global) -> Result<ArrayToBytesCodec<B>, AllocError>
        ensures meaning { IfOk result
            (λ copy. codec_chain B.meaning copy ≡ codec_chain B.meaning self.now) }
        ensures function { IfOk result (λ copy. true ≡ true) }
        ensures copied { IfOk result (λ copy. (described : B → ExtensionPoint)
            → WritesAlike B.meaning described
            → codec_point described copy ≡ codec_point described self.now) }
    {
        copy_codec(self, alloc)
    }

    ghost lawful = { codec_lawful B.meaning B.lawful };

    ghost plain = { λ codec is. refl };
}

/// The codec that metadata describes, however deep chains nest in it.
fn read_allowed_codec<B: BytesToBytesCodecTraits>(
    alloc: Global,
    metadata: &MetadataV3,
) -> Result<ArrayToBytesCodec<B>, PluginCreateError>
    ensures ok { IfOk result (λ codec.
        option_and_then allowed (array_to_bytes_in B.reads (point_of metadata.now))
        ≡ Some (codec_chain B.meaning codec)) }
    ensures names { IfOk result (λ codec. Names codec (point_of metadata.now)) }
    ensures err { IfErr result (λ e. e ≢ PluginCreateError.Memory →
        option_and_then allowed (array_to_bytes_in B.reads (point_of metadata.now))
        ≡ None) }
    ensures refused { IfErr result (λ e. e ≢ PluginCreateError.Memory →
        RefusesCodec B.reads (point_of metadata.now) e) }
{
    match read_codec(alloc, metadata.as_point()) {
        Ok(codec) => if codec_is_allowed(&codec) {
            Ok(codec)
        } else {
            Err(PluginCreateError::MetadataInvalid)
        },
        Err(error) => Err(error),
    }
}
