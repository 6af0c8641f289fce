//! Codec chains.
use crate::array_to_bytes::ArrayToBytesCodec;
use crate::bytes_chain::BytesChain;
use crate::copying::copy_chain;
use crate::decoding::decode_chain;
use crate::encoding::encode_chain;
use crate::fitting::fits_chain;
use crate::reading::read_allowed;
use crate::writing::chain_metadatas;
use std::alloc::{AllocError, Global};
use zarr_codecs_around::array_codecs::AfterArrayCodecs;
use zarr_codecs_around::part_reading::decode_part_after;
use zarr_codecs_around::part_writing::encode_part_after;
use zarr_codecs_around::whole_arrays::represent_after;
use zarr_codecs_array_to_array::ArrayToArrayCodec;
use zarr_codecs_arrays::{ArrayBytes, CodecError, Elements};
use zarr_codecs_bytes::BytesCodec;
use zarr_codecs_configurations::any_too_deep;
use zarr_codecs_traits::{
    ArrayPart, ArrayToBytesCodecTraits, BytesPartialDecoderTraits, BytesPartialEncoderTraits,
    BytesRepresentation, BytesToBytesCodecTraits, ValuePatches, WholeArray,
};
use zarr_codecs_types::DataType;
use zarr_grids_metadata::{MetadataV3, PluginCreateError};

/// A codec chain: array to array codecs in the order in which they encode, an array to bytes codec,
/// and the caller's bytes to bytes codecs in that order (Zarr core specification, "Codecs").
#[cycle(codec)]
#[derive(Debug, Drop)]
pub struct CodecChain<B: BytesToBytesCodecTraits> {
    pub(crate) array_to_array: Vec<ArrayToArrayCodec>,
    pub(crate) others: BytesChain<B>,
}

impl<B: BytesToBytesCodecTraits> CodecChain<B> {
    ghost use Rattle.std.specs.Prelude.{◌≡◌, ◌≢◌, ◌⊎◌, List, Some, None, map, IfOk, IfErr, true, false};
    ghost use Rattle.zarr_codecs_chains.specs.Parts.{arrays_of, bytes_of, codec_of};
    ghost use Rattle.zarr_codecs_chains.specs.Views.{codec_chain, meaning_of, points_of};
    ghost use Rattle.zarr_codecs_metadata.specs.Allowed.{is_allowed};
    ghost use Rattle.zarr_codecs_metadata.specs.Chains.{allowed_chain, any_too_deep, chain_of};
    ghost use Rattle.zarr_codecs_chains.specs.Configured.{little_bytes};
    ghost use Rattle.zarr_codecs_chains.specs.Names.{NamesChain};
    ghost use Rattle.zarr_codecs_chains.specs.Refusals.{RefusesRead};
    ghost use Rattle.zarr_grids_metadata.specs.Views.{point_of};

    /// The chain of array to array codecs, of an array to bytes codec, and of bytes to bytes
    /// codecs, in the order in which they encode.
    pub fn new(
        array_to_array: Vec<ArrayToArrayCodec>,
        array_to_bytes: ArrayToBytesCodec<B>,
        bytes_to_bytes: Vec<B>,
    ) -> CodecChain<B>
        ensures arrays { arrays_of result ≡ array_to_array.items }
        ensures codec { codec_of result ≡ array_to_bytes }
        ensures bytes { bytes_of result ≡ bytes_to_bytes.items }
        ensures allowed { is_allowed (meaning_of B.meaning result)
            ≡ is_allowed (codec_chain B.meaning array_to_bytes) }
    {
        let others = BytesChain {
            array_to_bytes,
            bytes_to_bytes,
        };
        CodecChain {
            array_to_array,
            others,
        }
    }

    /// The chain of `bytes` with the lowest byte first, alone.
    pub(crate) fn of_little_bytes(alloc: Global) -> CodecChain<B>
        ensures { meaning_of B.meaning result ≡ little_bytes }
    {
        let codec = ArrayToBytesCodec::Bytes(BytesCodec::little());
        CodecChain::new(Vec::new(alloc), codec, Vec::new(alloc))
    }

    /// The array to array codecs in the order in which they encode.
    pub fn array_to_array_codecs(&self) -> &[ArrayToArrayCodec]
        ensures { result.now ≡ arrays_of self.now }
    {
        self.array_to_array.as_slice()
    }

    /// The codec between arrays and bytes.
    pub fn array_to_bytes_codec(&self) -> &ArrayToBytesCodec<B>
        ensures { result.now ≡ codec_of self.now }
    {
        &self.others.array_to_bytes
    }

    /// The bytes to bytes codecs in the order in which they encode.
    pub fn bytes_to_bytes_codecs(&self) -> &[B]
        ensures { result.now ≡ bytes_of self.now }
    {
        self.others.bytes_to_bytes.as_slice()
    }

    /// The chain that the metadata of its codecs names and describes, in their order, with all
    /// chains inside of them, each codec under the name that it has there. `TooDeep`, before all
    /// else, where one of them nests deeper than 127 levels: the object that it is counts as one,
    /// and its configuration as one. No codec in a document nests so deep. Else the first codec
    /// that is refused decides: `NameUnsupported` where its name is that of none, as that of a
    /// shard is here; `MetadataInvalid` where its configuration is not one of its name's, or where
    /// no array to bytes codec stands after the array to array codecs; a caller's codec is refused
    /// as its `create` answers. `MetadataInvalid` also where an array to array codec stands where
    /// none may: in the data chain of `vlen` or `optional`, or in any chain inside that of
    /// `optional` (this project's profile). `Memory` where an allocation failed.
    pub fn from_metadata(
        alloc: Global,
        codecs: &[MetadataV3],
    ) -> Result<CodecChain<B>, PluginCreateError>
        ensures ok { IfOk result (λ chain.
            allowed_chain B.reads (map point_of codecs.now) ≡ Some (meaning_of B.meaning chain)) }
        ensures names { IfOk result (λ chain. NamesChain chain (map point_of codecs.now)) }
        ensures shallow { IfOk result (λ _. any_too_deep (map point_of codecs.now) ≡ false) }
        ensures err { IfErr result (λ e. e ≢ PluginCreateError.Memory →
            (any_too_deep (map point_of codecs.now) ≡ true)
            ⊎ (allowed_chain B.reads (map point_of codecs.now) ≡ None)) }
        ensures refused { IfErr result (λ e. e ≢ PluginCreateError.Memory →
            RefusesRead B.reads (map point_of codecs.now) e) }
    {
        if any_too_deep(codecs) {
            return Err(PluginCreateError::TooDeep);
        }
        read_allowed(alloc, codecs)
    }

    /// The metadata of the codecs under the names that they keep, of which `from_metadata` makes an
    /// equal chain where array to array codecs stand only where they may: in any chain that it
    /// made, and in any that is made by `new` with codecs that it or their own `new` made. An equal
    /// chain is read again only if it nests no deeper than 127 levels as it is written. `Err` only
    /// where an allocation failed.
    pub fn create_metadatas(&self, alloc: Global) -> Result<Vec<MetadataV3>, AllocError>
        ensures written { IfOk result
            (λ codecs. map point_of codecs.items ≡ points_of B.described self.now) }
        ensures reads_back { IfOk result (λ codecs.
            chain_of B.reads (map point_of codecs.items) ≡ Some (meaning_of B.meaning self.now)) }
        ensures made_again { is_allowed (meaning_of B.meaning self.now) ≡ true → IfOk result
            (λ codecs. allowed_chain B.reads (map point_of codecs.items)
            ≡ Some (meaning_of B.meaning self.now)) }
    {
        chain_metadatas(self, alloc)
    }
}

impl<B: BytesToBytesCodecTraits> ArrayToBytesCodecTraits for CodecChain<B> {
    ghost use Rattle.std.specs.Prelude.{◌≡◌, IfOk, refl, true};
    ghost use Rattle.zarr_grids_metadata.specs.ExtensionPoints.{ExtensionPoint};
    ghost use Rattle.zarr_codecs_chains.specs.Names.{WritesAlike};
    ghost use Rattle.zarr_codecs_chains.specs.Views.{meaning_of, lawful_of, points_of};

    ghost meaning = { meaning_of B.meaning };

    ghost is_function = { λ chain. true };

    ghost copied = { λ codec copy. (described : B → ExtensionPoint)
        → WritesAlike B.meaning described
        → points_of described copy ≡ points_of described codec };

    fn encoding_is_function(&self) -> bool {
        true
    }

    fn fits(&self, alloc: Global, data_type: &DataType, shape: &[u64]) -> Result<bool, AllocError> {
        fits_chain(self, alloc, data_type, shape)
    }

    fn encode_in_order(
        &self,
        alloc: Global,
        bytes: ArrayBytes,
        elements: &Elements,
        shape: &[u64],
    ) -> Result<Vec<u8>, CodecError> {
        let array = WholeArray { elements, shape };
        encode_chain(self, alloc, bytes, array)
    }

    fn decode_in_order(
        &self,
        alloc: Global,
        value: Vec<u8>,
        elements: &Elements,
        shape: &[u64],
    ) -> Result<ArrayBytes, CodecError> {
        let array = WholeArray { elements, shape };
        decode_chain(self, alloc, value, array)
    }

    fn encoded_representation(
        &self,
        alloc: Global,
        data_type: &DataType,
        shape: &[u64],
    ) -> Result<BytesRepresentation, CodecError> {
        let codecs = self.array_to_array.as_slice();
        represent_after(&self.others, alloc, codecs, data_type, shape)
    }

    fn partial_decoder_capability(&self) -> bool {
        self.others.partial_decoder_capability()
    }

    fn partial_encoder_capability(&self) -> bool {
        self.others.partial_encoder_capability()
    }

    fn encodes_as_is(&self) -> bool {
        self.array_to_array.is_empty() && self.others.encodes_as_is()
    }

    fn partial_decode_granularity(
        &self,
        alloc: Global,
        shape: &[u64],
    ) -> Result<Vec<u64>, AllocError> {
        if self.array_to_array.is_empty() {
            return self.others.partial_decode_granularity(alloc, shape);
        }
        shape.to_vec(alloc)
    }

    fn partial_decode_in_order<D: BytesPartialDecoderTraits>(
        &self,
        alloc: Global,
        source: &mut D,
        part: ArrayPart<'_>,
    ) -> Result<ArrayBytes, CodecError> {
        if self.array_to_array.is_empty() {
            return self.others.partial_decode_in_order(alloc, source, part);
        }
        let array_to_array = self.array_to_array.as_slice();
        let rest = &self.others;
        let chain = AfterArrayCodecs {
            array_to_array,
            rest,
        };
        decode_part_after(chain, alloc, source, part)
    }

    fn takes_patches(&self, data_type: &DataType) -> bool {
        self.array_to_array.is_empty() && self.others.takes_patches(data_type)
    }

    fn encode_patches(
        &self,
        alloc: Global,
        bytes: ArrayBytes,
        part: ArrayPart<'_>,
    ) -> Result<Option<ValuePatches>, CodecError> {
        if !self.array_to_array.is_empty() {
            return Ok(None);
        }
        self.others.encode_patches(alloc, bytes, part)
    }

    fn partial_encode_in_order<E: BytesPartialEncoderTraits>(
        &self,
        alloc: Global,
        source: &mut E,
        bytes: ArrayBytes,
        part: ArrayPart<'_>,
    ) -> Result<(), CodecError> {
        if self.array_to_array.is_empty() {
            return self
                .others
                .partial_encode_in_order(alloc, source, bytes, part);
        }
        let array_to_array = self.array_to_array.as_slice();
        let rest = &self.others;
        let chain = AfterArrayCodecs {
            array_to_array,
            rest,
        };
        encode_part_after(chain, alloc, source, bytes, part)
    }

    fn compact_in_order(
        &self,
        alloc: Global,
        _: &[u8],
        elements: &Elements,
        shape: &[u64],
    ) -> Result<Option<Vec<u8>>, CodecError> {
        if !self.fits(alloc, elements.data_type(), shape)? {
            return Err(CodecError::Fit);
        }
        Ok(None)
    }

    /// An equal chain, each of whose codecs of this library keeps its name. `Err` only where an
    /// allocation failed.
    fn try_clone(&self, alloc: Global) -> Result<CodecChain<B>, AllocError>
        ensures meaning { IfOk result
            (λ copy. meaning_of B.meaning copy ≡ meaning_of B.meaning self.now) }
        ensures function { IfOk result (λ copy. true ≡ true) }
        ensures copied { IfOk result (λ copy. (described : B → ExtensionPoint)
            → WritesAlike B.meaning described
            → points_of described copy ≡ points_of described self.now) }
    {
        copy_chain(self, alloc)
    }

    ghost lawful = { lawful_of B.meaning B.lawful };

    ghost plain = { λ chain is. refl };
}
