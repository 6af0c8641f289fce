//! Shards as values of a codec between arrays and bytes.

use crate::codec::ShardingCodec;
use crate::cut_arrays::is_small;
use crate::cut_parts::put_found;
use crate::decoding::Shard;
use crate::made_pieces::all_made;
use crate::part_writing::TestedPart;
use std::alloc::{AllocError, Global};
use zarr_codecs_arrays::{ArrayBytes, CodecError, Elements};
use zarr_codecs_options::SubchunkWriteOrder;
use zarr_codecs_regions::{encode_whole, test_asked};
use zarr_codecs_traits::{
    ArrayPart, ArrayPieces, ArrayToBytesCodecTraits, BytesPartialDecoderTraits,
    BytesPartialEncoderTraits, BytesRepresentation, SplitArray, SplitValue, ValuePatches,
    ValuePieces, WholeArray,
};
use zarr_codecs_types::DataType;
use zarr_grids_boxes::walk::count_places;
use zarr_sharding_compaction::{ShardLayout, compact_shard};
use zarr_sharding_inner::IndexCodec;

impl<I: ArrayToBytesCodecTraits, X: IndexCodec> ArrayToBytesCodecTraits for ShardingCodec<I, X> {
    ghost use Rattle.std.specs.Prelude.{◌≡◌, IfOk};
    ghost use Rattle.zarr_codecs_traits.specs.Arrays.{coded};
    ghost use Rattle.zarr_sharding_codec.specs.Pieces.{DecodesPieceOf, IsCut, IsCutArray, IsCutPart, StoresPieceOf};
    ghost use Rattle.zarr_sharding_codec.specs.Views.{inner_of, makes_a_function, order_of, shard_chain, shard_copied, shard_plain};

    ghost meaning = { shard_chain I.meaning X.meaning };

    ghost is_function = { makes_a_function I.is_function X.is_function };

    ghost copied = { shard_copied I.copied X.copied };

    ghost cuts_value = { λ codec array value pieces. IsCut array value pieces };

    ghost cuts_part = { λ codec array stored asked pieces. IsCutPart array stored asked pieces };

    ghost decodes_piece = { λ codec elements pieces n result. DecodesPieceOf
        (coded (shard_chain I.meaning X.meaning codec) elements pieces.shape.items) pieces n
        result };

    ghost cuts_array = { λ codec array payload pieces. IsCutArray array payload pieces };

    ghost encodes_piece = { λ codec elements pieces n result. StoresPieceOf
        (I.is_function (inner_of codec))
        (coded (shard_chain I.meaning X.meaning codec) elements pieces.shape.items) pieces n
        result };

    fn encoding_is_function(&self) -> bool {
        matches!(self.subchunk_write_order, SubchunkWriteOrder::C)
            && self.inner_codecs.encoding_is_function()
            && self.index_codecs.encoding_is_function()
    }

    fn fits(&self, alloc: Global, data_type: &DataType, shape: &[u64]) -> Result<bool, AllocError> {
        Ok(self.suited(alloc, data_type, shape)?.is_some())
    }

    fn encode_in_order(
        &self,
        alloc: Global,
        bytes: ArrayBytes,
        elements: &Elements,
        shape: &[u64],
    ) -> Result<Vec<u8>, CodecError> {
        let data_type = elements.data_type();
        let Some(size) = self.suited(alloc, data_type, shape)? else {
            return Err(CodecError::Fit);
        };
        let Some(count) = count_places(shape) else {
            return Err(CodecError::Size);
        };
        if let Err(error) = bytes.validate(data_type, count) {
            return Err(error);
        }
        let array = WholeArray { elements, shape };
        self.encode_valid(alloc, &bytes, array, size)
    }

    fn decode_in_order(
        &self,
        alloc: Global,
        value: Vec<u8>,
        elements: &Elements,
        shape: &[u64],
    ) -> Result<ArrayBytes, CodecError> {
        let Some(size) = self.suited(alloc, elements.data_type(), shape)? else {
            return Err(CodecError::Fit);
        };
        let value = value.as_slice();
        match self.index_in(alloc, value, shape, size) {
            Ok(index) => {
                let index = &index;
                let array = WholeArray { elements, shape };
                self.decode_pieces(alloc, Shard { value, index }, array)
            }
            Err(error) => Err(error),
        }
    }

    fn encoded_representation(
        &self,
        alloc: Global,
        data_type: &DataType,
        shape: &[u64],
    ) -> Result<BytesRepresentation, CodecError> {
        let Some(size) = self.suited(alloc, data_type, shape)? else {
            return Err(CodecError::Fit);
        };
        self.represent_fitting(alloc, size, data_type, shape)
    }

    fn partial_decoder_capability(&self) -> bool {
        true
    }

    fn partial_encoder_capability(&self) -> bool {
        true
    }

    fn encodes_as_is(&self) -> bool {
        false
    }

    fn partial_decode_granularity(&self, alloc: Global, _: &[u64]) -> Result<Vec<u64>, AllocError> {
        self.subchunk_shape.as_slice().to_vec(alloc)
    }

    fn partial_decode_in_order<D: BytesPartialDecoderTraits>(
        &self,
        alloc: Global,
        source: &mut D,
        part: ArrayPart<'_>,
    ) -> Result<ArrayBytes, CodecError> {
        let Some(size) = self.suited(alloc, part.elements.data_type(), part.shape)? else {
            return Err(CodecError::Fit);
        };
        if count_places(part.shape).is_none() {
            return Err(CodecError::Size);
        }
        if let Err(error) = test_asked(part.shape, part.indexer) {
            return Err(error);
        }
        self.read_part(alloc, source, size, part)
    }

    fn takes_patches(&self, _: &DataType) -> bool {
        false
    }

    fn encode_patches(
        &self,
        _: Global,
        _: ArrayBytes,
        _: ArrayPart<'_>,
    ) -> Result<Option<ValuePatches>, CodecError> {
        Ok(None)
    }

    fn partial_encode_in_order<E: BytesPartialEncoderTraits>(
        &self,
        alloc: Global,
        source: &mut E,
        bytes: ArrayBytes,
        part: ArrayPart<'_>,
    ) -> Result<(), CodecError> {
        let size = match self.index_size_for(alloc, &bytes, part) {
            Ok(size) => size,
            Err(error) => return Err(error),
        };
        let tested = TestedPart {
            size,
            bytes: &bytes,
        };
        match self.append_part(alloc, source, tested, part) {
            Ok(true) => Ok(()),
            Ok(false) => encode_whole(self, alloc, source, bytes, part),
            Err(error) => Err(error),
        }
    }

    fn compact_in_order(
        &self,
        alloc: Global,
        value: &[u8],
        elements: &Elements,
        shape: &[u64],
    ) -> Result<Option<Vec<u8>>, CodecError> {
        let Some(size) = self.suited(alloc, elements.data_type(), shape)? else {
            return Err(CodecError::Fit);
        };
        let layout = ShardLayout {
            shape,
            subchunk_shape: &self.subchunk_shape,
            index_location: self.index_location,
            index_size: size,
        };
        compact_shard(alloc, &self.index_codecs, layout, value)
    }

    fn split_value(
        &self,
        alloc: Global,
        value: Vec<u8>,
        elements: &Elements,
        shape: &[u64],
    ) -> Result<SplitValue, CodecError> {
        if self.inner_codecs.encodes_as_is() {
            return match self.decode_in_order(alloc, value, elements, shape) {
                Ok(found) => Ok(SplitValue::Decoded(found)),
                Err(error) => Err(error),
            };
        }
        let Some(size) = self.suited(alloc, elements.data_type(), shape)? else {
            return Err(CodecError::Fit);
        };
        match self.cut_value(alloc, value, WholeArray { elements, shape }, size) {
            Ok(pieces) => Ok(SplitValue::Cut(pieces)),
            Err(error) => Err(error),
        }
    }

    fn decode_piece(
        &self,
        alloc: Global,
        pieces: &ValuePieces,
        n: usize,
        elements: &Elements,
    ) -> Result<ArrayBytes, CodecError> {
        let shape = pieces.shape.as_slice();
        let slice = &pieces.slices[n];
        let array = WholeArray { elements, shape };
        self.decode_numbered(alloc, pieces.data.as_slice(), slice, array)
    }

    fn put_pieces(
        &self,
        alloc: Global,
        pieces: ValuePieces,
        made: Vec<Result<ArrayBytes, CodecError>>,
        elements: &Elements,
        shape: &[u64],
    ) -> Result<ArrayBytes, CodecError> {
        match all_made(alloc, made) {
            Ok(found) => {
                let slices = pieces.slices.as_slice();
                let array = WholeArray { elements, shape };
                self.put_slices(alloc, slices, found.as_slice(), array)
            }
            Err(error) => Err(error),
        }
    }

    fn split_part<D: BytesPartialDecoderTraits>(
        &self,
        alloc: Global,
        source: &mut D,
        part: ArrayPart<'_>,
    ) -> Result<SplitValue, CodecError> {
        if self.inner_codecs.encodes_as_is() {
            return match self.partial_decode_in_order(alloc, source, part) {
                Ok(found) => Ok(SplitValue::Decoded(found)),
                Err(error) => Err(error),
            };
        }
        let Some(size) = self.suited(alloc, part.elements.data_type(), part.shape)? else {
            return Err(CodecError::Fit);
        };
        if count_places(part.shape).is_none() {
            return Err(CodecError::Size);
        }
        if let Err(error) = test_asked(part.shape, part.indexer) {
            return Err(error);
        }
        self.cut_part(alloc, source, size, part)
    }

    fn put_part(
        &self,
        alloc: Global,
        pieces: ValuePieces,
        made: Vec<Result<ArrayBytes, CodecError>>,
        part: ArrayPart<'_>,
    ) -> Result<ArrayBytes, CodecError> {
        let ValuePieces {
            data: _,
            shape: _,
            slices,
            stopped,
        } = pieces;
        let found = match all_made(alloc, made) {
            Ok(found) => found,
            Err(error) => return Err(error),
        };
        let (slices, found) = (slices.as_slice(), found.as_slice());
        match stopped {
            Some(error) => Err(error),
            None => Ok(put_found(alloc, slices, found, part.elements, part.indexer)?),
        }
    }

    fn split_array(
        &self,
        alloc: Global,
        bytes: ArrayBytes,
        elements: &Elements,
        shape: &[u64],
    ) -> Result<SplitArray, CodecError> {
        if self.inner_codecs.encodes_as_is() || is_small(&bytes) {
            return match self.encode_in_order(alloc, bytes, elements, shape) {
                Ok(value) => Ok(SplitArray::Encoded(value)),
                Err(error) => Err(error),
            };
        }
        let data_type = elements.data_type();
        if !self.fits(alloc, data_type, shape)? {
            return Err(CodecError::Fit);
        }
        let Some(places) = count_places(shape) else {
            return Err(CodecError::Size);
        };
        if let Err(error) = bytes.validate(data_type, places) {
            return Err(error);
        }
        match self.cut_array(alloc, bytes, WholeArray { elements, shape }) {
            Ok(pieces) => Ok(SplitArray::Cut(pieces)),
            Err(error) => Err(error),
        }
    }

    fn encode_piece(
        &self,
        alloc: Global,
        pieces: &ArrayPieces,
        n: usize,
        elements: &Elements,
    ) -> Result<Option<Vec<u8>>, CodecError> {
        let shape = pieces.shape.as_slice();
        self.store_numbered(alloc, &pieces.bytes, n, WholeArray { elements, shape })
    }

    fn join_pieces(
        &self,
        alloc: Global,
        _: ArrayPieces,
        made: Vec<Result<Option<Vec<u8>>, CodecError>>,
        elements: &Elements,
        shape: &[u64],
    ) -> Result<Vec<u8>, CodecError> {
        let Some(size) = self.suited(alloc, elements.data_type(), shape)? else {
            return Err(CodecError::Fit);
        };
        match all_made(alloc, made) {
            Ok(stored) => self.join_slices(alloc, stored, WholeArray { elements, shape }, size),
            Err(error) => Err(error),
        }
    }

    fn try_clone(&self, alloc: Global) -> Result<ShardingCodec<I, X>, AllocError>
        ensures meaning { IfOk result (λ copy. shard_chain I.meaning X.meaning copy
            ≡ shard_chain I.meaning X.meaning self.now) }
        ensures function { IfOk result (λ copy. makes_a_function I.is_function X.is_function copy
            ≡ makes_a_function I.is_function X.is_function self.now) }
        ensures copied { IfOk result (λ copy. shard_copied I.copied X.copied self.now copy) }
        ensures order { IfOk result (λ copy. order_of copy ≡ order_of self.now) }
    {
        let subchunk_shape = self.subchunk_shape.try_clone(alloc)?;
        let inner_codecs = self.inner_codecs.try_clone(alloc)?;
        let index_codecs = self.index_codecs.try_clone(alloc)?;
        Ok(ShardingCodec {
            subchunk_shape,
            inner_codecs,
            index_codecs,
            index_location: self.index_location,
            subchunk_write_order: self.subchunk_write_order,
        })
    }

    ghost lawful = { λ codec. (I.lawful codec.inner_codecs, X.lawful codec.index_codecs) };

    ghost plain = { shard_plain I.meaning X.meaning I.is_function X.is_function };
}
