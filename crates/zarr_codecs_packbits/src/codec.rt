//! The codec `packbits`.

use crate::packing::{pack, unpack};
use crate::part::PackedPart;
use crate::partial::read_asked;
use crate::sizes::{error_of_uncounted, fit_all, has_bytes, packed_size};
use crate::turning::{Turn, Way};
use std::alloc::{AllocError, Global};
use zarr_codecs_arrays::{ArrayBytes, CodecError, Elements};
use zarr_codecs_regions::{WholeValues, encode_whole, test_asked};
use zarr_codecs_traits::{
    ArrayPart, ArrayToBytesCodecTraits, BytesPartialDecoderTraits, BytesPartialEncoderTraits,
    BytesRepresentation, ValuePatches,
};
use zarr_codecs_types::{Component, DataType};
use zarr_grids_boxes::walk::count_places;

/// Where `packbits` writes how many zero bits fill the last byte: nowhere, or in a byte of its own,
/// the first or the last one.
#[derive(Clone, Copy, Debug, PartialEq, Eq)]
pub enum PackBitsPaddingEncoding {
    None,
    FirstByte,
    LastByte,
}

/// The codec `packbits` (this project's profile): of each component of each element the bits from
/// the first one that is kept to the last one, lowest first, without gaps. Without a first bit it
/// keeps them from the lowest on, without a last bit up to the component's highest. It suits types
/// of one size where the first bit isn't after the last one, and both are the component's own.
#[derive(Clone, Copy, Debug, PartialEq, Eq)]
pub struct PackBitsCodec {
    pub padding: PackBitsPaddingEncoding,
    pub first_bit: Option<u64>,
    pub last_bit: Option<u64>,
}

/// What `packbits` is configured by: where the padding is told, and the first and the last bit that
/// are kept.
#[derive(Clone, Copy, Debug, PartialEq, Eq)]
pub struct PackBitsCodecConfiguration {
    pub padding_encoding: PackBitsPaddingEncoding,
    pub first_bit: Option<u64>,
    pub last_bit: Option<u64>,
}

impl PackBitsCodec {
    ghost use Rattle.std.specs.Prelude.{◌≡◌, [], unwrap_or, false, IfOk, MatchOption};
    ghost use Rattle.zarr_codecs_meaning.specs.Fits.{fits};
    ghost use Rattle.zarr_codecs_types.specs.Views.{type_of};
    ghost use Rattle.zarr_codecs_packbits.specs.Packing.{Suits};
    ghost use Rattle.zarr_codecs_packbits.specs.Views.{packbits_chain};

    /// `packbits` that keeps the bits from `first_bit` to `last_bit` of each component.
    pub fn new(
        padding: PackBitsPaddingEncoding,
        first_bit: Option<u64>,
        last_bit: Option<u64>,
    ) -> PackBitsCodec
        ensures { result
            ≡ record { padding = padding; first_bit = first_bit; last_bit = last_bit } }
    {
        PackBitsCodec {
            padding,
            first_bit,
            last_bit,
        }
    }

    /// `packbits` as a configuration gives it.
    pub fn new_with_configuration(configuration: PackBitsCodecConfiguration) -> PackBitsCodec
        ensures { result ≡ record {
          padding = configuration.padding_encoding;
          first_bit = configuration.first_bit;
          last_bit = configuration.last_bit;
        } }
    {
        PackBitsCodec::new(
            configuration.padding_encoding,
            configuration.first_bit,
            configuration.last_bit,
        )
    }

    /// The codec's configuration, of which `new_with_configuration` makes an equal codec.
    pub fn configuration(self) -> PackBitsCodecConfiguration
        ensures { self ≡ record {
          padding = result.padding_encoding;
          first_bit = result.first_bit;
          last_bit = result.last_bit;
        } }
    {
        PackBitsCodecConfiguration {
            padding_encoding: self.padding,
            first_bit: self.first_bit,
            last_bit: self.last_bit,
        }
    }

    /// Which bits it keeps, to be turned one way.
    pub(crate) fn turn(self, way: Way) -> Turn
        ensures { result ≡ record {
          way = way;
          first = unwrap_or self.first_bit 0;
          last = self.last_bit;
        } }
    {
        Turn {
            way,
            first: self.first_bit.unwrap_or(0),
            last: self.last_bit,
        }
    }

    /// The components of a data type, where the codec suits arrays of it.
    fn suited(
        self,
        alloc: Global,
        data_type: &DataType,
    ) -> Result<Option<Vec<Component>>, AllocError>
        ensures { IfOk result (λ found. MatchOption found
            (fits (packbits_chain self) (type_of data_type.now) [] ≡ false)
            (λ parts. Suits self (type_of data_type.now) parts.items)) }
    {
        if !data_type.is_fixed() {
            return Ok(None);
        }
        let parts = data_type.components(alloc)?;
        if fit_all(self.turn(Way::Keep), parts.as_slice()) {
            Ok(Some(parts))
        } else {
            Ok(None)
        }
    }
}

impl Default for PackBitsCodec {
    ghost use Rattle.std.specs.Prelude.{◌≡◌, None};
    ghost use Rattle.zarr_codecs_packbits.specs.declared.codec.PackBitsPaddingEncoding.TheVariants as padding;

    ghost is_default = { λ codec. codec
        ≡ record { padding = padding.None; first_bit = None; last_bit = None } };

    fn default() -> Self {
        PackBitsCodec::new(PackBitsPaddingEncoding::None, None, None)
    }
}

impl ArrayToBytesCodecTraits for PackBitsCodec {
    ghost use Rattle.std.specs.Prelude.{◌≡◌, refl, true};
    ghost use Rattle.zarr_codecs_types.specs.Views.{type_of};
    ghost use Rattle.zarr_codecs_traits.specs.Representations.{RepresentsArray};
    ghost use Rattle.zarr_codecs_packbits.specs.Told.{RefusesToldSizes};
    ghost use Rattle.zarr_codecs_packbits.specs.Views.{packbits_chain};

    ghost meaning = { packbits_chain };

    ghost is_function = { λ codec. true };

    ghost copied = { λ codec copy. copy ≡ codec };

    fn encoding_is_function(&self) -> bool {
        true
    }

    fn fits(&self, alloc: Global, data_type: &DataType, _: &[u64]) -> Result<bool, AllocError> {
        Ok(self.suited(alloc, data_type)?.is_some())
    }

    fn encode_in_order(
        &self,
        alloc: Global,
        bytes: ArrayBytes,
        elements: &Elements,
        shape: &[u64],
    ) -> Result<Vec<u8>, CodecError> {
        let data_type = elements.data_type();
        let Some(parts) = self.suited(alloc, data_type)? else {
            return Err(CodecError::Fit);
        };
        let Some(count) = count_places(shape) else {
            return Err(CodecError::Size);
        };
        if let Err(error) = bytes.validate(data_type, count) {
            return Err(error);
        }
        match bytes {
            ArrayBytes::Fixed(bytes) => {
                Ok(pack(alloc, *self, parts.as_slice(), count, bytes.as_slice())?)
            }
            ArrayBytes::Variable(_bytes, _offsets) => Err(CodecError::ExpectedFixedLengthBytes),
            ArrayBytes::Optional(_inner, _mask) => Err(CodecError::ExpectedFixedLengthBytes),
        }
    }

    fn decode_in_order(
        &self,
        alloc: Global,
        value: Vec<u8>,
        elements: &Elements,
        shape: &[u64],
    ) -> Result<ArrayBytes, CodecError> {
        let data_type = elements.data_type();
        let Some(parts) = self.suited(alloc, data_type)? else {
            return Err(CodecError::Fit);
        };
        if !has_bytes(data_type) {
            return Err(CodecError::Memory);
        }
        let Some(count) = count_places(shape) else {
            return Err(error_of_uncounted(value.as_slice()));
        };
        match packed_size(
            self.turn(Way::Restore),
            self.padding,
            parts.as_slice(),
            count,
        ) {
            Some(size) => if value.len() as u64 != size {
                return Err(CodecError::Damage);
            },
            None => return Err(CodecError::Damage),
        }
        let bytes = unpack(alloc, *self, parts.as_slice(), count, value.as_slice())?;
        Ok(ArrayBytes::Fixed(bytes))
    }

    fn encoded_representation(
        &self,
        alloc: Global,
        data_type: &DataType,
        shape: &[u64],
    ) -> Result<BytesRepresentation, CodecError>
        ensures represents { RepresentsArray (packbits_chain self.now) (type_of data_type.now)
            shape.now result }
        ensures told { RefusesToldSizes (packbits_chain self.now) (type_of data_type.now) shape.now
            result }
    {
        let Some(parts) = self.suited(alloc, data_type)? else {
            return Err(CodecError::Fit);
        };
        let Some(count) = count_places(shape) else {
            return Err(CodecError::Size);
        };
        match packed_size(self.turn(Way::Keep), self.padding, parts.as_slice(), count) {
            Some(size) => Ok(BytesRepresentation::FixedSize(size)),
            None => Err(CodecError::Size),
        }
    }

    fn partial_decoder_capability(&self) -> bool {
        self.padding == PackBitsPaddingEncoding::None
    }

    fn partial_encoder_capability(&self) -> bool {
        false
    }

    fn encodes_as_is(&self) -> bool {
        false
    }

    fn partial_decode_granularity(
        &self,
        alloc: Global,
        shape: &[u64],
    ) -> Result<Vec<u64>, AllocError> {
        shape.to_vec(alloc)
    }

    fn partial_decode_in_order<D: BytesPartialDecoderTraits>(
        &self,
        alloc: Global,
        source: &mut D,
        part: ArrayPart<'_>,
    ) -> Result<ArrayBytes, CodecError> {
        let Some(components) = self.suited(alloc, part.elements.data_type())? else {
            return Err(CodecError::Fit);
        };
        if count_places(part.shape).is_none() {
            return Err(CodecError::Size);
        }
        if let Err(error) = test_asked(part.shape, part.indexer) {
            return Err(error);
        }
        let packed = PackedPart {
            codec: *self,
            components: components.as_slice(),
            part,
        };
        read_asked(alloc, source, packed)
    }

    fn takes_patches(&self, _: &DataType) -> bool {
        false
    }

    fn encode_patches(
        &self,
        _: Global,
        _: ArrayBytes,
        _: ArrayPart<'_>,
    ) -> Result<Option<ValuePatches>, CodecError> {
        Ok(None)
    }

    fn partial_encode_in_order<E: BytesPartialEncoderTraits>(
        &self,
        alloc: Global,
        source: &mut E,
        bytes: ArrayBytes,
        part: ArrayPart<'_>,
    ) -> Result<(), CodecError> {
        encode_whole(self, alloc, source, bytes, part)
    }

    fn compact_in_order(
        &self,
        alloc: Global,
        _: &[u8],
        elements: &Elements,
        _: &[u64],
    ) -> Result<Option<Vec<u8>>, CodecError> {
        if self.suited(alloc, elements.data_type())?.is_none() {
            return Err(CodecError::Fit);
        }
        Ok(None)
    }

    fn try_clone(&self, _: Global) -> Result<PackBitsCodec, AllocError> {
        Ok(*self)
    }

    ghost lawful = { λ codec. tt };

    ghost plain = { λ codec is. refl };
}

impl WholeValues for PackBitsCodec {
    ghost use Rattle.std.specs.Prelude.{true};
    ghost use Rattle.zarr_codecs_packbits.specs.Views.{packbits_chain};

    ghost meaning = { packbits_chain };

    ghost is_function = { λ codec. true };

    fn fits_array(
        &self,
        alloc: Global,
        data_type: &DataType,
        shape: &[u64],
    ) -> Result<bool, AllocError> {
        self.fits(alloc, data_type, shape)
    }

    fn encode_array(
        &self,
        alloc: Global,
        bytes: ArrayBytes,
        elements: &Elements,
        shape: &[u64],
    ) -> Result<Vec<u8>, CodecError> {
        self.encode_in_order(alloc, bytes, elements, shape)
    }

    fn decode_value(
        &self,
        alloc: Global,
        value: Vec<u8>,
        elements: &Elements,
        shape: &[u64],
    ) -> Result<ArrayBytes, CodecError> {
        self.decode_in_order(alloc, value, elements, shape)
    }

    fn keeps_fill(&self) -> bool {
        true
    }

    ghost lawful = { λ codec. tt };
}
