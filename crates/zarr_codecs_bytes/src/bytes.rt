//! The codec `bytes`.

use crate::listed::read_listed;
use crate::part::{BoxPart, ListedPart};
use crate::patches::replace_part;
use crate::reading::read_part;
use crate::sizes::{byte_count, have_one_byte, whole_count};
use crate::swapping::swapped;
use crate::writing::write_asked;
use std::alloc::{AllocError, Global};
use zarr_codecs_arrays::{ArrayBytes, CodecError, Elements, takes_all_bytes};
use zarr_codecs_regions::{WholeValues, are_below, is_inside};
use zarr_codecs_traits::{
    ArrayPart, ArrayToBytesCodecTraits, BytesPartialDecoderTraits, BytesPartialEncoderTraits,
    BytesRepresentation, Indexer, ValuePatches,
};
use zarr_codecs_types::DataType;
use zarr_grids_boxes::ArraySubset;
use zarr_grids_boxes::walk::count_places;

/// Which byte of a component comes first: the lowest, or the highest.
#[derive(Clone, Copy, Debug, PartialEq, Eq)]
pub enum Endianness {
    Little,
    Big,
}

impl Endianness {
    ghost use Rattle.std.specs.Prelude.{◌≡◌};

    /// The order in which elements are in memory: the lowest byte first.
    pub fn native() -> Endianness
        ensures { result ≡ Endianness.Little }
    {
        Self::Little
    }
}

/// The codec `bytes` (Zarr core specification, "Bytes codec"): elements row-major, the bytes of
/// each component in one order. Without an order it suits types whose components have one byte.
#[derive(Clone, Copy, Debug, PartialEq, Eq)]
pub struct BytesCodec {
    pub endian: Option<Endianness>,
}

/// What `bytes` is configured by: the order of the bytes of each component, if it has one.
#[derive(Clone, Copy, Debug, PartialEq, Eq)]
pub struct BytesCodecConfiguration {
    pub endian: Option<Endianness>,
}

impl BytesCodec {
    ghost use Rattle.std.specs.Prelude.{◌≡◌, ◌≤◌, ◌+◌, ◌<◌, ◌%◌, [], Some, option_map, length, true, IfOk, IsTrue};
    ghost use Rattle.zarr_grids_boxes.specs.Subsets.{region_of};
    ghost use Rattle.zarr_codecs_arrays.specs.Views.{elements_of, payload_of};
    ghost use Rattle.zarr_codecs_traits.specs.Indexers.{in_box, listed};
    ghost use Rattle.zarr_codecs_traits.specs.Arrays.{coded_part};
    ghost use Rattle.zarr_codecs_traits.specs.Outcomes.{DecodesPart};
    ghost use Rattle.zarr_codecs_traits.specs.PartEncoding.{EncodesPart};
    ghost use Rattle.zarr_codecs_traits.specs.ReadBytes.{most_read};
    ghost use Rattle.zarr_codecs_traits.specs.Sources.{refused_after};
    ghost use Rattle.zarr_codecs_meaning.specs.Types.{components, bytes_in};
    ghost use Rattle.zarr_codecs_meaning.specs.Fits.{fits};
    ghost use Rattle.zarr_codecs_types.specs.Views.{type_of};
    ghost use Rattle.zarr_codecs_bytes.specs.Orders.{all_ordered};
    ghost use Rattle.zarr_codecs_bytes.specs.Views.{order_of, bytes_chain};

    /// `bytes` with a byte order, or without one.
    pub fn new(endian: Option<Endianness>) -> BytesCodec
        ensures { result.endian ≡ endian }
    {
        BytesCodec { endian }
    }

    /// `bytes` with the lowest byte first.
    pub fn little() -> BytesCodec
        ensures { result.endian ≡ Some Endianness.Little }
    {
        BytesCodec::new(Some(Endianness::Little))
    }

    /// `bytes` with the highest byte first.
    pub fn big() -> BytesCodec
        ensures { result.endian ≡ Some Endianness.Big }
    {
        BytesCodec::new(Some(Endianness::Big))
    }

    /// `bytes` as a configuration gives it.
    pub fn new_with_configuration(configuration: BytesCodecConfiguration) -> BytesCodec
        ensures { result.endian ≡ configuration.endian }
    {
        BytesCodec::new(configuration.endian)
    }

    /// The codec's configuration, of which `new_with_configuration` makes an equal codec.
    pub fn configuration(self) -> BytesCodecConfiguration
        ensures { result.endian ≡ self.endian }
    {
        BytesCodecConfiguration {
            endian: self.endian,
        }
    }

    /// Whether it suits arrays of a data type, of whatever shape.
    pub(crate) fn suits(self, data_type: &DataType) -> bool
        ensures { result ≡ fits (bytes_chain self) (type_of data_type.now) [] }
    {
        data_type.is_fixed() && (self.endian.is_some() || have_one_byte(data_type))
    }

    /// Elements of one size with the bytes of each component in the codec's order. The same undoes
    /// it.
    pub(crate) fn ordered(
        self,
        alloc: Global,
        data_type: &DataType,
        bytes: Vec<u8>,
    ) -> Result<Vec<u8>, AllocError>
        requires positive { 0 < bytes_in (components (type_of data_type.now)) }
        requires whole { length bytes.items % bytes_in (components (type_of data_type.now)) ≡ 0 }
        ensures { IfOk result (λ v. v.items ≡ all_ordered (option_map order_of self.endian)
            (components (type_of data_type.now)) bytes.items) }
    {
        match self.endian {
            None => Ok(bytes),
            Some(endian) => match endian {
                Endianness::Little => Ok(bytes),
                Endianness::Big => swapped(alloc, data_type, bytes),
            },
        }
    }

    /// The elements of a box of an array, of the value that a source holds.
    fn decode_box<D: BytesPartialDecoderTraits>(
        self,
        alloc: Global,
        source: &mut D,
        array: ArrayPart<'_>,
        region: &ArraySubset,
    ) -> Result<ArrayBytes, CodecError>
        ensures part { IsTrue (D.is_honest source.old) → DecodesPart
            (coded_part (bytes_chain self) array.entry) (D.contents source.old)
            (in_box (region_of region.now)) result }
        ensures refused { D.refused_calls source.new ≡
            refused_after (D.refused_calls source.old) result }
        ensures given { IsTrue (D.is_honest source.old) → D.given_bytes source.new
            ≤ D.given_bytes source.old + most_read (bytes_chain self)
            (elements_of array.entry.elements.now).type array.entry.shape.now
            (D.contents source.old) (in_box (region_of region.now)) }
        ensures follows { D.follows source.old source.new }
    {
        let (elements, shape) = (array.elements, array.shape);
        if !self.suits(elements.data_type()) {
            return Err(CodecError::Fit);
        }
        if !is_inside(shape, region) {
            return Err(CodecError::IncompatibleIndexer);
        }
        let part = BoxPart {
            elements,
            shape,
            region,
        };
        read_part(alloc, source, self, part)
    }

    /// The elements with some numbers, of the value that a source holds.
    fn decode_listed<D: BytesPartialDecoderTraits>(
        self,
        alloc: Global,
        source: &mut D,
        array: ArrayPart<'_>,
        numbers: &[u64],
    ) -> Result<ArrayBytes, CodecError>
        ensures part { IsTrue (D.is_honest source.old) → DecodesPart
            (coded_part (bytes_chain self) array.entry) (D.contents source.old) (listed numbers.now)
            result }
        ensures refused { D.refused_calls source.new ≡
            refused_after (D.refused_calls source.old) result }
        ensures given { IsTrue (D.is_honest source.old) → D.given_bytes source.new
            ≤ D.given_bytes source.old + most_read (bytes_chain self)
            (elements_of array.entry.elements.now).type array.entry.shape.now
            (D.contents source.old) (listed numbers.now) }
        ensures follows { D.follows source.old source.new }
    {
        let (elements, shape) = (array.elements, array.shape);
        if !self.suits(elements.data_type()) {
            return Err(CodecError::Fit);
        }
        let Some(count) = count_places(shape) else {
            return Err(CodecError::Size);
        };
        if !are_below(numbers, count) {
            return Err(CodecError::IncompatibleIndexer);
        }
        let part = ListedPart {
            elements,
            shape,
            numbers,
        };
        read_listed(alloc, source, self, part)
    }

    /// The ranges to be written into a value so that the elements of a box are replaced.
    fn encode_box(
        self,
        alloc: Global,
        bytes: ArrayBytes,
        array: ArrayPart<'_>,
        region: &ArraySubset,
    ) -> Result<Option<ValuePatches>, CodecError>
        ensures { EncodesPart (coded_part (bytes_chain self) array.entry) true
            (region_of region.now) (payload_of bytes) result }
    {
        let (elements, shape) = (array.elements, array.shape);
        if !self.suits(elements.data_type()) {
            return Err(CodecError::Fit);
        }
        if is_inside(shape, region) {
            let part = BoxPart {
                elements,
                shape,
                region,
            };
            replace_part(alloc, self, bytes, part)
        } else {
            Err(CodecError::IncompatibleIndexer)
        }
    }
}

impl Default for BytesCodec {
    ghost use Rattle.std.specs.Prelude.{◌≡◌, Some};
    ghost use Rattle.zarr_codecs_bytes.specs.declared.bytes.Endianness.TheVariants.{Little};

    ghost is_default = { λ codec. codec.endian ≡ Some Little };

    fn default() -> Self {
        BytesCodec::new(Some(Endianness::native()))
    }
}

impl ArrayToBytesCodecTraits for BytesCodec {
    ghost use Rattle.std.specs.Prelude.{◌≡◌, refl, true};
    ghost use Rattle.zarr_codecs_bytes.specs.Views.{bytes_chain};

    ghost meaning = { bytes_chain };

    ghost is_function = { λ codec. true };

    ghost copied = { λ codec copy. copy ≡ codec };

    fn encoding_is_function(&self) -> bool {
        true
    }

    fn fits(&self, _: Global, data_type: &DataType, _: &[u64]) -> Result<bool, AllocError> {
        Ok(self.suits(data_type))
    }

    fn encode_in_order(
        &self,
        alloc: Global,
        bytes: ArrayBytes,
        elements: &Elements,
        shape: &[u64],
    ) -> Result<Vec<u8>, CodecError> {
        let data_type = elements.data_type();
        if !self.suits(data_type) {
            return Err(CodecError::Fit);
        }
        let Some(count) = count_places(shape) else {
            return Err(CodecError::Size);
        };
        if let Err(error) = bytes.validate(data_type, count) {
            return Err(error);
        }
        match bytes {
            ArrayBytes::Fixed(bytes) => Ok(self.ordered(alloc, data_type, bytes)?),
            ArrayBytes::Variable(_bytes, _offsets) => Err(CodecError::ExpectedFixedLengthBytes),
            ArrayBytes::Optional(_inner, _mask) => Err(CodecError::ExpectedFixedLengthBytes),
        }
    }

    fn decode_in_order(
        &self,
        alloc: Global,
        value: Vec<u8>,
        elements: &Elements,
        shape: &[u64],
    ) -> Result<ArrayBytes, CodecError> {
        let data_type = elements.data_type();
        if !self.suits(data_type) {
            return Err(CodecError::Fit);
        }
        let count = match whole_count(data_type, shape, value.as_slice()) {
            Ok(count) => count,
            Err(error) => return Err(error),
        };
        let bytes = ArrayBytes::Fixed(self.ordered(alloc, data_type, value)?);
        match bytes.validate(data_type, count) {
            Ok(()) => Ok(bytes),
            Err(_) => Err(CodecError::Damage),
        }
    }

    fn encoded_representation(
        &self,
        _: Global,
        data_type: &DataType,
        shape: &[u64],
    ) -> Result<BytesRepresentation, CodecError> {
        if !self.suits(data_type) {
            return Err(CodecError::Fit);
        }
        let Some(count) = count_places(shape) else {
            return Err(CodecError::Size);
        };
        match byte_count(data_type, count) {
            Ok(size) => Ok(BytesRepresentation::FixedSize(size)),
            Err(error) => Err(error),
        }
    }

    fn partial_decoder_capability(&self) -> bool {
        true
    }

    fn partial_encoder_capability(&self) -> bool {
        true
    }

    fn encodes_as_is(&self) -> bool {
        match self.endian {
            Some(Endianness::Big) => false,
            _ => true,
        }
    }

    fn partial_decode_granularity(
        &self,
        alloc: Global,
        shape: &[u64],
    ) -> Result<Vec<u64>, AllocError> {
        shape.to_vec(alloc)
    }

    fn partial_decode_in_order<D: BytesPartialDecoderTraits>(
        &self,
        alloc: Global,
        source: &mut D,
        part: ArrayPart<'_>,
    ) -> Result<ArrayBytes, CodecError> {
        match part.indexer {
            Indexer::Subset(region) => self.decode_box(alloc, source, part, region),
            Indexer::List(numbers) => self.decode_listed(alloc, source, part, numbers),
        }
    }

    fn takes_patches(&self, data_type: &DataType) -> bool {
        self.suits(data_type) && takes_all_bytes(data_type)
    }

    fn encode_patches(
        &self,
        alloc: Global,
        bytes: ArrayBytes,
        part: ArrayPart<'_>,
    ) -> Result<Option<ValuePatches>, CodecError> {
        match part.indexer {
            Indexer::Subset(region) => self.encode_box(alloc, bytes, part, region),
            Indexer::List(_numbers) => Ok(None),
        }
    }

    fn partial_encode_in_order<E: BytesPartialEncoderTraits>(
        &self,
        alloc: Global,
        source: &mut E,
        bytes: ArrayBytes,
        part: ArrayPart<'_>,
    ) -> Result<(), CodecError> {
        write_asked(alloc, source, *self, bytes, part)
    }

    fn compact_in_order(
        &self,
        _: Global,
        _: &[u8],
        elements: &Elements,
        _: &[u64],
    ) -> Result<Option<Vec<u8>>, CodecError> {
        if !self.suits(elements.data_type()) {
            return Err(CodecError::Fit);
        }
        Ok(None)
    }

    fn try_clone(&self, _: Global) -> Result<BytesCodec, AllocError> {
        Ok(*self)
    }

    ghost lawful = { λ codec. tt };

    ghost plain = { λ codec is. refl };
}

impl WholeValues for BytesCodec {
    ghost use Rattle.std.specs.Prelude.{true};
    ghost use Rattle.zarr_codecs_bytes.specs.Views.{bytes_chain};

    ghost meaning = { bytes_chain };

    ghost is_function = { λ codec. true };

    fn fits_array(
        &self,
        alloc: Global,
        data_type: &DataType,
        shape: &[u64],
    ) -> Result<bool, AllocError> {
        self.fits(alloc, data_type, shape)
    }

    fn encode_array(
        &self,
        alloc: Global,
        bytes: ArrayBytes,
        elements: &Elements,
        shape: &[u64],
    ) -> Result<Vec<u8>, CodecError> {
        self.encode_in_order(alloc, bytes, elements, shape)
    }

    fn decode_value(
        &self,
        alloc: Global,
        value: Vec<u8>,
        elements: &Elements,
        shape: &[u64],
    ) -> Result<ArrayBytes, CodecError> {
        self.decode_in_order(alloc, value, elements, shape)
    }

    fn keeps_fill(&self) -> bool {
        true
    }

    ghost lawful = { λ codec. tt };
}
