//! The elements of one chunk before and after a write, and the value that stands for them.
ghost use Rattle.std.specs.Prelude.{◌≡◌};
ghost use Rattle.zarr_array_core.specs.ChunkValues.{IsRefusal, refusal_of};
ghost use Rattle.zarr_array_core.specs.PartWrites.{tells_size};
ghost use Rattle.zarr_grids_boxes.specs.Subsets.{region_of};
ghost use Rattle.zarr_grids_overlay.specs.Overlays.{extent_of};

use crate::array_core::ArrayCore;
use crate::error::ChunkError;
use crate::holding::holds_box;
use std::alloc::Global;
use std::thread::Threads;
use zarr_array_elements::{put_over, take_out};
use zarr_codecs_arrays::{ArrayBytes, CodecError};
use zarr_codecs_options::CodecOptions;
use zarr_codecs_traits::{ArrayToBytesCodecTraits, BytesRepresentation, WholeArray};
use zarr_grids_boxes::ArraySubset;
use zarr_grids_boxes::walk::count_places;
use zarr_grids_overlay::Extent;

/// A write of a box: where it is, its elements, row-major, one after another, and how they are
/// stored. What is made takes memory of `alloc`; workers are threads of `rt`.
#[derive(Drop)]
pub(crate) struct BoxWrite<'r, 'b, 'o, R> {
    pub rt: &'o R,
    pub alloc: Global,
    pub subset: &'r ArraySubset,
    pub region: Extent<'r>,
    pub bytes: &'b ArrayBytes,
    pub options: &'o CodecOptions,
    ghost same_box: { region_of subset.now ≡ extent_of region },
}

/// What encoding and decoding values takes: the runtime, memory and options.
#[derive(Drop)]
pub(crate) struct Coding<'o, R> {
    pub rt: &'o R,
    pub alloc: Global,
    pub options: &'o CodecOptions,
}

impl<'o, R> BoxWrite<'_, '_, 'o, R> {
    /// What encoding and decoding the chunks' values takes.
    pub(crate) fn coding(&self) -> Coding<'o, R> {
        Coding {
            rt: self.rt,
            alloc: self.alloc,
            options: self.options,
        }
    }
}

/// Whether a size is told, and not a bound or nothing.
fn tells_size(told: BytesRepresentation) -> bool
    ensures { result ≡ tells_size told }
{
    match told {
        BytesRepresentation::FixedSize(_) => true,
        BytesRepresentation::BoundedSize(_) => false,
        BytesRepresentation::UnboundedSize => false,
    }
}

/// Why a chunk is not written where its codecs refuse to encode it.
fn of_encoding(error: CodecError) -> ChunkError
    requires { IsRefusal error }
    ensures { result ≡ refusal_of error }
{
    match error {
        CodecError::Codec => ChunkError::Codec,
        CodecError::Size => ChunkError::Size,
        CodecError::Memory => ChunkError::Memory,
        _ => unreachable!(),
    }
}

impl<C: ArrayToBytesCodecTraits + Sync> ArrayCore<C> {
    ghost use Rattle.std.specs.Prelude.{◌≡◌, ◌*◌, ◌<◌, ℕ, List, Option, true, length, replicate, IfOk, IfErr, IsTrue, Some};
    ghost use Rattle.std.specs.List.{list_all};
    ghost use Rattle.zarr_array_core.specs.Arrays.{array_of};
    ghost use Rattle.zarr_array_core.specs.BoxWrites.{write_of};
    ghost use Rattle.zarr_array_core.specs.ChunkValues.{CellsBecome, DecodeStops, EncodeRefuses, EncodeStops, IsNewValue};
    ghost use Rattle.zarr_array_core.specs.IntoShards.{IntoUnknown};
    ghost use Rattle.zarr_array_core.specs.Views.{array_cells, AreSoMany, document_of, is_exact};
    ghost use Rattle.zarr_array_core.specs.declared.error.ChunkError.TheVariants.{Memory};
    ghost use Rattle.zarr_array_meaning.specs.Writing.{is_in_part, is_into_shard, may_be_in_part, stores_fill};
    ghost use Rattle.zarr_array_meaning.specs.Chunks.{fits_box, holds_box};
    ghost use Rattle.zarr_array_storage.specs.Stores.{value_bytes};
    ghost use Rattle.zarr_codecs_meaning.specs.Chunks.{chunk_decoded};
    ghost use Rattle.zarr_codecs_meaning.specs.Decoding.{decoded};
    ghost use Rattle.zarr_codecs_meaning.specs.Encoding.{encoded};
    ghost use Rattle.zarr_codecs_meaning.specs.Fits.{fits, is_lossless};
    ghost use Rattle.zarr_codecs_meaning.specs.Standing.{Stands};
    ghost use Rattle.zarr_codecs_meaning.specs.Types.{is_value, is_fill, IsTooLarge};
    ghost use Rattle.zarr_grids_boxes.specs.Boxes.{product, share_place};
    ghost use Rattle.zarr_grids_boxes.specs.Subsets.{region_of};
    ghost use Rattle.zarr_grids_overlay.specs.Overlays.{extent_of};

    /// The elements that a chunk's value is decoded to.
    pub(crate) fn decode_value<R: Threads + Sync>(
        &self,
        coding: &Coding<R>,
        value: Vec<u8>,
        shape: &[u64],
    ) -> Result<ArrayBytes, ChunkError>
        requires small { ¬ IsTooLarge (document_of C.meaning self.now).elements.type
            (product shape.now) }
        requires fit { fits (document_of C.meaning self.now).chain
            (document_of C.meaning self.now).elements.type shape.now ≡ true }
        ensures ok { IfOk result (λ bytes. decoded (document_of C.meaning self.now).chain
            (document_of C.meaning self.now).elements shape.now value.items
            ≡ Some (array_cells self.now bytes)) }
        ensures counted { IfOk result
            (λ bytes. AreSoMany self.now bytes (product shape.now)) }
        ensures err { IfErr result
            (DecodeStops (document_of C.meaning self.now) shape.now (Some value.items)) }
    {
        let (rt, elements) = (coding.rt, &self.elements);
        let array = WholeArray { elements, shape };
        match self
            .codecs
            .decode(rt, coding.alloc, value, array, coding.options)
        {
            Ok(bytes) => Ok(bytes),
            Err(CodecError::Damage) => Err(ChunkError::Damage),
            Err(CodecError::Memory) => Err(ChunkError::Memory),
            _ => unreachable!(),
        }
    }

    /// The elements that what is stored for a chunk is decoded to.
    fn decode_chunk<R: Threads + Sync>(
        &self,
        write: &BoxWrite<R>,
        shape: &[u64],
        stored: Option<Vec<u8>>,
    ) -> Result<ArrayBytes, ChunkError>
        requires small { ¬ IsTooLarge (document_of C.meaning self.now).elements.type
            (product shape.now) }
        requires fit { fits (document_of C.meaning self.now).chain
            (document_of C.meaning self.now).elements.type shape.now ≡ true }
        ensures ok { IfOk result (λ bytes. chunk_decoded (document_of C.meaning self.now).chain
            (document_of C.meaning self.now).elements shape.now (value_bytes stored)
            ≡ Some (array_cells self.now bytes)) }
        ensures counted { IfOk result
            (λ bytes. AreSoMany self.now bytes (product shape.now)) }
        ensures err { IfErr result
            (DecodeStops (document_of C.meaning self.now) shape.now (value_bytes stored)) }
    {
        match stored {
            Some(value) => self.decode_value(&write.coding(), value, shape),
            None => self.fill_elements(write.alloc, count_places(shape).unwrap()),
        }
    }

    /// The elements of a chunk that lies in the box of a write.
    pub(crate) fn whole_cells<R>(
        &self,
        write: &BoxWrite<R>,
        own: &ArraySubset,
    ) -> Result<ArrayBytes, ChunkError>
        requires small { ¬ IsTooLarge (document_of C.meaning self.now).elements.type
            (product own.now.shape.items) }
        requires some { 0 < product own.now.shape.items }
        requires rank { length write.now.region.start.now ≡ length own.now.start.items }
        requires many { AreSoMany self.now write.now.bytes.now
            (product write.now.region.shape.now) }
        requires values { list_all (is_value (document_of C.meaning self.now).elements.type)
            (array_cells self.now write.now.bytes.now) ≡ true }
        requires holds { holds_box (extent_of write.now.region) (region_of own.now) ≡ true }
        ensures ok { IfOk result (λ bytes. (stored : Option (List ℕ)) → CellsBecome
            (write_of C.ArrayToBytesCodecTraits self.now write.now) (region_of own.now) stored
            (array_cells self.now bytes)) }
        ensures counted { IfOk result
            (λ bytes. AreSoMany self.now bytes (product own.now.shape.items)) }
        ensures err { IfErr result (λ e. e ≡ Memory) }
    {
        Ok(take_out(write.alloc, write.bytes, write.subset, own, &self.elements)?)
    }

    /// The elements of a chunk after a write put those of its box over the stored ones.
    pub(crate) fn part_cells<R: Threads + Sync>(
        &self,
        write: &BoxWrite<R>,
        own: &ArraySubset,
        stored: Option<Vec<u8>>,
    ) -> Result<ArrayBytes, ChunkError>
        requires small { ¬ IsTooLarge (document_of C.meaning self.now).elements.type
            (product own.now.shape.items) }
        requires fit { fits (document_of C.meaning self.now).chain
            (document_of C.meaning self.now).elements.type own.now.shape.items ≡ true }
        requires shares { share_place own.now.start.items own.now.shape.items
            write.now.region.start.now write.now.region.shape.now ≡ true }
        requires rank { length write.now.region.start.now ≡ length own.now.start.items }
        requires many { AreSoMany self.now write.now.bytes.now
            (product write.now.region.shape.now) }
        requires values { list_all (is_value (document_of C.meaning self.now).elements.type)
            (array_cells self.now write.now.bytes.now) ≡ true }
        ensures ok { IfOk result (λ bytes. CellsBecome
            (write_of C.ArrayToBytesCodecTraits self.now write.now) (region_of own.now)
            (value_bytes stored) (array_cells self.now bytes)) }
        ensures counted { IfOk result
            (λ bytes. AreSoMany self.now bytes (product own.now.shape.items)) }
        ensures err { IfErr result (DecodeStops (document_of C.meaning self.now)
            own.now.shape.items (value_bytes stored)) }
    {
        let before = self.decode_chunk(write, own.shape(), stored)?;
        let (alloc, elements) = (write.alloc, &self.elements);
        Ok(put_over(alloc, before, own, write.bytes, write.subset, elements)?)
    }

    /// Whether elements of the array are all the fill value.
    pub(crate) fn is_all_fill(&self, bytes: &ArrayBytes) -> bool
        requires { (count : ℕ) × AreSoMany self.now bytes.now count }
        ensures { result ≡ is_fill (document_of C.meaning self.now).elements.fill
            (array_cells self.now bytes.now) }
    {
        bytes.is_fill_value(&self.elements)
    }

    /// As many elements as asked for that nobody wrote.
    pub(crate) fn fill_elements(&self, alloc: Global, count: u64) -> Result<ArrayBytes, ChunkError>
        requires { ¬ IsTooLarge (document_of C.meaning self.now).elements.type count }
        ensures counted { IfOk result (λ bytes. AreSoMany self.now bytes count) }
        ensures fill { IfOk result (λ bytes. array_cells self.now bytes
            ≡ replicate count (document_of C.meaning self.now).elements.fill) }
        ensures err { IfErr result (λ e. e ≡ Memory) }
    {
        match ArrayBytes::new_fill_value(alloc, &self.elements, count) {
            Ok(bytes) => Ok(bytes),
            Err(CodecError::Memory) => Err(ChunkError::Memory),
            _ => unreachable!(),
        }
    }

    /// The bytes that the elements of a chunk are encoded to.
    pub(crate) fn encode_value<R: Threads + Sync>(
        &self,
        coding: &Coding<R>,
        shape: &[u64],
        bytes: ArrayBytes,
    ) -> Result<Vec<u8>, ChunkError>
        requires small { ¬ IsTooLarge (document_of C.meaning self.now).elements.type
            (product shape.now) }
        requires fit { fits (document_of C.meaning self.now).chain
            (document_of C.meaning self.now).elements.type shape.now ≡ true }
        requires counted { AreSoMany self.now bytes (product shape.now) }
        requires values { list_all (is_value (document_of C.meaning self.now).elements.type)
            (array_cells self.now bytes) ≡ true }
        ensures ok { IfOk result (λ value. is_lossless (document_of C.meaning self.now).chain
            (document_of C.meaning self.now).elements.type ≡ true
            → Stands (document_of C.meaning self.now).chain
            (document_of C.meaning self.now).elements shape.now value.items
            (array_cells self.now bytes)) }
        ensures encodes { IfOk result (λ value. IsTrue (is_exact C.is_function self.now)
            → encoded (document_of C.meaning self.now).chain
            (document_of C.meaning self.now).elements shape.now (array_cells self.now bytes)
            ≡ Some value.items) }
        ensures err { IfErr result (EncodeRefuses (document_of C.meaning self.now) shape.now
            (array_cells self.now bytes)) }
    {
        let (rt, elements) = (coding.rt, &self.elements);
        let array = WholeArray { elements, shape };
        match self
            .codecs
            .encode(rt, coding.alloc, bytes, array, coding.options)
        {
            Ok(value) => Ok(value),
            Err(error) => Err(of_encoding(error)),
        }
    }

    /// Whether a chunk has a value even if all its elements are fill after a write: where it is
    /// written in part, or empty chunks are stored; a shard into which a part is put has none.
    pub(crate) fn stores_fill<R>(
        &self,
        write: &BoxWrite<R>,
        own: &ArraySubset,
    ) -> Result<bool, ChunkError>
        requires rank { length write.now.region.start.now ≡ length own.now.start.items }
        requires small { ¬ IsTooLarge (document_of C.meaning self.now).elements.type
            (product own.now.shape.items) }
        requires fit { fits (document_of C.meaning self.now).chain
            (document_of C.meaning self.now).elements.type own.now.shape.items ≡ true }
        ensures ok { IfOk result (λ stores. stores ≡ stores_fill (document_of C.meaning self.now)
            write.now.options.now (extent_of write.now.region) (region_of own.now)) }
        ensures err { IfErr result (λ e. e ≡ Memory) }
    {
        if !self.may_be_in_part(write, own) {
            return Ok(write.options.store_empty_chunks);
        }
        self.is_in_part(write, own)
    }

    /// Whether a write may encode a chunk in part.
    fn may_be_in_part<R>(&self, write: &BoxWrite<R>, own: &ArraySubset) -> bool
        requires { length write.now.region.start.now ≡ length own.now.start.items }
        ensures { result ≡ may_be_in_part (document_of C.meaning self.now) write.now.options.now
            (extent_of write.now.region) (region_of own.now) }
    {
        let (start, shape) = (own.start(), own.shape());
        write.options.experimental_partial_encoding
            && !holds_box(write.region, Extent { start, shape })
            && self.codecs.partial_encoder_capability()
    }

    /// Whether a chunk is written in part, whatever its other elements are: the write may encode it
    /// so, and the codecs make no shard. Of those that encode in part only these tell the size of
    /// their values.
    pub(crate) fn is_in_part<R>(
        &self,
        write: &BoxWrite<R>,
        own: &ArraySubset,
    ) -> Result<bool, ChunkError>
        requires rank { length write.now.region.start.now ≡ length own.now.start.items }
        requires small { ¬ IsTooLarge (document_of C.meaning self.now).elements.type
            (product own.now.shape.items) }
        requires fit { fits (document_of C.meaning self.now).chain
            (document_of C.meaning self.now).elements.type own.now.shape.items ≡ true }
        ensures ok { IfOk result (λ part. part ≡ is_in_part (document_of C.meaning self.now)
            write.now.options.now (extent_of write.now.region) (region_of own.now)) }
        ensures err { IfErr result (λ e. e ≡ Memory) }
    {
        if !self.may_be_in_part(write, own) {
            return Ok(false);
        }
        let data_type = self.elements.data_type();
        match self
            .codecs
            .encoded_representation(write.alloc, data_type, own.shape())
        {
            Ok(told) => Ok(tells_size(told)),
            Err(CodecError::Size) => Ok(false),
            Err(CodecError::Memory) => Err(ChunkError::Memory),
            _ => unreachable!(),
        }
    }

    /// Whether a write puts a part of a chunk into the chunk's shard: it may encode the chunk in
    /// part, and the codecs make a shard. `Fit` where the chunk doesn't suit its codecs, which is
    /// looked at only where a write may encode it in part.
    pub(crate) fn is_into_shard<R>(
        &self,
        write: &BoxWrite<R>,
        own: &ArraySubset,
    ) -> Result<bool, ChunkError>
        requires rank { length write.now.region.start.now ≡ length own.now.start.items }
        requires small { ¬ IsTooLarge (document_of C.meaning self.now).elements.type
            (product own.now.shape.items) }
        ensures ok { IfOk result (λ into. into ≡ is_into_shard (document_of C.meaning self.now)
            write.now.options.now (extent_of write.now.region) (region_of own.now)) }
        ensures fit { IfOk result (λ into. into ≡ true →
            fits_box (document_of C.meaning self.now) (region_of own.now) ≡ true) }
        ensures err { IfErr result (IntoUnknown (document_of C.meaning self.now)
            (region_of own.now)) }
    {
        if !self.may_be_in_part(write, own) {
            return Ok(false);
        }
        let data_type = self.elements.data_type();
        if !self.codecs.fits(write.alloc, data_type, own.shape())? {
            return Err(ChunkError::Fit);
        }
        Ok(!self.is_in_part(write, own)?)
    }

    /// The value of a chunk with these elements, or `None` where it is to have none: where they are
    /// all fill, and such a chunk isn't stored.
    pub(crate) fn encode_chunk<R: Threads + Sync>(
        &self,
        coding: &Coding<R>,
        shape: &[u64],
        bytes: ArrayBytes,
        store_empty: bool,
    ) -> Result<Option<Vec<u8>>, ChunkError>
        requires small { ¬ IsTooLarge (document_of C.meaning self.now).elements.type
            (product shape.now) }
        requires fit { fits (document_of C.meaning self.now).chain
            (document_of C.meaning self.now).elements.type shape.now ≡ true }
        requires counted { AreSoMany self.now bytes (product shape.now) }
        requires values { list_all (is_value (document_of C.meaning self.now).elements.type)
            (array_cells self.now bytes) ≡ true }
        ensures ok { IfOk result (λ value. IsNewValue (array_of C.ArrayToBytesCodecTraits self.now)
            store_empty shape.now (array_cells self.now bytes) (value_bytes value)) }
        ensures err { IfErr result (EncodeStops (document_of C.meaning self.now)
            store_empty shape.now (array_cells self.now bytes)) }
    {
        if !store_empty && self.is_all_fill(&bytes) {
            return Ok(None);
        }
        let value = self.encode_value(coding, shape, bytes)?;
        Ok(Some(value))
    }
}
