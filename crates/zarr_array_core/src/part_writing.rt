//! A part of a chunk written into its value, of which nothing is fetched.
ghost use Rattle.std.specs.Prelude.{◌≡◌, replicate, IfOk, IfSome};
ghost use Rattle.zarr_codecs_traits.specs.Patches.{patched, patches_of};

use crate::array_core::ArrayCore;
use crate::chunk_value::BoxWrite;
use crate::chunk_writing::put_value;
use crate::error::ChunkError;
use crate::holding::holds_box;
use crate::moving::{overlap_in, seen_from};
use crate::rooms::ChunkRooms;
use crate::store_calls::{set, set_partial, size_key};
use std::alloc::{AllocError, Global};
use std::thread::Threads;
use zarr_array_storage::{ValuePatch, WritableStorageTraits};
use zarr_codecs_arrays::{ArrayBytes, CodecError};
use zarr_codecs_traits::value_patch::{any_ends_past, overwrite_each};
use zarr_codecs_traits::{ArrayPart, ArrayToBytesCodecTraits, Indexer, ValuePatches};
use zarr_codecs_types::Cell;
use zarr_grids_boxes::ArraySubset;
use zarr_grids_boxes::walk::count_places;
use zarr_grids_keys::StoreKey;
use zarr_grids_overlay::{Extent, is_all};

/// Whether a box of an array of this shape has few lines of elements that lie one after another: at
/// most 16, or one for each 32 elements of the array. What is done is the same either way.
fn has_few_lines(part: &ArraySubset, shape: &[u64]) -> bool {
    let (Some(count), Some(all)) = (count_places(part.shape()), count_places(shape)) else {
        return true;
    };
    match part.shape().last() {
        Some(length) if *length > 0 => count / *length <= 16 || count / *length <= all / 32,
        _ => true,
    }
}

/// A value of so many zeros after ranges were written into it, where each of them lies in it.
fn over_zeros(
    alloc: Global,
    size: usize,
    patches: &[ValuePatch<'_>],
) -> Result<Option<Vec<u8>>, AllocError>
    ensures { IfOk result (λ made. IfSome made
        (λ value. value.items ≡ patched (replicate size 0) (patches_of patches.now))) }
{
    if any_ends_past(patches, size) {
        return Ok(None);
    }
    let mut value = vec![in alloc; 0u8; size]?;
    overwrite_each(value.as_mut_slice(), patches);
    Ok(Some(value))
}

impl<C: ArrayToBytesCodecTraits + Sync> ArrayCore<C> {
    ghost use Rattle.std.specs.Prelude.{◌≡◌, ◌*◌, ℕ, Some, None, true, false, length, replicate, IsTrue, IfOk, IfErr, IfSome};
    ghost use Rattle.std.specs.FinMap as map;
    ghost use Rattle.zarr_array_core.specs.Arrays.{array_of, Called, IfHonestErr, OnHonestOk};
    ghost use Rattle.zarr_array_core.specs.Calls.{calls_of};
    ghost use Rattle.zarr_array_core.specs.ChunkValues.{ChangeStops, NewValueStops, MakesValue};
    ghost use Rattle.zarr_array_core.specs.IntoShards.{ChangesAt};
    ghost use Rattle.zarr_array_core.specs.PartWrites.{PatchesChunk};
    ghost use Rattle.zarr_array_core.specs.BoxWrites.{write_of, WritesTo};
    ghost use Rattle.zarr_array_core.specs.Views.{document_of};
    ghost use Rattle.zarr_array_core.specs.declared.error.ChunkError.TheVariants.{Memory};
    ghost use Rattle.zarr_array_meaning.specs.Chunks.{fits_box, holds_box};
    ghost use Rattle.zarr_codecs_arrays.specs.Views.{payload_of};
    ghost use Rattle.zarr_codecs_meaning.specs.Decoding.{decoded};
    ghost use Rattle.zarr_codecs_meaning.specs.Types.{byte_width, IsTooLarge};
    ghost use Rattle.zarr_codecs_traits.specs.Arrays.{coded};
    ghost use Rattle.zarr_codecs_traits.specs.PartEncoding.{EncodesPart, takes_patches};
    ghost use Rattle.zarr_codecs_traits.specs.Patches.{patches_in, patches_of};
    ghost use Rattle.zarr_grids_boxes.specs.Boxes.{product};
    ghost use Rattle.zarr_grids_boxes.specs.Subsets.{region_of};
    ghost use Rattle.zarr_grids_overlay.specs.Overlays.{extent_of};

    /// Whether elements may be written into a chunk's value that nobody reads: a part of the chunk
    /// is to stay, and both the codecs and the store take such writes.
    fn takes_part<R, S: WritableStorageTraits>(
        &self,
        store: &S,
        write: &BoxWrite<R>,
        chunk: Extent,
    ) -> bool
        requires rank { length write.now.region.start.now ≡ length chunk.start.now }
        ensures part { result ≡ true →
            holds_box (extent_of write.now.region) (extent_of chunk.entry) ≡ false }
        ensures takes { result ≡ true → takes_patches (document_of C.meaning self.now).chain
            (document_of C.meaning self.now).elements.type ≡ true }
    {
        store.supports_set_partial()
            && self.codecs.takes_patches(self.elements.data_type())
            && !holds_box(write.region, chunk)
    }

    /// The ranges to be written into a chunk's value so that the elements of a box are put over its
    /// own. `None` where the value is to be written whole: where those elements are all fill and
    /// the chunk may lose its key, or they lie on too many lines to be worth a range each.
    fn chunk_patches<R>(
        &self,
        rooms: &mut ChunkRooms,
        write: &BoxWrite<R>,
        own: &ArraySubset,
    ) -> Result<Option<ValuePatches>, ChunkError>
        requires writes { WritesTo self.now write.now own.now }
        requires fit { fits_box (array_of C.ArrayToBytesCodecTraits self.now).document
            (region_of own.now) ≡ true }
        ensures ok { IfOk result (λ found. IfSome found (λ patches. PatchesChunk
            (write_of C.ArrayToBytesCodecTraits self.now write.now) (region_of own.now)
            (patches_in patches))) }
        ensures err { IfErr result (λ e. e ≡ Memory) }
    {
        let shared = overlap_in(rooms.take_shared(), write.subset, own)?;
        let bytes = self.whole_cells(write, &shared)?;
        let empty = self.stores_fill(write, own)?;
        if !empty && self.is_all_fill(&bytes) {
            return Ok(None);
        }
        let part = seen_from(shared, own.start());
        if !has_few_lines(&part, own.shape()) {
            return Ok(None);
        }
        let made = self.encode_part(write.alloc, bytes, own.shape(), &part);
        rooms.keep_shared(part);
        match made {
            Ok(patches) => Ok(patches),
            Err(_) => Err(ChunkError::Memory),
        }
    }

    /// The ranges to be written into the value of a chunk of this shape so that the elements of a
    /// box of it are replaced.
    fn encode_part<'x>(
        &'x self,
        alloc: Global,
        given: ArrayBytes,
        shape: &'x [u64],
        part: &'x ArraySubset,
    ) -> Result<Option<ValuePatches>, CodecError>
        ensures { EncodesPart (coded (document_of C.meaning self.now).chain
            (document_of C.meaning self.now).elements shape.now) (C.is_function self.now.codecs)
            (region_of part.now) (payload_of given) result }
    {
        let elements = &self.elements;
        let indexer = Indexer::Subset(part);
        let asked = ArrayPart {
            elements,
            shape,
            indexer,
        };
        self.codecs.encode_patches(alloc, given, asked)
    }

    /// How many bytes the value of a chunk of fill has, where all of them are 0.
    fn zeros_of_fill(&self, shape: &[u64]) -> Option<usize>
        requires { ¬ IsTooLarge (document_of C.meaning self.now).elements.type
            (product shape.now) }
        ensures { takes_patches (document_of C.meaning self.now).chain
            (document_of C.meaning self.now).elements.type ≡ true → IfSome result
            (λ size. decoded (document_of C.meaning self.now).chain
            (document_of C.meaning self.now).elements shape.now (replicate size 0)
            ≡ Some (replicate (product shape.now)
            (document_of C.meaning self.now).elements.fill)) }
    {
        let width = self.element_width()?;
        match self.elements.fill_value().as_cell() {
            Cell::Bytes(fill) => {
                if !is_all(fill.as_slice(), 0) {
                    return None;
                }
                Some(count_places(shape).unwrap() as usize * width)
            }
            _ => None,
        }
    }

    /// Writes the elements of a box that lie in a chunk that has no value, where ranges write them
    /// into any value of it. Where a chunk of fill is zeros, they are written into these.
    fn write_new<R: Threads + Sync, S: WritableStorageTraits>(
        &self,
        store: &mut S,
        key: &StoreKey,
        write: &BoxWrite<R>,
        own: &ArraySubset,
        patches: &[ValuePatch<'_>],
    ) -> Result<(), ChunkError>
        requires writes { WritesTo self.now write.now own.now }
        requires fit { fits_box (array_of C.ArrayToBytesCodecTraits self.now).document
            (region_of own.now) ≡ true }
        requires part { holds_box (write_of C.ArrayToBytesCodecTraits self.now write.now).region
            (region_of own.now) ≡ false }
        requires absent { IsTrue (S.is_honest store.old) →
            map.get (S.held store.old) key.now ≡ None }
        requires takes { takes_patches (document_of C.meaning self.now).chain
            (document_of C.meaning self.now).elements.type ≡ true }
        requires patches { PatchesChunk (write_of C.ArrayToBytesCodecTraits self.now write.now)
            (region_of own.now) (patches_of patches.now) }
        ensures ok { OnHonestOk S.ReadableStorageTraits store.old store.new result
            (ChangesAt key.now (MakesValue
            (write_of C.ArrayToBytesCodecTraits self.now write.now) (region_of own.now))) }
        ensures err { IfHonestErr S.ReadableStorageTraits store.old store.new result
            (λ e before _. NewValueStops (write_of C.ArrayToBytesCodecTraits self.now write.now)
            (region_of own.now) (map.get before key.now) e) }
        ensures store { Called S.ReadableStorageTraits 1 store.old store.new result }
    {
        if let Some(size) = self.zeros_of_fill(own.shape()) {
            if let Some(value) = over_zeros(write.alloc, size, patches)? {
                return set(store, key, value.as_slice());
            }
        }
        let bytes = self.part_cells(write, own, None)?;
        let empty = self.stores_fill(write, own)?;
        let value = self.encode_chunk(&write.coding(), own.shape(), bytes, empty)?;
        put_value(store, key, value)
    }

    /// Writes the elements of a box that lie in a chunk into the chunk's value, of which nothing is
    /// fetched. `false` where it can't be written so; then nothing has changed.
    pub(crate) fn patch_chunk<R: Threads + Sync, S: WritableStorageTraits>(
        &self,
        rooms: &mut ChunkRooms,
        store: &mut S,
        key: &StoreKey,
        write: &BoxWrite<R>,
        own: &ArraySubset,
    ) -> Result<bool, ChunkError>
        requires writes { WritesTo self.now write.now own.now }
        ensures ok { IsTrue (S.is_honest store.old) → IfOk result (λ done. done ≡ true →
            ChangesAt key.now (MakesValue (write_of C.ArrayToBytesCodecTraits self.now write.now)
            (region_of own.now)) (S.held store.old) (S.held store.new)) }
        ensures undone { IsTrue (S.is_honest store.old) → IfOk result (λ done. done ≡ false →
            S.held store.new ≡ S.held store.old) }
        ensures err { IfHonestErr S.ReadableStorageTraits store.old store.new result
            (λ e before _. ChangeStops (write_of C.ArrayToBytesCodecTraits self.now write.now)
            (region_of own.now) (map.get before key.now) e) }
        ensures store { Called S.ReadableStorageTraits (calls_of result)
            store.old store.new result }
        ensures uncounted { IfOk result (λ done. done ≡ false →
            S.accepted_writes store.new ≡ S.accepted_writes store.old) }
    {
        let Some(width) = self.element_width() else {
            return Ok(false);
        };
        let (start, shape) = (own.start(), own.shape());
        if !self.takes_part(store, write, Extent { start, shape }) {
            return Ok(false);
        }
        if !self
            .codecs
            .fits(write.alloc, self.elements.data_type(), shape)?
        {
            return Err(ChunkError::Fit);
        }
        let Some(patches) = self.chunk_patches(rooms, write, own)? else {
            return Ok(false);
        };
        let lent = patches.lend(write.alloc)?;
        let Some(size) = size_key(store, key)? else {
            self.write_new(store, key, write, own, lent.as_slice())?;
            return Ok(true);
        };
        if size != count_places(shape).unwrap() * width as u64 {
            return Err(ChunkError::Damage);
        }
        set_partial(store, key, lent.as_slice())?;
        Ok(true)
    }

    /// How many bytes each element takes, where all take as many, and more than none.
    fn element_width(&self) -> Option<usize>
        ensures { IfSome result (λ width. byte_width
            (document_of C.meaning self.now).elements.type ≡ Some width) }
    {
        match self.elements.data_type().byte_width() {
            Some(0) | None => None,
            Some(width) => Some(width),
        }
    }
}
