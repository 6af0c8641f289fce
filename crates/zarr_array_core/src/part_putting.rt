//! A part of a chunk put into its value, of which other elements aren't decoded.
ghost use Rattle.std.specs.Prelude.{◌≡◌, Some, true, IfSome};
ghost use Rattle.zarr_array_core.specs.ChunkValues.{IsPutRefusal, put_refusal_of};
ghost use Rattle.zarr_array_storage.specs.Stores.{value_bytes};
ghost use Rattle.zarr_codecs_meaning.specs.Types.{are_bytes};
ghost use Rattle.zarr_codecs_traits.specs.Sources.{source_contents};

use crate::array_core::ArrayCore;
use crate::chunk_value::BoxWrite;
use crate::error::ChunkError;
use crate::moving::{overlap_in, seen_from};
use crate::plain_bytes::as_plain_bytes;
use crate::rooms::ChunkRooms;
use crate::store_calls::{get, set};
use std::thread::Threads;
use zarr_array_storage::WritableStorageTraits;
use zarr_codecs_arrays::{ArrayBytes, CodecError};
use zarr_codecs_traits::{ArrayPart, ArrayToBytesCodecTraits, Indexer, MemorySource};
use zarr_grids_boxes::ArraySubset;
use zarr_grids_boxes::walk::count_places;
use zarr_grids_keys::StoreKey;

/// Why elements are not put into a chunk's value where its codecs refuse.
fn of_putting(error: CodecError) -> ChunkError
    requires { IsPutRefusal error }
    ensures { result ≡ put_refusal_of error }
{
    match error {
        CodecError::Damage => ChunkError::Damage,
        CodecError::Memory => ChunkError::Memory,
        _ => unreachable!(),
    }
}

/// A source of what is stored for a chunk.
fn source_of(stored: Option<Vec<u8>>) -> MemorySource
    ensures contents { source_contents result ≡ value_bytes stored }
    ensures bytes { IfSome (value_bytes stored) (λ value. are_bytes value ≡ true) }
{
    match stored {
        Some(value) => source_of_value(value),
        None => MemorySource::new(None),
    }
}

/// A source of a value.
fn source_of_value(value: Vec<u8>) -> MemorySource
    ensures contents { source_contents result ≡ Some value.items }
    ensures bytes { are_bytes value.items ≡ true }
{
    MemorySource::new(Some(value))
}

impl<C: ArrayToBytesCodecTraits + Sync> ArrayCore<C> {
    ghost use Rattle.std.specs.Prelude.{◌≡◌, List, Some, None, true, false, IsTrue, IfOk, OnOk, IfErr};
    ghost use Rattle.std.specs.FinMap as map;
    ghost use Rattle.zarr_array_core.specs.Arrays.{array_of, Called, IfHonestErr, OnHonestOk};
    ghost use Rattle.zarr_array_core.specs.ChunkValues.{ChangeStops, ChangesValue, PutsCells, PutStops, plain_elements, plain_write};
    ghost use Rattle.zarr_array_core.specs.IntoShards.{ChangesAt};
    ghost use Rattle.zarr_array_core.specs.BoxWrites.{write_of, WritesTo};
    ghost use Rattle.zarr_array_core.specs.Views.{document_of};
    ghost use Rattle.zarr_array_meaning.specs.Chunks.{fits_box, holds_box};
    ghost use Rattle.zarr_array_meaning.specs.ElementBytes.{KeepsBytes};
    ghost use Rattle.zarr_array_meaning.specs.Writing.{is_in_part};
    ghost use Rattle.zarr_array_storage.specs.Stores.{value_bytes};
    ghost use Rattle.zarr_codecs_arrays.specs.Views.{payload_of};
    ghost use Rattle.zarr_codecs_meaning.specs.Chunks.{chunk_decoded};
    ghost use Rattle.zarr_codecs_meaning.specs.Types.{Cell, is_fixed};
    ghost use Rattle.zarr_codecs_traits.specs.Indexers.{in_box};
    ghost use Rattle.zarr_codecs_traits.specs.Arrays.{coded, update_of};
    ghost use Rattle.zarr_codecs_traits.specs.PartWriting.{IsEncodedInto, NotEncodedInto};
    ghost use Rattle.zarr_codecs_traits.specs.Sources.{refused_after as refused_calls, source_contents};
    ghost use Rattle.zarr_grids_boxes.specs.Subsets.{region_of};
    ghost use Rattle.zarr_grids_overlay.specs.Overlays.{extent_of};

    /// Puts elements in the place of those of a box of a chunk of this shape, in the value that a
    /// source holds. They are put as plain bytes, so that the bytes of the others stay, whatever
    /// they are.
    fn encode_into<R>(
        &self,
        source: &mut MemorySource,
        write: &BoxWrite<R>,
        given: ArrayBytes,
        shape: &[u64],
        part: &ArraySubset,
    ) -> Result<(), CodecError>
        requires fixed { is_fixed (document_of C.meaning self.now).elements.type ≡ true }
        ensures ok { OnOk result ((cells : List Cell) × IsEncodedInto
            (coded (document_of C.meaning self.now).chain
            (plain_elements (document_of C.meaning self.now).elements) shape.now)
            (C.is_function self.now.codecs) (update_of (in_box (region_of part.now))
            (payload_of given) (source_contents source.old)) cells (source_contents source.new)) }
        ensures cause { NotEncodedInto (coded (document_of C.meaning self.now).chain
            (plain_elements (document_of C.meaning self.now).elements) shape.now)
            (update_of (in_box (region_of part.now)) (payload_of given)
            (source_contents source.old)) result }
        ensures refused { refused_calls 0 result ≡ 0 }
    {
        let plain = as_plain_bytes(write.alloc, &self.elements)?;
        let elements = &plain;
        let indexer = Indexer::Subset(part);
        let asked = ArrayPart {
            elements,
            shape,
            indexer,
        };
        self.codecs
            .partial_encode_in_order(write.alloc, source, given, asked)
    }

    /// Puts the elements of a box that lie in a chunk into the value that a source holds for it, as
    /// plain bytes.
    fn put_into<R>(
        &self,
        rooms: &mut ChunkRooms,
        source: &mut MemorySource,
        write: &BoxWrite<R>,
        own: &ArraySubset,
    ) -> Result<(), ChunkError>
        requires writes { WritesTo self.now write.now own.now }
        requires fit { fits_box (array_of C.ArrayToBytesCodecTraits self.now).document
            (region_of own.now) ≡ true }
        requires in_part { is_in_part (array_of C.ArrayToBytesCodecTraits self.now).document
            write.now.options.now (write_of C.ArrayToBytesCodecTraits self.now write.now).region
            (region_of own.now) ≡ true }
        ensures ok { OnOk result (PutsCells
            (plain_write (write_of C.ArrayToBytesCodecTraits self.now write.now))
            (region_of own.now) (source_contents source.old) (source_contents source.new)) }
        ensures err { IfErr result (PutStops (document_of C.meaning self.now)
            (region_of own.now) (source_contents source.old)) }
    {
        let shared = overlap_in(rooms.take_shared(), write.subset, own)?;
        let bytes = self.whole_cells(write, &shared)?;
        let part = seen_from(shared, own.start());
        match self.encode_into(source, write, bytes, own.shape(), &part) {
            Ok(()) => Ok(()),
            Err(error) => Err(of_putting(error)),
        }
    }

    /// What is stored for a chunk after the elements of a box that lie in it were put there: its
    /// other elements keep their bytes. Where the codecs leave no value, it is the fill value
    /// encoded.
    fn value_with_part<R: Threads + Sync>(
        &self,
        rooms: &mut ChunkRooms,
        write: &BoxWrite<R>,
        own: &ArraySubset,
        stored: Option<Vec<u8>>,
    ) -> Result<Vec<u8>, ChunkError>
        requires writes { WritesTo self.now write.now own.now }
        requires fit { fits_box (array_of C.ArrayToBytesCodecTraits self.now).document
            (region_of own.now) ≡ true }
        requires in_part { is_in_part (array_of C.ArrayToBytesCodecTraits self.now).document
            write.now.options.now (write_of C.ArrayToBytesCodecTraits self.now write.now).region
            (region_of own.now) ≡ true }
        ensures ok { IfOk result (λ value. PutsCells
            (write_of C.ArrayToBytesCodecTraits self.now write.now) (region_of own.now)
            (value_bytes stored) (Some value.items)) }
        ensures bytes { IfOk result (λ value. KeepsBytes
            (write_of C.ArrayToBytesCodecTraits self.now write.now) (region_of own.now)
            (value_bytes stored) (Some value.items)) }
        ensures err { IfErr result (PutStops (document_of C.meaning self.now)
            (region_of own.now) (value_bytes stored)) }
    {
        let mut source = source_of(stored);
        self.put_into(rooms, &mut source, write, own)?;
        match source.into_value() {
            Some(value) => Ok(value),
            None => {
                let count = count_places(own.shape()).unwrap();
                let fill = self.fill_elements(write.alloc, count)?;
                self.encode_value(&write.coding(), own.shape(), fill)
            }
        }
    }

    /// Puts the elements of a box that lie in a chunk into what is stored for the chunk, which
    /// isn't decoded, if the chunk is written in part.
    pub(crate) fn put_part<R: Threads + Sync, S: WritableStorageTraits>(
        &self,
        rooms: &mut ChunkRooms,
        store: &mut S,
        key: &StoreKey,
        write: &BoxWrite<R>,
        own: &ArraySubset,
    ) -> Result<(), ChunkError>
        requires writes { WritesTo self.now write.now own.now }
        requires fit { fits_box (array_of C.ArrayToBytesCodecTraits self.now).document
            (region_of own.now) ≡ true }
        requires part { IsTrue (S.is_honest store.old) →
            holds_box (extent_of write.now.region) (region_of own.now) ≡ false }
        requires lost { IsTrue (S.is_honest store.old) →
            chunk_decoded (document_of C.meaning self.now).chain
            (document_of C.meaning self.now).elements own.now.shape.items
            (map.get (S.held store.old) key.now) ≡ None }
        ensures ok { OnHonestOk S.ReadableStorageTraits store.old store.new result
            (ChangesAt key.now (ChangesValue
            (write_of C.ArrayToBytesCodecTraits self.now write.now) (region_of own.now))) }
        ensures err { IfHonestErr S.ReadableStorageTraits store.old store.new result
            (λ e before _. ChangeStops (write_of C.ArrayToBytesCodecTraits self.now write.now)
            (region_of own.now) (map.get before key.now) e) }
        ensures store { Called S.ReadableStorageTraits 1 store.old store.new result }
    {
        if !self.is_in_part(write, own)? {
            return Err(ChunkError::Damage);
        }
        let stored = get(store, key)?;
        let value = self.value_with_part(rooms, write, own, stored)?;
        set(store, key, value.as_slice())
    }
}
