//! One chunk read.
ghost use Rattle.std.specs.Prelude.{◌≡◌, ℕ, List, true, false};
ghost use Rattle.zarr_codecs_meaning.specs.Types.{Cell};
ghost use Rattle.zarr_codecs_arrays.specs.Outcomes.{IsCounted};
ghost use Rattle.zarr_codecs_arrays.specs.Views.{payload_of, elements_of};
ghost use Rattle.zarr_array_elements.specs.Boxes.{cells_of};
ghost use Rattle.zarr_array_core.specs.Fetching.{IsStopOf};

use crate::array_core::ArrayCore;
use crate::error::ChunkError;
use crate::moving::{overlap_in, seen_from};
use crate::reading::ReadBox;
use crate::rooms::ChunkRooms;
use crate::store_calls::size_key;
use crate::store_source::{StoreSource, refusal_of};
use std::alloc::Global;
use std::marker::Sync;
use std::thread::Threads;
use zarr_array_elements::BoxElements;
use zarr_array_storage::{ReadableStorageTraits, StorageError};
use zarr_codecs_arrays::{ArrayBytes, CodecError, Elements};
use zarr_codecs_traits::{ArrayPart, ArrayToBytesCodecTraits, Indexer};
use zarr_grids_boxes::ArraySubset;
use zarr_grids_boxes::walk::count_places;
use zarr_grids_keys::StoreKey;

/// The elements of a chunk at the places that it shares with a box.
#[derive(Drop)]
pub(crate) struct ChunkPart {
    pub shared: ArraySubset,
    pub bytes: ArrayBytes,
}

/// A chunk in a store: the key of its value, and its box.
#[derive(Clone, Copy)]
pub(crate) struct StoredChunk<'a> {
    pub key: &'a StoreKey,
    pub own: &'a ArraySubset,
}

/// A part of a chunk in a store: the key of its value, its shape, and the box of the places that
/// are asked for, as the chunk numbers them.
#[derive(Clone, Copy)]
pub(crate) struct StoredPart<'a> {
    pub key: &'a StoreKey,
    pub shape: &'a [u64],
    pub part: &'a ArraySubset,
}

/// Whether these are so many elements.
fn are_so_many(bytes: &ArrayBytes, elements: &Elements, count: u64) -> bool
    ensures yes { result ≡ true → IsCounted (elements_of elements.now).type (payload_of bytes.now)
        count (cells_of (elements_of elements.now).type (payload_of bytes.now)) }
    ensures no { result ≡ false → (cells : List Cell)
        → IsCounted (elements_of elements.now).type (payload_of bytes.now) count cells → ⊥ }
{
    match bytes.num_elements(elements.data_type()) {
        Some(found) => found as u64 == count,
        None => false,
    }
}

/// Why a part of a chunk that fits its codecs is not decoded, where these refuse for this reason,
/// and the store for that one, if it did.
fn of_part(error: CodecError, refused: Option<StorageError>) -> ChunkError
    ensures { IsStopOf error result }
{
    match error {
        CodecError::Memory => ChunkError::Memory,
        CodecError::Source => ChunkError::Storage(refusal_of(refused)),
        _ => ChunkError::Damage,
    }
}

impl<C: ArrayToBytesCodecTraits + Sync> ArrayCore<C> {
    ghost use Rattle.std.specs.Prelude.{◌≡◌, IsTrue, IfOk, IfErr, IfSome, true};
    ghost use Rattle.std.specs.FinMap as map;
    ghost use Rattle.zarr_grids_boxes.specs.Boxes.{Region, product, share_place};
    ghost use Rattle.zarr_grids_boxes.specs.Cuts.{overlapped};
    ghost use Rattle.zarr_grids_boxes.specs.Subsets.{region_of};
    ghost use Rattle.zarr_grids_chunks.specs.Grids.{IsInGrid, intersects};
    ghost use Rattle.zarr_codecs_meaning.specs.Types.{IsTooLarge};
    ghost use Rattle.zarr_codecs_traits.specs.Indexers.{shape_has};
    ghost use Rattle.zarr_array_meaning.specs.ReadBytes.{box_read, most_at, most_of_part};
    ghost use Rattle.zarr_array_core.specs.Arrays.{array_of};
    ghost use Rattle.zarr_array_core.specs.Calls.{GivesAtMost};
    ghost use Rattle.zarr_array_core.specs.Fetching.{AreOfChunk, OnlyRead};
    ghost use Rattle.zarr_array_core.specs.Views.{document_of, path_of};
    ghost use Rattle.zarr_array_core.specs.Outcomes.{CountsRead, IsSmall};
    ghost use Rattle.zarr_array_core.specs.Parts.{AreShared, DecodesElements, FindsAt, FindsPart, PartNotRead, ValueStops, met_by, most_of_met};

    /// The elements of a chunk that lie in a box. `None` where nothing is stored for the chunk and
    /// it does not fit its codecs.
    pub(crate) fn chunk_part<R: Threads + Sync, S: ReadableStorageTraits>(
        &self,
        rooms: &mut ChunkRooms,
        store: &mut S,
        chunk: &[u64],
        read: &ReadBox<R>,
    ) -> Result<Option<ChunkPart>, ChunkError>
        requires below { (box : Region)
            × IsInGrid (document_of C.meaning self.now).grid chunk.now box }
        requires shares { intersects (document_of C.meaning self.now).grid
            (region_of read.now.region.now) chunk.now ≡ true }
        requires small { IsSmall (document_of C.meaning self.now) (region_of read.now.region.now) }
        ensures shared { IfOk result (AreOfChunk (document_of C.meaning self.now)
            (region_of read.now.region.now) chunk.now) }
        ensures found { IsTrue (S.is_honest store.old) → IfOk result (FindsAt
            (array_of C.ArrayToBytesCodecTraits self.now) (S.held store.old) chunk.now) }
        ensures err { IsTrue (S.is_honest store.old) → IfErr result (PartNotRead
            (array_of C.ArrayToBytesCodecTraits self.now) (S.held store.old)
            (region_of read.now.region.now) chunk.now) }
        ensures store { OnlyRead S.ReadableStorageTraits store.old store.new (CountsRead result) }
        ensures given { GivesAtMost S.ReadableStorageTraits (most_at (box_read
            (path_of self.now) (document_of C.meaning self.now) (S.held store.old)
            (region_of read.now.region.now) read.now.options.now.workers) chunk.now)
            store.old store.new }
    {
        let key = self.key_of(read.alloc, chunk)?;
        let own = self.box_of(rooms.take_own(), chunk)?;
        let shared = overlap_in(rooms.take_shared(), read.region, &own)?;
        let stored = StoredChunk {
            key: &key,
            own: &own,
        };
        match self.part_of(store, stored, shared, read) {
            Ok(Some(part)) => {
                rooms.keep_own(own);
                Ok(Some(part))
            }
            Ok(None) => match size_key(store, &key)? {
                Some(_) => Err(ChunkError::Fit),
                None => Ok(None),
            },
            Err(error) => Err(error),
        }
    }

    /// The elements of what a store holds for a chunk, at the places that the chunk shares with a
    /// box. `None` where the chunk does not fit its codecs. A store that gives another number of
    /// elements isn't honest, and what it holds is taken as damaged.
    fn part_of<R: Threads + Sync, S: ReadableStorageTraits>(
        &self,
        store: &mut S,
        chunk: StoredChunk<'_>,
        shared: ArraySubset,
        read: &ReadBox<R>,
    ) -> Result<Option<ChunkPart>, ChunkError>
        requires shared { region_of shared
            ≡ overlapped (region_of read.now.region.now) (region_of chunk.own.now) }
        requires shares { share_place chunk.own.now.start.items chunk.own.now.shape.items
            read.now.region.now.start.items read.now.region.now.shape.items ≡ true }
        requires small { ¬ IsTooLarge (document_of C.meaning self.now).elements.type
            (product chunk.own.now.shape.items) }
        ensures shared { IfOk result (λ found. IfSome found (AreShared
            (document_of C.meaning self.now).elements.type
            (region_of read.now.region.now) (region_of chunk.entry.own.now))) }
        ensures found { IsTrue (S.is_honest store.old) → IfOk result (FindsPart
            (document_of C.meaning self.now) (region_of chunk.entry.own.now)
            (map.get (S.held store.old) chunk.entry.key.now)) }
        ensures err { IsTrue (S.is_honest store.old) → IfErr result (ValueStops (met_by
            (document_of C.meaning self.now) (S.held store.old)
            (region_of read.now.region.now) chunk.entry)) }
        ensures store { OnlyRead S.ReadableStorageTraits store.old store.new (CountsRead result) }
        ensures given { GivesAtMost S.ReadableStorageTraits (most_of_met (met_by
            (document_of C.meaning self.now) (S.held store.old)
            (region_of read.now.region.now) chunk.entry)) store.old store.new }
    {
        let shape = chunk.own.shape();
        let part = seen_from(shared, chunk.own.start());
        let asked = StoredPart {
            key: chunk.key,
            shape,
            part: &part,
        };
        let bytes = match self.decode_part(store, asked, read) {
            Ok(Some(bytes)) => bytes,
            Ok(None) => return Ok(None),
            Err(error) => return Err(error),
        };
        let count = self.count_elements(part.shape());
        if !are_so_many(&bytes, &self.elements, count) {
            return Err(ChunkError::Damage);
        }
        let shared = overlap_in(part, read.region, chunk.own)?;
        Ok(Some(ChunkPart { shared, bytes }))
    }

    /// The elements at the places of a part of a chunk, of what a store holds at its key. Where the
    /// codecs can, they fetch no more of it than they need. `None` where the chunk does not fit
    /// them.
    fn decode_part<R: Threads + Sync, S: ReadableStorageTraits>(
        &self,
        store: &mut S,
        asked: StoredPart<'_>,
        read: &ReadBox<R>,
    ) -> Result<Option<ArrayBytes>, ChunkError>
        requires inside { shape_has asked.shape.now (region_of asked.part.now) ≡ true }
        requires small { ¬ IsTooLarge (document_of C.meaning self.now).elements.type
            (product asked.shape.now) }
        ensures part { IsTrue (S.is_honest store.old) → DecodesElements
            (document_of C.meaning self.now) asked.entry.shape.now
            (map.get (S.held store.old) asked.entry.key.now) (region_of asked.entry.part.now)
            result }
        ensures store { OnlyRead S.ReadableStorageTraits store.old store.new (CountsRead result) }
        ensures given { GivesAtMost S.ReadableStorageTraits (most_of_part
            (document_of C.meaning self.now) asked.entry.shape.now
            (map.get (S.held store.old) asked.entry.key.now) (region_of asked.entry.part.now))
            store.old store.new }
    {
        if read.options.workers() {
            return self.decode_part_by_workers(store, asked, read);
        }
        self.decode_part_in_order(read.alloc, store, asked)
    }

    /// What `decode_part` answers, with no thread started.
    fn decode_part_in_order<S: ReadableStorageTraits>(
        &self,
        alloc: Global,
        store: &mut S,
        asked: StoredPart<'_>,
    ) -> Result<Option<ArrayBytes>, ChunkError>
        requires inside { shape_has asked.shape.now (region_of asked.part.now) ≡ true }
        requires small { ¬ IsTooLarge (document_of C.meaning self.now).elements.type
            (product asked.shape.now) }
        ensures part { IsTrue (S.is_honest store.old) → DecodesElements
            (document_of C.meaning self.now) asked.entry.shape.now
            (map.get (S.held store.old) asked.entry.key.now) (region_of asked.entry.part.now)
            result }
        ensures store { OnlyRead S.ReadableStorageTraits store.old store.new (CountsRead result) }
        ensures given { GivesAtMost S.ReadableStorageTraits (most_of_part
            (document_of C.meaning self.now) asked.entry.shape.now
            (map.get (S.held store.old) asked.entry.key.now) (region_of asked.entry.part.now))
            store.old store.new }
    {
        let StoredPart { key, shape, part } = asked;
        let (elements, indexer) = (self.elements(), Indexer::Subset(part));
        let asked = ArrayPart {
            elements,
            shape,
            indexer,
        };
        let codecs = self.codecs();
        let mut refused = None;
        let refusal = &mut refused;
        let mut source = StoreSource {
            store,
            key,
            refusal,
        };
        match codecs.partial_decode_in_order(alloc, &mut source, asked) {
            Ok(bytes) => Ok(Some(bytes)),
            Err(CodecError::Damage) => Err(ChunkError::Damage),
            Err(CodecError::Fit) => Ok(None),
            Err(CodecError::Memory) => Err(ChunkError::Memory),
            Err(CodecError::Source) => Err(ChunkError::Storage(refusal_of(refused))),
            Err(_) => Err(ChunkError::Damage),
        }
    }

    /// What `decode_part` answers, where several threads decode a shard's subchunks. Whether the
    /// chunk fits is asked first, so that the store has refused no call where it does not.
    fn decode_part_by_workers<R: Threads + Sync, S: ReadableStorageTraits>(
        &self,
        store: &mut S,
        asked: StoredPart<'_>,
        read: &ReadBox<R>,
    ) -> Result<Option<ArrayBytes>, ChunkError>
        requires inside { shape_has asked.shape.now (region_of asked.part.now) ≡ true }
        requires small { ¬ IsTooLarge (document_of C.meaning self.now).elements.type
            (product asked.shape.now) }
        ensures part { IsTrue (S.is_honest store.old) → DecodesElements
            (document_of C.meaning self.now) asked.entry.shape.now
            (map.get (S.held store.old) asked.entry.key.now) (region_of asked.entry.part.now)
            result }
        ensures store { OnlyRead S.ReadableStorageTraits store.old store.new (CountsRead result) }
        ensures given { GivesAtMost S.ReadableStorageTraits (most_of_part
            (document_of C.meaning self.now) asked.entry.shape.now
            (map.get (S.held store.old) asked.entry.key.now) (region_of asked.entry.part.now))
            store.old store.new }
    {
        let StoredPart { key, shape, part } = asked;
        let data_type = self.elements.data_type();
        if !self.codecs.fits(read.alloc, data_type, shape)? {
            return Ok(None);
        }
        let (elements, indexer) = (&self.elements, Indexer::Subset(part));
        let asked = ArrayPart {
            elements,
            shape,
            indexer,
        };
        let mut refused = None;
        let refusal = &mut refused;
        let mut source = StoreSource {
            store,
            key,
            refusal,
        };
        match self
            .codecs
            .partial_decode(read.rt, read.alloc, &mut source, asked, read.options)
        {
            Ok(bytes) => Ok(Some(bytes)),
            Err(error) => Err(of_part(error, refused)),
        }
    }
}

impl<C: ArrayToBytesCodecTraits> ArrayCore<C> {
    ghost use Rattle.std.specs.Prelude.{◌≡◌, IfOk, IfErr, true};
    ghost use Rattle.zarr_grids_boxes.specs.Boxes.{product};
    ghost use Rattle.zarr_grids_boxes.specs.Subsets.{region_of};
    ghost use Rattle.zarr_grids_chunks.specs.Grids.{intersects};
    ghost use Rattle.zarr_codecs_meaning.specs.Types.{IsTooLarge};
    ghost use Rattle.zarr_array_elements.specs.Views.{AreShown, cells_shown};
    ghost use Rattle.zarr_array_core.specs.Arrays.{array_of};
    ghost use Rattle.zarr_array_core.specs.Fetching.{AreOfChunk, PutsFound};
    ghost use Rattle.zarr_array_core.specs.Views.{document_of};
    ghost use Rattle.zarr_array_core.specs.declared.error.ChunkError.TheVariants.{Memory};

    /// The elements of a box after what was found of a chunk was put over them. They stay where
    /// nothing was found.
    pub(crate) fn put_chunk_part(
        &self,
        rooms: &mut ChunkRooms,
        region: &ArraySubset,
        shown: BoxElements,
        found: Option<ChunkPart>,
    ) -> Result<BoxElements, ChunkError>
        requires met { (chunk : List ℕ) × (intersects (document_of C.meaning self.now).grid
            (region_of region.now) chunk ≡ true) × AreOfChunk (document_of C.meaning self.now)
            (region_of region.now) chunk found }
        requires shown { AreShown (document_of C.meaning self.now).elements
            (region_of region.now) shown }
        ensures shown { IfOk result (AreShown (document_of C.meaning self.now).elements
            (region_of region.now)) }
        ensures ok { IfOk result (λ made. PutsFound (array_of C.ArrayToBytesCodecTraits self.now)
            (region_of region.now) found
            (cells_shown (document_of C.meaning self.now).elements shown)
            (cells_shown (document_of C.meaning self.now).elements made)) }
        ensures err { IfErr result (λ e. e ≡ Memory) }
    {
        let Some(part) = found else {
            return Ok(shown);
        };
        let ChunkPart { shared, bytes } = part;
        let made = shown.put(rooms.alloc(), region, bytes, &shared, &self.elements)?;
        rooms.keep_shared(shared);
        Ok(made)
    }

    /// How many elements an array of this shape has.
    fn count_elements(&self, shape: &[u64]) -> u64
        requires small { ¬ IsTooLarge (document_of C.meaning self.now).elements.type
            (product shape.now) }
        ensures { result ≡ product shape.now }
    {
        count_places(shape).unwrap()
    }
}
