//! The chunks of an array that have a key, stored anew.
ghost use Rattle.std.specs.Prelude.{◌≡◌, ◌+◌, ◌<◌, ◌^◌};
ghost use Rattle.zarr_array_core.specs.Rewriting.{counted_chunk};

use crate::array_core::ArrayCore;
use crate::chunk_value::Coding;
use crate::chunk_writing::put_value;
use crate::error::{ChunkError, ManyError};
use crate::rooms::ChunkRooms;
use crate::store_calls::{get, size_key};
use std::alloc::Global;
use std::thread::Threads;
use zarr_array_storage::{ReadableStorageTraits, WritableStorageTraits};
use zarr_codecs_options::CodecOptions;
use zarr_codecs_traits::ArrayToBytesCodecTraits;
use zarr_grids_boxes::ArraySubset;
use zarr_grids_boxes::walk::{count_places, place_into};
use zarr_grids_chunk_grids::ChunkGridTraits;
use zarr_grids_cover::has_chunk_of;

/// How many chunks were stored anew, after one more was looked at.
fn counted_chunk(applied: u64, had: bool) -> u64
    requires { applied + 1 < 2 ^ 64 }
    ensures { result ≡ counted_chunk applied had }
{
    if had { applied + 1 } else { applied }
}

impl<C: ArrayToBytesCodecTraits + Sync> ArrayCore<C> {
    ghost use Rattle.std.specs.Prelude.{◌<◌, ◌^◌, [], ◌∷◌, length, IsTrue, IfOk, IfErr, MatchBool};
    ghost use Rattle.zarr_grids_boxes.specs.Boxes.{Region, product};
    ghost use Rattle.zarr_grids_boxes.specs.Subsets.{region_of};
    ghost use Rattle.zarr_grids_chunks.specs.Grids.{IsInGrid};
    ghost use Rattle.zarr_grids_cover.specs.Boxed.{AreBoxed};
    ghost use Rattle.zarr_array_meaning.specs.Rewriting.{IsRewritten, RewroteChunks, keyed_chunks};
    ghost use Rattle.zarr_array_meaning.specs.StoreMaps.{CountsUpTo};
    ghost use Rattle.zarr_array_storage.specs.Stores.{value_bytes};
    ghost use Rattle.zarr_array_core.specs.Arrays.{array_of, Called, CalledMany, chunks_done, IfHonestErr, OnHonestOk};
    ghost use Rattle.zarr_array_core.specs.Calls.{calls_of};
    ghost use Rattle.zarr_array_core.specs.Rewriting.{ChunkRewriteStops, IsAbsentAt, RemakingStops, RewriteStops};
    ghost use Rattle.zarr_array_core.specs.Turns.{HadTurns, keyed_walk};
    ghost use Rattle.zarr_array_core.specs.Views.{document_of};

    /// Stores each chunk in the grid anew that has a key, row-major: its cells are read and stored
    /// whole, so a chunk that is all fill loses its key, unless empty chunks are stored. `chunks`
    /// are all chunks in the grid that have a box. Errors as those of `write_region`; `applied`
    /// counts the chunks with a key.
    pub fn rewrite<R: Threads + Sync, S: WritableStorageTraits>(
        &self,
        rt: &R,
        rooms: &mut ChunkRooms,
        store: &mut S,
        chunks: &ArraySubset,
        options: &CodecOptions,
    ) -> Result<(), ManyError>
        requires all { AreBoxed (array_of C.ArrayToBytesCodecTraits self.now).document.grid
            (region_of chunks.now) }
        requires few { product chunks.now.shape.items < 2 ^ 63 }
        // Each chunk that had a key is stored anew, or the first `applied`; no other key changes.
        ensures ok { OnHonestOk S.ReadableStorageTraits store.old store.new result
            (λ before after. RewroteChunks (array_of C.ArrayToBytesCodecTraits self.now)
            options.now.store_empty_chunks
            (keyed_chunks (array_of C.ArrayToBytesCodecTraits self.now) before) before after) }
        ensures err { IfHonestErr S.ReadableStorageTraits store.old store.new result
            (RewriteStops (array_of C.ArrayToBytesCodecTraits self.now)
            options.now.store_empty_chunks) }
        // By at most one writing call for each, in turn; over any store, by no more than chunks.
        ensures store { CalledMany S.ReadableStorageTraits (product chunks.now.shape.items)
            store.old store.new result }
        ensures counts { IsTrue (S.is_honest store.old) → CountsUpTo (chunks_done
            (length (keyed_chunks (array_of C.ArrayToBytesCodecTraits self.now)
            (S.held store.old))) result)
            (S.accepted_writes store.old) (S.accepted_writes store.new) }
        ensures turns { HadTurns S.ReadableStorageTraits (keyed_walk C.ArrayToBytesCodecTraits
            self.now (S.held store.old)) store.old store.new result }
    {
        let count = count_places(chunks.shape()).unwrap();
        let mut room = rooms.take_indices();
        if room.resize(chunks.dimensionality(), 0).is_err() {
            let error = ChunkError::Memory;
            return Err(ManyError { applied: 0, error });
        }
        let chunk = room.as_mut_slice();
        let mut applied: u64 = 0;
        for n in 0..count {
            place_into(chunks.start(), chunks.shape(), count, n, chunk);
            match self.rewrite_chunk(rt, rooms, store, chunk, options) {
                Ok(had) => applied = counted_chunk(applied, had),
                Err(error) => return Err(ManyError { applied, error }),
            }
        }
        rooms.keep_indices(room);
        Ok(())
    }
    /// Stores a chunk anew, if it has a key; the answer is whether it has one.
    fn rewrite_chunk<R: Threads + Sync, S: WritableStorageTraits>(
        &self,
        rt: &R,
        rooms: &mut ChunkRooms,
        store: &mut S,
        chunk: &[u64],
        options: &CodecOptions,
    ) -> Result<bool, ChunkError>
        requires below { (box : Region)
            × IsInGrid (array_of C.ArrayToBytesCodecTraits self.now).document.grid chunk.now box }
        ensures ok { IsTrue (S.is_honest store.old) → IfOk result (λ had. MatchBool had
            (RewroteChunks (array_of C.ArrayToBytesCodecTraits self.now)
            options.now.store_empty_chunks (chunk.now ∷ []) (S.held store.old) (S.held store.new))
            (IsAbsentAt (array_of C.ArrayToBytesCodecTraits self.now) chunk.now
            (S.held store.old) (S.held store.new))) }
        ensures err { IfHonestErr S.ReadableStorageTraits store.old store.new result
            (λ e before _. ChunkRewriteStops (array_of C.ArrayToBytesCodecTraits self.now)
            options.now.store_empty_chunks chunk.now e before) }
        ensures store { Called S.ReadableStorageTraits (calls_of result)
            store.old store.new result }
    {
        let key = self.key_of(rooms.alloc(), chunk)?;
        let Some(value) = get(store, &key)? else {
            return Ok(false);
        };
        let own = self.box_of(rooms.take_own(), chunk)?;
        let made = self.remake_value(rt, rooms.alloc(), value, own.shape(), options)?;
        rooms.keep_own(own);
        put_value(store, &key, made)?;
        Ok(true)
    }

    /// The value of a chunk made anew of the cells that it is decoded to, or `None` where the chunk
    /// is to have none.
    fn remake_value<R: Threads + Sync>(
        &self,
        rt: &R,
        alloc: Global,
        value: Vec<u8>,
        shape: &[u64],
        options: &CodecOptions,
    ) -> Result<Option<Vec<u8>>, ChunkError>
        ensures ok { IfOk result (λ made. IsRewritten
            (array_of C.ArrayToBytesCodecTraits self.now) options.now.store_empty_chunks
            shape.now value.items (value_bytes made)) }
        ensures err { IfErr result (RemakingStops (document_of C.meaning self.now)
            options.now.store_empty_chunks shape.now value.items) }
    {
        if self.is_too_large(shape) {
            return Err(ChunkError::Size);
        }
        if !self.codecs.fits(alloc, self.elements.data_type(), shape)? {
            return Err(ChunkError::Fit);
        }
        let coding = Coding { rt, alloc, options };
        let bytes = self.decode_value(&coding, value, shape)?;
        self.encode_chunk(&coding, shape, bytes, options.store_empty_chunks)
    }
}

impl<C: ArrayToBytesCodecTraits> ArrayCore<C> {
    ghost use Rattle.std.specs.Prelude.{◌≡◌, ◌↔◌, ◌<◌, ◌^◌, IsTrue, IfOk, IfErr};
    ghost use Rattle.zarr_grids_boxes.specs.Boxes.{Region, product};
    ghost use Rattle.zarr_grids_boxes.specs.Subsets.{region_of};
    ghost use Rattle.zarr_grids_chunks.specs.Grids.{IsInGrid};
    ghost use Rattle.zarr_grids_cover.specs.Boxed.{AreBoxed};
    ghost use Rattle.zarr_array_meaning.specs.Rewriting.{IsLargeKeyed};
    ghost use Rattle.zarr_array_core.specs.Arrays.{array_of, Called};
    ghost use Rattle.zarr_array_core.specs.Outcomes.{IsErasureStop, refused_after};
    ghost use Rattle.zarr_array_core.specs.Rewriting.{IsLargeKeyedAt};

    /// Whether a chunk that has a key has 2^63 cells or bytes or more. `chunks` are all chunks in
    /// the grid that have a box. The store is asked only where one of them is so large.
    pub fn has_large_keyed<S: ReadableStorageTraits>(
        &self,
        rooms: &mut ChunkRooms,
        store: &mut S,
        chunks: &ArraySubset,
    ) -> Result<bool, ChunkError>
        requires all { AreBoxed (array_of C.ArrayToBytesCodecTraits self.now).document.grid
            (region_of chunks.now) }
        requires few { product chunks.now.shape.items < 2 ^ 63 }
        ensures ok { IsTrue (S.is_honest store.old) → IfOk result (λ found. IsTrue found
            ↔ IsLargeKeyed (array_of C.ArrayToBytesCodecTraits self.now) (S.held store.old)) }
        ensures err { IsTrue (S.is_honest store.old) → IfErr result IsErasureStop }
        ensures held { S.held store.new ≡ S.held store.old }
        ensures store { Called S.ReadableStorageTraits 0 store.old store.new result }
    {
        let grid = self.grid().dimensions();
        if !has_chunk_of(grid, chunks, self.cell_limit()) {
            return Ok(false);
        }
        let count = count_places(chunks.shape()).unwrap();
        let mut room = rooms.take_indices();
        room.resize(chunks.dimensionality(), 0)?;
        let chunk = room.as_mut_slice();
        for n in 0..count {
            place_into(chunks.start(), chunks.shape(), count, n, chunk);
            if self.is_large_keyed(rooms, store, chunk)? {
                return Ok(true);
            }
        }
        rooms.keep_indices(room);
        Ok(false)
    }

    /// Whether a chunk has a key and 2^63 cells or bytes or more. The store is asked only where it
    /// is so large.
    fn is_large_keyed<S: ReadableStorageTraits>(
        &self,
        rooms: &mut ChunkRooms,
        store: &mut S,
        chunk: &[u64],
    ) -> Result<bool, ChunkError>
        requires below { (box : Region)
            × IsInGrid (array_of C.ArrayToBytesCodecTraits self.now).document.grid chunk.now box }
        ensures ok { IsTrue (S.is_honest store.old) → IfOk result (λ found. IsTrue found
            ↔ IsLargeKeyedAt (array_of C.ArrayToBytesCodecTraits self.now) chunk.now
            (S.held store.old)) }
        ensures err { IsTrue (S.is_honest store.old) → IfErr result IsErasureStop }
        ensures held { S.held store.new ≡ S.held store.old }
        ensures honest { S.is_honest store.new ≡ S.is_honest store.old }
        ensures refused { S.refused_calls store.new ≡
            refused_after (S.refused_calls store.old) result }
        ensures accepted { S.accepted_writes store.new ≡ S.accepted_writes store.old }
    {
        let own = self.box_of(rooms.take_own(), chunk)?;
        let large = self.is_too_large(own.shape());
        rooms.keep_own(own);
        if !large {
            return Ok(false);
        }
        let key = self.key_of(rooms.alloc(), chunk)?;
        let size = size_key(store, &key)?;
        Ok(size.is_some())
    }
}
