//! The chunks that a box meets, fetched one after another, and decoded by several threads.
ghost use Rattle.std.specs.Prelude.{◌≡◌, ◌&&◌, length};
ghost use Rattle.zarr_grids_boxes.specs.Subsets.{region_of};
ghost use Rattle.zarr_array_meaning.specs.Chunks.{holds_box};
ghost use Rattle.zarr_array_core.specs.Fetching.{stop_of};

use crate::array_core::ArrayCore;
use crate::chunk_reading::ChunkPart;
use crate::error::ChunkError;
use crate::holding::holds_box;
use crate::reading::ReadBox;
use crate::rooms::ChunkRooms;
use crate::store_calls::get;
use rayon::prelude::*;
use std::alloc::{AllocError, Global};
use std::marker::Sync;
use std::thread::Threads;
use zarr_array_storage::ReadableStorageTraits;
use zarr_codecs_arrays::CodecError;
use zarr_codecs_traits::ArrayToBytesCodecTraits;
use zarr_grids_boxes::ArraySubset;
use zarr_grids_boxes::walk::{count_places, place_into};
use zarr_grids_overlay::Extent;

/// What was fetched of a chunk: its value and its box, where workers decode it, a region holds all
/// of it and it has a value; else the elements that were read of it, if any.
#[derive(Drop)]
pub(crate) enum FetchedChunk {
    Value { value: Vec<u8>, own: ArraySubset },
    Part(Option<ChunkPart>),
}

/// What was fetched of chunks, one after another: of all, or of those before one that is not read,
/// and why it is not. Their values have `bytes` bytes, or more than can be counted.
#[derive(Drop)]
pub(crate) struct FetchedChunks {
    pub chunks: Vec<FetchedChunk>,
    pub bytes: usize,
    pub stopped: Option<ChunkError>,
}

/// Whether the value of a chunk with this box is fetched as a whole: workers decode it, and the box
/// that is read holds all of the chunk's.
fn is_whole<R>(read: &ReadBox<R>, own: &ArraySubset) -> bool
    requires { length read.now.region.now.start.items ≡ length own.now.start.items }
    ensures { result ≡ (read.now.options.now.workers
        && holds_box (region_of read.now.region.now) (region_of own.now)) }
{
    if !read.options.workers() {
        return false;
    }
    let (start, shape) = (read.region.start(), read.region.shape());
    let other = Extent {
        start: own.start(),
        shape: own.shape(),
    };
    holds_box(Extent { start, shape }, other)
}

/// Why a chunk is not read whose value its codecs do not decode.
fn of_decoding(error: CodecError) -> ChunkError
    ensures { result ≡ stop_of error }
{
    match error {
        CodecError::Fit => ChunkError::Fit,
        CodecError::Memory => ChunkError::Memory,
        _ => ChunkError::Damage,
    }
}

/// A number of bytes and those of the value of one more chunk.
fn with_value(bytes: usize, fetched: &FetchedChunk) -> usize {
    match fetched {
        FetchedChunk::Value { value, .. } => bytes.saturating_add(value.len()),
        FetchedChunk::Part(_) => bytes,
    }
}

/// How many of so many chunks a thread is given at least: one where their values are large, many
/// where they are small.
fn least_chunks(bytes: usize, count: usize) -> usize {
    let Some(each) = bytes.checked_div(count) else {
        return 1;
    };
    if each == 0 {
        return 1024;
    }
    (1usize << 18).div_ceil(each).clamp(1, 1024)
}

impl<C: ArrayToBytesCodecTraits + Sync> ArrayCore<C> {
    ghost use Rattle.std.specs.Prelude.{◌≡◌, IsTrue, IfOk, IfErr, true};
    ghost use Rattle.std.specs.List.{AllZip};
    ghost use Rattle.zarr_grids_boxes.specs.Boxes.{Region};
    ghost use Rattle.zarr_grids_boxes.specs.Subsets.{region_of};
    ghost use Rattle.zarr_grids_chunks.specs.Grids.{IsInGrid, intersects};
    ghost use Rattle.zarr_grids_cover.specs.Intersecting.{AreIntersecting};
    ghost use Rattle.zarr_array_meaning.specs.ReadBytes.{box_read, most_at, most_of_box};
    ghost use Rattle.zarr_array_core.specs.Arrays.{array_of};
    ghost use Rattle.zarr_array_core.specs.Calls.{GivesAtMost};
    ghost use Rattle.zarr_array_core.specs.Fetching.{AreFetched, CountsFetched, DecodesFetched, IsFetched, OnlyRead, read_of};
    ghost use Rattle.zarr_array_core.specs.Outcomes.{CountsRead, IsSmall};
    ghost use Rattle.zarr_array_core.specs.Parts.{PartNotRead};
    ghost use Rattle.zarr_array_core.specs.Views.{document_of, path_of};
    ghost use Rattle.zarr_array_core.specs.declared.error.ChunkError.TheVariants.{Memory};

    /// What the chunks hold that a box intersects, row-major, up to the first that is not read.
    /// With workers, the values of those that lie in the box are not decoded. Want of memory alone
    /// is an error.
    pub(crate) fn fetch_chunks<R: Threads + Sync, S: ReadableStorageTraits>(
        &self,
        rooms: &mut ChunkRooms,
        store: &mut S,
        read: &ReadBox<R>,
    ) -> Result<FetchedChunks, ChunkError>
        requires small { IsSmall (document_of C.meaning self.now) (region_of read.now.region.now) }
        requires intersecting { AreIntersecting (document_of C.meaning self.now).grid
            (region_of read.now.region.now) (region_of read.now.chunks.now) }
        ensures fetched { IfOk result (AreFetched
            (read_of C.ArrayToBytesCodecTraits S.ReadableStorageTraits self.now store.old
            (region_of read.now.region.now)) (region_of read.now.chunks.now)) }
        ensures err { IfErr result (λ e. e ≡ Memory) }
        ensures store { OnlyRead S.ReadableStorageTraits store.old store.new
            (CountsFetched result) }
        ensures given { GivesAtMost S.ReadableStorageTraits (most_of_box (box_read
            (path_of self.now) (document_of C.meaning self.now) (S.held store.old)
            (region_of read.now.region.now) read.now.options.now.workers)) store.old store.new }
    {
        let first = read.chunks.start();
        let shape = read.chunks.shape();
        let count = count_places(shape).unwrap();
        let mut room = rooms.take_indices();
        room.resize(first.len(), 0)?;
        let chunk = room.as_mut_slice();
        let mut chunks = Vec::new(read.alloc);
        let mut bytes = 0;
        for n in 0..count {
            place_into(first, shape, count, n, chunk);
            match self.fetch_chunk(rooms, store, chunk, read) {
                Ok(fetched) => {
                    bytes = with_value(bytes, &fetched);
                    chunks.push(fetched)?;
                }
                Err(ChunkError::Memory) => return Err(ChunkError::Memory),
                Err(error) => {
                    let stopped = Some(error);
                    return Ok(FetchedChunks {
                        chunks,
                        bytes,
                        stopped,
                    });
                }
            }
        }
        rooms.keep_indices(room);
        let stopped = None;
        Ok(FetchedChunks {
            chunks,
            bytes,
            stopped,
        })
    }

    /// The value of a chunk that lies in a box, not decoded, where there are workers; else the
    /// elements of the chunk that lie in the box.
    fn fetch_chunk<R: Threads + Sync, S: ReadableStorageTraits>(
        &self,
        rooms: &mut ChunkRooms,
        store: &mut S,
        chunk: &[u64],
        read: &ReadBox<R>,
    ) -> Result<FetchedChunk, ChunkError>
        requires below { (box : Region)
            × IsInGrid (document_of C.meaning self.now).grid chunk.now box }
        requires shares { intersects (document_of C.meaning self.now).grid
            (region_of read.now.region.now) chunk.now ≡ true }
        requires small { IsSmall (document_of C.meaning self.now) (region_of read.now.region.now) }
        ensures fetched { IfOk result (IsFetched
            (read_of C.ArrayToBytesCodecTraits S.ReadableStorageTraits self.now store.old
            (region_of read.now.region.now)) chunk.now) }
        ensures err { IsTrue (S.is_honest store.old) → IfErr result (PartNotRead
            (array_of C.ArrayToBytesCodecTraits self.now) (S.held store.old)
            (region_of read.now.region.now) chunk.now) }
        ensures store { OnlyRead S.ReadableStorageTraits store.old store.new (CountsRead result) }
        ensures given { GivesAtMost S.ReadableStorageTraits (most_at (box_read
            (path_of self.now) (document_of C.meaning self.now) (S.held store.old)
            (region_of read.now.region.now) read.now.options.now.workers) chunk.now)
            store.old store.new }
    {
        let own = self.box_of(rooms.take_own(), chunk)?;
        if !is_whole(read, &own) {
            rooms.keep_own(own);
            let found = self.chunk_part(rooms, store, chunk, read)?;
            return Ok(FetchedChunk::Part(found));
        }
        let key = self.key_of(read.alloc, chunk)?;
        match get(store, &key)? {
            Some(value) => Ok(FetchedChunk::Value { value, own }),
            None => {
                rooms.keep_own(own);
                Ok(FetchedChunk::Part(None))
            }
        }
    }

    /// The elements of a chunk, of what was fetched of it.
    fn decode_fetched(
        &self,
        alloc: Global,
        fetched: FetchedChunk,
    ) -> Result<Option<ChunkPart>, ChunkError>
        ensures { DecodesFetched (array_of C.ArrayToBytesCodecTraits self.now) fetched result }
    {
        let (value, own) = match fetched {
            FetchedChunk::Value { value, own } => (value, own),
            FetchedChunk::Part(found) => return Ok(found),
        };
        match self
            .codecs
            .decode_in_order(alloc, value, &self.elements, own.shape())
        {
            Ok(bytes) => {
                let shared = own;
                Ok(Some(ChunkPart { shared, bytes }))
            }
            Err(error) => Err(of_decoding(error)),
        }
    }

    /// The elements of chunks, of what was fetched of each, in their order, decoded by as many
    /// threads as there are.
    pub(crate) fn decode_chunks<R: Threads + Sync>(
        &self,
        rt: &R,
        alloc: Global,
        chunks: Vec<FetchedChunk>,
        bytes: usize,
    ) -> Result<Vec<Result<Option<ChunkPart>, ChunkError>>, AllocError>
        ensures { IfOk result (λ made. AllZip
            (DecodesFetched (array_of C.ArrayToBytesCodecTraits self.now)) chunks.items
            made.items) }
    {
        let least = least_chunks(bytes, chunks.len());
        chunks
            .into_par_iter()
            .with_min_len(least)
            .map(
                |fetched: FetchedChunk| -> Result<Option<ChunkPart>, ChunkError>
                    ensures { DecodesFetched
                        (array_of C.ArrayToBytesCodecTraits self.entry.now) fetched result }
                { self.decode_fetched(alloc, fetched) },
            )
            .collect(rt, alloc)
    }
}
