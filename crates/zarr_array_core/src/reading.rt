//! Boxes read chunk by chunk.
use crate::array_core::ArrayCore;
use crate::error::ChunkError;
use crate::fetching::FetchedChunks;
use crate::region_chunks::RegionChunks;
use crate::rooms::ChunkRooms;
use std::alloc::Global;
use std::marker::Sync;
use std::thread::Threads;
use zarr_array_elements::BoxElements;
use zarr_array_storage::ReadableStorageTraits;
use zarr_codecs_arrays::ArrayBytes;
use zarr_codecs_options::CodecOptions;
use zarr_codecs_traits::ArrayToBytesCodecTraits;
use zarr_grids_boxes::ArraySubset;
use zarr_grids_boxes::walk::{count_places, place_into};

/// What is read: a box of places, of the chunks that it intersects. What is made takes memory of
/// `alloc`; workers are threads of `rt`.
#[derive(Drop)]
pub(crate) struct ReadBox<'a, R> {
    pub rt: &'a R,
    pub alloc: Global,
    pub region: &'a ArraySubset,
    pub chunks: &'a ArraySubset,
    pub options: &'a CodecOptions,
}

/// Whether these are several chunks.
fn are_several(chunks: &ArraySubset) -> bool {
    match count_places(chunks.shape()) {
        Some(count) => count > 1,
        None => true,
    }
}

impl<C: ArrayToBytesCodecTraits + Sync> ArrayCore<C> {
    ghost use Rattle.std.specs.Prelude.{◌≡◌, ◌<◌, IsTrue, IfOk, IfErr};
    ghost use Rattle.zarr_grids_boxes.specs.Boxes.{product};
    ghost use Rattle.zarr_grids_boxes.specs.Subsets.{region_of};
    ghost use Rattle.zarr_grids_chunks.specs.Grids.{IsCovered};
    ghost use Rattle.zarr_grids_cover.specs.Intersecting.{AreIntersecting};
    ghost use Rattle.zarr_codecs_arrays.specs.Views.{payload_of};
    ghost use Rattle.zarr_array_meaning.specs.Boxes.{IsRead};
    ghost use Rattle.zarr_array_meaning.specs.ReadBytes.{box_read, most_of_box};
    ghost use Rattle.zarr_array_elements.specs.Views.{AreShown, cells_shown};
    ghost use Rattle.zarr_array_core.specs.Calls.{GivesAtMost};
    ghost use Rattle.zarr_array_core.specs.Views.{document_of, path_of};
    ghost use Rattle.zarr_array_core.specs.Fetching.{OnlyRead};
    ghost use Rattle.zarr_array_core.specs.Outcomes.{CountsRead, GivesBox, ReadStops, IsSmall};
    ghost use Rattle.zarr_array_core.specs.Parts.{AreFill};

    /// The elements of a region that isn't empty, row-major. The first chunk, row-major, that isn't
    /// read decides: `Fit` where it has a value and doesn't fit its codecs, `Damage` where a place
    /// in the region cannot be decoded, `Storage` where the store refuses. Workers decode whole
    /// chunks, once fetched, and subchunks of others. The store gives at most `most_of_box` bytes.
    pub fn read_region<R: Threads + Sync, S: ReadableStorageTraits>(
        &self,
        rt: &R,
        rooms: &mut ChunkRooms,
        store: &mut S,
        target: RegionChunks,
        options: &CodecOptions,
    ) -> Result<ArrayBytes, ChunkError>
        requires covered { IsCovered (document_of C.meaning self.now).grid
            (region_of target.region.now) }
        requires some { 0 < product target.region.now.shape.items }
        requires small { IsSmall (document_of C.meaning self.now) (region_of target.region.now) }
        requires intersecting { AreIntersecting (document_of C.meaning self.now).grid
            (region_of target.region.now) (region_of target.chunks.now) }
        ensures ok { IsTrue (S.is_honest store.old) → IfOk result (λ bytes.
            GivesBox (path_of self.now) (document_of C.meaning self.now) (S.held store.old)
            (region_of target.entry.region.now) (payload_of bytes)) }
        ensures err { IsTrue (S.is_honest store.old) → IfErr result
            (ReadStops (path_of self.now) (document_of C.meaning self.now) (S.held store.old)
            (region_of target.entry.region.now)) }
        ensures held { S.held store.new ≡ S.held store.old }
        ensures honest { S.is_honest store.new ≡ S.is_honest store.old }
        ensures refused { CountsRead result
            (S.refused_calls store.old) (S.refused_calls store.new) }
        ensures given { GivesAtMost S.ReadableStorageTraits (most_of_box (box_read
            (path_of self.now) (document_of C.meaning self.now) (S.held store.old)
            (region_of target.entry.region.now) options.now.workers)) store.old store.new }
        ensures accepted { S.accepted_writes store.new ≡ S.accepted_writes store.old }
    {
        let RegionChunks { region, chunks } = target;
        let alloc = rooms.alloc();
        let shown = BoxElements::new_fill_value(alloc, region, &self.elements)?;
        let read = ReadBox {
            rt,
            alloc,
            region,
            chunks,
            options,
        };
        match self.read_met(rooms, store, &read, shown) {
            Ok(shown) => match shown.into_bytes(alloc, region, &self.elements) {
                Ok(bytes) => Ok(bytes),
                Err(_) => Err(ChunkError::Memory),
            },
            Err(error) => Err(error),
        }
    }

    /// The elements of a box, which begin as fill values, after those of each chunk that the box
    /// intersects were put over them. Where the options ask for workers, there are several chunks,
    /// and their values have to be decoded, these are fetched first, up to one that is not read,
    /// and decoded by several threads.
    fn read_met<R: Threads + Sync, S: ReadableStorageTraits>(
        &self,
        rooms: &mut ChunkRooms,
        store: &mut S,
        read: &ReadBox<R>,
        shown: BoxElements,
    ) -> Result<BoxElements, ChunkError>
        requires small { IsSmall (document_of C.meaning self.now) (region_of read.now.region.now) }
        requires intersecting { AreIntersecting (document_of C.meaning self.now).grid
            (region_of read.now.region.now) (region_of read.now.chunks.now) }
        requires shown { AreShown (document_of C.meaning self.now).elements
            (region_of read.now.region.now) shown }
        requires fill { AreFill (document_of C.meaning self.now).elements
            (region_of read.now.region.now) shown }
        ensures shown { IfOk result (AreShown (document_of C.meaning self.now).elements
            (region_of read.now.region.now)) }
        ensures ok { IsTrue (S.is_honest store.old) → IfOk result (λ made. IsRead
            (path_of self.now) (document_of C.meaning self.now) (S.held store.old)
            (region_of read.now.region.now)
            (cells_shown (document_of C.meaning self.now).elements made)) }
        ensures err { IsTrue (S.is_honest store.old) → IfErr result
            (ReadStops (path_of self.now) (document_of C.meaning self.now) (S.held store.old)
            (region_of read.now.region.now)) }
        ensures store { OnlyRead S.ReadableStorageTraits store.old store.new (CountsRead result) }
        ensures given { GivesAtMost S.ReadableStorageTraits (most_of_box (box_read
            (path_of self.now) (document_of C.meaning self.now) (S.held store.old)
            (region_of read.now.region.now) read.now.options.now.workers)) store.old store.new }
    {
        if !read.options.workers() || !are_several(read.chunks) || self.codecs.encodes_as_is() {
            return self.read_chunks(rooms, store, read, shown);
        }
        let FetchedChunks {
            chunks,
            bytes,
            stopped,
        } = self.fetch_chunks(rooms, store, read)?;
        let decoded = self.decode_chunks(read.rt, read.alloc, chunks, bytes)?;
        let mut target = shown;
        for found in decoded {
            let part = found?;
            target = self.put_chunk_part(rooms, read.region, target, part)?;
        }
        match stopped {
            Some(error) => Err(error),
            None => Ok(target),
        }
    }

    /// The elements of a box, which begin as fill values, after those of each chunk that the box
    /// intersects were put over them.
    fn read_chunks<R: Threads + Sync, S: ReadableStorageTraits>(
        &self,
        rooms: &mut ChunkRooms,
        store: &mut S,
        read: &ReadBox<R>,
        shown: BoxElements,
    ) -> Result<BoxElements, ChunkError>
        requires small { IsSmall (document_of C.meaning self.now) (region_of read.now.region.now) }
        requires intersecting { AreIntersecting (document_of C.meaning self.now).grid
            (region_of read.now.region.now) (region_of read.now.chunks.now) }
        requires shown { AreShown (document_of C.meaning self.now).elements
            (region_of read.now.region.now) shown }
        requires fill { AreFill (document_of C.meaning self.now).elements
            (region_of read.now.region.now) shown }
        ensures shown { IfOk result (AreShown (document_of C.meaning self.now).elements
            (region_of read.now.region.now)) }
        ensures ok { IsTrue (S.is_honest store.old) → IfOk result (λ made. IsRead
            (path_of self.now) (document_of C.meaning self.now) (S.held store.old)
            (region_of read.now.region.now)
            (cells_shown (document_of C.meaning self.now).elements made)) }
        ensures err { IsTrue (S.is_honest store.old) → IfErr result
            (ReadStops (path_of self.now) (document_of C.meaning self.now) (S.held store.old)
            (region_of read.now.region.now)) }
        ensures store { OnlyRead S.ReadableStorageTraits store.old store.new (CountsRead result) }
        ensures given { GivesAtMost S.ReadableStorageTraits (most_of_box (box_read
            (path_of self.now) (document_of C.meaning self.now) (S.held store.old)
            (region_of read.now.region.now) read.now.options.now.workers)) store.old store.new }
    {
        let first = read.chunks.start();
        let shape = read.chunks.shape();
        let count = count_places(shape).unwrap();
        let mut room = rooms.take_indices();
        room.resize(first.len(), 0)?;
        let chunk = room.as_mut_slice();
        let mut target = shown;
        for n in 0..count {
            place_into(first, shape, count, n, chunk);
            let found = self.chunk_part(rooms, store, chunk, read)?;
            target = self.put_chunk_part(rooms, read.region, target, found)?;
        }
        rooms.keep_indices(room);
        Ok(target)
    }
}
