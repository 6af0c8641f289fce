//! Boxes written chunk by chunk.
ghost use Rattle.std.specs.Prelude.{◌≡◌};
ghost use Rattle.zarr_array_meaning.specs.Writes.{allowed};

use crate::array_core::ArrayCore;
use crate::chunk_value::BoxWrite;
use crate::error::{ChunkError, ManyError};
use crate::region_chunks::RegionBytes;
use crate::rooms::ChunkRooms;
use std::thread::Threads;
use zarr_array_storage::WritableStorageTraits;
use zarr_codecs_options::CodecOptions;
use zarr_codecs_traits::ArrayToBytesCodecTraits;
use zarr_grids_boxes::ArraySubset;
use zarr_grids_boxes::walk::{count_places, place_into};
use zarr_grids_overlay::Extent;

/// The options by which a write over a store goes: it may encode in part only where the store takes
/// ranges of a value.
fn allowed_options<S: WritableStorageTraits>(store: &S, options: &CodecOptions) -> CodecOptions
    ensures { result ≡ allowed S.supports_set_partial options.now }
{
    let in_part = store.supports_set_partial() && options.experimental_partial_encoding;
    options.with_experimental_partial_encoding(in_part)
}

impl<C: ArrayToBytesCodecTraits + Sync> ArrayCore<C> {
    ghost use Rattle.std.specs.Prelude.{◌<◌, List};
    ghost use Rattle.zarr_grids_boxes.specs.Boxes.{product};
    ghost use Rattle.zarr_grids_boxes.specs.Subsets.{region_of};
    ghost use Rattle.zarr_grids_chunks.specs.Grids.{IsCovered};
    ghost use Rattle.zarr_grids_cover.specs.Intersecting.{AreIntersecting};
    ghost use Rattle.zarr_codecs_meaning.specs.Types.{Cell};
    ghost use Rattle.zarr_codecs_arrays.specs.Outcomes.{IsValid};
    ghost use Rattle.zarr_codecs_arrays.specs.Views.{payload_of};
    ghost use Rattle.zarr_array_core.specs.Arrays.{CalledMany, IfHonestErr, OnHonestOk};
    ghost use Rattle.zarr_array_core.specs.BoxWrites.{region_write};
    ghost use Rattle.zarr_array_core.specs.Turns.{HadTurns, region_walk};
    ghost use Rattle.zarr_array_core.specs.Views.{document_of};
    ghost use Rattle.zarr_array_core.specs.Outcomes.{WritesBox, WriteStops, chunks_met, IsSmall};
    ghost use Rattle.zarr_array_meaning.specs.Writes.{allowed};

    /// Writes the elements of a region that is not empty, row-major, chunk by chunk: `bytes` are as
    /// many values of the array's data type as the region has places. A chunk that becomes all fill
    /// loses its key, unless empty chunks are stored. The store accepts at most one writing call
    /// for each chunk. A chunk that lies in the region is written whatever is stored for it, and
    /// nothing is fetched for it. With `experimental_partial_encoding`, and a store that takes
    /// ranges of a value, a part is put into its chunk's shard.
    ///
    /// `Fit` where a chunk does not fit its codecs, `Damage` where a part of a chunk is to stay and
    /// what is stored cannot be decoded or, if that part is put into it, cannot take it, `Codec`
    /// where a codec refuses to encode, `Size` where an offset or a length is too large for where
    /// it is written, `Storage` where the store refuses. The chunks before the one that stopped
    /// stay written.
    pub fn write_region<R: Threads + Sync, S: WritableStorageTraits>(
        &self,
        rt: &R,
        rooms: &mut ChunkRooms,
        store: &mut S,
        target: RegionBytes,
        options: &CodecOptions,
    ) -> Result<(), ManyError>
        requires covered { IsCovered (document_of C.meaning self.now).grid
            (region_of target.region.now) }
        requires some { 0 < product target.region.now.shape.items }
        requires small { IsSmall (document_of C.meaning self.now) (region_of target.region.now) }
        requires intersecting { AreIntersecting (document_of C.meaning self.now).grid
            (region_of target.region.now) (region_of target.chunks.now) }
        requires valid { (cells : List Cell)
            × IsValid (document_of C.meaning self.now).elements.type
            (payload_of target.bytes.now) (product target.region.now.shape.items) cells }
        ensures ok { OnHonestOk S.ReadableStorageTraits store.old store.new result
            (WritesBox (region_write C.ArrayToBytesCodecTraits self.now target.entry
            (allowed S.supports_set_partial options.now)) (payload_of target.entry.bytes.now)) }
        ensures err { IfHonestErr S.ReadableStorageTraits store.old store.new result
            (λ stopped before after. WriteStops (region_write C.ArrayToBytesCodecTraits self.now
            target.entry (allowed S.supports_set_partial options.now))
            (payload_of target.entry.bytes.now) before after stopped) }
        ensures store { CalledMany S.ReadableStorageTraits (chunks_met (document_of C.meaning
            self.now) (region_of target.entry.region.now)) store.old store.new result }
        ensures turns { HadTurns S.ReadableStorageTraits (region_walk C.ArrayToBytesCodecTraits
            self.now (region_of target.entry.region.now)) store.old store.new result }
    {
        let (start, shape) = (target.region.start(), target.region.shape());
        let alloc = rooms.alloc();
        let effective = allowed_options(store, options);
        let write = BoxWrite {
            rt,
            alloc,
            subset: target.region,
            region: Extent { start, shape },
            bytes: target.bytes,
            options: &effective,
        };
        self.write_chunks(rooms, store, &write, target.chunks)
    }
}

impl<C: ArrayToBytesCodecTraits + Sync> ArrayCore<C> {
    ghost use Rattle.std.specs.Prelude.{◌≡◌, ◌<◌, true, length};
    ghost use Rattle.std.specs.List.{list_all};
    ghost use Rattle.zarr_grids_boxes.specs.Boxes.{Region, product};
    ghost use Rattle.zarr_grids_boxes.specs.Subsets.{region_of};
    ghost use Rattle.zarr_grids_chunks.specs.Grids.{IsInGrid, intersects};
    ghost use Rattle.zarr_grids_cover.specs.Intersecting.{AreIntersecting};
    ghost use Rattle.zarr_grids_overlay.specs.Overlays.{extent_of};
    ghost use Rattle.zarr_codecs_meaning.specs.Types.{is_value};
    ghost use Rattle.zarr_codecs_arrays.specs.Views.{payload_of};
    ghost use Rattle.zarr_array_core.specs.Arrays.{Called, CalledMany, IfHonestErr, OnHonestOk};
    ghost use Rattle.zarr_array_core.specs.IntoShards.{StopsAt, WritesAt};
    ghost use Rattle.zarr_array_core.specs.BoxWrites.{write_of};
    ghost use Rattle.zarr_array_core.specs.Outcomes.{WritesMet, WriteStops, IsSmall};
    ghost use Rattle.zarr_array_core.specs.Turns.{HadTurns, box_walk};
    ghost use Rattle.zarr_array_core.specs.Views.{array_cells, AreSoMany, document_of};

    /// Writes the elements of a box to each chunk that it intersects.
    fn write_chunks<R: Threads + Sync, S: WritableStorageTraits>(
        &self,
        rooms: &mut ChunkRooms,
        store: &mut S,
        write: &BoxWrite<R>,
        chunks: &ArraySubset,
    ) -> Result<(), ManyError>
        requires rank { length write.now.region.start.now
            ≡ length (document_of C.meaning self.now).grid }
        requires some { 0 < product chunks.now.shape.items }
        requires small { IsSmall (document_of C.meaning self.now) (extent_of write.now.region) }
        requires intersecting { AreIntersecting (document_of C.meaning self.now).grid
            (extent_of write.now.region) (region_of chunks.now) }
        requires many { AreSoMany self.now write.now.bytes.now
            (product write.now.region.shape.now) }
        requires values { list_all (is_value (document_of C.meaning self.now).elements.type)
            (array_cells self.now write.now.bytes.now) ≡ true }
        ensures ok { OnHonestOk S.ReadableStorageTraits store.old store.new result
            (WritesMet (write_of C.ArrayToBytesCodecTraits self.now write.now)) }
        ensures err { IfHonestErr S.ReadableStorageTraits store.old store.new result
            (λ stopped before after. WriteStops
            (write_of C.ArrayToBytesCodecTraits self.now write.now)
            (payload_of write.now.bytes.now) before after stopped) }
        ensures store { CalledMany S.ReadableStorageTraits (product chunks.now.shape.items)
            store.old store.new result }
        ensures turns { HadTurns S.ReadableStorageTraits (box_walk C.ArrayToBytesCodecTraits
            self.now (region_of chunks.now)) store.old store.new result }
    {
        let count = count_places(chunks.shape()).unwrap();
        let mut room = rooms.take_indices();
        if room.resize(chunks.dimensionality(), 0).is_err() {
            let error = ChunkError::Memory;
            return Err(ManyError { applied: 0, error });
        }
        let chunk = room.as_mut_slice();
        for n in 0..count {
            place_into(chunks.start(), chunks.shape(), count, n, chunk);
            match self.write_at(rooms, store, write, chunk) {
                Ok(()) => {}
                Err(error) => return Err(ManyError { applied: n, error }),
            }
        }
        rooms.keep_indices(room);
        Ok(())
    }

    /// Writes the elements of a box that lie in a chunk: a part of it into its shard, or its value.
    /// Which of both is decided before anything is fetched.
    fn write_at<R: Threads + Sync, S: WritableStorageTraits>(
        &self,
        rooms: &mut ChunkRooms,
        store: &mut S,
        write: &BoxWrite<R>,
        chunk: &[u64],
    ) -> Result<(), ChunkError>
        requires below { (box : Region)
            × IsInGrid (document_of C.meaning self.now).grid chunk.now box }
        requires shares { intersects (document_of C.meaning self.now).grid
            (extent_of write.now.region) chunk.now ≡ true }
        requires small { IsSmall (document_of C.meaning self.now) (extent_of write.now.region) }
        requires rank { length write.now.region.start.now
            ≡ length (document_of C.meaning self.now).grid }
        requires many { AreSoMany self.now write.now.bytes.now
            (product write.now.region.shape.now) }
        requires values { list_all (is_value (document_of C.meaning self.now).elements.type)
            (array_cells self.now write.now.bytes.now) ≡ true }
        ensures ok { OnHonestOk S.ReadableStorageTraits store.old store.new result
            (WritesAt (write_of C.ArrayToBytesCodecTraits self.now write.now) chunk.now) }
        ensures err { IfHonestErr S.ReadableStorageTraits store.old store.new result (λ e before _.
            StopsAt (write_of C.ArrayToBytesCodecTraits self.now write.now) chunk.now e before) }
        ensures store { Called S.ReadableStorageTraits 1 store.old store.new result }
    {
        let key = self.key_of(write.alloc, chunk)?;
        let own = self.box_of(rooms.take_own(), chunk)?;
        if self.is_into_shard(write, &own)? {
            self.put_into_shard(rooms, store, &key, write, &own)?;
        } else if !self.patch_chunk(rooms, store, &key, write, &own)? {
            self.write_chunk(rooms, store, &key, write, &own)?;
        }
        rooms.keep_own(own);
        Ok(())
    }
}
