//! Chunks erased one by one.
use crate::array_core::ArrayCore;
use crate::error::{ChunkError, ManyError};
use crate::store_calls::erase;
use std::alloc::Global;
use zarr_array_storage::WritableStorageTraits;
use zarr_codecs_traits::ArrayToBytesCodecTraits;
use zarr_grids_boxes::ArraySubset;
use zarr_grids_boxes::walk::{count_places, place_into};

impl<C: ArrayToBytesCodecTraits> ArrayCore<C> {
    ghost use Rattle.std.specs.Prelude.{◌≡◌, ◌<◌, ◌^◌, IsTrue, OnOk, IfErr};
    ghost use Rattle.std.specs.FinMap.{remove};
    ghost use Rattle.zarr_grids_boxes.specs.Boxes.{product, places};
    ghost use Rattle.zarr_grids_boxes.specs.Subsets.{region_of};
    ghost use Rattle.zarr_grids_chunks.specs.Grids.{AreInGrid};
    ghost use Rattle.zarr_grids_keys.specs.Keys.{chunk_key};
    ghost use Rattle.zarr_array_meaning.specs.Writing.{ErasedChunks};
    ghost use Rattle.zarr_array_core.specs.Arrays.{array_of, Called, CalledMany, IfHonestErr, OnHonestOk};
    ghost use Rattle.zarr_array_core.specs.Views.{document_of, path_of};
    ghost use Rattle.zarr_array_core.specs.Outcomes.{EraseStops, IsErasureStop};
    ghost use Rattle.zarr_array_core.specs.Turns.{HadTurns, box_walk};

    /// Takes the keys of the chunks of a box of chunk indices away, row-major, each by one writing
    /// call of the store. An empty box makes no call and needs no memory.
    pub fn erase_region<S: WritableStorageTraits>(
        &self,
        alloc: Global,
        store: &mut S,
        chunks: &ArraySubset,
    ) -> Result<(), ManyError>
        requires below { AreInGrid (document_of C.meaning self.now).grid (region_of chunks.now) }
        requires few { product chunks.now.shape.items < 2 ^ 63 }
        ensures ok { OnHonestOk S.ReadableStorageTraits store.old store.new result
            (ErasedChunks (path_of self.now) (document_of C.meaning self.now)
            (places chunks.now.start.items chunks.now.shape.items)) }
        ensures err { IfHonestErr S.ReadableStorageTraits store.old store.new result
            (λ stopped before after. EraseStops (array_of C.ArrayToBytesCodecTraits self.now)
            (region_of chunks.now) before after stopped) }
        // By no more writing calls than chunks are erased, over any store.
        ensures store { CalledMany S.ReadableStorageTraits (product chunks.now.shape.items)
            store.old store.new result }
        // By at most one for each, in turn, over an honest one.
        ensures turns { HadTurns S.ReadableStorageTraits (box_walk C.ArrayToBytesCodecTraits
            self.now (region_of chunks.now)) store.old store.new result }
    {
        let count = count_places(chunks.shape()).unwrap();
        if count == 0 {
            return Ok(());
        }
        let Ok(mut room) = vec![in alloc; 0; chunks.dimensionality()] else {
            let error = ChunkError::Memory;
            return Err(ManyError { applied: 0, error });
        };
        let chunk = room.as_mut_slice();
        for n in 0..count {
            place_into(chunks.start(), chunks.shape(), count, n, chunk);
            match self.erase_chunk(alloc, store, chunk) {
                Ok(()) => {}
                Err(error) => return Err(ManyError { applied: n, error }),
            }
        }
        Ok(())
    }

    /// Takes the key of a chunk away.
    fn erase_chunk<S: WritableStorageTraits>(
        &self,
        alloc: Global,
        store: &mut S,
        chunk: &[u64],
    ) -> Result<(), ChunkError>
        ensures ok { IsTrue (S.is_honest store.old) → OnOk result (S.held store.new ≡ remove
            (S.held store.old)
            (chunk_key (path_of self.now) (document_of C.meaning self.now).keys chunk.now)) }
        ensures stops { IsTrue (S.is_honest store.old) → IfErr result IsErasureStop }
        ensures store { Called S.ReadableStorageTraits 1 store.old store.new result }
    {
        let key = self.key_of(alloc, chunk)?;
        erase(store, &key)
    }
}
