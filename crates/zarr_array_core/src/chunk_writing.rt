//! One chunk written.
ghost use Rattle.std.specs.Prelude.{◌≡◌, IsTrue, OnOk, OnErr, IfErr};
ghost use Rattle.zarr_array_core.specs.Arrays.{Called};
ghost use Rattle.zarr_array_core.specs.ChunkValues.{with_value};
ghost use Rattle.zarr_array_core.specs.Outcomes.{IsErasureStop};
ghost use Rattle.zarr_array_storage.specs.Stores.{value_bytes};

use crate::array_core::ArrayCore;
use crate::chunk_value::BoxWrite;
use crate::error::ChunkError;
use crate::holding::holds_box;
use crate::rooms::ChunkRooms;
use crate::store_calls::{erase, get, set};
use std::thread::Threads;
use zarr_array_storage::WritableStorageTraits;
use zarr_codecs_arrays::ArrayBytes;
use zarr_codecs_traits::ArrayToBytesCodecTraits;
use zarr_grids_boxes::ArraySubset;
use zarr_grids_keys::StoreKey;
use zarr_grids_overlay::Extent;

/// Puts a chunk's value at its key, or takes the key away where there is none.
pub(crate) fn put_value<S: WritableStorageTraits>(
    store: &mut S,
    key: &StoreKey,
    value: Option<Vec<u8>>,
) -> Result<(), ChunkError>
    ensures ok { IsTrue (S.is_honest store.old) → OnOk result
        (S.held store.new ≡ with_value (S.held store.old) key.now (value_bytes value)) }
    ensures stops { IsTrue (S.is_honest store.old) → IfErr result IsErasureStop }
    ensures store { Called S.ReadableStorageTraits 1 store.old store.new result }
    ensures unwritten { OnErr result (S.accepted_writes store.new ≡ S.accepted_writes store.old) }
{
    match value {
        Some(value) => set(store, key, value.as_slice()),
        None => erase(store, key),
    }
}

impl<C: ArrayToBytesCodecTraits + Sync> ArrayCore<C> {
    ghost use Rattle.std.specs.Prelude.{◌≡◌, ℕ, List, Option, true, IsTrue, IfOk};
    ghost use Rattle.std.specs.FinMap as map;
    ghost use Rattle.zarr_array_core.specs.Arrays.{array_of, Called, IfHonestErr, OnHonestOk};
    ghost use Rattle.zarr_array_core.specs.ChunkValues.{CellsBecome, ChangeStops, ChangesValue, MakesValue, MergeStops, NewValueStops, OnDamage};
    ghost use Rattle.zarr_array_core.specs.IntoShards.{ChangesAt};
    ghost use Rattle.zarr_array_core.specs.BoxWrites.{write_of, WritesTo};
    ghost use Rattle.zarr_array_core.specs.Outcomes.{refused_after};
    ghost use Rattle.zarr_array_core.specs.Views.{array_cells, AreSoMany};
    ghost use Rattle.zarr_array_meaning.specs.Chunks.{fits_box};
    ghost use Rattle.zarr_grids_boxes.specs.Boxes.{product};
    ghost use Rattle.zarr_grids_boxes.specs.Subsets.{region_of};

    /// The elements of a chunk after a write. Of a chunk that lies in its box nothing is fetched.
    fn cells_after<R: Threads + Sync, S: WritableStorageTraits>(
        &self,
        store: &mut S,
        key: &StoreKey,
        write: &BoxWrite<R>,
        own: &ArraySubset,
    ) -> Result<ArrayBytes, ChunkError>
        requires writes { WritesTo self.now write.now own.now }
        requires fit { fits_box (array_of C.ArrayToBytesCodecTraits self.now).document
            (region_of own.now) ≡ true }
        ensures ok { IfOk result (λ bytes. (stored : Option (List ℕ))
            × (IsTrue (S.is_honest store.old) → stored ≡ map.get (S.held store.old) key.now)
            × CellsBecome (write_of C.ArrayToBytesCodecTraits self.now write.now)
            (region_of own.now) stored (array_cells self.now bytes)) }
        ensures counted { IfOk result
            (λ bytes. AreSoMany self.now bytes (product own.now.shape.items)) }
        ensures err { IfHonestErr S.ReadableStorageTraits store.old store.new result
            (λ e before _. MergeStops (write_of C.ArrayToBytesCodecTraits self.now write.now)
            (region_of own.now) (map.get before key.now) e) }
        ensures held { S.held store.new ≡ S.held store.old }
        ensures honest { S.is_honest store.new ≡ S.is_honest store.old }
        ensures refused { S.refused_calls store.new ≡
            refused_after (S.refused_calls store.old) result }
        ensures accepted { S.accepted_writes store.new ≡ S.accepted_writes store.old }
    {
        let (start, shape) = (own.start(), own.shape());
        if holds_box(write.region, Extent { start, shape }) {
            return self.whole_cells(write, own);
        }
        let stored = get(store, key)?;
        self.part_cells(write, own, stored)
    }

    /// Writes the elements of a box that lie in a chunk that suits its codecs: the chunk's value is
    /// made anew of the elements that it had and the new ones.
    fn write_fitting<R: Threads + Sync, S: WritableStorageTraits>(
        &self,
        store: &mut S,
        key: &StoreKey,
        write: &BoxWrite<R>,
        own: &ArraySubset,
    ) -> Result<(), ChunkError>
        requires writes { WritesTo self.now write.now own.now }
        requires fit { fits_box (array_of C.ArrayToBytesCodecTraits self.now).document
            (region_of own.now) ≡ true }
        ensures ok { OnHonestOk S.ReadableStorageTraits store.old store.new result
            (ChangesAt key.now (MakesValue
            (write_of C.ArrayToBytesCodecTraits self.now write.now) (region_of own.now))) }
        ensures err { IfHonestErr S.ReadableStorageTraits store.old store.new result
            (λ e before _. NewValueStops (write_of C.ArrayToBytesCodecTraits self.now write.now)
            (region_of own.now) (map.get before key.now) e) }
        ensures store { Called S.ReadableStorageTraits 1 store.old store.new result }
        ensures unwritten { OnDamage result
            (S.accepted_writes store.new ≡ S.accepted_writes store.old) }
    {
        let bytes = self.cells_after(store, key, write, own)?;
        let empty = self.stores_fill(write, own)?;
        let value = self.encode_chunk(&write.coding(), own.shape(), bytes, empty)?;
        put_value(store, key, value)
    }

    /// Writes the elements of a box that lie in a chunk. Where what is stored is not decoded, they
    /// are put into it, if the chunk is written in part.
    pub(crate) fn write_chunk<R: Threads + Sync, S: WritableStorageTraits>(
        &self,
        rooms: &mut ChunkRooms,
        store: &mut S,
        key: &StoreKey,
        write: &BoxWrite<R>,
        own: &ArraySubset,
    ) -> Result<(), ChunkError>
        requires writes { WritesTo self.now write.now own.now }
        ensures ok { OnHonestOk S.ReadableStorageTraits store.old store.new result
            (ChangesAt key.now (ChangesValue
            (write_of C.ArrayToBytesCodecTraits self.now write.now) (region_of own.now))) }
        ensures err { IfHonestErr S.ReadableStorageTraits store.old store.new result
            (λ e before _. ChangeStops (write_of C.ArrayToBytesCodecTraits self.now write.now)
            (region_of own.now) (map.get before key.now) e) }
        ensures store { Called S.ReadableStorageTraits 1 store.old store.new result }
    {
        if !self
            .codecs
            .fits(write.alloc, self.elements.data_type(), own.shape())?
        {
            return Err(ChunkError::Fit);
        }
        match self.write_fitting(store, key, write, own) {
            Err(ChunkError::Damage) => self.put_part(rooms, store, key, write, own),
            result => result,
        }
    }
}
