//! A part of a chunk put into the chunk's shard, of which other subchunks aren't decoded.
ghost use Rattle.std.specs.Prelude.{◌≡◌};
ghost use Rattle.zarr_array_core.specs.IntoShards.{shard_refusal_of};

use crate::array_core::ArrayCore;
use crate::chunk_value::BoxWrite;
use crate::error::ChunkError;
use crate::moving::{overlap_in, seen_from};
use crate::rooms::ChunkRooms;
use crate::store_source::refusal_of;
use crate::store_target::StoreTarget;
use zarr_array_storage::{StorageError, WritableStorageTraits};
use zarr_codecs_arrays::{ArrayBytes, CodecError};
use zarr_codecs_traits::{ArrayPart, ArrayToBytesCodecTraits, Indexer};
use zarr_grids_boxes::ArraySubset;
use zarr_grids_keys::StoreKey;

/// Why elements are not put into a chunk's shard where its codecs refuse; `refusal` is why the
/// store does, if that is what refuses. A store for which codecs give other reasons isn't honest,
/// and what it holds is taken as damaged.
fn of_sharding(error: CodecError, refusal: StorageError) -> ChunkError
    ensures { result ≡ shard_refusal_of error refusal }
{
    match error {
        CodecError::Codec => ChunkError::Codec,
        CodecError::Size => ChunkError::Size,
        CodecError::Memory => ChunkError::Memory,
        CodecError::Source => ChunkError::Storage(refusal),
        _ => ChunkError::Damage,
    }
}

impl<C: ArrayToBytesCodecTraits + Sync> ArrayCore<C> {
    ghost use Rattle.std.specs.Prelude.{◌≡◌, ℕ, List, Option, true, IsTrue, OnOk};
    ghost use Rattle.std.specs.FinMap as map;
    ghost use Rattle.zarr_array_core.specs.Arrays.{array_of, Called, IfHonestErr, OnHonestOk};
    ghost use Rattle.zarr_array_core.specs.ChunkValues.{with_value};
    ghost use Rattle.zarr_array_core.specs.IntoShards.{CalledByCodec, ChangesAt, IntoShardStops, IsPutInto, NotPutInto, PutsIntoShard, putting_of};
    ghost use Rattle.zarr_array_core.specs.BoxWrites.{write_of, WritesTo};
    ghost use Rattle.zarr_array_meaning.specs.Chunks.{fits_box};
    ghost use Rattle.zarr_array_meaning.specs.Writing.{is_into_shard};
    ghost use Rattle.zarr_grids_boxes.specs.Subsets.{region_of};

    /// Puts elements in the place of those of a box of a chunk of this shape, in the value that a
    /// target holds.
    fn put_into_target<'x, R, S: WritableStorageTraits>(
        &'x self,
        target: &mut StoreTarget<'_, S>,
        write: &BoxWrite<R>,
        given: ArrayBytes,
        shape: &'x [u64],
        part: &'x ArraySubset,
    ) -> Result<(), CodecError>
        ensures same_store { target.new.store.ghost_name ≡ target.old.store.ghost_name }
        ensures ok { IsTrue (S.is_honest target.old.store.now) → OnOk result
            ((made : Option (List ℕ)) × IsPutInto
            (putting_of C.ArrayToBytesCodecTraits self.now shape.now part.now given)
            (map.get (S.held target.old.store.now) target.old.key.now) made
            × (S.held target.new.store.now
            ≡ with_value (S.held target.old.store.now) target.old.key.now made)) }
        ensures cause { IsTrue (S.is_honest target.old.store.now) → NotPutInto
            (putting_of C.ArrayToBytesCodecTraits self.now shape.now part.now given)
            (map.get (S.held target.old.store.now) target.old.key.now) result }
        ensures store { CalledByCodec S.ReadableStorageTraits target.old.store.now
            target.new.store.now result }
    {
        let elements = &self.elements;
        let indexer = Indexer::Subset(part);
        let asked = ArrayPart {
            elements,
            shape,
            indexer,
        };
        self.codecs
            .partial_encode_in_order(write.alloc, target, given, asked)
    }

    /// Puts the elements of a box that lie in a chunk into the chunk's shard, by one writing call
    /// of the store: only the subchunks that the box meets are decoded. Where the shard is all fill
    /// then, its key is taken away.
    pub(crate) fn put_into_shard<R, S: WritableStorageTraits>(
        &self,
        rooms: &mut ChunkRooms,
        store: &mut S,
        key: &StoreKey,
        write: &BoxWrite<R>,
        own: &ArraySubset,
    ) -> Result<(), ChunkError>
        requires writes { WritesTo self.now write.now own.now }
        requires fit { fits_box (array_of C.ArrayToBytesCodecTraits self.now).document
            (region_of own.now) ≡ true }
        requires into { is_into_shard (array_of C.ArrayToBytesCodecTraits self.now).document
            write.now.options.now (write_of C.ArrayToBytesCodecTraits self.now write.now).region
            (region_of own.now) ≡ true }
        ensures ok { OnHonestOk S.ReadableStorageTraits store.old store.new result
            (ChangesAt key.now (PutsIntoShard
            (write_of C.ArrayToBytesCodecTraits self.now write.now) (region_of own.now))) }
        ensures err { IfHonestErr S.ReadableStorageTraits store.old store.new result
            (λ e before after. IntoShardStops
            (write_of C.ArrayToBytesCodecTraits self.now write.now) (region_of own.now)
            (map.get before key.now) e) }
        ensures store { Called S.ReadableStorageTraits 1 store.old store.new result }
    {
        let shared = overlap_in(rooms.take_shared(), write.subset, own)?;
        let bytes = self.whole_cells(write, &shared)?;
        let part = seen_from(shared, own.start());
        let mut refused = None;
        let refusal = &mut refused;
        let mut target = StoreTarget {
            store,
            key,
            refusal,
        };
        match self.put_into_target(&mut target, write, bytes, own.shape(), &part) {
            Ok(()) => Ok(()),
            Err(error) => Err(of_sharding(error, refusal_of(refused))),
        }
    }
}
