//! One chunk compacted.
ghost use Rattle.std.specs.Prelude.{◌≡◌, IsTrue, IfErr, OnErr, OnOk};
ghost use Rattle.std.specs.FinMap.{insert};
ghost use Rattle.zarr_array_core.specs.Arrays.{Called};
ghost use Rattle.zarr_array_core.specs.Outcomes.{IsErasureStop};

use crate::array_core::ArrayCore;
use crate::error::ChunkError;
use crate::rooms::ChunkRooms;
use crate::store_calls::get;
use std::alloc::Global;
use std::thread::Threads;
use zarr_array_storage::{ReadableStorageTraits, StorageError, WritableStorageTraits};
use zarr_codecs_arrays::CodecError;
use zarr_codecs_options::CodecOptions;
use zarr_codecs_traits::ArrayToBytesCodecTraits;
use zarr_grids_keys::StoreKey;

/// Puts a value at a key. The store may keep it without a copy.
fn set_made<S: WritableStorageTraits>(
    store: &mut S,
    key: &StoreKey,
    value: Vec<u8>,
) -> Result<(), ChunkError>
    ensures ok { IsTrue (S.is_honest store.old) → OnOk result
        (S.held store.new ≡ insert (S.held store.old) key.now value.items) }
    ensures stops { IsTrue (S.is_honest store.old) → IfErr result IsErasureStop }
    ensures store { Called S.ReadableStorageTraits 1 store.old store.new result }
    ensures unwritten { OnErr result (S.accepted_writes store.new ≡ S.accepted_writes store.old) }
{
    match store.set_owned(key, value) {
        Ok(()) => Ok(()),
        Err(StorageError::Memory) => Err(ChunkError::Memory),
        Err(StorageError::InvalidByteRange) => Err(ChunkError::Damage),
        Err(error) => Err(ChunkError::Storage(error)),
    }
}

impl<C: ArrayToBytesCodecTraits + Sync> ArrayCore<C> {
    ghost use Rattle.std.specs.Prelude.{IsTrue, IfOk};
    ghost use Rattle.zarr_grids_boxes.specs.Boxes.{Region};
    ghost use Rattle.zarr_grids_chunks.specs.Grids.{IsInGrid};
    ghost use Rattle.zarr_array_meaning.specs.Compacting.{CompactsChunk};
    ghost use Rattle.zarr_array_core.specs.Arrays.{array_of, Called, IfHonestErr};
    ghost use Rattle.zarr_array_core.specs.Calls.{calls_of};
    ghost use Rattle.zarr_array_core.specs.Compacting.{CompactStops};

    /// Writes the value of a chunk anew, its shard without gaps: `true` where that changed it, and
    /// `false` where the chunk has no value, makes no shard or gains nothing. No slice is decoded.
    /// `Fit` where a chunk with a value does not fit its codecs, `Damage` where a present slice
    /// lies outside the shard's data, `Codec` and `Size` where the new value is refused, `Storage`
    /// where the store refuses.
    pub fn compact_chunk<R: Threads + Sync, S: WritableStorageTraits>(
        &self,
        rt: &R,
        rooms: &mut ChunkRooms,
        store: &mut S,
        chunk: &[u64],
        options: &CodecOptions,
    ) -> Result<bool, ChunkError>
        requires below { (box : Region)
            × IsInGrid (array_of C.ArrayToBytesCodecTraits self.now).document.grid chunk.now box }
        // The chunk is compacted, and no other key changes.
        ensures ok { IsTrue (S.is_honest store.old) → IfOk result (λ changed. CompactsChunk
            (array_of C.ArrayToBytesCodecTraits self.now) chunk.now changed
            (S.held store.old) (S.held store.new)) }
        ensures err { IfHonestErr S.ReadableStorageTraits store.old store.new result
            (λ e before _. CompactStops (array_of C.ArrayToBytesCodecTraits self.now) chunk.now
            e before) }
        // By at most one writing call, and none where nothing changes; a refusal changes nothing.
        ensures store { Called S.ReadableStorageTraits (calls_of result)
            store.old store.new result }
    {
        let key = self.key_of(rooms.alloc(), chunk)?;
        let own = self.box_of(rooms.take_own(), chunk)?;
        let made = self.compact_stored(rooms.alloc(), store, &key, own.shape(), options)?;
        rooms.keep_own(own);
        let Some(made) = made else {
            return Ok(false);
        };
        set_made(store, &key, made)?;
        Ok(true)
    }
}

impl<C: ArrayToBytesCodecTraits> ArrayCore<C> {
    ghost use Rattle.std.specs.Prelude.{IsTrue};
    ghost use Rattle.std.specs.FinMap as map;
    ghost use Rattle.zarr_array_core.specs.Calls.{Reads};
    ghost use Rattle.zarr_array_core.specs.Compacting.{CompactsStored, CompactsValue};
    ghost use Rattle.zarr_array_core.specs.Outcomes.{refused_after};
    ghost use Rattle.zarr_array_core.specs.Views.{document_of};

    /// What is stored for a chunk, written anew, or `None` where nothing is stored or nothing is
    /// gained. A value that the store lends isn't copied.
    fn compact_stored<S: ReadableStorageTraits>(
        &self,
        alloc: Global,
        store: &mut S,
        key: &StoreKey,
        shape: &[u64],
        options: &CodecOptions,
    ) -> Result<Option<Vec<u8>>, ChunkError>
        ensures compacts { IsTrue (S.is_honest store.old) →
            CompactsStored (document_of C.meaning self.now) shape.now
            (map.get (S.held store.old) key.now) result }
        ensures store { Reads S.ReadableStorageTraits store.old store.new
            (refused_after (S.refused_calls store.old) result) }
    {
        if let Some(value) = store.lend(key) {
            return self.compact_value(alloc, value, shape, options);
        }
        let Some(value) = get(store, key)? else {
            return Ok(None);
        };
        self.compact_value(alloc, value.as_slice(), shape, options)
    }

    /// The value of a chunk written anew, or `None` where nothing is gained.
    fn compact_value(
        &self,
        alloc: Global,
        value: &[u8],
        shape: &[u64],
        options: &CodecOptions,
    ) -> Result<Option<Vec<u8>>, ChunkError>
        ensures { CompactsValue (document_of C.meaning self.now) shape.now value.now result }
    {
        match self
            .codecs
            .compact_in_order(alloc, value, &self.elements, shape)
        {
            Ok(made) => Ok(made),
            Err(CodecError::Fit) => Err(ChunkError::Fit),
            Err(CodecError::Damage) => Err(ChunkError::Damage),
            Err(CodecError::Codec) => Err(ChunkError::Codec),
            Err(CodecError::Size) => Err(ChunkError::Size),
            Err(CodecError::Memory) => Err(ChunkError::Memory),
            Err(_) => unreachable!(),
        }
    }
}
