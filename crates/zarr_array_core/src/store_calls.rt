//! Calls of a store, whose refusals are those of calls over chunks.
ghost use Rattle.std.specs.Prelude.{◌≡◌, ℕ, IsTrue, IfOk, OnOk, OnErr, IfErr, false, if◌then◌else◌, length, option_map};
ghost use Rattle.zarr_array_core.specs.Arrays.{Called};
ghost use Rattle.zarr_array_core.specs.Calls.{GivesAtMost};
ghost use Rattle.std.specs.FinMap.{get, insert, remove};
ghost use Rattle.zarr_array_meaning.specs.StoreMaps.{counted};
ghost use Rattle.zarr_array_storage.specs.Ranges.{patched_at};
ghost use Rattle.zarr_array_storage.specs.Refusals.{IfByteRange, is_counted};
ghost use Rattle.zarr_array_storage.specs.Stores.{HasBytesAt, value_bytes};
ghost use Rattle.zarr_codecs_traits.specs.Patches.{any_too_far, patches_of};
ghost use Rattle.zarr_codecs_traits.specs.Sources.{value_length};
ghost use Rattle.zarr_array_core.specs.Outcomes.{IsErasureStop, refused_after, refused_with};

use crate::error::ChunkError;
use zarr_array_storage::{ReadableStorageTraits, StorageError, ValuePatch, WritableStorageTraits};
use zarr_grids_keys::StoreKey;

/// Why a call over chunks stops where the store refuses for this reason. A store that answers a
/// wrong range to a call that names none isn't honest, and what it holds is taken as damaged.
fn of_storage(error: StorageError) -> ChunkError
    ensures stops { IfByteRange error ⊥ → IsErasureStop result }
    ensures refused { (count : ℕ) → refused_with result count
        ≡ (if is_counted error then counted count 1 else count) }
{
    match error {
        StorageError::Memory => ChunkError::Memory,
        StorageError::InvalidByteRange => ChunkError::Damage,
        error => ChunkError::Storage(error),
    }
}

/// The value at a key, or `None` where it has none.
pub(crate) fn get<S: ReadableStorageTraits>(
    store: &mut S,
    key: &StoreKey,
) -> Result<Option<Vec<u8>>, ChunkError>
    ensures value { IsTrue (S.is_honest store.old) →
        IfOk result (λ found. value_bytes found ≡ get (S.held store.old) key.now) }
    ensures stops { IsTrue (S.is_honest store.old) → IfErr result IsErasureStop }
    ensures held { S.held store.new ≡ S.held store.old }
    ensures honest { S.is_honest store.new ≡ S.is_honest store.old }
    ensures refused { S.refused_calls store.new ≡
        refused_after (S.refused_calls store.old) result }
    ensures given { GivesAtMost S.ReadableStorageTraits
        (value_length (get (S.held store.old) key.now)) store.old store.new }
    ensures accepted { S.accepted_writes store.new ≡ S.accepted_writes store.old }
{
    match store.get(key) {
        Ok(found) => Ok(found),
        Err(error) => Err(of_storage(error)),
    }
}

/// How many bytes the value at a key has, or `None` where it has no value.
pub(crate) fn size_key<S: ReadableStorageTraits>(
    store: &mut S,
    key: &StoreKey,
) -> Result<Option<u64>, ChunkError>
    ensures size { IsTrue (S.is_honest store.old) →
        IfOk result (λ size. size ≡ option_map length (get (S.held store.old) key.now)) }
    ensures bytes { IsTrue (S.is_honest store.old) →
        OnOk result (HasBytesAt (S.held store.old) key.now) }
    ensures stops { IsTrue (S.is_honest store.old) → IfErr result IsErasureStop }
    ensures held { S.held store.new ≡ S.held store.old }
    ensures honest { S.is_honest store.new ≡ S.is_honest store.old }
    ensures refused { S.refused_calls store.new ≡
        refused_after (S.refused_calls store.old) result }
    ensures given { S.given_bytes store.new ≡ S.given_bytes store.old }
    ensures accepted { S.accepted_writes store.new ≡ S.accepted_writes store.old }
{
    match store.size_key(key) {
        Ok(size) => Ok(size),
        Err(error) => Err(of_storage(error)),
    }
}

/// Puts a value at a key.
pub(crate) fn set<S: WritableStorageTraits>(
    store: &mut S,
    key: &StoreKey,
    value: &[u8],
) -> Result<(), ChunkError>
    ensures ok { IsTrue (S.is_honest store.old) → OnOk result
        (S.held store.new ≡ insert (S.held store.old) key.now value.now) }
    ensures stops { IsTrue (S.is_honest store.old) → IfErr result IsErasureStop }
    ensures store { Called S.ReadableStorageTraits 1 store.old store.new result }
    ensures unwritten { OnErr result (S.accepted_writes store.new ≡ S.accepted_writes store.old) }
{
    match store.set(key, value) {
        Ok(()) => Ok(()),
        Err(error) => Err(of_storage(error)),
    }
}

/// Writes ranges into the value at a key.
pub(crate) fn set_partial<S: WritableStorageTraits>(
    store: &mut S,
    key: &StoreKey,
    patches: &[ValuePatch<'_>],
) -> Result<(), ChunkError>
    requires { any_too_far (patches_of patches.now) ≡ false }
    ensures ok { IsTrue (S.is_honest store.old) → OnOk result (S.held store.new ≡ insert
        (S.held store.old) key.now
        (patched_at (S.held store.old) key.now (patches_of patches.now))) }
    ensures stops { IsTrue (S.is_honest store.old) → IfErr result IsErasureStop }
    ensures store { Called S.ReadableStorageTraits 1 store.old store.new result }
    ensures unwritten { OnErr result (S.accepted_writes store.new ≡ S.accepted_writes store.old) }
{
    match store.set_partial(key, patches) {
        Ok(()) => Ok(()),
        Err(error) => Err(of_storage(error)),
    }
}

/// Takes the value at a key away. A key that has none is fine.
pub(crate) fn erase<S: WritableStorageTraits>(
    store: &mut S,
    key: &StoreKey,
) -> Result<(), ChunkError>
    ensures ok { IsTrue (S.is_honest store.old) → OnOk result
        (S.held store.new ≡ remove (S.held store.old) key.now) }
    ensures stops { IsTrue (S.is_honest store.old) → IfErr result IsErasureStop }
    ensures store { Called S.ReadableStorageTraits 1 store.old store.new result }
    ensures unwritten { OnErr result (S.accepted_writes store.new ≡ S.accepted_writes store.old) }
{
    match store.erase(key) {
        Ok(()) => Ok(()),
        Err(error) => Err(of_storage(error)),
    }
}
