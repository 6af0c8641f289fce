//! Calls of a store, whose refusals are causes.
ghost use Rattle.std.specs.Prelude.{◌≡◌, ℕ, IsTrue, IfOk, IfErr, OnOk, OnErr, if◌then◌else◌};
ghost use Rattle.std.specs.FinMap.{get, insert};
ghost use Rattle.zarr_grids_keys.specs.Documents.{document_key};
ghost use Rattle.zarr_grids_keys.specs.Paths.{is_node_path};
ghost use Rattle.zarr_array_meaning.specs.StoreMaps.{counted};
ghost use Rattle.zarr_array_storage.specs.Refusals.{IfByteRange, is_counted};
ghost use Rattle.zarr_array_storage.specs.Stores.{value_bytes};
ghost use Rattle.zarr_run_meaning.specs.Steps.{refused_after};
ghost use Rattle.zarr_run_opening.specs.Calls.{IsStoreCause, IsCallCause, refused_by};

use std::alloc::{AllocError, Global};
use zarr_array_storage::{ReadableStorageTraits, StorageError, WritableStorageTraits};
use zarr_grids_keys::{DocumentName, StoreKey, document_key};
use zarr_run_meaning::Cause;

/// Why a command is refused where the store refuses for this reason. A store that answers a wrong
/// range to a call that names none isn't honest, and what it holds is taken as damaged.
fn cause_of_storage(error: StorageError) -> Cause
    ensures cause { IfByteRange error ⊥ → IsStoreCause result }
    ensures call { IsCallCause result }
    ensures refused { (count : ℕ) → refused_after result count
        ≡ (if is_counted error then counted count 1 else count) }
{
    match error {
        StorageError::Memory => Cause::Memory,
        StorageError::InvalidByteRange => Cause::Damage,
        _ => Cause::Store,
    }
}

/// The value at a key, or `None` where it has none.
pub(crate) fn get<S: ReadableStorageTraits>(
    store: &mut S,
    key: &StoreKey,
) -> Result<Option<Vec<u8>>, Cause>
    ensures value { IsTrue (S.is_honest store.old) →
        IfOk result (λ found. value_bytes found ≡ get (S.held store.old) key.now) }
    ensures cause { IsTrue (S.is_honest store.old) → IfErr result IsStoreCause }
    ensures held { S.held store.new ≡ S.held store.old }
    ensures honest { S.is_honest store.new ≡ S.is_honest store.old }
    ensures refused { S.refused_calls store.new ≡ refused_by (S.refused_calls store.old) result }
    ensures accepted { S.accepted_writes store.new ≡ S.accepted_writes store.old }
{
    match store.get(key) {
        Ok(found) => Ok(found),
        Err(error) => Err(cause_of_storage(error)),
    }
}

/// Puts a value at a key.
pub(crate) fn set<S: WritableStorageTraits>(
    store: &mut S,
    key: &StoreKey,
    value: &[u8],
) -> Result<(), Cause>
    ensures ok { IsTrue (S.is_honest store.old) → OnOk result
        (S.held store.new ≡ insert (S.held store.old) key.now value.now) }
    ensures err { IsTrue (S.is_honest store.old) →
        OnErr result (S.held store.new ≡ S.held store.old) }
    ensures cause { IsTrue (S.is_honest store.old) → IfErr result IsStoreCause }
    ensures call { IfErr result IsCallCause }
    ensures honest { S.is_honest store.new ≡ S.is_honest store.old }
    ensures refused { S.refused_calls store.new ≡ refused_by (S.refused_calls store.old) result }
    ensures accepted { OnOk result
        (S.accepted_writes store.new ≡ counted (S.accepted_writes store.old) 1) }
    ensures none_accepted { OnErr result
        (S.accepted_writes store.new ≡ S.accepted_writes store.old) }
{
    match store.set(key, value) {
        Ok(()) => Ok(()),
        Err(error) => Err(cause_of_storage(error)),
    }
}

/// The store key of a document of the node at a path.
pub(crate) fn store_key(
    alloc: Global,
    path: &str,
    name: DocumentName,
) -> Result<StoreKey, AllocError>
    requires { IsTrue (is_node_path path.now) }
    ensures { IfOk result (λ key. key ≡ document_key path.now name) }
{
    let text = document_key(alloc, path, name)?;
    match StoreKey::new(text) {
        Ok(key) => Ok(key),
        Err(_) => unreachable!(),
    }
}
