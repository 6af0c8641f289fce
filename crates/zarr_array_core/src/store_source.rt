//! The value at a key of a store, as codecs read it.
ghost use Rattle.std.specs.Prelude.{◌≡◌, ℕ, IsErr, if◌then◌else◌};
ghost use Rattle.zarr_array_meaning.specs.StoreMaps.{counted};
ghost use Rattle.zarr_array_storage.specs.Refusals.{IfByteRange, is_counted};
ghost use Rattle.zarr_codecs_traits.specs.Sources.{ReadRefused, refused_after};
ghost use Rattle.zarr_array_core.specs.Outcomes.{IsStoreRefusal};

use std::alloc::Global;
use zarr_array_storage::storage_partial_decoder::of_storage;
use zarr_array_storage::{ReadableStorageTraits, StorageError};
use zarr_codecs_arrays::CodecError;
use zarr_codecs_traits::{ByteRange, BytesPartialDecoderTraits};
use zarr_grids_keys::StoreKey;

/// The value at a key of a store, of which codecs read the ranges that they need. Where the store
/// refuses a call, `refusal` says why. A store that answers a wrong range when it is asked for a
/// size isn't honest, and its value is taken as one of no byte, which no chunk is stored as.
#[derive(Drop)]
pub(crate) struct StoreSource<'a, S> {
    pub store: &'a mut S,
    pub key: &'a StoreKey,
    pub refusal: &'a mut Option<StorageError>,
}

/// Why the store refused, where codecs say that it did. A store for which they say so though it
/// refused nothing, or for which they pass over want of memory, is said to have failed.
pub(crate) fn refusal_of(refused: Option<StorageError>) -> StorageError
    ensures { IsStoreRefusal result }
{
    match refused {
        None | Some(StorageError::Memory) | Some(StorageError::InvalidByteRange) => {
            StorageError::Io
        }
        Some(error) => error,
    }
}

/// What a source answers where the store refuses for this reason to tell a size.
pub(crate) fn size_refused(error: &StorageError) -> Result<Option<u64>, CodecError>
    ensures refused { IfByteRange error.now ⊥ → IsErr result }
    ensures cause { ReadRefused result }
    ensures counts { (count : ℕ) → refused_after count result
        ≡ (if is_counted error.now then counted count 1 else count) }
{
    match error {
        StorageError::Memory => Err(CodecError::Memory),
        StorageError::InvalidByteRange => Ok(Some(0)),
        _ => Err(CodecError::Source),
    }
}

impl<'a, S: ReadableStorageTraits> BytesPartialDecoderTraits for StoreSource<'a, S> {
    ghost use Rattle.std.specs.Prelude.{◌≡◌, refl};
    ghost use Rattle.std.proofs.Common.{ap, ◌∙◌};
    ghost use Rattle.std.specs.FinMap.{get};

    ghost contents = { λ d. get (S.held d.store.now) d.key.now };

    ghost is_honest = { λ d. S.is_honest d.store.now };

    ghost refused_calls = { λ d. S.refused_calls d.store.now };

    ghost given_bytes = { λ d. S.given_bytes d.store.now };

    ghost follows = { λ a b. (a.store.ghost_name ≡ b.store.ghost_name)
        × (a.key.now ≡ b.key.now) × (S.held a.store.now ≡ S.held b.store.now)
        × (S.is_honest a.store.now ≡ S.is_honest b.store.now)
        × (S.accepted_writes a.store.now ≡ S.accepted_writes b.store.now) };

    ghost held_bytes = { λ _. 0 };

    fn size(&mut self) -> Result<Option<u64>, CodecError> {
        match self.store.size_key(self.key) {
            Ok(size) => Ok(size),
            Err(error) => {
                let answer = size_refused(&error);
                *self.refusal = Some(error);
                answer
            }
        }
    }

    #[tactic(auto, using(zarr_array_storage::proofs::PartialDecoderLemmas::source_counts, zarr_array_storage::proofs::PartialDecoderLemmas::ranges_refused))]
    fn partial_decode(
        &mut self,
        alloc: Global,
        ranges: &[ByteRange],
    ) -> Result<Option<Vec<Vec<u8>>>, CodecError> {
        match self.store.get_partial(self.key, ranges) {
            Ok(found) => Ok(found),
            Err(error) => {
                let cause = of_storage(&error);
                *self.refusal = Some(error);
                Err(cause)
            }
        }
    }

    fn size_held(&self) -> usize {
        0
    }

    ghost same = { λ a b f. ap (λ held. get held a.key.now) f.2 ∙ ap (get (S.held b.store.now)) f.1 };

    ghost honest = { λ _ _ f. f.3 };

    ghost stays = { λ _. (refl, refl, refl, refl, refl) };

    ghost goes_on = { λ _ _ _ f h. (f.0 ∙ h.0, f.1 ∙ h.1, f.2 ∙ h.2, f.3 ∙ h.3, f.4 ∙ h.4) };
}
