//! The value at a key of a store, as codecs read and write it.
ghost use Rattle.std.specs.Prelude.{◌≡◌, ℕ, if◌then◌else◌, Err};
ghost use Rattle.std.specs.FinMap.{get};
ghost use Rattle.zarr_array_meaning.specs.StoreMaps.{counted};
ghost use Rattle.zarr_array_storage.specs.Refusals.{is_counted};
ghost use Rattle.zarr_codecs_traits.specs.Sources.{refused_after};
ghost use Rattle.zarr_codecs_traits.specs.Writes.{WriteRefused};

use crate::store_source::size_refused;
use std::alloc::Global;
use zarr_array_storage::storage_partial_decoder::of_storage as ranges_unread;
use zarr_array_storage::storage_partial_encoder::{of_storage as ranges_unwritten, write_ranges};
use zarr_array_storage::{StorageError, WritableStorageTraits};
use zarr_codecs_arrays::CodecError;
use zarr_codecs_traits::{
    ByteRange, BytesPartialDecoderTraits, BytesPartialEncoderTraits, ValuePatch,
};
use zarr_grids_keys::StoreKey;

/// The value at a key of a store, of which codecs read and write the ranges that they need. Each
/// writing call is one writing call of the store. Where the store refuses a call, `refusal` says
/// why.
#[derive(Drop)]
pub(crate) struct StoreTarget<'a, S> {
    pub store: &'a mut S,
    pub key: &'a StoreKey,
    pub refusal: &'a mut Option<StorageError>,
}

/// What a target answers where the store refuses for this reason to set or erase a value. A store
/// that answers a wrong range to a call that names none isn't honest; that isn't counted as a
/// refusal, and taken as want of memory.
fn write_refused(error: &StorageError) -> CodecError
    ensures cause { WriteRefused {A = Unit {0}} (Err result) }
    ensures counts { (count : ℕ) → refused_after {A = Unit {0}} count (Err result)
        ≡ (if is_counted error.now then counted count 1 else count) }
{
    match error {
        StorageError::Memory | StorageError::InvalidByteRange => CodecError::Memory,
        _ => CodecError::Source,
    }
}

impl<'a, S: WritableStorageTraits> BytesPartialDecoderTraits for StoreTarget<'a, S> {
    ghost use Rattle.std.specs.Prelude.{◌≡◌, refl};
    ghost use Rattle.std.proofs.Common.{ap, ◌∙◌};
    ghost use Rattle.std.specs.FinMap.{get};

    ghost contents = { λ t. get (S.held t.store.now) t.key.now };

    ghost is_honest = { λ t. S.is_honest t.store.now };

    ghost refused_calls = { λ t. S.refused_calls t.store.now };

    ghost given_bytes = { λ t. S.given_bytes t.store.now };

    ghost follows = { λ a b. (a.store.ghost_name ≡ b.store.ghost_name)
        × (a.key.now ≡ b.key.now) × (S.held a.store.now ≡ S.held b.store.now)
        × (S.is_honest a.store.now ≡ S.is_honest b.store.now)
        × (S.accepted_writes a.store.now ≡ S.accepted_writes b.store.now) };

    ghost held_bytes = { λ _. 0 };

    fn size(&mut self) -> Result<Option<u64>, CodecError> {
        match self.store.size_key(self.key) {
            Ok(size) => Ok(size),
            Err(error) => {
                let answer = size_refused(&error);
                *self.refusal = Some(error);
                answer
            }
        }
    }

    #[tactic(auto, using(zarr_array_storage::proofs::PartialDecoderLemmas::source_counts, zarr_array_storage::proofs::PartialDecoderLemmas::ranges_refused))]
    fn partial_decode(
        &mut self,
        alloc: Global,
        ranges: &[ByteRange],
    ) -> Result<Option<Vec<Vec<u8>>>, CodecError> {
        match self.store.get_partial(self.key, ranges) {
            Ok(found) => Ok(found),
            Err(error) => {
                let cause = ranges_unread(&error);
                *self.refusal = Some(error);
                Err(cause)
            }
        }
    }

    fn size_held(&self) -> usize {
        0
    }

    ghost same = { λ a b f. ap (λ held. get held a.key.now) f.2 ∙ ap (get (S.held b.store.now)) f.1 };

    ghost honest = { λ _ _ f. f.3 };

    ghost stays = { λ _. (refl, refl, refl, refl, refl) };

    ghost goes_on = { λ _ _ _ f h. (f.0 ∙ h.0, f.1 ∙ h.1, f.2 ∙ h.2, f.3 ∙ h.3, f.4 ∙ h.4) };
}

impl<'a, S: WritableStorageTraits> BytesPartialEncoderTraits for StoreTarget<'a, S> {
    ghost use Rattle.std.specs.Prelude.{◌≡◌, refl, IsTrue};
    ghost use Rattle.std.proofs.Common.{ap, subst, sym, ◌∙◌};
    ghost use Rattle.std.specs.FinMap.{remove};
    ghost use Rattle.zarr_array_storage.specs.PartialEncoders.{SameElsewhere};

    ghost accepted_writes = { λ e. S.accepted_writes e.store.now };

    ghost writes_ranges = { λ _. S.supports_set_partial };

    ghost rewrites = { λ a b. (a.store.ghost_name ≡ b.store.ghost_name)
        × (a.key.now ≡ b.key.now)
        × (S.is_honest a.store.now ≡ S.is_honest b.store.now)
        × (IsTrue (S.is_honest a.store.now) → SameElsewhere a.key.now
        (S.held a.store.now) (S.held b.store.now)) };

    #[tactic(auto, using(zarr_array_storage::proofs::PartialEncoderLemmas::target_counts, zarr_array_storage::proofs::PartialEncoderLemmas::patches_refused, zarr_array_storage::proofs::PartialEncoderLemmas::get_inserted, zarr_array_storage::proofs::PartialEncoderLemmas::inserted_elsewhere))]
    fn partial_encode(
        &mut self,
        alloc: Global,
        patches: &[ValuePatch<'_>],
    ) -> Result<(), CodecError> {
        match write_ranges(alloc, self.store, self.key, patches) {
            Ok(()) => Ok(()),
            Err(error) => {
                let cause = ranges_unwritten(&error);
                *self.refusal = Some(error);
                Err(cause)
            }
        }
    }

    #[tactic(auto, using(zarr_array_storage::proofs::PartialEncoderLemmas::get_inserted, zarr_array_storage::proofs::PartialEncoderLemmas::inserted_elsewhere))]
    fn set(&mut self, value: Vec<u8>) -> Result<(), CodecError> {
        match self.store.set(self.key, &value) {
            Ok(()) => Ok(()),
            Err(error) => {
                let cause = write_refused(&error);
                *self.refusal = Some(error);
                Err(cause)
            }
        }
    }

    #[tactic(auto, using(zarr_array_storage::proofs::PartialEncoderLemmas::get_removed, zarr_array_storage::proofs::PartialEncoderLemmas::removed_elsewhere))]
    fn erase(&mut self) -> Result<(), CodecError> {
        match self.store.erase(self.key) {
            Ok(()) => Ok(()),
            Err(error) => {
                let cause = write_refused(&error);
                *self.refusal = Some(error);
                Err(cause)
            }
        }
    }

    ghost reads = { λ a _ f. (f.0, f.1, f.3, λ _. ap (λ held. remove held a.key.now) f.2) };

    ghost unwritten = { λ _ _ f. f.4 };

    ghost still_ranges = { λ _ _ _. refl };

    ghost still_honest = { λ _ _ f. f.2 };

    ghost writes_on = { λ a b c f h. (
      f.0 ∙ h.0,
      f.1 ∙ h.1,
      f.2 ∙ h.2,
      λ honest. f.3 honest
          ∙ subst (λ key. SameElsewhere key (S.held b.store.now) (S.held c.store.now))
          (sym f.1) (h.3 (subst (λ b. IsTrue b) f.2 honest)),
    ) };
}
