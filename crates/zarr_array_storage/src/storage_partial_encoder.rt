//! The value at a key of a store, written in part.
ghost use Rattle.std.specs.Prelude.{◌≡◌, IsTrue, IfErr, OnOk, OnErr, Some, None};
ghost use Rattle.std.specs.FinMap.{get, insert};
ghost use Rattle.zarr_array_meaning.specs.StoreMaps.{counted};
ghost use Rattle.zarr_array_storage.specs.PartialDecoders.{KeepsAnswer, SameSource, refused_at};
ghost use Rattle.zarr_array_storage.specs.PartialEncoders.{KeepsTold, SamePlace, Told, key_behind, misplaced_behind, reference_behind, refusal_behind, store_behind, target_error};
ghost use Rattle.zarr_array_storage.specs.Ranges.{patched_at};
ghost use Rattle.zarr_array_storage.specs.Refusals.{OnByteRange, refused_after};
ghost use Rattle.zarr_codecs_traits.specs.Patches.{any_too_far, patches_of};
ghost use Rattle.zarr_codecs_traits.specs.Writes.{IsGivenByPatching};

use crate::error::StorageError;
use crate::storage_partial_decoder::StoragePartialDecoder;
use crate::traits::WritableStorageTraits;
use std::alloc::Global;
use zarr_codecs_arrays::CodecError;
use zarr_codecs_traits::value_patch::{any_too_far, patched};
use zarr_codecs_traits::{
    ByteRange, BytesPartialDecoderTraits, BytesPartialEncoderTraits, ValuePatch,
};
use zarr_grids_keys::StoreKey;

/// The value at a key of a store, which codecs read and write in part. Each writing call is one
/// writing call of the store. Ranges are written by `set_partial` where the store supports it; else
/// the value is read, and set with the ranges written into it. Where the store refuses a call, it
/// keeps why.
#[derive(Drop)]
pub struct StoragePartialEncoder<'a, S> {
    source: StoragePartialDecoder<'a, S>,
}

impl<'a, S: WritableStorageTraits> StoragePartialEncoder<'a, S> {
    /// The value at a key of a store, or none where it has none.
    pub fn new(store: &'a mut S, key: &'a StoreKey) -> Self
        ensures same_store { reference_behind result ≡ store.entry.ghost_name }
        ensures store { store_behind result ≡ store.old }
        ensures key { key_behind result ≡ key.now }
    {
        StoragePartialEncoder {
            source: StoragePartialDecoder::new(store, key),
        }
    }

    /// The error that the store answered, if it refused a call since this was last asked. Where the
    /// store takes no ranges, it may be that of the range or the memory for which none was made.
    pub fn take_refusal(&mut self) -> Option<StorageError>
        ensures refusal { result ≡ refusal_behind self.old }
        ensures taken { refusal_behind self.new ≡ None }
        ensures misplaced { misplaced_behind self.new ≡ misplaced_behind self.old }
        ensures same_store { reference_behind self.new ≡ reference_behind self.old }
        ensures store { store_behind self.new ≡ store_behind self.old }
        ensures key { key_behind self.new ≡ key_behind self.old }
    {
        self.source.take_refusal()
    }

    /// Keeps why the store refused ranges, and tells what that is to a codec.
    fn refuse(&mut self, error: StorageError) -> CodecError
        ensures cause { result ≡ target_error error }
        ensures refusal { refusal_behind self.new ≡ Some error }
        ensures misplaced { misplaced_behind self.new ≡ misplaced_behind self.old }
        ensures same_store { reference_behind self.new ≡ reference_behind self.old }
        ensures store { store_behind self.new ≡ store_behind self.old }
        ensures key { key_behind self.new ≡ key_behind self.old }
    {
        let cause = of_storage(&error);
        self.source.keep(error);
        cause
    }
}

/// Why ranges aren't written where a store refuses.
pub fn of_storage(error: &StorageError) -> CodecError
    ensures { result ≡ target_error error.now }
{
    match error {
        StorageError::Memory => CodecError::Memory,
        StorageError::InvalidByteRange => CodecError::Size,
        _ => CodecError::Source,
    }
}

/// Writes several ranges into the value at a key, in their order, by one writing call. Nothing is
/// read where the store takes ranges, else the value once.
#[tactic(auto, using(crate::proofs::PartialEncoderLemmas::given_by_get))]
pub fn write_ranges<S: WritableStorageTraits>(
    alloc: Global,
    store: &mut S,
    key: &StoreKey,
    patches: &[ValuePatch<'_>],
) -> Result<(), StorageError>
    ensures ok { IsTrue (S.is_honest store.old) → OnOk result (S.held store.new
        ≡ insert (S.held store.old) key.now
        (patched_at (S.held store.old) key.now (patches_of patches.now))) }
    ensures err { IsTrue (S.is_honest store.old) →
        OnErr result (S.held store.new ≡ S.held store.old) }
    ensures honest { S.is_honest store.new ≡ S.is_honest store.old }
    ensures refused { S.refused_calls store.new ≡
        refused_after (S.refused_calls store.old) result }
    ensures byte_range { IsTrue (S.is_honest store.old) →
        OnByteRange result (IsTrue (any_too_far (patches_of patches.now))) }
    ensures given { IsTrue S.supports_set_partial →
        S.given_bytes store.new ≡ S.given_bytes store.old }
    ensures given_once { IsTrue (S.is_honest store.old) → IsGivenByPatching
        (get (S.held store.old) key.now) (S.given_bytes store.old) (S.given_bytes store.new) }
    ensures accepted { OnOk result
        (S.accepted_writes store.new ≡ counted (S.accepted_writes store.old) 1) }
    ensures none_accepted { OnErr result
        (S.accepted_writes store.new ≡ S.accepted_writes store.old) }
    ensures told { IfErr result (Told S.calls) }
{
    if store.supports_set_partial() {
        return store.set_partial(key, patches);
    }
    if any_too_far(patches) {
        return Err(StorageError::InvalidByteRange);
    }
    let value = match store.get(key)? {
        Some(held) => patched(alloc, Some(held.as_slice()), patches)?,
        None => patched(alloc, None, patches)?,
    };
    store.set(key, value.as_slice())
}

impl<'a, S: WritableStorageTraits> BytesPartialDecoderTraits for StoragePartialEncoder<'a, S> {
    ghost use Rattle.std.specs.Prelude.{◌≡◌, refl};
    ghost use Rattle.std.proofs.Common.{ap, ◌∙◌};
    ghost use Rattle.std.specs.FinMap.{get};
    ghost use Rattle.zarr_array_storage.specs.KeptErrors.{kept_on, kept_same};

    ghost contents = { λ e. get (S.held (store_behind e)) (key_behind e) };

    ghost is_honest = { λ e. S.is_honest (store_behind e) };

    ghost refused_calls = { λ e. refused_at S.refused_calls e.source };

    ghost given_bytes = { λ e. S.given_bytes (store_behind e) };

    ghost follows = { λ a b. SameSource S.held S.is_honest S.accepted_writes a.source b.source
        × KeepsAnswer S.calls S.refused_calls a.source b.source };

    ghost held_bytes = { λ _. 0 };

    fn size(&mut self) -> Result<Option<u64>, CodecError> {
        self.source.size()
    }

    fn partial_decode(
        &mut self,
        alloc: Global,
        ranges: &[ByteRange],
    ) -> Result<Option<Vec<Vec<u8>>>, CodecError> {
        self.source.partial_decode(alloc, ranges)
    }

    fn size_held(&self) -> usize {
        self.source.size_held()
    }

    ghost same = { λ a b f. ap (λ held. get held (key_behind a)) f.0.2
        ∙ ap (get (S.held (store_behind b))) f.0.1 };

    ghost honest = { λ _ _ f. f.0.3 };

    ghost stays = { λ _. ((refl, refl, refl, refl, refl), kept_same) };

    ghost goes_on = { λ _ _ _ f h. (
      (
        f.0.0 ∙ h.0.0,
        f.0.1 ∙ h.0.1,
        f.0.2 ∙ h.0.2,
        f.0.3 ∙ h.0.3,
        f.0.4 ∙ h.0.4,
      ),
      kept_on f.1 h.1,
    ) };
}

impl<'a, S: WritableStorageTraits> BytesPartialEncoderTraits for StoragePartialEncoder<'a, S> {
    ghost use Rattle.std.specs.Prelude.{◌≡◌, refl, IsTrue};
    ghost use Rattle.std.proofs.Common.{ap, subst, sym, ◌∙◌};
    ghost use Rattle.std.specs.FinMap.{remove};
    ghost use Rattle.zarr_array_storage.specs.PartialEncoders.{SameElsewhere};
    ghost use Rattle.zarr_array_storage.specs.KeptErrors.{kept_on, kept_told};

    ghost accepted_writes = { λ e. S.accepted_writes (store_behind e) };

    ghost writes_ranges = { λ _. S.supports_set_partial };

    ghost rewrites = { λ a b. SamePlace S.held S.is_honest a b
        × KeepsTold S.calls S.refused_calls a b };

    #[tactic(auto, using(crate::proofs::PartialEncoderLemmas::target_counts, crate::proofs::PartialEncoderLemmas::patches_refused, crate::proofs::PartialEncoderLemmas::get_inserted, crate::proofs::PartialEncoderLemmas::inserted_elsewhere))]
    fn partial_encode(
        &mut self,
        alloc: Global,
        patches: &[ValuePatch<'_>],
    ) -> Result<(), CodecError> {
        let key = self.source.key;
        match write_ranges(alloc, self.source.store, key, patches) {
            Ok(()) => Ok(()),
            Err(error) => Err(self.refuse(error)),
        }
    }

    #[tactic(auto, using(crate::proofs::PartialDecoderLemmas::whole_counts, crate::proofs::PartialDecoderLemmas::whole_refused, crate::proofs::PartialEncoderLemmas::get_inserted, crate::proofs::PartialEncoderLemmas::inserted_elsewhere))]
    fn set(&mut self, value: Vec<u8>) -> Result<(), CodecError> {
        let key = self.source.key;
        match self.source.store.set(key, &value) {
            Ok(()) => Ok(()),
            Err(error) => Err(self.source.keep_whole(error)),
        }
    }

    #[tactic(auto, using(crate::proofs::PartialDecoderLemmas::whole_counts, crate::proofs::PartialDecoderLemmas::whole_refused, crate::proofs::PartialEncoderLemmas::get_removed, crate::proofs::PartialEncoderLemmas::removed_elsewhere))]
    fn erase(&mut self) -> Result<(), CodecError> {
        let key = self.source.key;
        match self.source.store.erase(key) {
            Ok(()) => Ok(()),
            Err(error) => Err(self.source.keep_whole(error)),
        }
    }

    ghost reads = { λ a _ f. (
      (
        f.0.0,
        f.0.1,
        f.0.3,
        λ _. ap (λ held. remove held (key_behind a)) f.0.2,
      ),
      kept_told f.1,
    ) };

    ghost unwritten = { λ _ _ f. f.0.4 };

    ghost still_ranges = { λ _ _ _. refl };

    ghost still_honest = { λ _ _ f. f.0.2 };

    ghost writes_on = { λ a b c f h. (
      (
        f.0.0 ∙ h.0.0,
        f.0.1 ∙ h.0.1,
        f.0.2 ∙ h.0.2,
        λ honest. f.0.3 honest
            ∙ subst (λ key. SameElsewhere key (S.held (store_behind b)) (S.held (store_behind c)))
            (sym f.0.1) (h.0.3 (subst (λ b. IsTrue b) f.0.2 honest)),
      ),
      kept_on f.1 h.1,
    ) };
}
