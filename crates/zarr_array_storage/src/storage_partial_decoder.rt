//! The value at a key of a store, read in part.
ghost use Rattle.std.specs.Prelude.{◌≡◌, Some, None};
ghost use Rattle.zarr_array_storage.specs.PartialDecoders.{KeepsAnswer, SameSource, key_behind, misplaced_after, misplaced_behind, reference_behind, refusal_behind, refused_at, source_error, store_behind, whole_error};

use crate::error::StorageError;
use crate::traits::ReadableStorageTraits;
use std::alloc::Global;
use zarr_codecs_arrays::CodecError;
use zarr_codecs_traits::{ByteRange, BytesPartialDecoderTraits};
use zarr_grids_keys::StoreKey;

/// The value at a key of a store, of which codecs read the ranges that they need. Where the store
/// refuses a call, it keeps why.
#[derive(Drop)]
pub struct StoragePartialDecoder<'a, S> {
    pub(crate) store: &'a mut S,
    pub(crate) key: &'a StoreKey,
    refusal: Option<StorageError>,
    misplaced: u128,
}

impl<'a, S: ReadableStorageTraits> StoragePartialDecoder<'a, S> {
    /// The value at a key of a store, or none where it has none.
    pub fn new(store: &'a mut S, key: &'a StoreKey) -> Self
        ensures same_reference { reference_behind result ≡ store.entry.ghost_name }
        ensures store { store_behind result ≡ store.old }
        ensures key { key_behind result ≡ key.now }
        ensures none_refused { (refusal_behind result ≡ None) × (misplaced_behind result ≡ 0) }
    {
        StoragePartialDecoder {
            store,
            key,
            refusal: None,
            misplaced: 0,
        }
    }

    /// The error that the store answered, if it refused a call since this was last asked.
    pub fn take_refusal(&mut self) -> Option<StorageError>
        ensures refusal { result ≡ refusal_behind self.old }
        ensures taken { refusal_behind self.new ≡ None }
        ensures misplaced { misplaced_behind self.new ≡ misplaced_behind self.old }
        ensures same_reference { reference_behind self.new ≡ reference_behind self.old }
        ensures store { store_behind self.new ≡ store_behind self.old }
        ensures key { key_behind self.new ≡ key_behind self.old }
    {
        self.refusal.take()
    }

    /// Keeps why the store refused a call.
    pub(crate) fn keep(&mut self, error: StorageError)
        ensures refusal { refusal_behind self.new ≡ Some error }
        ensures misplaced { misplaced_behind self.new ≡ misplaced_behind self.old }
        ensures same_reference { reference_behind self.new ≡ reference_behind self.old }
        ensures store { store_behind self.new ≡ store_behind self.old }
        ensures key { key_behind self.new ≡ key_behind self.old }
    {
        self.refusal = Some(error);
    }

    /// Keeps why the store refused a call that names no range, and tells what that is to a codec. A
    /// wrong range, which no honest store answers to it, counts here.
    pub(crate) fn keep_whole(&mut self, error: StorageError) -> CodecError
        ensures cause { result ≡ whole_error error }
        ensures refusal { refusal_behind self.new ≡ Some error }
        ensures misplaced { misplaced_behind self.new
            ≡ misplaced_after (misplaced_behind self.old) error }
        ensures same_reference { reference_behind self.new ≡ reference_behind self.old }
        ensures store { store_behind self.new ≡ store_behind self.old }
        ensures key { key_behind self.new ≡ key_behind self.old }
    {
        let cause = whole(&error);
        if let StorageError::InvalidByteRange = &error {
            self.misplaced = self.misplaced.saturating_add(1);
        }
        self.keep(error);
        cause
    }
}

/// Why a value isn't read or written where a store refuses a call that names no range.
fn whole(error: &StorageError) -> CodecError
    ensures { result ≡ whole_error error.now }
{
    if let StorageError::Memory = error {
        return CodecError::Memory;
    }
    CodecError::Source
}

/// Why ranges aren't read where a store refuses.
pub fn of_storage(error: &StorageError) -> CodecError
    ensures { result ≡ source_error error.now }
{
    match error {
        StorageError::Memory => CodecError::Memory,
        StorageError::InvalidByteRange => CodecError::Damage,
        _ => CodecError::Source,
    }
}

impl<'a, S: ReadableStorageTraits> BytesPartialDecoderTraits for StoragePartialDecoder<'a, S> {
    ghost use Rattle.std.specs.Prelude.{◌≡◌, refl};
    ghost use Rattle.std.proofs.Common.{ap, ◌∙◌};
    ghost use Rattle.std.specs.FinMap.{get};
    ghost use Rattle.zarr_array_storage.specs.KeptErrors.{kept_on, kept_same};

    ghost contents = { λ d. get (S.held (store_behind d)) (key_behind d) };

    ghost is_honest = { λ d. S.is_honest (store_behind d) };

    ghost refused_calls = { refused_at S.refused_calls };

    ghost given_bytes = { λ d. S.given_bytes (store_behind d) };

    ghost follows = { λ a b. SameSource S.held S.is_honest S.accepted_writes a b
        × KeepsAnswer S.calls S.refused_calls a b };

    ghost held_bytes = { λ _. 0 };

    #[tactic(auto, using(crate::proofs::PartialDecoderLemmas::whole_counts, crate::proofs::PartialDecoderLemmas::whole_refused))]
    fn size(&mut self) -> Result<Option<u64>, CodecError> {
        match self.store.size_key(self.key) {
            Ok(size) => Ok(size),
            Err(error) => Err(self.keep_whole(error)),
        }
    }

    #[tactic(auto, using(crate::proofs::PartialDecoderLemmas::source_counts, crate::proofs::PartialDecoderLemmas::ranges_refused))]
    fn partial_decode(
        &mut self,
        alloc: Global,
        ranges: &[ByteRange],
    ) -> Result<Option<Vec<Vec<u8>>>, CodecError> {
        match self.store.get_partial(self.key, ranges) {
            Ok(found) => Ok(found),
            Err(error) => {
                let cause = of_storage(&error);
                self.keep(error);
                Err(cause)
            }
        }
    }

    fn size_held(&self) -> usize {
        0
    }

    ghost same = { λ a b f. ap (λ held. get held (key_behind a)) f.0.2
        ∙ ap (get (S.held (store_behind b))) f.0.1 };

    ghost honest = { λ _ _ f. f.0.3 };

    ghost stays = { λ _. ((refl, refl, refl, refl, refl), kept_same) };

    ghost goes_on = { λ _ _ _ f h. (
      (
        f.0.0 ∙ h.0.0,
        f.0.1 ∙ h.0.1,
        f.0.2 ∙ h.0.2,
        f.0.3 ∙ h.0.3,
        f.0.4 ∙ h.0.4,
      ),
      kept_on f.1 h.1,
    ) };
}
