//! A source that counts its calls, and refuses one of them.
ghost use Rattle.std.specs.Prelude.{◌≡◌};

use std::alloc::Global;
use zarr_codecs_arrays::CodecError;
use zarr_codecs_traits::{
    ByteRange, BytesPartialDecoderTraits, BytesPartialEncoderTraits, MemorySource, ValuePatch,
};

/// A source in memory that counts its calls, those among them that give bytes, these bytes, and the
/// calls that write. It refuses the call with a number, counted from 1.
#[derive(Drop)]
pub struct CountingSource {
    pub inner: MemorySource,
    pub calls: u64,
    pub reads: u64,
    pub given: u64,
    pub writes: u64,
    pub refuses: u64,
    pub refused: u128,
}

impl CountingSource {
    /// Counts a call, and tells whether it is refused.
    fn refuses_call(&mut self) -> bool
        ensures inner { self.new.inner ≡ self.old.inner }
        ensures refused { self.new.refused ≡ self.old.refused }
    {
        self.calls = self.calls.wrapping_add(1);
        self.calls == self.refuses
    }

    /// Counts a call that wrote, where it is done.
    fn count_write(&mut self, is_done: bool)
        ensures inner { self.new.inner ≡ self.old.inner }
        ensures refused { self.new.refused ≡ self.old.refused }
    {
        if is_done {
            self.writes = self.writes.wrapping_add(1);
        }
    }
}

/// How many bytes ranges have together.
fn total_length(ranges: &[ByteRange]) -> u64 {
    let mut sum = 0u64;
    for range in ranges {
        sum = sum.wrapping_add(range.length);
    }
    sum
}

impl BytesPartialDecoderTraits for CountingSource {
    ghost use Rattle.std.specs.Prelude.{refl, true};
    ghost use Rattle.std.proofs.Common.{◌∙◌};
    ghost use Rattle.zarr_codecs_traits.specs.Sources.{source_accepted, source_contents, source_given, source_length};

    ghost contents = { λ s. source_contents s.inner };

    ghost is_honest = { λ _. true };

    ghost refused_calls = { λ s. s.refused };

    ghost given_bytes = { λ s. source_given s.inner };

    ghost follows = { λ a b. (source_contents a.inner ≡ source_contents b.inner)
        × (source_accepted a.inner ≡ source_accepted b.inner) };

    ghost held_bytes = { λ s. source_length s.inner };

    fn size(&mut self) -> Result<Option<u64>, CodecError> {
        if self.refuses_call() {
            self.refused = self.refused.saturating_add(1);
            return Err(CodecError::Source);
        }
        self.inner.size()
    }

    fn partial_decode(
        &mut self,
        alloc: Global,
        ranges: &[ByteRange],
    ) -> Result<Option<Vec<Vec<u8>>>, CodecError> {
        if self.refuses_call() {
            self.refused = self.refused.saturating_add(1);
            return Err(CodecError::Source);
        }
        self.reads = self.reads.wrapping_add(1);
        self.given = self.given.wrapping_add(total_length(ranges));
        self.inner.partial_decode(alloc, ranges)
    }

    fn size_held(&self) -> usize {
        self.inner.size_held()
    }

    ghost same = { λ _ _ f. f.0 };

    ghost honest = { λ _ _ _. refl };

    ghost stays = { λ _. (refl, refl) };

    ghost goes_on = { λ _ _ _ f h. (f.0 ∙ h.0, f.1 ∙ h.1) };
}

impl BytesPartialEncoderTraits for CountingSource {
    ghost use Rattle.std.specs.Prelude.{refl, true};
    ghost use Rattle.zarr_codecs_traits.specs.Sources.{source_accepted};

    ghost accepted_writes = { λ s. source_accepted s.inner };

    ghost writes_ranges = { λ _. true };

    ghost rewrites = { λ _ _. Unit {0} };

    fn partial_encode(
        &mut self,
        alloc: Global,
        patches: &[ValuePatch<'_>],
    ) -> Result<(), CodecError> {
        if self.refuses_call() {
            self.refused = self.refused.saturating_add(1);
            return Err(CodecError::Source);
        }
        let done = self.inner.partial_encode(alloc, patches);
        self.count_write(done.is_ok());
        done
    }

    fn set(&mut self, value: Vec<u8>) -> Result<(), CodecError> {
        if self.refuses_call() {
            self.refused = self.refused.saturating_add(1);
            return Err(CodecError::Source);
        }
        let done = self.inner.set(value);
        self.count_write(done.is_ok());
        done
    }

    fn erase(&mut self) -> Result<(), CodecError> {
        if self.refuses_call() {
            self.refused = self.refused.saturating_add(1);
            return Err(CodecError::Source);
        }
        let done = self.inner.erase();
        self.count_write(done.is_ok());
        done
    }

    ghost reads = { λ _ _ _. tt };

    ghost unwritten = { λ _ _ f. f.1 };

    ghost still_ranges = { λ _ _ _. refl };

    ghost still_honest = { λ _ _ _. refl };

    ghost writes_on = { λ _ _ _ _ _. tt };
}
