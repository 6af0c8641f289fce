//! Values that are written in part.
ghost use Rattle.std.specs.Prelude.{◌≡◌, ℕ, Bool, Some, None, IsTrue, OnOk, OnErr};
ghost use Rattle.zarr_codecs_traits.specs.Patches.{patched_contents, patches_of};
ghost use Rattle.zarr_codecs_traits.specs.Sources.{refused_after};
ghost use Rattle.zarr_codecs_traits.specs.Writes.{IsGivenByPatching, PatchesRefused, WriteRefused, accepted_after};

use crate::byte_source::BytesPartialDecoderTraits;
use crate::value_patch::ValuePatch;
use std::alloc::Global;
use zarr_codecs_arrays::CodecError;

/// A source of the bytes of one value, which can also be written, in part or whole. Writing changes
/// only this value, and a refused call changes nothing in what an honest source holds.
pub trait BytesPartialEncoderTraits: BytesPartialDecoderTraits {
    /// How many writing calls were accepted. At 2^128 - 1 it stands still.
    ghost accepted_writes: { Self → ℕ };

    /// Whether ranges are written without the value being given to do so.
    ghost writes_ranges: { Self → Bool };

    /// Whether the second is the first after calls that read or write: the same place for a value,
    /// with all else that stands behind it as it was.
    ghost rewrites: { Self → Self → Type 0 };

    /// Writes several ranges into the value, in their order, by one call: all, or none where it is
    /// refused. No value counts as empty, and zeros come where a range begins past the end. `Size`
    /// where a range ends past 2^63 - 1 bytes; `Source` where the source refuses. No byte is given
    /// to do so, but where the source takes no ranges: then the value is given once, and set anew.
    fn partial_encode(
        &mut self,
        alloc: Global,
        patches: &[ValuePatch<'_>],
    ) -> Result<(), CodecError>
        ensures ok { IsTrue (Self.is_honest self.old) → OnOk result (Self.contents self.new
            ≡ Some (patched_contents (Self.contents self.old) (patches_of patches.now))) }
        ensures err { IsTrue (Self.is_honest self.old) →
            OnErr result (Self.contents self.new ≡ Self.contents self.old) }
        ensures cause { IsTrue (Self.is_honest self.old) →
            PatchesRefused (patches_of patches.now) result }
        ensures refused { Self.refused_calls self.new ≡
            refused_after (Self.refused_calls self.old) result }
        ensures given { IsTrue (writes_ranges self.old) →
            Self.given_bytes self.new ≡ Self.given_bytes self.old }
        ensures given_once { IsTrue (Self.is_honest self.old) → IsGivenByPatching
            (Self.contents self.old) (Self.given_bytes self.old) (Self.given_bytes self.new) }
        ensures accepted { accepted_writes self.new ≡
            accepted_after (accepted_writes self.old) result }
        ensures rewrites { rewrites self.old self.new };

    /// Puts a value in the place of the one that was there, if there was one. `Source` where the
    /// source refuses.
    fn set(&mut self, value: Vec<u8>) -> Result<(), CodecError>
        ensures ok { IsTrue (Self.is_honest self.old) →
            OnOk result (Self.contents self.new ≡ Some value.items) }
        ensures err { IsTrue (Self.is_honest self.old) →
            OnErr result (Self.contents self.new ≡ Self.contents self.old) }
        ensures cause { WriteRefused result }
        ensures refused { Self.refused_calls self.new ≡
            refused_after (Self.refused_calls self.old) result }
        ensures given { Self.given_bytes self.new ≡ Self.given_bytes self.old }
        ensures accepted { accepted_writes self.new ≡
            accepted_after (accepted_writes self.old) result }
        ensures rewrites { rewrites self.old self.new };

    /// Takes the value away. That there is none is fine. `Source` where the source refuses.
    fn erase(&mut self) -> Result<(), CodecError>
        ensures ok { IsTrue (Self.is_honest self.old) →
            OnOk result (Self.contents self.new ≡ None) }
        ensures err { IsTrue (Self.is_honest self.old) →
            OnErr result (Self.contents self.new ≡ Self.contents self.old) }
        ensures cause { WriteRefused result }
        ensures refused { Self.refused_calls self.new ≡
            refused_after (Self.refused_calls self.old) result }
        ensures given { Self.given_bytes self.new ≡ Self.given_bytes self.old }
        ensures accepted { accepted_writes self.new ≡
            accepted_after (accepted_writes self.old) result }
        ensures rewrites { rewrites self.old self.new };

    ghost reads: { (a b : Self) → Self.follows a b → rewrites a b };

    ghost unwritten: { (a b : Self) → Self.follows a b → accepted_writes a ≡ accepted_writes b };

    ghost still_ranges: { (a b : Self) → rewrites a b → writes_ranges a ≡ writes_ranges b };

    ghost still_honest: { (a b : Self) → rewrites a b → Self.is_honest a ≡ Self.is_honest b };

    ghost writes_on: { (a b c : Self) → rewrites a b → rewrites b c → rewrites a c };
}
