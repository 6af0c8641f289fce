//! Sources of bytes that are read in part.
ghost use Rattle.std.specs.Prelude.{◌≡◌, ◌≤◌, ◌+◌, ℕ, List, Bool, Option, IsTrue, IfOk, OnOk, option_map, is_some, length, false};
ghost use Rattle.zarr_codecs_traits.specs.Sources.{IsGivenAfter, ReadRefused, RangesRefused, any_past_end, concat_of, given_after, part_lists, parts_of, refused_after, value_bytes, value_length};

use crate::byte_range::{ByteRange, concat};
use std::alloc::Global;
use zarr_codecs_arrays::CodecError;

/// A source of the bytes of one value, which can be read in part. Reading changes nothing in what
/// it holds.
pub trait BytesPartialDecoderTraits {
    /// The value, if there is one.
    ghost contents: { Self → Option (List ℕ) };

    /// Whether its calls answer by what it holds.
    ghost is_honest: { Self → Bool };

    /// How many calls were refused by what stands behind it.
    ghost refused_calls: { Self → ℕ };

    /// How many bytes of its value it gave: by `partial_decode` and `partial_decode_concat`, and
    /// when it has to read the value to write ranges. At 2^128 - 1 each count stands still.
    ghost given_bytes: { Self → ℕ };

    /// Whether the second is the first after calls: a source of the same value, with all else that
    /// stands behind it as it was.
    ghost follows: { Self → Self → Type 0 };

    /// How many bytes it keeps in memory of its own.
    ghost held_bytes: { Self → ℕ };

    /// How many bytes the value has, or `None` where there is none. `Source` where the source
    /// refuses.
    fn size(&mut self) -> Result<Option<u64>, CodecError>
        ensures size { IsTrue (is_honest self.old) →
            IfOk result (λ size. size ≡ option_map length (contents self.old)) }
        ensures cause { ReadRefused result }
        ensures refused { refused_calls self.new ≡ refused_after (refused_calls self.old) result }
        ensures given { given_bytes self.new ≡ given_bytes self.old }
        ensures follows { follows self.old self.new };

    /// The bytes of the value in each range, or `None` where there is no value. `Source` where the
    /// source refuses, and `Damage` where a range ends past the end of the value.
    fn partial_decode(
        &mut self,
        alloc: Global,
        ranges: &[ByteRange],
    ) -> Result<Option<Vec<Vec<u8>>>, CodecError>
        ensures parts { IsTrue (is_honest self.old) → IfOk result
            (λ found. part_lists found ≡ parts_of (contents self.old) ranges.now) }
        ensures in_range { IsTrue (is_honest self.old) →
            OnOk result (any_past_end (contents self.old) ranges.now ≡ false) }
        ensures cause { IsTrue (is_honest self.old) →
            RangesRefused (contents self.old) ranges.now result }
        ensures refused { refused_calls self.new ≡ refused_after (refused_calls self.old) result }
        ensures given { given_bytes self.new ≡ given_after (given_bytes self.old) result }
        ensures follows { follows self.old self.new };

    /// The bytes of the value in each range, one after another, or `None` where there is no value.
    /// `Source` where the source refuses, and `Damage` where a range ends past the end of the
    /// value. Where memory runs out, bytes may have been given before.
    fn partial_decode_concat(
        &mut self,
        alloc: Global,
        ranges: &[ByteRange],
    ) -> Result<Option<Vec<u8>>, CodecError>
        ensures bytes { IsTrue (is_honest self.old) → IfOk result
            (λ found. value_bytes found ≡ concat_of (contents self.old) ranges.now) }
        ensures in_range { IsTrue (is_honest self.old) →
            OnOk result (any_past_end (contents self.old) ranges.now ≡ false) }
        ensures cause { IsTrue (is_honest self.old) →
            RangesRefused (contents self.old) ranges.now result }
        ensures refused { refused_calls self.new ≡ refused_after (refused_calls self.old) result }
        ensures given { IsGivenAfter (given_bytes self.old) result (given_bytes self.new) }
        ensures most { IsTrue (is_honest self.old) → given_bytes self.new
            ≤ given_bytes self.old + value_length (concat_of (contents self.old) ranges.now) }
        ensures follows { follows self.old self.new }
    {
        match self.partial_decode(alloc, ranges)? {
            Some(parts) => Ok(Some(concat(alloc, parts)?)),
            None => Ok(None),
        }
    }

    /// Whether there is a value. `Source` where the source refuses.
    fn exists(&mut self) -> Result<bool, CodecError>
        ensures exists { IsTrue (is_honest self.old) →
            IfOk result (λ there. there ≡ is_some (contents self.old)) }
        ensures cause { ReadRefused result }
        ensures refused { refused_calls self.new ≡ refused_after (refused_calls self.old) result }
        ensures given { given_bytes self.new ≡ given_bytes self.old }
        ensures follows { follows self.old self.new }
    {
        Ok(self.size()?.is_some())
    }

    /// How many bytes it keeps in memory of its own. Those of a value that stands elsewhere are
    /// none.
    fn size_held(&self) -> usize
        ensures { result ≡ held_bytes self.now };

    ghost same: { (a b : Self) → follows a b → contents a ≡ contents b };

    ghost honest: { (a b : Self) → follows a b → is_honest a ≡ is_honest b };

    ghost stays: { (a : Self) → follows a a };

    ghost goes_on: { (a b c : Self) → follows a b → follows b c → follows a c };
}
