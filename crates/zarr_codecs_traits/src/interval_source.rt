//! A part of a value, as a source of its own.
ghost use Rattle.std.specs.Prelude.{◌≡◌, ◌<◌, ◌+◌, ◌^◌, map, false, IsTrue, IfOk, IfNone, IfSome};
ghost use Rattle.std.specs.List.{list_any};
ghost use Rattle.zarr_codecs_traits.specs.Sources.{HoldsRange, is_outside, moved_range};

use crate::byte_range::ByteRange;
use crate::byte_source::BytesPartialDecoderTraits;
use std::alloc::{AllocError, Global};
use zarr_codecs_arrays::CodecError;

/// The bytes in a range of the value that a source holds, as a source of their own. Nothing is
/// copied to make one, and reading it reads the source: each of its bytes is one that the source
/// gave, and a call that it refuses for the source's sake is one that the source refused. The range
/// lies in the value: ask the source for its `size` first.
#[derive(Drop)]
pub struct IntervalSource<'a, D: BytesPartialDecoderTraits> {
    pub source: &'a mut D,
    pub range: ByteRange,
    ghost fit: { range.offset + range.length < 2 ^ 64 },
    ghost inside: { HoldsRange (D.is_honest source.now) (D.contents source.now) range },
}

/// Ranges of an interval as ranges of the whole value. `None` where one ends past the end of the
/// interval.
fn moved_ranges(
    alloc: Global,
    interval: ByteRange,
    ranges: &[ByteRange],
) -> Result<Option<Vec<ByteRange>>, AllocError>
    requires { interval.offset + interval.length < 2 ^ 64 }
    ensures none { IfOk result
        (λ found. IfNone found (IsTrue (list_any (is_outside interval) ranges.now))) }
    ensures some { IfOk result (λ found. IfSome found (λ moved.
        (list_any (is_outside interval) ranges.now ≡ false)
        × (moved.items ≡ map (moved_range interval) ranges.now))) }
{
    let mut moved = Vec::with_capacity(alloc, ranges.len())?;
    for range in ranges {
        match moved_range(interval, *range) {
            Some(range) => moved.push(range)?,
            None => return Ok(None),
        }
    }
    Ok(Some(moved))
}

/// A range of an interval as a range of the whole value. `None` where it ends past the end of the
/// interval.
fn moved_range(interval: ByteRange, range: ByteRange) -> Option<ByteRange>
    requires { interval.offset + interval.length < 2 ^ 64 }
    ensures none { IfNone result (IsTrue (is_outside interval range)) }
    ensures some { IfSome result (λ moved. (is_outside interval range ≡ false)
        × (moved ≡ moved_range interval range)) }
{
    let end = range.offset.checked_add(range.length)?;
    if end > interval.length {
        return None;
    }
    Some(ByteRange {
        offset: interval.offset + range.offset,
        length: range.length,
    })
}

impl<'a, D: BytesPartialDecoderTraits> BytesPartialDecoderTraits for IntervalSource<'a, D> {
    ghost use Rattle.std.specs.Prelude.{◌≡◌, refl};
    ghost use Rattle.std.proofs.Common.{ap, ◌∙◌};
    ghost use Rattle.zarr_codecs_traits.specs.Sources.{interval_of};

    ghost contents = { λ s. interval_of (D.contents s.source.now) s.range };

    ghost is_honest = { λ s. D.is_honest s.source.now };

    ghost refused_calls = { λ s. D.refused_calls s.source.now };

    ghost given_bytes = { λ s. D.given_bytes s.source.now };

    ghost follows = { λ a b. (a.source.ghost_name ≡ b.source.ghost_name) × (a.range ≡ b.range)
        × D.follows a.source.now b.source.now };

    ghost held_bytes = { λ _. 0 };

    fn size(&mut self) -> Result<Option<u64>, CodecError> {
        Ok(Some(self.range.length))
    }

    fn partial_decode(
        &mut self,
        alloc: Global,
        ranges: &[ByteRange],
    ) -> Result<Option<Vec<Vec<u8>>>, CodecError> {
        match moved_ranges(alloc, self.range, ranges)? {
            Some(moved) => self.source.partial_decode(alloc, moved.as_slice()),
            None => Err(CodecError::Damage),
        }
    }

    fn partial_decode_concat(
        &mut self,
        alloc: Global,
        ranges: &[ByteRange],
    ) -> Result<Option<Vec<u8>>, CodecError> {
        match moved_ranges(alloc, self.range, ranges)? {
            Some(moved) => self.source.partial_decode_concat(alloc, moved.as_slice()),
            None => Err(CodecError::Damage),
        }
    }

    fn size_held(&self) -> usize {
        0
    }

    ghost same = { λ a b f. ap (λ contents. interval_of contents a.range)
        (D.same a.source.now b.source.now f.2) ∙ ap (interval_of (D.contents b.source.now)) f.1 };

    ghost honest = { λ a b f. D.honest a.source.now b.source.now f.2 };

    ghost stays = { λ a. (refl, refl, D.stays a.source.now) };

    ghost goes_on = { λ a b c f h. (
      f.0 ∙ h.0,
      f.1 ∙ h.1,
      D.goes_on a.source.now b.source.now c.source.now f.2 h.2,
    ) };
}
