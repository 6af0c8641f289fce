//! Spans of elements, of the bytes that their bits touch.
ghost use Rattle.std.specs.Prelude.{◌≡◌, ◌++◌, ◌*◌, ◌%◌, ℕ, List, true, IfOk};
ghost use Rattle.std.specs.List.{list_all};
ghost use Rattle.zarr_codecs_traits.specs.Sources.{bytes_at, bytes_in_ranges};
ghost use Rattle.zarr_codecs_packbits.specs.Parts.{IsUnpacked, unpacked_bytes};
ghost use Rattle.zarr_codecs_packbits.specs.Spans.{ends_within, span_numbers, span_range, span_ranges, spans_numbers};

use crate::bits::put_shifted;
use crate::packing::{Unpacker, push_unpacked};
use crate::part::PackedBits;
use crate::sizes::kept_bits;
use crate::spans::{Span, SpanRanges};
use crate::turning::Way;
use std::alloc::{AllocError, Global};

/// The bytes of the elements of spans, of the bytes that the bits of each span touch, one after
/// another. `None` where these are not as many.
pub(crate) fn unpack_spans(
    alloc: Global,
    packed: PackedBits,
    asked: &SpanRanges,
    bytes: &[u8],
) -> Result<Option<Vec<u8>>, AllocError>
    requires { asked.now.ranges.items ≡ span_ranges packed.bits asked.now.spans.items }
    ensures { (value : List ℕ)
        → list_all (ends_within packed.entry.bits value) asked.now.spans.items ≡ true
        → bytes.now ≡ bytes_in_ranges value asked.now.ranges.items
        → IfOk result (IsUnpacked packed.entry value (spans_numbers asked.now.spans.items)) }
{
    let mut made = Unpacker::with_capacity(alloc, bytes.len())?;
    let mut shifted = Vec::new(alloc);
    let mut rest = bytes;
    for index in 0..asked.spans.len() {
        let length = asked.ranges[index].length as usize;
        if rest.len() < length {
            return Ok(None);
        }
        let (part, others) = rest.split_at(length);
        if !push_span(&mut made, &mut shifted, packed, asked.spans[index], part)? {
            return Ok(None);
        }
        rest = others;
    }
    Ok(Some(made.bytes))
}

/// Appends the bytes of the elements of a span, of the bytes that their bits touch, and says
/// whether these are as many. Bits that don't begin at a byte are moved into a vector that is lent.
fn push_span(
    made: &mut Unpacker,
    shifted: &mut Vec<u8>,
    packed: PackedBits,
    span: Span,
    part: &[u8],
) -> Result<bool, AllocError>
    ensures { (value : List ℕ) → ends_within packed.entry.bits value span ≡ true
        → part.now ≡ bytes_at value (span_range packed.entry.bits span)
        → IfOk result (λ done. (done ≡ true) × (made.new.bytes.items ≡ made.old.bytes.items
        ++ unpacked_bytes packed.entry value (span_numbers span))) }
{
    let skip = first_bit(span, packed.bits);
    let turn = packed.codec.turn(Way::Restore);
    let Some(count) = kept_bits(turn, packed.components, span.count) else {
        return Ok(false);
    };
    let size = (count + 7) / 8;
    if skip == 0 && part.len() as u128 == size {
        push_unpacked(made, packed.codec, packed.components, span.count, part)?;
        return Ok(true);
    }
    if skip as u128 + count > 8 * part.len() as u128 {
        return Ok(false);
    }
    put_shifted(shifted, part, skip, size as usize)?;
    push_unpacked(made, packed.codec, packed.components, span.count, shifted)?;
    Ok(true)
}

/// Which bit of the first byte that a span touches is the first one of its elements.
fn first_bit(span: Span, bits: u128) -> usize
    ensures { result ≡ span.start * bits % 8 }
{
    let start = (span.start % 8) as u128;
    (start * (bits % 8) % 8) as usize
}
