//! Elements whose numbers follow one another, and the bytes that their bits touch.
ghost use Rattle.std.specs.Prelude.{◌≡◌, ◌≢◌, ◌≤◌, ◌<◌, ◌++◌, ◌+◌, ◌-◌, ◌*◌, ◌^◌, ℕ, List, min, true, nat_le, nat_lt, IfOk, IfNone, IfSome, OnOk};
ghost use Rattle.std.specs.List.{list_all};
ghost use Rattle.zarr_grids_boxes.specs.Boxes.{product};
ghost use Rattle.zarr_grids_boxes.specs.Subsets.{region_of};
ghost use Rattle.zarr_codecs_traits.specs.Indexers.{shape_has, numbers_of};
ghost use Rattle.zarr_codecs_packbits.specs.Spans.{AreSpans, AreSoFar, IsOpen, span_numbers, span_range, span_ranges, total_length};

use std::alloc::{AllocError, Global};
use zarr_codecs_traits::ByteRange;
use zarr_grids_boxes::ArraySubset;

/// Elements with consecutive row-major numbers: so many, from the one with the number `start` on.
#[derive(Clone, Copy)]
pub(crate) struct Span {
    pub start: u64,
    pub count: u64,
}

/// Spans, and the ranges of a value that their bits touch.
#[derive(Drop)]
pub(crate) struct SpanRanges {
    pub spans: Vec<Span>,
    pub ranges: Vec<ByteRange>,
}

/// The spans of the elements with these numbers, in their order.
pub(crate) fn spans_of(alloc: Global, numbers: &[u64]) -> Result<Vec<Span>, AllocError>
    requires { list_all (λ n. nat_lt n (2 ^ 63)) numbers.now ≡ true }
    ensures { IfOk result (λ spans. AreSpans numbers.now spans.items) }
{
    let mut spans = Vec::new(alloc);
    let mut open = None;
    for number in numbers {
        let next = Span {
            start: *number,
            count: 1,
        };
        open = Some(next_span(&mut spans, open, next)?);
    }
    end_spans(&mut spans, open)?;
    Ok(spans)
}

/// The spans of the elements at the places of a box of an array, row-major.
pub(crate) fn box_spans(
    alloc: Global,
    shape: &[u64],
    region: &ArraySubset,
) -> Result<Vec<Span>, AllocError>
    requires inside { shape_has shape.now (region_of region.now) ≡ true }
    requires small { product shape.now < 2 ^ 63 }
    ensures { IfOk result
        (λ spans. AreSpans (numbers_of shape.now (region_of region.now)) spans.items) }
{
    let mut spans = Vec::new(alloc);
    if region.is_empty() {
        return Ok(spans);
    }
    let mut open = None;
    for number in region.linearised_indices(shape).unwrap() {
        let next = Span {
            start: number,
            count: 1,
        };
        open = Some(next_span(&mut spans, open, next)?);
    }
    end_spans(&mut spans, open)?;
    Ok(spans)
}

/// The span that is open once the next elements are met: it grows where they follow its own, and
/// else it ends.
fn next_span(spans: &mut Vec<Span>, last: Option<Span>, next: Span) -> Result<Span, AllocError>
    requires some { 0 < next.count }
    requires small { next.start + next.count ≤ 2 ^ 63 }
    requires last_small { IfSome last (λ span. span.start + span.count ≤ 2 ^ 63) }
    ensures small { IfOk result (λ span. span.start + span.count ≤ 2 ^ 63) }
    ensures so_far { (numbers : List ℕ) → IsOpen numbers spans.old.items last → IfOk result
        (λ span. AreSoFar (numbers ++ span_numbers next) spans.new.items span) }
{
    let Some(last) = last else {
        return Ok(next);
    };
    match joined(last, next) {
        Some(both) => Ok(both),
        None => {
            spans.push(last)?;
            Ok(next)
        }
    }
}

/// Ends the span that is open.
fn end_spans(spans: &mut Vec<Span>, last: Option<Span>) -> Result<(), AllocError>
    ensures { (numbers : List ℕ) → IsOpen numbers spans.old.items last
        → OnOk result (AreSpans numbers spans.new.items) }
{
    if let Some(last) = last {
        spans.push(last)?;
    }
    Ok(())
}

/// Two spans as one, where the second starts where the first ends.
fn joined(first: Span, second: Span) -> Option<Span>
    requires first { first.start + first.count ≤ 2 ^ 63 }
    requires second { second.start + second.count ≤ 2 ^ 63 }
    ensures next { IfSome result (λ both. second.start ≡ first.start + first.count) }
    ensures both { IfSome result
        (λ both. both ≡ record { start = first.start; count = first.count + second.count }) }
    ensures none { IfNone result (second.start ≢ first.start + first.count) }
{
    if first.start + first.count != second.start {
        return None;
    }
    Some(Span {
        start: first.start,
        count: first.count + second.count,
    })
}

/// The ranges of a value that the bits of spans touch, so many for each element.
pub(crate) fn span_ranges(
    alloc: Global,
    spans: &[Span],
    bits: u128,
) -> Result<Vec<ByteRange>, AllocError>
    requires { list_all (λ span. nat_le ((span.start + span.count) * bits) (2 ^ 66)) spans.now
        ≡ true }
    ensures { IfOk result (λ ranges. ranges.items ≡ span_ranges bits spans.now) }
{
    let mut ranges = Vec::with_capacity(alloc, spans.len())?;
    for span in spans {
        ranges.push(span_range(*span, bits))?;
    }
    Ok(ranges)
}

/// The range of a value that the bits of a span touch, so many for each element.
fn span_range(span: Span, bits: u128) -> ByteRange
    requires { (span.start + span.count) * bits ≤ 2 ^ 66 }
    ensures { result ≡ span_range bits span }
{
    let first = span.start as u128 * bits / 8;
    let end = ((span.start as u128 + span.count as u128) * bits + 7) / 8;
    ByteRange {
        offset: first as u64,
        length: (end - first) as u64,
    }
}

/// How many bytes ranges have together. 2^128 - 1 stands for all that are more.
pub(crate) fn total_length(ranges: &[ByteRange]) -> u128
    ensures { result ≡ min (total_length ranges.now) (2 ^ 128 - 1) }
{
    let mut total: u128 = 0;
    for range in ranges {
        total = total.saturating_add(range.length as u128);
    }
    total
}
