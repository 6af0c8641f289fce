//! The ranges of bytes in which elements stand that are asked for by their numbers.
ghost use Rattle.std.specs.Prelude.{◌≡◌, ◌*◌, ◌≤◌, ◌<◌, ◌^◌, ℕ, List, length, false, true, IfOk, IfNone, IfSome};
ghost use Rattle.std.specs.List.{list_all, list_any};
ghost use Rattle.zarr_grids_boxes.specs.Boxes.{product};
ghost use Rattle.zarr_codecs_meaning.specs.Types.{is_fixed};
ghost use Rattle.zarr_codecs_arrays.specs.Views.{elements_of};
ghost use Rattle.zarr_codecs_traits.specs.Sources.{bytes_in_ranges};
ghost use Rattle.zarr_codecs_bytes.specs.Lines.{bytes_of_lines, ends_after, line_ends_within};
ghost use Rattle.zarr_codecs_bytes.specs.Parts.{listed_width};

use crate::lines::{LineSizes, joined, line_range, push_range};
use crate::part::ListedPart;
use std::alloc::{AllocError, Global};
use zarr_codecs_traits::ByteRange;

/// How many bytes an element and the value have. `None` where all elements that are asked for
/// have more bytes together than the value, which has `size`.
pub(crate) fn listed_sizes(part: ListedPart, size: u64) -> Option<LineSizes>
    requires fixed { is_fixed (elements_of part.elements.now).type ≡ true }
    requires size { size ≡ product part.shape.now * listed_width part }
    requires small { size < 2 ^ 63 }
    ensures none { IfNone result (size ≤ length part.entry.numbers.now * listed_width part.entry) }
    ensures few { IfSome result
        (λ sizes. length part.entry.numbers.now * listed_width part.entry ≤ size) }
    ensures width { IfSome result (λ sizes. sizes.width ≡ listed_width part.entry) }
    ensures line { IfSome result (λ sizes. sizes.line ≡ listed_width part.entry) }
    ensures value { IfSome result (λ sizes. sizes.value ≡ size) }
{
    let width = part.elements.data_type().byte_width()? as u64;
    let bytes = width.checked_mul(part.numbers.len() as u64)?;
    if bytes > size {
        return None;
    }
    Some(LineSizes {
        width,
        line: width,
        value: size,
    })
}

/// The ranges in which the elements with these numbers stand, in their order, of which those that
/// lie one after another are one.
pub(crate) fn number_ranges(
    alloc: Global,
    numbers: &[u64],
    sizes: LineSizes,
) -> Result<Vec<ByteRange>, AllocError>
    requires { list_all (line_ends_within sizes) numbers.now ≡ true }
    ensures are { IfOk result (λ ranges. (value : List ℕ) → bytes_in_ranges value ranges.items
        ≡ bytes_of_lines sizes.width sizes.line value numbers.now) }
    ensures within { IfOk result
        (λ ranges. list_any (ends_after sizes.value) ranges.items ≡ false) }
{
    let mut ranges = Vec::new(alloc);
    let mut open = ByteRange {
        offset: 0,
        length: 0,
    };
    for number in numbers {
        let line = line_range(*number, sizes);
        open = match joined(open, line) {
            Some(both) => both,
            None => {
                push_range(&mut ranges, open)?;
                line
            }
        };
    }
    push_range(&mut ranges, open)?;
    Ok(ranges)
}
