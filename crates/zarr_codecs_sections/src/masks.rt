//! Masks, and which elements they have present.
ghost use Rattle.std.specs.Prelude.{◌≡◌, List, Some, IfOk, map, length};
ghost use Rattle.zarr_codecs_meaning.specs.Decoding.{count_present};
ghost use Rattle.zarr_codecs_meaning.specs.Payloads.{cells_in};
ghost use Rattle.zarr_codecs_meaning.specs.Types as types;
ghost use Rattle.zarr_codecs_arrays.specs.Views.{payload_of};
ghost use Rattle.zarr_codecs_sections.specs.Marks.{IsMask, IsSpreadMask, count_ones, mark_of, spread_marks};

use std::alloc::{AllocError, Global};
use zarr_codecs_arrays::ArrayBytes;

/// How many marks are 1.
pub fn count_ones(marks: &[u8]) -> u64
    ensures { result ≡ count_ones marks.now }
{
    let mut count: u64 = 0;
    for mark in marks {
        if *mark == 1 {
            count += 1;
        }
    }
    count
}

/// Which elements a mask has present, which is elements of `bool`: for each of them 1 or 0. `Err`
/// only where an allocation failed, or these are no such elements.
pub fn marks_of(alloc: Global, mask: &ArrayBytes) -> Result<Vec<u8>, AllocError>
    ensures marks { (masks : List types.Cell)
        → cells_in types.bool (payload_of mask.now) ≡ Some masks
        → IfOk result (λ marks. IsMask masks marks.items) }
    ensures count { (masks : List types.Cell)
        → cells_in types.bool (payload_of mask.now) ≡ Some masks
        → IfOk result (λ marks. count_ones marks.items ≡ count_present masks) }
{
    match mask {
        ArrayBytes::Fixed(numbers) => clean_marks(alloc, numbers.as_slice()),
        _ => Err(AllocError),
    }
}

/// 1 for each number that is 1, else 0.
fn clean_marks(alloc: Global, numbers: &[u8]) -> Result<Vec<u8>, AllocError>
    ensures { IfOk result (λ marks. marks.items ≡ map mark_of numbers.now) }
{
    let mut marks = numbers.to_vec(alloc)?;
    for mark in marks.iter_mut() {
        *mark = (*mark == 1) as u8;
    }
    Ok(marks)
}

/// The same where the mask is that of the elements whose outer marks are 1, for all elements: 0 for
/// each that isn't one of these. `Err` also where the mask is one of more or fewer elements.
pub fn spread_marks(alloc: Global, mask: &ArrayBytes, outer: &[u8]) -> Result<Vec<u8>, AllocError>
    ensures marks { (masks : List types.Cell)
        → cells_in types.bool (payload_of mask.now) ≡ Some masks
        → IfOk result (λ marks. IsSpreadMask outer.now masks marks.items) }
    ensures count { (masks : List types.Cell)
        → cells_in types.bool (payload_of mask.now) ≡ Some masks
        → length masks ≡ count_ones outer.now
        → IfOk result (λ marks. count_ones marks.items ≡ count_present masks) }
    ensures many { IfOk result (λ marks. length marks.items ≡ length outer.now) }
{
    match mask {
        ArrayBytes::Fixed(numbers) => spread_numbers(alloc, numbers.as_slice(), outer),
        _ => Err(AllocError),
    }
}

/// For each mark that is 1 whether the next of some numbers is 1, and 0 for each that isn't. `Err`
/// also where there are more numbers or fewer.
fn spread_numbers(alloc: Global, numbers: &[u8], outer: &[u8]) -> Result<Vec<u8>, AllocError>
    ensures { IfOk result (λ marks. marks.items ≡ spread_marks outer.now numbers.now) }
{
    let mut marks = Vec::with_capacity(alloc, outer.len())?;
    let mut rest = numbers;
    for mark in outer {
        if *mark != 1 {
            marks.push(0)?;
            continue;
        }
        let Some((next, others)) = rest.split_first() else {
            return Err(AllocError);
        };
        marks.push((*next == 1) as u8)?;
        rest = others;
    }
    if rest.is_empty() {
        Ok(marks)
    } else {
        Err(AllocError)
    }
}
