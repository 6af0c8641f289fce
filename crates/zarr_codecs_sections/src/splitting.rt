//! Elements of an optional type, split into a mask and the elements below it.
ghost use Rattle.std.specs.Prelude.{◌≡◌, ℕ, List, IfOk, true};
ghost use Rattle.std.specs.List.{list_all};
ghost use Rattle.zarr_codecs_meaning.specs.Types as types;
ghost use Rattle.zarr_codecs_arrays.specs.Outcomes.{IsValid};
ghost use Rattle.zarr_codecs_arrays.specs.Views.{payload_of};
ghost use Rattle.zarr_codecs_sections.specs.Marks.{AreMarked, both_marks, chosen};
ghost use Rattle.zarr_codecs_sections.specs.Outcomes.{IsSplit};

use crate::masks::count_ones;
use std::alloc::{AllocError, Global};
use zarr_codecs_arrays::ArrayBytes;

/// Elements of an optional type, or some of them, split.
#[derive(Debug, Drop)]
pub struct SplitOptions {
    /// For each of them whether it is present: the numbers of a mask.
    pub mask: Vec<u8>,
    /// For each element below 1 where it is one that is present, else 0.
    pub marks: Vec<u8>,
    /// The elements below, of the inner type: one for each mark.
    pub below: ArrayBytes,
}

/// Elements of an optional type, split. `Err` only where an allocation failed, or these are no
/// elements of an optional type.
pub fn split_options(alloc: Global, elements: ArrayBytes) -> Result<SplitOptions, AllocError>
    ensures { (inner : types.DataType) (count : ℕ) (cells : List types.Cell)
        → IsValid (types.optional_of inner) (payload_of elements) count cells
        → IfOk result (IsSplit inner cells) }
{
    let ArrayBytes::Optional(below, mask) = elements else {
        return Err(AllocError);
    };
    let marks = mask.as_slice().to_vec(alloc)?;
    Ok(SplitOptions {
        mask,
        marks,
        below: Box::into_inner(below),
    })
}

/// Those elements of an optional type whose marks are 1, split. `Err` only where an allocation
/// failed, or these are no elements of an optional type.
pub fn split_chosen(
    alloc: Global,
    elements: ArrayBytes,
    marks: &[u8],
) -> Result<SplitOptions, AllocError>
    ensures { (inner : types.DataType) (cells : List types.Cell)
        → AreMarked (types.optional_of inner) marks.now cells (payload_of elements)
        → list_all (types.is_value (types.optional_of inner)) cells ≡ true
        → IfOk result (IsSplit inner cells) }
{
    let ArrayBytes::Optional(below, mask) = elements else {
        return Err(AllocError);
    };
    let found = chosen_numbers(alloc, mask.as_slice(), marks)?;
    let both = both_marks(alloc, mask.as_slice(), marks)?;
    Ok(SplitOptions {
        mask: found,
        marks: both,
        below: Box::into_inner(below),
    })
}

/// Those of some numbers whose marks are 1.
fn chosen_numbers(alloc: Global, numbers: &[u8], marks: &[u8]) -> Result<Vec<u8>, AllocError>
    ensures { IfOk result (λ v. v.items ≡ chosen marks.now numbers.now) }
{
    let mut found = Vec::with_capacity(alloc, count_ones(marks) as usize)?;
    let mut rest = numbers;
    for mark in marks {
        let Some((number, others)) = rest.split_first() else {
            return Err(AllocError);
        };
        if *mark == 1 {
            found.push(*number)?;
        }
        rest = others;
    }
    Ok(found)
}

/// 1 where a mark and a number are 1, else 0.
fn both_marks(alloc: Global, numbers: &[u8], marks: &[u8]) -> Result<Vec<u8>, AllocError>
    ensures { IfOk result (λ v. v.items ≡ both_marks marks.now numbers.now) }
{
    let mut both = Vec::with_capacity(alloc, marks.len())?;
    let mut rest = numbers;
    for mark in marks {
        let Some((number, others)) = rest.split_first() else {
            return Err(AllocError);
        };
        both.push((*mark == 1 && *number == 1) as u8)?;
        rest = others;
    }
    Ok(both)
}
