//! Elements of an array while those at some of its places are put over them.
ghost use Rattle.std.specs.Prelude.{◌≡◌, ◌+◌, ◌++◌, ◌^◌, ◌<◌, List, length, replicate, Some, IfOk};
ghost use Rattle.std.specs.List.{range_with_len};
ghost use Rattle.zarr_codecs_arrays.specs.Views.{elements_of, payload_of};
ghost use Rattle.zarr_codecs_meaning.specs.Payloads.{cells_in};
ghost use Rattle.zarr_codecs_meaning.specs.Types.{Cell};
ghost use Rattle.zarr_codecs_regions.specs.Updates.{put};
ghost use Rattle.zarr_sharding_places.specs.Placed.{Shows};

use std::alloc::{AllocError, Global};
use zarr_codecs_arrays::{ArrayBytes, Elements, concat_elements};
use zarr_codecs_regions::gather_elements;

/// Elements of an array while those at some of its places are put over them: all that were put, in
/// the order in which they came, and for each place the number of the one that is there now. What
/// is put takes time by what it is alone, however large the array is.
#[derive(Debug, Drop)]
pub struct PlacedElements {
    came: ArrayBytes,
    count: u64,
    numbers: Vec<u64>,
}

impl PlacedElements {
    /// So many fill values. `Err` only where an allocation failed.
    pub fn new_fill_value(
        alloc: Global,
        count: usize,
        elements: &Elements,
    ) -> Result<PlacedElements, AllocError>
        ensures { IfOk result (λ all. Shows (elements_of elements.now) all
            (replicate count (elements_of elements.now).fill)) }
    {
        let numbers = vec![in alloc; 0u64; count]?;
        let came = ArrayBytes::fill_values(alloc, elements, 1)?;
        Ok(PlacedElements {
            came,
            count: 1,
            numbers,
        })
    }

    /// The elements after others were put at the places with these numbers, one for each of them.
    /// `Err` only where an allocation failed, or there is no place with one of these numbers.
    pub fn put(
        self,
        alloc: Global,
        at: &[u64],
        given: &ArrayBytes,
        elements: &Elements,
    ) -> Result<PlacedElements, AllocError>
        ensures { (before others : List Cell) → Shows (elements_of elements.now) self before
            → cells_in (elements_of elements.now).type (payload_of given.now) ≡ Some others
            → length others ≡ length at.now → IfOk result
            (λ all. Shows (elements_of elements.now) all (put at.now others before)) }
    {
        let PlacedElements {
            came: old,
            count: first,
            numbers,
        } = self;
        let Some(count) = first.checked_add(at.len() as u64) else {
            return Err(AllocError);
        };
        let numbers = renumber(numbers, at, first)?;
        let came = append(alloc, old, given, elements)?;
        Ok(PlacedElements {
            came,
            count,
            numbers,
        })
    }

    /// The elements, in order. `Err` only where an allocation failed.
    pub fn gather(&self, alloc: Global, elements: &Elements) -> Result<ArrayBytes, AllocError>
        ensures { (cells : List Cell) → Shows (elements_of elements.now) self.now cells
            → IfOk result (λ made. cells_in (elements_of elements.now).type (payload_of made)
            ≡ Some cells) }
    {
        gather_elements(alloc, &self.came, elements, self.numbers.as_slice())
    }
}

/// Elements, and after them others. `Err` only where an allocation failed.
fn append(
    alloc: Global,
    first: ArrayBytes,
    second: &ArrayBytes,
    elements: &Elements,
) -> Result<ArrayBytes, AllocError>
    ensures { (a : List Cell) (b : List Cell)
        → cells_in (elements_of elements.now).type (payload_of first) ≡ Some a
        → cells_in (elements_of elements.now).type (payload_of second.now) ≡ Some b
        → IfOk result
        (λ made. cells_in (elements_of elements.now).type (payload_of made) ≡ Some (a ++ b)) }
{
    concat_elements(alloc, first, second, elements.data_type())
}

/// A list of numbers after those from the first one on were put at these places. `Err` where it has
/// no such place.
fn renumber(numbers: Vec<u64>, at: &[u64], first: u64) -> Result<Vec<u64>, AllocError>
    requires fit { first + length at.now < 2 ^ 64 }
    ensures { IfOk result (λ made.
        made.items ≡ put at.now (range_with_len first (length at.now)) numbers.items) }
{
    let mut made = numbers;
    let mut next = first;
    for place in at {
        if *place >= made.len() as u64 {
            return Err(AllocError);
        }
        made[*place as usize] = next;
        next += 1;
    }
    Ok(made)
}
