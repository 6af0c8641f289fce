//! Elements as calls take and give them.
use crate::counting::{counted, form_error};
use crate::elements::Elements;
use crate::error::CodecError;
use crate::filling::filled;
use crate::fills::are_all;
use crate::offsets::ArrayBytesOffsets;
use crate::values::are_values;
use std::alloc::{AllocError, Global};
use zarr_codecs_types::DataType;

/// The elements of an array or a part of it, row-major.
#[derive(Debug, Drop)]
pub enum ArrayBytes {
    /// Elements of one size, one after another, little endian.
    Fixed(Vec<u8>),
    /// Elements of variable length, one after another, and where each begins and the last one ends.
    Variable(Vec<u8>, ArrayBytesOffsets),
    /// An element for each place, and for each place a 1 where it is present, else a 0. What stands
    /// where no element is present says nothing.
    Optional(Box<ArrayBytes>, Vec<u8>),
}

impl ArrayBytes {
    ghost use Rattle.std.specs.Prelude.{◌≡◌, ◌≢◌, IfOk, IfErr, Err, Some, length, replicate, option_map, unwrap_or, false};
    ghost use Rattle.zarr_codecs_meaning.specs.Payloads.{cells_in};
    ghost use Rattle.zarr_codecs_meaning.specs.Types as types;
    ghost use Rattle.zarr_codecs_types.specs.Views.{type_of};
    ghost use Rattle.zarr_codecs_arrays.specs.Views.{payload_of, elements_of};
    ghost use Rattle.zarr_codecs_arrays.specs.Outcomes.{TestsCount, Validates};
    ghost use Rattle.zarr_codecs_meaning.specs.Types.{IsTooLarge};

    /// As many elements as asked for, each the fill value. `Size` where they are 2^63 or more or
    /// would have as many bytes, before any memory is asked for. Of a type whose elements have no
    /// bytes it makes none, and answers `Memory`.
    pub fn new_fill_value(
        alloc: Global,
        elements: &Elements,
        count: u64,
    ) -> Result<ArrayBytes, CodecError>
        ensures ok { IfOk result
            (λ a. cells_in (elements_of elements.now).type (payload_of a)
            ≡ Some (replicate count (elements_of elements.now).fill)) }
        ensures err { IfErr result (λ e. e ≢ CodecError.Memory
            → (e ≡ CodecError.Size) × IsTooLarge (elements_of elements.now).type count) }
        ensures large { IsTooLarge (elements_of elements.now).type count
            → result ≡ Err CodecError.Size }
    {
        if elements.is_too_large(count) {
            return Err(CodecError::Size);
        }
        Ok(ArrayBytes::fill_values(alloc, elements, count as usize)?)
    }

    /// As many elements as asked for, each the fill value, whatever size they have. `Err` where an
    /// allocation failed, and for a type whose elements have no bytes: of those it makes none.
    pub fn fill_values(
        alloc: Global,
        elements: &Elements,
        count: usize,
    ) -> Result<ArrayBytes, AllocError>
        ensures { IfOk result (λ a. cells_in (elements_of elements.now).type (payload_of a)
            ≡ Some (replicate count (elements_of elements.now).fill)) }
    {
        let fill = elements.fill_value().as_cell();
        filled(alloc, elements.data_type(), fill, count)
    }

    /// How many elements of a data type these are, or `None` where their form is another type's.
    pub fn num_elements(&self, data_type: &DataType) -> Option<usize>
        ensures { result ≡ option_map length
            (cells_in (type_of data_type.now) (payload_of self.now)) }
    {
        counted(self, data_type)
    }

    /// Whether these are so many elements of a data type, of which none is tested for being a
    /// value: `InvalidNumberOfElements` where there are more or fewer, `Expected..` where their
    /// form is another type's.
    pub fn test_count(&self, data_type: &DataType, count: u64) -> Result<(), CodecError>
        ensures { TestsCount (type_of data_type.now) (payload_of self.now) count result }
    {
        let Some(found) = counted(self, data_type) else {
            return Err(form_error(self, data_type));
        };
        if found as u64 != count {
            return Err(CodecError::InvalidNumberOfElements);
        }
        Ok(())
    }

    /// Whether these are so many values of a data type: `InvalidNumberOfElements` where there are
    /// more or fewer, `Expected..` where their form is another type's, `CellOutOfRange` where one
    /// is no value. The form is tested first, the values last.
    pub fn validate(&self, data_type: &DataType, count: u64) -> Result<(), CodecError>
        ensures { Validates (type_of data_type.now) (payload_of self.now) count result }
    {
        self.test_count(data_type, count)?;
        if !are_values(self, data_type) {
            return Err(CodecError::CellOutOfRange);
        }
        Ok(())
    }

    /// Whether each element is the fill value. Of elements that are none of the type's it answers
    /// false.
    pub fn is_fill_value(&self, elements: &Elements) -> bool
        ensures { result ≡ unwrap_or (option_map (types.is_fill (elements_of elements.now).fill)
            (cells_in (elements_of elements.now).type (payload_of self.now))) false }
    {
        are_all(self, elements.data_type(), elements.fill_value().as_cell())
    }

    /// An equal value. `Err` only where an allocation failed.
    pub fn try_clone(&self, alloc: Global) -> Result<ArrayBytes, AllocError>
        ensures { IfOk result (λ a. payload_of a ≡ payload_of self.now) }
    {
        match self {
            ArrayBytes::Fixed(bytes) => Ok(ArrayBytes::Fixed(bytes.as_slice().to_vec(alloc)?)),
            ArrayBytes::Variable(bytes, offsets) => {
                let copy = bytes.as_slice().to_vec(alloc)?;
                Ok(ArrayBytes::Variable(copy, offsets.try_clone(alloc)?))
            }
            ArrayBytes::Optional(inner, mask) => {
                let copy = inner.try_clone(alloc)?;
                let inner = Box::new(alloc, copy)?;
                Ok(ArrayBytes::Optional(inner, mask.as_slice().to_vec(alloc)?))
            }
        }
    }
}
