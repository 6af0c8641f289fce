//! The data types of arrays.
ghost use Rattle.std.specs.Prelude.{◌≡◌, ◌≤◌, ◌+◌, ◌/◌, IfOk};
ghost use Rattle.zarr_codecs_meaning.specs.Types as types;
ghost use Rattle.zarr_codecs_types.specs.Views.{type_of, components_of};
ghost use Rattle.zarr_codecs_types.specs.Parts.{word_sized};

use std::alloc::{AllocError, Global};

/// Whether the bits above a number's own are zeros or copies of its highest bit.
#[derive(Clone, Copy, Debug, PartialEq, Eq)]
pub enum Sign {
    Unsigned,
    Signed,
}

/// One number of an element: how many bits are its own, and how many bytes it takes in memory,
/// little endian.
#[derive(Clone, Copy, Debug, PartialEq, Eq)]
pub struct Component {
    pub width: usize,
    pub byte_count: usize,
    pub sign: Sign,
}

/// What the elements of an array are. `Custom` is a caller's type, whose elements are so many
/// numbers one after another.
#[derive(Debug, Drop)]
pub enum DataType {
    Bool,
    Int2,
    Int4,
    Int8,
    Int16,
    Int32,
    Int64,
    UInt2,
    UInt4,
    UInt8,
    UInt16,
    UInt32,
    UInt64,
    String,
    Bytes,
    Optional(Box<DataType>),
    Custom(Vec<Component>),
}

/// Booleans, of one byte that is 0 or 1.
pub fn bool() -> DataType
    ensures { type_of result ≡ types.bool }
{
    DataType::Bool
}

/// Signed integers of 2 bits, in one byte.
pub fn int2() -> DataType
    ensures { type_of result ≡ types.integer types.signed 2 }
{
    DataType::Int2
}

/// Signed integers of 4 bits, in one byte.
pub fn int4() -> DataType
    ensures { type_of result ≡ types.integer types.signed 4 }
{
    DataType::Int4
}

/// Signed integers of 8 bits, in one byte.
pub fn int8() -> DataType
    ensures { type_of result ≡ types.integer types.signed 8 }
{
    DataType::Int8
}

/// Signed integers of 16 bits, in two bytes.
pub fn int16() -> DataType
    ensures { type_of result ≡ types.integer types.signed 16 }
{
    DataType::Int16
}

/// Signed integers of 32 bits, in four bytes.
pub fn int32() -> DataType
    ensures { type_of result ≡ types.integer types.signed 32 }
{
    DataType::Int32
}

/// Signed integers of 64 bits, in eight bytes.
pub fn int64() -> DataType
    ensures { type_of result ≡ types.integer types.signed 64 }
{
    DataType::Int64
}

/// Unsigned integers of 2 bits, in one byte.
pub fn uint2() -> DataType
    ensures { type_of result ≡ types.integer types.unsigned 2 }
{
    DataType::UInt2
}

/// Unsigned integers of 4 bits, in one byte.
pub fn uint4() -> DataType
    ensures { type_of result ≡ types.integer types.unsigned 4 }
{
    DataType::UInt4
}

/// Unsigned integers of 8 bits, in one byte.
pub fn uint8() -> DataType
    ensures { type_of result ≡ types.integer types.unsigned 8 }
{
    DataType::UInt8
}

/// Unsigned integers of 16 bits, in two bytes.
pub fn uint16() -> DataType
    ensures { type_of result ≡ types.integer types.unsigned 16 }
{
    DataType::UInt16
}

/// Unsigned integers of 32 bits, in four bytes.
pub fn uint32() -> DataType
    ensures { type_of result ≡ types.integer types.unsigned 32 }
{
    DataType::UInt32
}

/// Unsigned integers of 64 bits, in eight bytes.
pub fn uint64() -> DataType
    ensures { type_of result ≡ types.integer types.unsigned 64 }
{
    DataType::UInt64
}

/// Strings. Their UTF-8 is not checked.
pub fn string() -> DataType
    ensures { type_of result ≡ types.string }
{
    DataType::String
}

/// Lists of bytes, each as long as it is.
pub fn bytes() -> DataType
    ensures { type_of result ≡ types.variable_bytes }
{
    DataType::Bytes
}

/// Elements of a type that may be absent. `Err` only where an allocation failed.
pub fn optional(alloc: Global, inner: DataType) -> Result<DataType, AllocError>
    ensures { IfOk result (λ t. type_of t ≡ types.optional_of (type_of inner)) }
{
    Ok(DataType::Optional(Box::new(alloc, inner)?))
}

impl DataType {
    ghost use Rattle.std.specs.Prelude.{◌≡◌, IfOk, is_some, option_map, option_and_then};
    ghost use Rattle.zarr_codecs_meaning.specs.Types as types;
    ghost use Rattle.zarr_codecs_types.specs.Views.{type_of, component_of, components_of};
    ghost use Rattle.zarr_codecs_types.specs.Parts.{single_component, word_sized};

    /// An equal data type. `Err` only where an allocation failed.
    pub fn try_clone(&self, alloc: Global) -> Result<DataType, AllocError>
        ensures { IfOk result (λ t. type_of t ≡ type_of self.now) }
    {
        match self {
            DataType::Bool => Ok(DataType::Bool),
            DataType::Int2 => Ok(DataType::Int2),
            DataType::Int4 => Ok(DataType::Int4),
            DataType::Int8 => Ok(DataType::Int8),
            DataType::Int16 => Ok(DataType::Int16),
            DataType::Int32 => Ok(DataType::Int32),
            DataType::Int64 => Ok(DataType::Int64),
            DataType::UInt2 => Ok(DataType::UInt2),
            DataType::UInt4 => Ok(DataType::UInt4),
            DataType::UInt8 => Ok(DataType::UInt8),
            DataType::UInt16 => Ok(DataType::UInt16),
            DataType::UInt32 => Ok(DataType::UInt32),
            DataType::UInt64 => Ok(DataType::UInt64),
            DataType::String => Ok(DataType::String),
            DataType::Bytes => Ok(DataType::Bytes),
            DataType::Optional(inner) => {
                let copy = inner.try_clone(alloc)?;
                Ok(DataType::Optional(Box::new(alloc, copy)?))
            }
            DataType::Custom(parts) => Ok(DataType::Custom(parts.as_slice().to_vec(alloc)?)),
        }
    }

    /// Whether all elements take the same number of bytes.
    pub fn is_fixed(&self) -> bool
        ensures { result ≡ types.is_fixed (type_of self.now) }
    {
        !matches!(
            self,
            DataType::String | DataType::Bytes | DataType::Optional(_)
        )
    }

    /// Whether the elements may have any number of bytes.
    pub fn is_variable(&self) -> bool
        ensures { result ≡ types.is_variable (type_of self.now) }
    {
        matches!(self, DataType::String | DataType::Bytes)
    }

    /// Whether elements may be absent.
    pub fn is_optional(&self) -> bool
        ensures { result ≡ is_some (types.inner_type (type_of self.now)) }
    {
        matches!(self, DataType::Optional(_))
    }

    /// The type of the elements that are present, of an optional type.
    pub fn inner(&self) -> Option<&DataType>
        ensures { option_map (λ t. type_of t.now) result ≡ types.inner_type (type_of self.now) }
    {
        match self {
            DataType::Optional(inner) => Some(inner),
            _ => None,
        }
    }

    /// The one number of an element of a type of booleans or integers.
    pub(crate) fn single_component(&self) -> Option<Component>
        ensures { option_map component_of result ≡ single_component (type_of self.now) }
    {
        match self {
            DataType::Bool => Some(number(Sign::Unsigned, 1)),
            DataType::Int2 => Some(number(Sign::Signed, 2)),
            DataType::Int4 => Some(number(Sign::Signed, 4)),
            DataType::Int8 => Some(number(Sign::Signed, 8)),
            DataType::Int16 => Some(number(Sign::Signed, 16)),
            DataType::Int32 => Some(number(Sign::Signed, 32)),
            DataType::Int64 => Some(number(Sign::Signed, 64)),
            DataType::UInt2 => Some(number(Sign::Unsigned, 2)),
            DataType::UInt4 => Some(number(Sign::Unsigned, 4)),
            DataType::UInt8 => Some(number(Sign::Unsigned, 8)),
            DataType::UInt16 => Some(number(Sign::Unsigned, 16)),
            DataType::UInt32 => Some(number(Sign::Unsigned, 32)),
            DataType::UInt64 => Some(number(Sign::Unsigned, 64)),
            _ => None,
        }
    }

    /// The numbers that an element of a fixed type consists of. `Err` only where an allocation
    /// failed.
    pub fn components(&self, alloc: Global) -> Result<Vec<Component>, AllocError>
        ensures { IfOk result (λ v. components_of v.items ≡ types.components (type_of self.now)) }
    {
        match self {
            DataType::Custom(parts) => parts.as_slice().to_vec(alloc),
            _ => match self.single_component() {
                Some(component) => [component].to_vec(alloc),
                None => Ok(Vec::new(alloc)),
            },
        }
    }

    /// How many bytes each element takes, of a fixed type. `None` also where a `usize` is too
    /// small for the number.
    pub fn byte_width(&self) -> Option<usize>
        ensures { result ≡ option_and_then word_sized (types.byte_width (type_of self.now)) }
    {
        match self {
            DataType::String | DataType::Bytes | DataType::Optional(_) => None,
            DataType::Custom(parts) => bytes_in(parts.as_slice()),
            _ => match self.single_component() {
                Some(component) => Some(component.byte_count),
                None => None,
            },
        }
    }
}

fn number(sign: Sign, width: usize) -> Component
    requires { width ≤ 64 }
    ensures { result ≡ record { width = width; byte_count = (width + 7) / 8; sign = sign } }
{
    Component {
        width,
        byte_count: (width + 7) / 8,
        sign,
    }
}

/// How many bytes components take together, where a `usize` is large enough for that.
fn bytes_in(parts: &[Component]) -> Option<usize>
    ensures { result ≡ word_sized (types.bytes_in (components_of parts.now)) }
{
    let mut count: usize = 0;
    for part in parts {
        count = count.checked_add(part.byte_count)?;
    }
    Some(count)
}
