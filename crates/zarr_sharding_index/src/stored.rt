//! The index of a shard as its codec stores it.
ghost use Rattle.std.specs.Prelude.{◌≡◌, ◌*◌, ◌%◌, ◌^◌, length, nat_lt, true, IfOk};
ghost use Rattle.zarr_grids_boxes.specs.Boxes.{product};
ghost use Rattle.zarr_codecs_arrays.specs.Views.{elements_of};
ghost use Rattle.zarr_codecs_meaning.specs.Types.{uint64, zero_filled};
ghost use Rattle.zarr_sharding_index.specs.Stored.{SizesIndex, WritesIndex, ReadsAsIs, ReadsIndex, index_fits};
ghost use Rattle.zarr_sharding_index.specs.Views.{pairs_of};

use crate::index::ShardIndex;
use crate::numbers::count_pairs;
use std::alloc::{AllocError, Global};
use zarr_codecs_arrays::{CodecError, Elements};
use zarr_codecs_traits::{ArrayToBytesCodecTraits, BytesRepresentation};
use zarr_codecs_types::FillValue;
use zarr_codecs_types::data_type::uint64;
use zarr_grids_boxes::walk::count_places;

/// How many bytes a codec makes of an index of this shape. `None` where it doesn't suit the index,
/// or doesn't make fewer than 2^63 bytes of each, always as many, where a codec inside it tells
/// 2^63 bytes or more of the index, and where the index's numbers have as many. `Err` only where an
/// allocation failed.
pub fn index_size<X: ArrayToBytesCodecTraits>(
    alloc: Global,
    codec: &X,
    shape: &[u64],
) -> Result<Option<u64>, AllocError>
    ensures { IfOk result (SizesIndex (X.meaning codec.now) shape.now) }
{
    if !have_few_bytes(shape) {
        return Ok(None);
    }
    match codec.encoded_representation(alloc, &uint64(), shape) {
        Ok(BytesRepresentation::FixedSize(size)) => {
            if size < 1 << 63 {
                Ok(Some(size))
            } else {
                Ok(None)
            }
        }
        Ok(_) => Ok(None),
        Err(CodecError::Fit) => Ok(None),
        Err(CodecError::Size) => Ok(None),
        Err(_) => Err(AllocError),
    }
}

/// Whether the numbers of an index of this shape have fewer than 2^63 bytes.
fn have_few_bytes(shape: &[u64]) -> bool
    ensures { result ≡ nat_lt (8 * product shape.now) (2 ^ 63) }
{
    match count_places(shape) {
        Some(count) => count < 1 << 60,
        None => false,
    }
}

/// The bytes that a codec makes of an index of this shape. `Codec` where the caller's codec
/// refuses; `Size` where an offset or a length of the index's own is too large.
pub fn write_index<X: ArrayToBytesCodecTraits>(
    alloc: Global,
    codec: &X,
    index: ShardIndex,
    shape: &[u64],
) -> Result<Vec<u8>, CodecError>
    requires fit { index_fits (X.meaning codec.now) shape.now ≡ true }
    requires many { product shape.now ≡ 2 * length (pairs_of index) }
    ensures { WritesIndex (X.meaning codec.now) (X.is_function codec.now) shape.now
        (pairs_of index) result }
{
    if codec.encodes_as_is() {
        return Ok(index.into_bytes());
    }
    let elements = numbers(alloc)?;
    codec.encode_in_order(alloc, index.into_numbers(), &elements, shape)
}

/// The index of this shape that a codec reads from bytes. `Damage` where it reads none.
pub fn read_index<X: ArrayToBytesCodecTraits>(
    alloc: Global,
    codec: &X,
    bytes: Vec<u8>,
    shape: &[u64],
) -> Result<ShardIndex, CodecError>
    requires fit { index_fits (X.meaning codec.now) shape.now ≡ true }
    requires even { product shape.now % 2 ≡ 0 }
    ensures { ReadsIndex (X.meaning codec.now) shape.now bytes.items result }
{
    if codec.encodes_as_is() {
        return index_as_is(bytes, shape);
    }
    let elements = numbers(alloc)?;
    match codec.decode_in_order(alloc, bytes, &elements, shape) {
        Ok(pairs) => Ok(ShardIndex::from_numbers(pairs)?),
        Err(CodecError::Damage) => Err(CodecError::Damage),
        Err(_) => Err(CodecError::Memory),
    }
}

/// The index of this shape whose bytes these are, as they stand in memory. `Damage` where they are
/// more or fewer.
fn index_as_is(bytes: Vec<u8>, shape: &[u64]) -> Result<ShardIndex, CodecError>
    requires { product shape.now % 2 ≡ 0 }
    ensures { ReadsAsIs shape.now bytes.items result }
{
    let Some(count) = count_places(shape) else {
        return Err(CodecError::Damage);
    };
    if bytes.len() % 16 != 0 || count / 2 != count_pairs(bytes.as_slice()) as u64 {
        return Err(CodecError::Damage);
    }
    Ok(ShardIndex::from_bytes(bytes))
}

/// The elements of an index: numbers of 64 bits, which fill with zero.
fn numbers(alloc: Global) -> Result<Elements, AllocError>
    ensures { IfOk result (λ elements. elements_of elements ≡ zero_filled uint64) }
{
    let zero = FillValue::from_u64(alloc, 0)?;
    match Elements::new(uint64(), zero) {
        Some(elements) => Ok(elements),
        None => Err(AllocError),
    }
}
