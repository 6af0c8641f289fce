//! What a shard tells of its size.
ghost use Rattle.std.specs.Prelude.{◌≡◌, ◌+◌, ◌-◌, ◌*◌, ◌^◌, ◌<◌, ℕ, min, Some, length, option_and_then, option_map};
ghost use Rattle.zarr_codecs_meaning.specs.Fits.{at_most, bound_of};
ghost use Rattle.zarr_codecs_traits.specs.Representations.{RepresentsShort, known_size};
ghost use Rattle.zarr_codecs_types.specs.Views.{type_of};
ghost use Rattle.zarr_grids_boxes.specs.Boxes.{product};
ghost use Rattle.zarr_sharding_codec.specs.Fitting.{BoundsAlone, BoundsShapes, behind, capped};

use crate::codec::ShardingCodec;
use crate::fitting::with_length;
use std::alloc::Global;
use zarr_codecs_arrays::CodecError;
use zarr_codecs_traits::{ArrayToBytesCodecTraits, BytesRepresentation};
use zarr_codecs_types::DataType;
use zarr_grids_boxes::walk::has_no_place;

impl<I: ArrayToBytesCodecTraits, X: ArrayToBytesCodecTraits> ShardingCodec<I, X> {
    ghost use Rattle.std.specs.Prelude.{◌≡◌, true};
    ghost use Rattle.zarr_codecs_meaning.specs.Fits.{fits};
    ghost use Rattle.zarr_codecs_traits.specs.Representations.{RepresentsArray};
    ghost use Rattle.zarr_codecs_types.specs.Views.{type_of};
    ghost use Rattle.zarr_sharding_codec.specs.Fitting.{index_length};
    ghost use Rattle.zarr_sharding_codec.specs.Views.{shard_chain};

    /// What is told of the size of a shard, where the codec suits the array; its index has so many
    /// bytes.
    pub(crate) fn represent_fitting(
        &self,
        alloc: Global,
        size: u64,
        data_type: &DataType,
        shape: &[u64],
    ) -> Result<BytesRepresentation, CodecError>
        requires fit { fits (shard_chain I.meaning X.meaning self.now) (type_of data_type.now)
            shape.now ≡ true }
        requires size { size ≡ index_length (shard_chain I.meaning X.meaning self.now) shape.now }
        ensures { RepresentsArray (shard_chain I.meaning X.meaning self.now) (type_of data_type.now)
            shape.now result }
    {
        if has_no_place(shape) {
            return Ok(BytesRepresentation::BoundedSize(size));
        }
        let edges = self.subchunk_shape.as_slice();
        let front = Vec::new(alloc);
        let front = front.as_slice();
        match bound_shapes(&self.inner_codecs, alloc, data_type, front, shape, edges) {
            Ok(Some(slices)) => bounded(size, slices),
            Ok(None) => Ok(BytesRepresentation::UnboundedSize),
            Err(error) => Err(error),
        }
    }
}

/// The sum of what codecs make at most of each subchunk that begins with these lengths, in the
/// later dimensions of an array, which have these sizes, or 2^64 - 1 where it is larger; `None`
/// where one has no bound. `Size` where a size that is told of one of them is too long.
fn bound_shapes<I: ArrayToBytesCodecTraits>(
    inner_codecs: &I,
    alloc: Global,
    data_type: &DataType,
    front: &[u64],
    sizes: &[u64],
    edges: &[u64],
) -> Result<Option<u64>, CodecError>
    requires rank { length sizes.now ≡ length edges.now }
    requires sizes { 0 < product sizes.now }
    requires edges { 0 < product edges.now }
    ensures { BoundsShapes (I.meaning inner_codecs.now) (type_of data_type.now)
        (behind front.now sizes.now edges.now) result }
{
    let Some((size, sizes)) = sizes.split_first() else {
        return bound_alone(inner_codecs, alloc, data_type, front);
    };
    let Some((edge, edges)) = edges.split_first() else {
        return Err(CodecError::Memory);
    };
    if *size < *edge {
        let longer = with_length(alloc, front, *size)?;
        return bound_shapes(
            inner_codecs,
            alloc,
            data_type,
            longer.as_slice(),
            sizes,
            edges,
        );
    }
    let whole = with_length(alloc, front, *edge)?;
    let bound = match bound_shapes(
        inner_codecs,
        alloc,
        data_type,
        whole.as_slice(),
        sizes,
        edges,
    ) {
        Ok(bound) => bound,
        Err(error) => return Err(error),
    };
    let all = bound_times(bound, *size / *edge);
    let rest = *size % *edge;
    if rest == 0 {
        return Ok(all);
    }
    let last = with_length(alloc, front, rest)?;
    match bound_shapes(
        inner_codecs,
        alloc,
        data_type,
        last.as_slice(),
        sizes,
        edges,
    ) {
        Ok(bound) => Ok(bound_sum(all, bound)),
        Err(error) => Err(error),
    }
}

/// A bound so many times, or 2^64 - 1 where it is larger, where there is one.
fn bound_times(bound: Option<u64>, count: u64) -> Option<u64>
    ensures { result ≡ option_map (λ n. min (n * count) (2 ^ 64 - 1)) bound }
{
    match bound {
        Some(bound) => Some(bound.saturating_mul(count)),
        None => None,
    }
}

/// The sum of two bounds, or 2^64 - 1 where it is larger, where both are there.
fn bound_sum(first: Option<u64>, second: Option<u64>) -> Option<u64>
    ensures { result ≡ option_and_then (λ m. option_map (λ n. min (m + n) (2 ^ 64 - 1)) second)
        first }
{
    let Some(first) = first else {
        return None;
    };
    let Some(second) = second else {
        return None;
    };
    Some(first.saturating_add(second))
}

/// What codecs make at most of one array, where there is a bound. `Size` where one of them tells
/// too long a size.
fn bound_alone<I: ArrayToBytesCodecTraits>(
    inner_codecs: &I,
    alloc: Global,
    data_type: &DataType,
    shape: &[u64],
) -> Result<Option<u64>, CodecError>
    ensures { BoundsAlone (I.meaning inner_codecs.now) (type_of data_type.now) shape.now result }
{
    match inner_codecs.encoded_representation(alloc, data_type, shape) {
        Ok(known) => Ok(bound_of(known)),
        Err(CodecError::Size) => Err(CodecError::Size),
        Err(_) => Err(CodecError::Memory),
    }
}

/// The most that a size can be, where there is a bound.
fn bound_of(size: BytesRepresentation) -> Option<u64>
    ensures { result ≡ option_map capped (bound_of (known_size size)) }
{
    match size {
        BytesRepresentation::FixedSize(bound) | BytesRepresentation::BoundedSize(bound) => {
            Some(bound)
        }
        BytesRepresentation::UnboundedSize => None,
    }
}

/// At most an index of so many bytes and slices of so many together, or of 2^64 - 1 or more. `Size`
/// where that is 2^63 or more.
fn bounded(size: u64, slices: u64) -> Result<BytesRepresentation, CodecError>
    ensures { (sum : ℕ) → slices ≡ capped sum
        → RepresentsShort (at_most (Some (size + sum))) result }
{
    let Some(all) = slices.checked_add(size) else {
        return Err(CodecError::Size);
    };
    if all < 1 << 63 {
        Ok(BytesRepresentation::BoundedSize(all))
    } else {
        Err(CodecError::Size)
    }
}
