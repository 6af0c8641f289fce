//! What the tests share.
use std::alloc::{AllocError, Global};
use std::fmt::Display;
use zarr_grids::{ArraySubset, ArraySubsetError, ChunkShape, GridError, MetadataV3};

/// The last number of 64 bits.
pub(crate) const LAST: u64 = 18446744073709551615;

/// The box with this start and shape.
pub(crate) fn area(
    alloc: Global,
    start: &[u64],
    shape: &[u64],
) -> Result<ArraySubset, ArraySubsetError> {
    let start = start.to_vec(alloc)?;
    ArraySubset::new_with_start_shape(start, shape.to_vec(alloc)?)
}

/// The chunk shape of these edges.
pub(crate) fn edges(alloc: Global, edges: &[u64]) -> Result<ChunkShape, GridError> {
    match ChunkShape::new(edges.to_vec(alloc)?) {
        Ok(shape) => Ok(shape),
        Err(_) => Err(GridError::ZeroEdge),
    }
}

/// Whether metadata is written as this text.
pub(crate) fn is_written(
    alloc: Global,
    metadata: &MetadataV3,
    want: &str,
) -> Result<bool, AllocError> {
    Ok(metadata.to_value(alloc)?.to_string(alloc)?.as_str() == want)
}

/// Whether an error is said in these words.
pub(crate) fn says<D: Display>(alloc: Global, error: &D, want: &str) -> Result<bool, AllocError> {
    Ok(format!(in alloc; "{error}")?.as_str() == want)
}

/// Whether there are these numbers.
pub(crate) fn are(found: Option<Vec<u64>>, want: &[u64]) -> bool {
    match found {
        Some(numbers) => numbers.as_slice() == want,
        None => false,
    }
}

/// Whether a walk goes on with these numbers.
pub(crate) fn is_next(item: Option<Result<Vec<u64>, AllocError>>, want: &[u64]) -> bool {
    match item {
        Some(Ok(numbers)) => numbers.as_slice() == want,
        _ => false,
    }
}

/// Whether a box has this start and shape.
pub(crate) fn is_area(subset: &ArraySubset, start: &[u64], shape: &[u64]) -> bool {
    subset.start() == start && subset.shape() == shape
}
