//! An array, or a part of it.
use crate::indexer::Indexer;
use zarr_codecs_arrays::{ArrayBytes, Elements};

/// A part of an array: what its elements are, its shape, and the places that are asked for. The
/// shape counts elements, one number for each dimension.
#[derive(Clone, Copy)]
pub struct ArrayPart<'a> {
    pub elements: &'a Elements,
    pub shape: &'a [u64],
    pub indexer: Indexer<'a>,
}

/// A whole array: what its elements are, and its shape.
#[derive(Clone, Copy)]
pub struct WholeArray<'a> {
    pub elements: &'a Elements,
    pub shape: &'a [u64],
}

/// A value, and the array of which it is one.
#[derive(Drop)]
pub struct EncodedArray<'a> {
    pub value: Vec<u8>,
    pub array: WholeArray<'a>,
}

/// New elements for the places of a part of an array, one for each place.
#[derive(Drop)]
pub struct GivenPart<'a> {
    pub bytes: ArrayBytes,
    pub part: ArrayPart<'a>,
}
