//! Values and arrays in pieces.
use crate::byte_range::ByteRange;
use std::alloc::Global;
use zarr_codecs_arrays::{ArrayBytes, CodecError};
use zarr_grids_boxes::ArraySubset;

/// A value that was decoded, or the pieces that it is cut into.
#[derive(Debug, Drop)]
pub enum SplitValue {
    Decoded(ArrayBytes),
    Cut(ValuePieces),
}

/// A value in pieces, of which each can be decoded by itself: the present subchunks of a shard.
/// `shape` is that of the array that is cut. Where the source refused a piece, `stopped` says why
/// there are no more.
#[derive(Debug, Drop)]
pub struct ValuePieces {
    pub data: Vec<u8>,
    pub shape: Vec<u64>,
    pub slices: Vec<PieceSlice>,
    pub stopped: Option<CodecError>,
}

/// A piece of a value: the row-major number of its subchunk, where its bytes stand in the data, and
/// which of its places are asked for.
#[derive(Debug, Drop)]
pub struct PieceSlice {
    pub number: u64,
    pub range: ByteRange,
    pub places: PiecePlaces,
}

/// Places of a subchunk, as they stand in it, and as they stand among all that are asked for: all
/// of them, those of a box, or some by their row-major numbers.
#[derive(Debug, Drop)]
pub enum PiecePlaces {
    All,
    InBox {
        inside: ArraySubset,
        target: ArraySubset,
    },
    Listed {
        insides: Vec<u64>,
        positions: Vec<u64>,
    },
}

/// An array that was encoded, or the pieces that it is cut into.
#[derive(Debug, Drop)]
pub enum SplitArray {
    Encoded(Vec<u8>),
    Cut(ArrayPieces),
}

/// An array in pieces, of which each can be encoded by itself: the subchunks of a shard, `count` of
/// them, row-major. `bytes` and `shape` are those of the array that is cut.
#[derive(Debug, Drop)]
pub struct ArrayPieces {
    pub bytes: ArrayBytes,
    pub shape: Vec<u64>,
    pub count: usize,
}
