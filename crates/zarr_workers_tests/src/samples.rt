//! Chains with codecs that wait, and what they are to give.

use crate::waiting_codec::WaitingCodec;
use std::alloc::Global;
use zarr_codecs::{ArrayBytes, ArrayToBytesCodec, BytesCodec, CodecChain};

/// A chain whose bytes codecs wait.
pub(crate) type WaitingChain = CodecChain<WaitingCodec>;

/// The chain of `bytes` and these codecs.
pub(crate) fn chain(alloc: Global, codecs: Vec<WaitingCodec>) -> WaitingChain {
    let bytes = ArrayToBytesCodec::Bytes(BytesCodec::little());
    CodecChain::new(Vec::new(alloc), bytes, codecs)
}

/// Whether these are so many cells, each 1.
pub(crate) fn are_ones(read: &ArrayBytes, count: usize) -> bool {
    match read {
        ArrayBytes::Fixed(bytes) => bytes.len() == count && bytes.iter().all(|byte| *byte == 1),
        _ => false,
    }
}
