//! The shard of an array, shared by threads.
use crate::shard_state::ShardState;
use std::alloc::Global;
use std::marker::Sync;
use std::sync::{Mutex, Wait};
use std::thread::Threads;
use zarr_codecs_arrays::{ArrayBytes, CodecError};
use zarr_codecs_options::CodecOptions;
use zarr_codecs_traits::{ArrayToBytesCodecTraits, BytesPartialEncoderTraits, Indexer};

/// The shard of an array over a source of its own, which threads read and write one after another:
/// each call waits until it alone has the shard. Before and after each call the type `ShardState`
/// says what the shard is: where the codecs of the index keep every bit, what is known of it is
/// what an honest source holds. No contract says what a call did: others may have been there.
#[derive(Drop)]
pub struct ShardingPartialEncoder<
    'a,
    I: ArrayToBytesCodecTraits,
    X: ArrayToBytesCodecTraits,
    E: BytesPartialEncoderTraits,
> {
    state: Mutex<ShardState<'a, I, X, E>>,
}

impl<
    'a,
    I: ArrayToBytesCodecTraits,
    X: ArrayToBytesCodecTraits,
    E: BytesPartialEncoderTraits,
> ShardingPartialEncoder<'a, I, X, E> {
    /// The same shard behind a lock.
    pub fn new(state: ShardState<'a, I, X, E>) -> Self {
        ShardingPartialEncoder {
            state: Mutex::new(state),
        }
    }

    /// Takes the shard away, as `ShardState::erase` does, with its errors.
    pub fn erase<R: Wait>(&self, rt: &R, alloc: Global) -> Result<(), CodecError> {
        self.state.lock(rt).erase(alloc)
    }

    /// The shard without its lock.
    pub fn into_state(self) -> ShardState<'a, I, X, E> {
        self.state.into_inner()
    }
}

impl<
    'a,
    I: ArrayToBytesCodecTraits + Sync,
    X: ArrayToBytesCodecTraits + Sync,
    E: BytesPartialEncoderTraits,
> ShardingPartialEncoder<'a, I, X, E> {
    /// Puts elements at the places that are asked for, as `ShardState::partial_encode` does, with
    /// its errors.
    pub fn partial_encode<R: Threads + Wait + Sync>(
        &self,
        rt: &R,
        alloc: Global,
        indexer: Indexer<'_>,
        bytes: ArrayBytes,
        options: &CodecOptions,
    ) -> Result<(), CodecError> {
        self.state
            .lock(rt)
            .partial_encode(rt, alloc, indexer, bytes, options)
    }

    /// The elements at the places that are asked for, as `ShardState::partial_decode` reads them,
    /// with its errors.
    pub fn partial_decode<R: Threads + Wait + Sync>(
        &self,
        rt: &R,
        alloc: Global,
        indexer: Indexer<'_>,
        options: &CodecOptions,
    ) -> Result<ArrayBytes, CodecError> {
        self.state
            .lock(rt)
            .partial_decode(rt, alloc, indexer, options)
    }
}
