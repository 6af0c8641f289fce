//! Shards that are kept open.
use anyhow::{Context, Result, bail};
use std::alloc::Global;
use std::marker::Sync;
use std::thread::Threads;
use zarr_calls_grids::steps::{Taken, is_read, lacks_memory, none_taken, stays};
use zarr_calls_grids::words::{cut, push_word, refused, word};
use zarr_calls_kinds::{
    Array, CountingSource, TestCodec, array_in, counting_in, given_in, json, left, left_by,
    places_in,
};
use zarr_codecs_arrays::CodecError;
use zarr_codecs_traits::{ArrayToBytesCodecTraits, WholeArray};
use zarr_sharding_chains::ArrayChain;
use zarr_sharding_codec::ShardingCodec;
use zarr_sharding_partial::ShardState;

/// A shard that is kept open, and its array.
#[derive(Drop)]
struct Kept<'a, I: ArrayToBytesCodecTraits, X: ArrayToBytesCodecTraits> {
    state: ShardState<'a, I, X, CountingSource>,
    array: &'a Array,
}

/// What steps give that are taken over the shard of a chain, the value after them, and what its
/// source was asked for.
pub fn answer<R: Threads + Sync>(
    rt: &R,
    alloc: Global,
    chain: &ArrayChain<TestCodec>,
    rest: &str,
) -> Result<String> {
    match chain {
        ArrayChain::Sharded(chain) => over_shard(rt, alloc, chain.sharding_codec(), rest),
        ArrayChain::Nested(chain) => over_shard(rt, alloc, chain.sharding_codec(), rest),
        ArrayChain::Plain(_) => bail!("a chain has no shard"),
    }
}

/// A shard is opened, and once more where memory ran out, which gives its source back.
fn open<'a, I: ArrayToBytesCodecTraits, X: ArrayToBytesCodecTraits>(
    alloc: Global,
    codec: &'a ShardingCodec<I, X>,
    source: CountingSource,
    array: WholeArray<'a>,
) -> Result<ShardState<'a, I, X, CountingSource>, (CountingSource, CodecError)> {
    match ShardState::open(alloc, codec, source, array) {
        Err((source, CodecError::Memory)) => ShardState::open(alloc, codec, source, array),
        said => said,
    }
}

/// What steps give over the shard of an array.
fn over_shard<
    R: Threads + Sync,
    I: ArrayToBytesCodecTraits + Sync,
    X: ArrayToBytesCodecTraits + Sync,
>(rt: &R, alloc: Global, codec: &ShardingCodec<I, X>, rest: &str) -> Result<String> {
    let (array, rest) = array_in(alloc, rest)?;
    let (value, steps) = cut(rest)?;
    let source = counting_in(alloc, value)?;
    over_source(rt, alloc, codec, &array, source, steps)
}

fn over_source<
    R: Threads + Sync,
    I: ArrayToBytesCodecTraits + Sync,
    X: ArrayToBytesCodecTraits + Sync,
>(
    rt: &R,
    alloc: Global,
    codec: &ShardingCodec<I, X>,
    array: &Array,
    source: CountingSource,
    steps: &str,
) -> Result<String> {
    let (elements, shape) = (&array.elements, array.shape.as_slice());
    let whole = WholeArray { elements, shape };
    match open(alloc, codec, source, whole) {
        Ok(state) => taken(rt, alloc, state, array, steps),
        Err((source, error)) => left_by(alloc, &error, source),
    }
}

fn taken<R: Threads + Sync, I: ArrayToBytesCodecTraits + Sync, X: ArrayToBytesCodecTraits + Sync>(
    rt: &R,
    alloc: Global,
    state: ShardState<'_, I, X, CountingSource>,
    array: &Array,
    steps: &str,
) -> Result<String> {
    let mut kept = Kept { state, array };
    let mut all = kept.take_all(rt, alloc, steps)?;
    let Kept { state, .. } = kept;
    push_word(&mut all, left(alloc, state.into_source())?.as_str())?;
    Ok(all)
}

impl<I: ArrayToBytesCodecTraits + Sync, X: ArrayToBytesCodecTraits + Sync> Kept<'_, I, X> {
    /// What steps give, with a space between them.
    fn take_all<R: Threads + Sync>(
        &mut self,
        rt: &R,
        alloc: Global,
        steps: &str,
    ) -> Result<String> {
        let mut all = String::new(alloc);
        let mut before = none_taken(alloc);
        for step in steps.split(" | ") {
            let given = self.take_at_last(rt, alloc, step, &before)?;
            push_word(&mut all, given.as_str())?;
            before = Taken { step, given };
        }
        Ok(all)
    }

    /// What a step gives, which is taken once more where memory ran out. A read right before it
    /// still gives then what it gave.
    fn take_at_last<R: Threads + Sync>(
        &mut self,
        rt: &R,
        alloc: Global,
        step: &str,
        before: &Taken<'_>,
    ) -> Result<String> {
        let given = self.take(rt, alloc, step)?;
        if !lacks_memory(given.as_str()) {
            return Ok(given);
        }
        if is_read(before.step) {
            stays(before, self.take(rt, alloc, before.step)?.as_str())?;
        }
        self.take(rt, alloc, step)
    }

    /// Takes `erase`, `read PLACES` or `put PLACES = ELEMENTS`.
    fn take<R: Threads + Sync>(&mut self, rt: &R, alloc: Global, step: &str) -> Result<String> {
        match step.split_once(' ') {
            None => done(alloc, self.state.erase(alloc)),
            Some(("read", places)) => self.read(rt, alloc, places),
            Some((_put, rest)) => self.put(rt, alloc, rest),
        }
    }

    fn read<R: Threads + Sync>(&mut self, rt: &R, alloc: Global, places: &str) -> Result<String> {
        let (places, array) = (places_in(alloc, places)?, self.array);
        match self
            .state
            .partial_decode(rt, alloc, places.indexer(), &array.options)
        {
            Ok(cells) => json(alloc, array.elements.data_type(), &cells),
            Err(error) => refused(alloc, &error),
        }
    }

    fn put<R: Threads + Sync>(&mut self, rt: &R, alloc: Global, rest: &str) -> Result<String> {
        let (places, cells) = rest.split_once(" = ").context("a put has no elements")?;
        let places = places_in(alloc, places)?;
        let cells = given_in(alloc, self.array.elements.data_type(), cells)?;
        let options = &self.array.options;
        let put = self
            .state
            .partial_encode(rt, alloc, places.indexer(), cells, options);
        done(alloc, put)
    }
}

/// Whether a step was done.
fn done(alloc: Global, taken: Result<(), CodecError>) -> Result<String> {
    match taken {
        Ok(()) => word(alloc, "done"),
        Err(error) => refused(alloc, &error),
    }
}
