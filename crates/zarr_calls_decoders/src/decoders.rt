//! Shards that are read in part, and indexes.
use anyhow::{Context, Result, bail};
use std::alloc::Global;
use std::marker::Sync;
use std::thread::Threads;
use zarr_calls_grids::steps::{Taken, is_read, lacks_memory, none_taken, stays};
use zarr_calls_grids::words::{
    bytes_in, counted, cut, digits, numbers_in, push_word, refused, word,
};
use zarr_calls_kinds::{
    Array, CountingSource, TestCodec, array_in, counting_in, json, places_in, put_or_not,
};
use zarr_codecs_traits::{ArrayToBytesCodecTraits, ByteRange, TargetBytes, WholeArray};
use zarr_grids_boxes::ArraySubset;
use zarr_sharding_chains::ArrayChain;
use zarr_sharding_codec::ShardingCodec;
use zarr_sharding_index::ShardIndex;
use zarr_sharding_partial::ShardingPartialDecoder;

/// A shard whose index is kept, and its array.
#[derive(Drop)]
struct Decoding<'a, I: ArrayToBytesCodecTraits, X: ArrayToBytesCodecTraits> {
    decoder: ShardingPartialDecoder<'a, I, X, CountingSource>,
    array: &'a Array,
}

/// What a call of the shard of a chain gives: `decoder` or `index`.
pub fn answer<R: Threads + Sync>(
    rt: &R,
    alloc: Global,
    chain: &ArrayChain<TestCodec>,
    name: &str,
    rest: &str,
) -> Result<String> {
    match chain {
        ArrayChain::Sharded(chain) => asked(rt, alloc, chain.sharding_codec(), name, rest),
        ArrayChain::Nested(chain) => asked(rt, alloc, chain.sharding_codec(), name, rest),
        ArrayChain::Plain(_) => bail!("a chain has no shard"),
    }
}

fn asked<R: Threads + Sync, I: ArrayToBytesCodecTraits + Sync, X: ArrayToBytesCodecTraits + Sync>(
    rt: &R,
    alloc: Global,
    codec: &ShardingCodec<I, X>,
    name: &str,
    rest: &str,
) -> Result<String> {
    let (array, rest) = array_in(alloc, rest)?;
    if name == "index" {
        return index(alloc, codec, &array, rest);
    }
    let (value, steps) = cut(rest)?;
    let mut source = counting_in(alloc, value)?;
    let all = taken(rt, alloc, codec, &array, &mut source, steps)?;
    told(alloc, all.as_str(), &source)
}

/// What steps gave, and what the source was asked for.
fn told(alloc: Global, all: &str, source: &CountingSource) -> Result<String> {
    let bytes = counted(alloc, source.given, "byte")?;
    let calls = counted(alloc, source.reads, "call")?;
    Ok(format!(in alloc; "{all} of {bytes} by {calls}")?)
}

/// What steps give over the shard of an array.
fn taken<R: Threads + Sync, I: ArrayToBytesCodecTraits + Sync, X: ArrayToBytesCodecTraits + Sync>(
    rt: &R,
    alloc: Global,
    codec: &ShardingCodec<I, X>,
    array: &Array,
    source: &mut CountingSource,
    steps: &str,
) -> Result<String> {
    let (elements, shape) = (&array.elements, array.shape.as_slice());
    let whole = WholeArray { elements, shape };
    match ShardingPartialDecoder::new(alloc, codec, source, whole) {
        Ok(decoder) => taken_by(rt, alloc, decoder, array, steps),
        Err(error) => refused(alloc, &error),
    }
}

fn taken_by<
    R: Threads + Sync,
    I: ArrayToBytesCodecTraits + Sync,
    X: ArrayToBytesCodecTraits + Sync,
>(
    rt: &R,
    alloc: Global,
    decoder: ShardingPartialDecoder<'_, I, X, CountingSource>,
    array: &Array,
    steps: &str,
) -> Result<String> {
    let mut decoding = Decoding { decoder, array };
    decoding.take_all(rt, alloc, steps)
}

impl<I: ArrayToBytesCodecTraits + Sync, X: ArrayToBytesCodecTraits + Sync> Decoding<'_, I, X> {
    /// What steps give, with a space between them.
    fn take_all<R: Threads + Sync>(
        &mut self,
        rt: &R,
        alloc: Global,
        steps: &str,
    ) -> Result<String> {
        let mut all = String::new(alloc);
        let mut before = none_taken(alloc);
        for step in steps.split(" | ") {
            let given = self.take_at_last(rt, alloc, step, &before)?;
            push_word(&mut all, given.as_str())?;
            before = Taken { step, given };
        }
        Ok(all)
    }

    /// What a step gives, which is taken once more where memory ran out. A read right before it
    /// still gives then what it gave.
    fn take_at_last<R: Threads + Sync>(
        &mut self,
        rt: &R,
        alloc: Global,
        step: &str,
        before: &Taken<'_>,
    ) -> Result<String> {
        let given = self.take(rt, alloc, step)?;
        if !lacks_memory(given.as_str()) {
            return Ok(given);
        }
        if is_read(before.step) {
            stays(before, self.take(rt, alloc, before.step)?.as_str())?;
        }
        self.take(rt, alloc, step)
    }

    /// Takes `read PLACES`, `into PLACES = BYTES`, `slice SUBCHUNK`, `range SUBCHUNK` or `held`.
    fn take<R: Threads + Sync>(&mut self, rt: &R, alloc: Global, step: &str) -> Result<String> {
        match step.split_once(' ') {
            None => self.held(alloc),
            Some(("read", places)) => self.read(rt, alloc, places),
            Some(("into", rest)) => self.put_over(rt, alloc, rest),
            Some(("slice", subchunk)) => self.slice(alloc, subchunk),
            Some((_range, subchunk)) => self.range(alloc, subchunk),
        }
    }

    /// Whether there is a value, and how many bytes are kept of it.
    fn held(&self, alloc: Global) -> Result<String> {
        let bytes = self.decoder.size_held();
        let there = if self.decoder.exists() { "a" } else { "no" };
        Ok(format!(in alloc; "{there} value and {bytes} bytes kept")?)
    }

    fn read<R: Threads + Sync>(&mut self, rt: &R, alloc: Global, places: &str) -> Result<String> {
        let (places, array) = (places_in(alloc, places)?, self.array);
        match self
            .decoder
            .partial_decode(rt, alloc, places.indexer(), &array.options)
        {
            Ok(cells) => json(alloc, array.elements.data_type(), &cells),
            Err(error) => refused(alloc, &error),
        }
    }

    /// Some bytes once cells of a byte each are put over all but the first and the last of them.
    fn put_over<R: Threads + Sync>(&mut self, rt: &R, alloc: Global, rest: &str) -> Result<String> {
        let (places, bytes) = rest.split_once(" = ").context("a target has no bytes")?;
        let (places, mut bytes) = (places_in(alloc, places)?, bytes_in(alloc, bytes)?);
        let shape = [bytes.len() as u64];
        let region = ArraySubset::new_with_ranges(alloc, &[1..shape[0].saturating_sub(1)])?;
        let mut target = TargetBytes {
            bytes: bytes.as_mut_slice(),
            shape: &shape,
            region: &region,
            width: 1,
        };
        let (asked, options) = (places.indexer(), &self.array.options);
        let done = self
            .decoder
            .partial_decode_into(rt, alloc, asked, &mut target, options);
        put_or_not(alloc, bytes.as_slice(), done)
    }

    /// The encoded bytes of a subchunk.
    fn slice(&mut self, alloc: Global, subchunk: &str) -> Result<String> {
        let subchunk = numbers_in(alloc, subchunk)?;
        match self
            .decoder
            .retrieve_subchunk_encoded(alloc, subchunk.as_slice())
        {
            Ok(Some(bytes)) => digits(alloc, bytes.as_slice()),
            Ok(None) => word(alloc, "none"),
            Err(error) => refused(alloc, &error),
        }
    }

    /// Where these stand.
    fn range(&self, alloc: Global, subchunk: &str) -> Result<String> {
        let subchunk = numbers_in(alloc, subchunk)?;
        match self.decoder.subchunk_byte_range(subchunk.as_slice()) {
            Ok(found) => text_of(alloc, found),
            Err(error) => refused(alloc, &error),
        }
    }
}

/// The range of a subchunk that is there, by its offset and its length.
fn text_of(alloc: Global, range: Option<ByteRange>) -> Result<String> {
    match range {
        Some(ByteRange { offset, length }) => Ok(format!(in alloc; "{offset}+{length}")?),
        None => word(alloc, "none"),
    }
}

/// The pairs of the index of a value.
fn index<I: ArrayToBytesCodecTraits, X: ArrayToBytesCodecTraits>(
    alloc: Global,
    codec: &ShardingCodec<I, X>,
    array: &Array,
    value: &str,
) -> Result<String> {
    let value = bytes_in(alloc, value)?;
    let (data_type, shape) = (array.elements.data_type(), array.shape.as_slice());
    match codec.decode_index(alloc, value.as_slice(), data_type, shape) {
        Ok(index) => pairs(alloc, &index),
        Err(error) => refused(alloc, &error),
    }
}

fn pairs(alloc: Global, index: &ShardIndex) -> Result<String> {
    let mut all = String::new(alloc);
    for number in 0..index.len() {
        let pair = text_of(alloc, Some(index.get(number)))?;
        push_word(&mut all, pair.as_str())?;
    }
    Ok(all)
}
