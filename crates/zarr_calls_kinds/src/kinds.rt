//! Calls by their names.
use crate::{arrays, elements, parts, shapes, sources, telling, types};
use anyhow::{Result, bail};
use std::alloc::Global;
use std::marker::Sync;
use std::thread::Threads;
use zarr_codecs_traits::ArrayToBytesCodecTraits;

/// What a call of types, elements, shapes or sources gives, or `None` where the name is that of no
/// such call.
pub fn answer(alloc: Global, name: &str, rest: &str) -> Option<Result<String>> {
    if let Some(answer) = types::answer(alloc, name, rest) {
        return Some(answer);
    }
    if let Some(answer) = elements::answer(alloc, name, rest) {
        return Some(answer);
    }
    if let Some(answer) = shapes::answer(alloc, name, rest) {
        return Some(answer);
    }
    sources::answer(alloc, name, rest)
}

/// What a call of a chain gives, whose other arguments are `rest`.
pub fn answer_of_chain<R: Threads + Sync, C: ArrayToBytesCodecTraits + Sync>(
    rt: &R,
    alloc: Global,
    chain: &C,
    name: &str,
    rest: &str,
) -> Result<String> {
    if let Some(answer) = telling::answer(alloc, chain, name, rest) {
        return answer;
    }
    // Elements go through a copy, so each such call shows that a copy answers alike.
    let copy = chain.try_clone(alloc)?;
    if let Some(answer) = arrays::answer(rt, alloc, &copy, name, rest) {
        return answer;
    }
    if let Some(answer) = parts::answer(rt, alloc, &copy, name, rest) {
        return answer;
    }
    bail!("there is no such call: {name}")
}
