//! The chains that arrays have.
use anyhow::Result;
use std::alloc::Global;
use std::marker::Sync;
use std::thread::Threads;
use zarr_calls_grids::words::{cut, metadatas_in, refused, texts_of};
use zarr_calls_kinds::{TestCodec, answer_of_chain};
use zarr_sharding_chains::ArrayChain;

/// What a call of a chain gives. Its first argument is the metadata of the chain's codecs.
pub(crate) fn answer<R: Threads + Sync>(
    rt: &R,
    alloc: Global,
    name: &str,
    rest: &str,
) -> Result<String> {
    if name == "chain" {
        return written(alloc, rest);
    }
    let (codecs, rest) = cut(rest)?;
    let chain = chain_in(alloc, codecs)?;
    match name {
        "state" => zarr_calls_states::answer(rt, alloc, &chain, rest),
        "decoder" | "index" => zarr_calls_decoders::answer(rt, alloc, &chain, name, rest),
        _ => answer_of_chain(rt, alloc, &chain, name, rest),
    }
}

/// The chain of a JSON list of codecs.
fn chain_in(alloc: Global, text: &str) -> Result<ArrayChain<TestCodec>> {
    let metadatas = metadatas_in(alloc, text)?;
    Ok(ArrayChain::from_metadata(alloc, metadatas.as_slice())?)
}

/// The metadata of a chain, as one text for each codec.
fn written(alloc: Global, rest: &str) -> Result<String> {
    let metadatas = metadatas_in(alloc, rest)?;
    match ArrayChain::<TestCodec>::from_metadata(alloc, metadatas.as_slice()) {
        Ok(chain) => texts_of(alloc, chain.create_metadatas(alloc)?.as_slice()),
        Err(error) => refused(alloc, &error),
    }
}
