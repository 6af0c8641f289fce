//! What chains tell of arrays.
use crate::types::type_in;
use anyhow::Result;
use std::alloc::Global;
use zarr_calls_grids::words::{cut, numbers_in, refused, truth};
use zarr_codecs_traits::ArrayToBytesCodecTraits;
use zarr_codecs_types::DataType;

/// What a call gives that a chain answers without any elements.
pub(crate) fn answer<C: ArrayToBytesCodecTraits>(
    alloc: Global,
    chain: &C,
    name: &str,
    rest: &str,
) -> Option<Result<String>> {
    match name {
        "fits" => Some(fits(alloc, chain, rest)),
        "size" => Some(size(alloc, chain, rest)),
        "parts" => Some(by_parts(alloc, chain, rest)),
        "unread" => Some(unread(alloc, chain, rest)),
        _ => None,
    }
}

/// Arrays that a chain is asked of.
#[derive(Drop)]
struct Asked {
    data_type: DataType,
    shape: Vec<u64>,
}

/// The type and the shape of two arguments.
fn asked_in(alloc: Global, rest: &str) -> Result<Asked> {
    let (data_type, shape) = cut(rest)?;
    let shape = numbers_in(alloc, shape)?;
    let data_type = type_in(alloc, data_type)?;
    Ok(Asked { data_type, shape })
}

/// Whether a chain fits arrays of a type and a shape.
fn fits<C: ArrayToBytesCodecTraits>(alloc: Global, chain: &C, rest: &str) -> Result<String> {
    let asked = asked_in(alloc, rest)?;
    let fit = chain.fits(alloc, &asked.data_type, asked.shape.as_slice())?;
    truth(alloc, fit)
}

/// What a chain tells of the size of the value of an array.
fn size<C: ArrayToBytesCodecTraits>(alloc: Global, chain: &C, rest: &str) -> Result<String> {
    let asked = asked_in(alloc, rest)?;
    let shape = asked.shape.as_slice();
    match chain.encoded_representation(alloc, &asked.data_type, shape) {
        Ok(told) => Ok(format!(in alloc; "{told:?}")?),
        Err(error) => refused(alloc, &error),
    }
}

/// Whether parts of an array are decoded and encoded as parts of its value, the shape of those, and
/// whether elements are encoded as they are.
fn by_parts<C: ArrayToBytesCodecTraits>(alloc: Global, chain: &C, rest: &str) -> Result<String> {
    let shape = numbers_in(alloc, rest)?;
    let part = chain.partial_decode_granularity(alloc, shape.as_slice())?;
    let part = part.as_slice();
    let decoder = chain.partial_decoder_capability();
    let encoder = chain.partial_encoder_capability();
    let as_is = chain.encodes_as_is();
    Ok(format!(in alloc; "decoded {decoder}, encoded {encoder}, by {part:?}, as is {as_is}")?)
}

/// Whether a chain writes elements of a type into values that it has not read.
fn unread<C: ArrayToBytesCodecTraits>(alloc: Global, chain: &C, rest: &str) -> Result<String> {
    let data_type = type_in(alloc, rest)?;
    truth(alloc, chain.takes_patches(&data_type))
}
