//! The codec `bytes`.
#![tactic(auto)]

pub mod bytes;
mod fetching;
mod lines;
mod listed;
mod metadata;
mod numbers;
pub mod part;
mod partial;
mod patches;
mod reading;
mod sizes;
mod swapping;
mod writing;

pub use bytes::{BytesCodec, BytesCodecConfiguration, Endianness};
