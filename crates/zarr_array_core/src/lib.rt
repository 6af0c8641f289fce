//! Boxes of one array read from a store and written to it, chunk by chunk, whatever the codecs;
//! chunks compacted, and all of them stored anew.
#![tactic(auto)]

pub mod array_core;
pub mod chunk;
mod chunk_reading;
mod chunk_value;
mod chunk_writing;
pub mod compacting;
pub mod erasing;
pub mod error;
mod fetching;
mod holding;
mod into_shard;
pub mod limits;
mod moving;
mod part_putting;
mod part_writing;
mod plain_bytes;
pub mod reading;
pub mod region_chunks;
pub mod rewriting;
pub mod rooms;
pub mod store_calls;
mod store_source;
mod store_target;
pub mod writing;

pub use array_core::ArrayCore;
pub use error::{ChunkError, ManyError};
pub use region_chunks::{RegionBytes, RegionChunks};
pub use rooms::ChunkRooms;
