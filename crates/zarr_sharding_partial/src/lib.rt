//! Shards read and written in part: the shard that a lent source holds, of which the index is kept
//! and all else is read by its slices; and the shard of an array over a source of its own, a table
//! of cells, of which parts are written by appending to the shard.
#![tactic(auto)]

mod decoder_parts;
mod decoder_slices;
mod given_elements;
pub mod laws;
pub mod opened_decoder;
pub mod opened_index;
mod opened_state;
pub mod partial_decoder;
pub mod partial_encoder;
pub mod shard_state;
mod state_parts;
mod state_writes;

pub use opened_decoder::open_shard;
pub use opened_index::OpenedIndex;
pub use partial_decoder::ShardingPartialDecoder;
pub use partial_encoder::ShardingPartialEncoder;
pub use shard_state::ShardState;
