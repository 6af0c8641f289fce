//! Options of calls that encode and decode, and the order in which a shard's subchunks are written.
#![tactic(auto)]

pub mod codec_metadata_options;
pub mod codec_options;
pub mod subchunk_write_order;

pub use codec_metadata_options::CodecMetadataOptions;
pub use codec_options::CodecOptions;
pub use subchunk_write_order::SubchunkWriteOrder;
