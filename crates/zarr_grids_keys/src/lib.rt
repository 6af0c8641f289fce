//! Node paths, the encodings of chunk keys and their metadata, and the store keys of chunks and
//! documents.
#![tactic(auto)]

pub mod default_configuration;
pub mod default_encoding;
pub mod default_suffix_configuration;
pub mod default_suffix_encoding;
pub mod document_name;
pub mod encoding;
mod from_json;
pub mod laws;
pub mod metadata_laws;
pub mod node_path;
mod numbers;
pub mod related;
pub mod separator;
pub mod store_key;
mod to_json;
pub mod v2_configuration;
pub mod v2_encoding;

pub use default_configuration::DefaultChunkKeyEncodingConfiguration;
pub use default_encoding::DefaultChunkKeyEncoding;
pub use default_suffix_configuration::DefaultSuffixChunkKeyEncodingConfiguration;
pub use default_suffix_encoding::{DefaultSuffixChunkKeyEncoding, SuffixEndsWithSlashError};
pub use document_name::DocumentName;
pub use encoding::{ChunkKeyEncoding, ChunkKeyEncodingTraits};
pub use node_path::{NodePath, NodePathError, is_node_path};
pub use related::{are_related, parent_path};
pub use separator::ChunkKeySeparator;
pub use store_key::{StoreKey, StoreKeyError, chunk_key, chunk_key_into, document_key};
pub use v2_configuration::V2ChunkKeyEncodingConfiguration;
pub use v2_encoding::V2ChunkKeyEncoding;
