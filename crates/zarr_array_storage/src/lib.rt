//! Stores of bytes under keys: what a store promises, a store in memory, and a store that refuses
//! one call.
#![tactic(auto)]

pub mod error;
pub mod memory_store;
pub mod refusing_store;
pub mod storage_partial_decoder;
pub mod storage_partial_encoder;
pub mod traits;
mod value_map;

pub use error::StorageError;
pub use memory_store::MemoryStore;
pub use refusing_store::{CallKind, RefusingStore};
pub use storage_partial_decoder::StoragePartialDecoder;
pub use storage_partial_encoder::StoragePartialEncoder;
pub use traits::{ReadableStorageTraits, ReadableWritableStorageTraits, WritableStorageTraits};
pub use zarr_codecs_traits::{ByteRange, ValuePatch};
