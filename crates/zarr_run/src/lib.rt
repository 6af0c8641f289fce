//! Zarr arrays by commands: a session over a store, with commands and answers as values or as
//! lines.
#![tactic(auto)]

pub use zarr_array_storage::{
    ByteRange, CallKind, MemoryStore, ReadableStorageTraits, ReadableWritableStorageTraits,
    RefusingStore, StorageError, ValuePatch, WritableStorageTraits,
};
pub use zarr_codecs_arrays::{ArrayBytes, CodecError};
pub use zarr_codecs_options::{CodecOptions, SubchunkWriteOrder};
pub use zarr_codecs_reverse::ReverseCodec;
pub use zarr_codecs_traits::{BytesRepresentation, BytesToBytesCodecTraits};
pub use zarr_codecs_types::DataType;
pub use zarr_grids_boxes::ArraySubset;
pub use zarr_grids_keys::StoreKey;
pub use zarr_grids_metadata::{MetadataV3, PluginCreateError};
pub use zarr_run_commands::{
    Command, CommandCells, CommandReader, Reply, push_answer, read_command,
};
pub use zarr_run_lines::{LinesFault, run_lines};
pub use zarr_run_meaning::Cause;
pub use zarr_run_session::{GiveBack, Session, run, run_on};
