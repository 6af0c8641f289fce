//! The chunk key encoding of a document.
ghost use Rattle.std.specs.Prelude.{◌≡◌, ◌≢◌, IfOk, IfErr};
ghost use Rattle.std.specs.Option.{ok_or};
ghost use Rattle.serde_json.specs.View.{view};
ghost use Rattle.zarr_grids_keys.specs.Encodings.{keys_of};
ghost use Rattle.zarr_grids_keys.specs.EncodingMetadata.{keys_in};

use serde_json::Value;
use std::alloc::Global;
use zarr_array_meaning::DocumentError;
use zarr_grids_keys::ChunkKeyEncoding;
use zarr_grids_metadata::{MetadataV3, PluginCreateError};

/// The chunk key encoding; `ChunkKeyEncoding` where it is none that is known.
pub fn keys_in(alloc: Global, value: &Value) -> Result<ChunkKeyEncoding, DocumentError>
    ensures ok { IfOk result (λ keys.
        ok_or (keys_in (view value.now)) DocumentError.ChunkKeyEncoding ≡ Ok (keys_of keys)) }
    ensures err { IfErr result (λ e. e ≢ DocumentError.Memory
        → ok_or (keys_in (view value.now)) DocumentError.ChunkKeyEncoding ≡ Err e) }
{
    let Some(metadata) = MetadataV3::from_value(alloc, value)? else {
        return Err(DocumentError::ChunkKeyEncoding);
    };
    match ChunkKeyEncoding::from_metadata(alloc, &metadata) {
        Ok(keys) => Ok(keys),
        Err(PluginCreateError::Memory) => Err(DocumentError::Memory),
        Err(_) => Err(DocumentError::ChunkKeyEncoding),
    }
}
