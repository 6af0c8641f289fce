//! The codecs that a document says.
ghost use Rattle.std.specs.Prelude.{◌≡◌, ◌≢◌, IfOk, IfErr, Ok, Err};
ghost use Rattle.std.specs.Option.{ok_or};
ghost use Rattle.serde_json.specs.View.{view};
ghost use Rattle.zarr_sharding_chains.specs.ArrayChains.{array_meaning};
ghost use Rattle.zarr_array_meaning.specs.Parts.{codecs_in};

use serde_json::Value;
use std::alloc::Global;
use zarr_array_fields::parts::points_in;
use zarr_array_meaning::DocumentError;
use zarr_codecs_traits::BytesToBytesCodecTraits;
use zarr_grids_metadata::PluginCreateError;
use zarr_sharding_chains::{ArrayChain, read_array_chain};

/// The codecs; `Codecs` where they make no chain that is known.
pub(crate) fn codecs_in<B: BytesToBytesCodecTraits>(
    alloc: Global,
    codecs: &Value,
) -> Result<ArrayChain<B>, DocumentError>
    ensures ok { IfOk result (λ chain. ok_or (codecs_in B.reads (view codecs.now))
        DocumentError.Codecs ≡ Ok (array_meaning B.meaning chain)) }
    ensures err { IfErr result (λ e. e ≢ DocumentError.Memory
        → ok_or (codecs_in B.reads (view codecs.now)) DocumentError.Codecs ≡ Err e) }
{
    let Some(codecs) = codecs.as_array() else {
        return Err(DocumentError::Codecs);
    };
    let Some(points) = points_in(alloc, codecs.as_slice())? else {
        return Err(DocumentError::Codecs);
    };
    match read_array_chain(alloc, points.as_slice()) {
        Ok(chain) => Ok(chain),
        Err(PluginCreateError::Memory) => Err(DocumentError::Memory),
        Err(_) => Err(DocumentError::Codecs),
    }
}
