//! Arrays opened from the trees of their documents.
ghost use Rattle.std.specs.Prelude.{◌≡◌, IsTrue, IfOk, IfErr, Ok};
ghost use Rattle.serde_json.specs.View.{view};
ghost use Rattle.zarr_grids_keys.specs.Paths.{is_node_path};
ghost use Rattle.zarr_sharding_chains.specs.ArrayChains.{array_meaning};
ghost use Rattle.zarr_array_core.specs.Views.{path_of, document_of};
ghost use Rattle.zarr_array_meaning.specs.Documents.{read_document};
ghost use Rattle.zarr_run_opening.specs.Calls.{DocumentRefused};
ghost use Rattle.zarr_run_opening.specs.Sessions.{FollowsOrder};

use crate::write_order::set_write_order;
use serde_json::Value;
use std::alloc::{AllocError, Global};
use zarr_array_core::ArrayCore;
use zarr_array_meaning::DocumentError;
use zarr_array_metadata::{ArrayDocument, read_document};
use zarr_codecs_options::SubchunkWriteOrder;
use zarr_codecs_traits::BytesToBytesCodecTraits;
use zarr_grids_keys::NodePath;
use zarr_run_meaning::Cause;
use zarr_sharding_chains::ArrayChain;

/// The array at a path whose document is a tree, with the write order for its shards at every
/// depth. `Document` where it cannot be opened.
pub(crate) fn open_tree<B: BytesToBytesCodecTraits>(
    alloc: Global,
    path: &str,
    tree: &Value,
    order: SubchunkWriteOrder,
) -> Result<ArrayCore<ArrayChain<B>>, Cause>
    requires { IsTrue (is_node_path path.now) }
    ensures path { IfOk result (λ array. path_of array ≡ path.now) }
    ensures says { IfOk result (λ array. read_document B.reads (view tree.now)
        ≡ Ok (document_of (array_meaning B.meaning) array)) }
    ensures exact { IfOk result (FollowsOrder B.meaning order) }
    ensures err { IfErr result (DocumentRefused B.reads (view tree.now)) }
{
    let document = match read_document(alloc, tree) {
        Ok(document) => document,
        Err(DocumentError::Memory) => return Err(Cause::Memory),
        Err(_) => return Err(Cause::Document),
    };
    let Ok(at) = node_path(alloc, path) else {
        return Err(Cause::Memory);
    };
    let ArrayDocument {
        grid,
        keys,
        elements,
        codecs,
    } = document;
    let mut array = ArrayCore::new(at, grid, keys, elements, codecs);
    set_write_order(alloc, &mut array, order);
    Ok(array)
}

/// A node path, in memory of its own.
fn node_path(alloc: Global, path: &str) -> Result<NodePath, AllocError>
    requires { IsTrue (is_node_path path.now) }
    ensures { IfOk result (λ copy. copy ≡ path.now) }
{
    let text = String::from_str(alloc, path)?;
    match NodePath::new(text) {
        Ok(copy) => Ok(copy),
        Err(_) => unreachable!(),
    }
}
