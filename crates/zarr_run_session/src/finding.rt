//! The array that a command names.
ghost use Rattle.std.specs.Prelude.{IfOk, IfErr};
ghost use Rattle.zarr_run_session.specs.Finding.{IsFound, NotFound};

use std::collections::BTreeMap;
use zarr_codecs_traits::BytesToBytesCodecTraits;
use zarr_grids_keys::is_node_path;
use zarr_run_meaning::Cause;
use zarr_run_opening::HeldArray;

/// The array that is held at a path: `Path` where the text is no node path, `NoArray` where none is
/// held there.
pub(crate) fn find<'a, B: BytesToBytesCodecTraits>(
    arrays: &'a BTreeMap<String, HeldArray<B>>,
    path: &str,
) -> Result<&'a HeldArray<B>, Cause>
    ensures ok { IfOk result (λ array. IsFound arrays.now path.now array.now) }
    ensures err { IfErr result (NotFound arrays.now path.now) }
{
    if !is_node_path(path) {
        return Err(Cause::Path);
    }
    match arrays.get(path) {
        Some(array) => Ok(array),
        None => Err(Cause::NoArray),
    }
}
