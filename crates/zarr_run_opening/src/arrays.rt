//! The arrays that are held, by their paths.
ghost use Rattle.std.specs.Prelude.{◌≡◌, ◌++◌, false, IsTrue, Some, None, IfOk, OnOk, OnErr, option_copied, string_bytes};
ghost use Rattle.zarr_grids_keys.specs.Paths.{is_node_path};
ghost use Rattle.zarr_run_opening.specs.Arrays.{IsTakenIn, IsFreeIn, IsFreeAbove, IsFreeUnder, IsReorderedAt, KeepsArrays, KeepsOtherArrays};
ghost use Rattle.zarr_run_opening.specs.Sessions.{array_at};
ghost use Rattle.zarr_run_opening.specs.declared.held.HeldArray.{HeldArray};

use crate::held::HeldArray;
use crate::write_order::set_write_order;
use std::alloc::{AllocError, Global};
use std::collections::BTreeMap;
use zarr_codecs_options::SubchunkWriteOrder;
use zarr_codecs_traits::BytesToBytesCodecTraits;
use zarr_grids_keys::parent_path;

/// The array that is held at a path.
pub(crate) fn find<'a, B: BytesToBytesCodecTraits>(
    arrays: &'a BTreeMap<String, HeldArray<B>>,
    path: &str,
) -> Option<&'a HeldArray<B>>
    ensures { option_copied result ≡ array_at arrays.now path.now }
{
    arrays.get(path)
}

/// Whether an array is held at a path, above it or under it. The paths above are looked up one by
/// one, and those under it are one range of the map.
pub(crate) fn is_path_taken<B: BytesToBytesCodecTraits>(
    alloc: Global,
    arrays: &BTreeMap<String, HeldArray<B>>,
    path: &str,
) -> Result<bool, AllocError>
    requires { IsTrue (is_node_path path.now) }
    ensures taken { IfOk result (λ taken. IsTrue taken → IsTakenIn arrays.now path.now) }
    ensures free { IfOk result (λ taken. taken ≡ false → IsFreeIn arrays.now path.now) }
{
    if arrays.contains_key(path) {
        return Ok(true);
    }
    if is_taken_above(arrays, path) {
        return Ok(true);
    }
    is_taken_under(alloc, arrays, path)
}

/// Whether an array is held above a path.
fn is_taken_above<B: BytesToBytesCodecTraits>(
    arrays: &BTreeMap<String, HeldArray<B>>,
    path: &str,
) -> bool
    requires { IsTrue (is_node_path path.now) }
    ensures taken { IsTrue result → IsTakenIn arrays.now path.now }
    ensures free { result ≡ false → IsFreeAbove arrays.now path.now }
{
    let mut lower = path;
    while let Some(parent) = parent_path(lower) {
        if arrays.contains_key(parent) {
            return true;
        }
        lower = parent;
    }
    false
}

/// Whether an array is held under a path. Under `/` each array counts, also one that is held
/// there.
fn is_taken_under<B: BytesToBytesCodecTraits>(
    alloc: Global,
    arrays: &BTreeMap<String, HeldArray<B>>,
    path: &str,
) -> Result<bool, AllocError>
    ensures taken { IfOk result (λ taken. IsTrue taken → IsTakenIn arrays.now path.now) }
    ensures free { IfOk result (λ taken. taken ≡ false → IsFreeUnder arrays.now path.now) }
{
    if path == "/" {
        return Ok(!arrays.is_empty());
    }
    let first = with_end(alloc, path, "/")?;
    let end = with_end(alloc, path, "0")?;
    Ok(arrays.range(first..end).next().is_some())
}

/// A path with something after it.
fn with_end(alloc: Global, path: &str, end: &str) -> Result<String, AllocError>
    ensures { IfOk result (λ text. string_bytes text ≡ path.now ++ end.now) }
{
    let mut text = String::with_capacity(alloc, path.len().saturating_add(end.len()))?;
    text.push_str(path)?;
    text.push_str(end)?;
    Ok(text)
}

/// Holds an array at a path, in place of the one that was held there.
pub(crate) fn hold<B: BytesToBytesCodecTraits>(
    arrays: &mut BTreeMap<String, HeldArray<B>>,
    path: String,
    array: HeldArray<B>,
) -> Result<(), AllocError>
    ensures held { OnOk result (array_at arrays.new (string_bytes path) ≡ Some array) }
    ensures others { OnOk result (KeepsOtherArrays (string_bytes path) arrays.old arrays.new) }
    ensures err { OnErr result (KeepsArrays arrays.old arrays.new) }
{
    match arrays.insert(path, array) {
        Ok(_) => Ok(()),
        Err(_) => Err(AllocError),
    }
}

/// Holds no array at a path any more. It needs no memory.
pub(crate) fn release<B: BytesToBytesCodecTraits>(
    arrays: &mut BTreeMap<String, HeldArray<B>>,
    path: &str,
)
    ensures gone { array_at arrays.new path.now ≡ None }
    ensures others { KeepsOtherArrays path.now arrays.old arrays.new }
{
    let _ = arrays.remove(path);
}

/// Gives the array at a path, if there is one, another write order. It needs no memory.
pub(crate) fn set_order<B: BytesToBytesCodecTraits>(
    alloc: Global,
    arrays: &mut BTreeMap<String, HeldArray<B>>,
    path: &str,
    order: SubchunkWriteOrder,
)
    ensures ordered { (array : HeldArray B) → array_at arrays.old path.now ≡ Some array
        → IsReorderedAt B.meaning order array arrays.new path.now }
    ensures others { KeepsOtherArrays path.now arrays.old arrays.new }
{
    if let Some(array) = arrays.get_mut(path) {
        array.order = order;
        set_write_order(alloc, &mut array.core, order);
    }
}
