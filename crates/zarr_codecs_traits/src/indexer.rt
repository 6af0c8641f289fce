//! Places of an array that a call asks for.
use zarr_grids_boxes::ArraySubset;

/// Places of an array: those of a box, row-major, or some by their row-major numbers, in any order.
#[derive(Clone, Copy)]
pub enum Indexer<'a> {
    Subset(&'a ArraySubset),
    List(&'a [u64]),
}
