//! Whether a box of chunk indices has a chunk of a given size.
ghost use Rattle.std.specs.Prelude.{◌≡◌, ℕ, ◌↔◌, ◌+◌, ◌-◌, ◌^◌, ◌<◌, ◌≤◌, IsTrue, true, length, min, sum, slice_index, cond, ◌&&◌, nat_le, nat_lt};
ghost use Rattle.zarr_grids_boxes.specs.Boxes.{product, EndsFit};
ghost use Rattle.zarr_grids_boxes.specs.Subsets.{region_of};
ghost use Rattle.zarr_grids_chunks.specs.Grids.{AreInGrid};
ghost use Rattle.zarr_grids_dimensions.specs.Dimensions.{dimension_of, grid_of};
ghost use Rattle.zarr_grids_dimensions.specs.Lookups.{all_positive};
ghost use Rattle.zarr_grids_dimensions.specs.RepeatedEdges.{expanded, counts};
ghost use Rattle.zarr_grids_cover.specs.InGrid.{is_number_in_grid};
ghost use Rattle.zarr_grids_cover.specs.Sizes.{HasChunkOf, largest_edge, largest_edges};

use zarr_grids_boxes::ArraySubset;
use zarr_grids_boxes::walk::has_no_place;
use zarr_grids_dimensions::{Dimension, RepeatedEdge};

/// Whether one of the chunks in a box of chunk indices has at least `count` places. In a box
/// without a chunk none has.
pub fn has_chunk_of(grid: &[Dimension], chunks: &ArraySubset, count: u64) -> bool
    requires below { AreInGrid (grid_of grid.now) (region_of chunks.now) }
    ensures { IsTrue result ↔ HasChunkOf (grid_of grid.now) (region_of chunks.now) count }
{
    if has_no_place(&chunks.shape) {
        return false;
    }
    count <= most_places(grid, &chunks.start, &chunks.shape)
}

/// The most places that a chunk in a box of chunk indices has, or 2^64 - 1 if that is less. The box
/// is not empty.
fn most_places(grid: &[Dimension], start: &[u64], shape: &[u64]) -> u64
    requires below { AreInGrid (grid_of grid.now)
        (record { start = start.now; shape = shape.now }) }
    requires same { length shape.now ≡ length start.now }
    requires some { 0 < product shape.now }
    requires fit { EndsFit start.now shape.now }
    ensures { result
        ≡ min (product (largest_edges (grid_of grid.now) start.now shape.now)) (2 ^ 64 - 1) }
{
    let mut most: u64 = 1;
    for k in 0..grid.len() {
        most = most.saturating_mul(largest_edge(&grid[k], start[k], shape[k]));
    }
    most
}

/// The largest edge of `count` chunks of a dimension, from chunk `first` on.
fn largest_edge(dimension: &Dimension, first: u64, count: u64) -> u64
    requires some { 0 < count }
    requires fit { first + count < 2 ^ 64 }
    requires below { IsTrue (is_number_in_grid (dimension_of dimension.now) (first + (count - 1))) }
    ensures { result ≡ largest_edge (dimension_of dimension.now) first count }
{
    match dimension {
        Dimension::Regular(fixed) => fixed.edge,
        Dimension::Clipped(_) => dimension.count_of(first).unwrap_or(0),
        Dimension::Varying(edges) => largest_among(edges.repeats(), first, first + (count - 1)),
    }
}

/// The largest edge of the chunks from `first` to `last`, repeat by repeat.
fn largest_among(repeats: &[RepeatedEdge], first: u64, last: u64) -> u64
    requires few { sum (counts repeats.now) < 2 ^ 64 }
    requires counted { all_positive (counts repeats.now) ≡ true }
    requires order { first ≤ last }
    requires below { last < length (expanded repeats.now) }
    ensures largest { (k : ℕ) → first ≤ k → k ≤ last
        → slice_index (expanded repeats.now) k ≤ result }
    ensures among { (k : ℕ) × (first ≤ k) × (k ≤ last)
        × (slice_index (expanded repeats.now) k ≡ result) }
{
    let mut largest: u64 = 0;
    let mut next: u128 = 0;
    for j in 0..repeats.len() {
        let repeat = repeats[j];
        let end = next + repeat.count as u128;
        largest = largest.max(edge_among(repeat.edge, next, end, first, last));
        next = end;
    }
    largest
}

/// The edge of a repeat that has the chunks from `next` up to `end`, if one of them lies from
/// `first` to `last`, else 0.
fn edge_among(edge: u64, next: u128, end: u128, first: u64, last: u64) -> u64
    ensures { result ≡ cond (nat_le next last && nat_lt first end) edge 0 }
{
    if next <= last as u128 && (first as u128) < end {
        edge
    } else {
        0
    }
}
