//! Regions with their chunks, and with elements for them.
use zarr_codecs_arrays::ArrayBytes;
use zarr_grids_boxes::ArraySubset;

/// A region of an array's places, and the box of the chunks that it intersects, as
/// `chunks_intersecting` of the crate `zarr_grids_cover` gives it.
#[derive(Clone, Copy, Debug)]
pub struct RegionChunks<'a> {
    pub region: &'a ArraySubset,
    pub chunks: &'a ArraySubset,
}

/// Elements for the places of a region, row-major, and the box of the chunks that it intersects.
#[derive(Clone, Copy, Debug)]
pub struct RegionBytes<'a> {
    pub region: &'a ArraySubset,
    pub chunks: &'a ArraySubset,
    pub bytes: &'a ArrayBytes,
}
