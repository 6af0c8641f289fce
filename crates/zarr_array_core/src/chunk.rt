//! The key and the box of a chunk.
use crate::array_core::ArrayCore;
use std::alloc::{AllocError, Global};
use zarr_codecs_traits::ArrayToBytesCodecTraits;
use zarr_grids_boxes::ArraySubset;
use zarr_grids_chunk_grids::ChunkGridTraits;
use zarr_grids_cover::chunk_box_into;
use zarr_grids_keys::{StoreKey, chunk_key};

impl<C: ArrayToBytesCodecTraits> ArrayCore<C> {
    ghost use Rattle.std.specs.Prelude.{◌≡◌, IfOk};
    ghost use Rattle.zarr_grids_boxes.specs.Boxes.{Region};
    ghost use Rattle.zarr_grids_boxes.specs.Subsets.{region_of};
    ghost use Rattle.zarr_grids_chunks.specs.Grids.{IsInGrid};
    ghost use Rattle.zarr_grids_keys.specs.Keys.{chunk_key};
    ghost use Rattle.zarr_array_core.specs.Views.{document_of, path_of};

    /// The store key of a chunk.
    pub(crate) fn key_of(&self, alloc: Global, chunk: &[u64]) -> Result<StoreKey, AllocError>
        ensures { IfOk result (λ key. key ≡ chunk_key (path_of self.now)
            (document_of C.meaning self.now).keys chunk.now) }
    {
        let text = chunk_key(alloc, self.path().as_str(), self.keys(), chunk)?;
        match StoreKey::new(text) {
            Ok(key) => Ok(key),
            Err(_) => unreachable!(),
        }
    }

    /// The box of a chunk in the grid, in the memory of a box that is no longer needed.
    pub(crate) fn box_of(&self, room: ArraySubset, chunk: &[u64]) -> Result<ArraySubset, AllocError>
        requires below { (box : Region)
            × IsInGrid (document_of C.meaning self.now).grid chunk.now box }
        ensures { IfOk result (λ region.
            IsInGrid (document_of C.meaning self.now).grid chunk.now (region_of region)) }
    {
        let grid = self.grid().dimensions();
        let ArraySubset {
            mut start,
            mut shape,
        } = room;
        start.resize(grid.len(), 0)?;
        shape.resize(grid.len(), 0)?;
        chunk_box_into(grid, chunk, start.as_mut_slice(), shape.as_mut_slice());
        Ok(ArraySubset { start, shape })
    }
}
