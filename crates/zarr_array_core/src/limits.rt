//! Whether a chunk has too many elements to be read or written.
use crate::array_core::ArrayCore;
use zarr_codecs_traits::ArrayToBytesCodecTraits;
use zarr_grids_boxes::walk::count_places;

impl<C: ArrayToBytesCodecTraits> ArrayCore<C> {
    ghost use Rattle.std.specs.Prelude.{◌≤◌, ◌↔◌, ℕ, IsTrue};
    ghost use Rattle.zarr_grids_boxes.specs.Boxes.{product};
    ghost use Rattle.zarr_codecs_meaning.specs.Types.{IsTooLarge};
    ghost use Rattle.zarr_array_core.specs.Views.{document_of};

    /// The least number of the array's elements that are too many: 2^63, or as many as have 2^63
    /// bytes.
    pub fn cell_limit(&self) -> u64
        ensures { (count : ℕ) → (result ≤ count
            ↔ IsTooLarge (document_of C.meaning self.now).elements.type count) }
    {
        self.elements().limit()
    }

    /// Whether a chunk with this shape has that many.
    pub(crate) fn is_too_large(&self, shape: &[u64]) -> bool
        ensures { IsTrue result
            ↔ IsTooLarge (document_of C.meaning self.now).elements.type (product shape.now) }
    {
        match count_places(shape) {
            Some(count) => self.cell_limit() <= count,
            None => true,
        }
    }
}
