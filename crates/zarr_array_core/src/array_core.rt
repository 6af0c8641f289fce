//! An array without its store.
use std::mem::replace;
use zarr_codecs_arrays::Elements;
use zarr_codecs_traits::ArrayToBytesCodecTraits;
use zarr_grids_chunk_grids::ChunkGrid;
use zarr_grids_keys::{ChunkKeyEncoding, NodePath};

/// An array without its store: where it stands, how its chunks lie and how their keys are made,
/// what its elements are, and the codecs that store them.
#[derive(Debug, Drop)]
pub struct ArrayCore<C> {
    pub(crate) path: NodePath,
    pub(crate) grid: ChunkGrid,
    pub(crate) keys: ChunkKeyEncoding,
    pub(crate) elements: Elements,
    pub(crate) codecs: C,
}

impl<C: ArrayToBytesCodecTraits> ArrayCore<C> {
    ghost use Rattle.std.specs.Prelude.{◌≡◌};
    ghost use Rattle.zarr_grids_chunk_grids.specs.Grids.{grid_of_chunks, sizes_of_grid};
    ghost use Rattle.zarr_grids_keys.specs.Encodings.{keys_of};
    ghost use Rattle.zarr_codecs_arrays.specs.Views.{elements_of};
    ghost use Rattle.zarr_array_core.specs.Views.{codecs_of, document_of, path_of};

    /// The array at a path.
    pub fn new(
        path: NodePath,
        grid: ChunkGrid,
        keys: ChunkKeyEncoding,
        elements: Elements,
        codecs: C,
    ) -> Self
        ensures says { document_of C.meaning result ≡ record {
          shape = sizes_of_grid grid;
          elements = elements_of elements;
          grid = grid_of_chunks grid;
          keys = keys_of keys;
          chain = C.meaning codecs;
        } }
        ensures path { path_of result ≡ path }
    {
        ArrayCore {
            path,
            grid,
            keys,
            elements,
            codecs,
        }
    }

    /// The path of the array's node.
    pub fn path(&self) -> &NodePath
        ensures { result.now ≡ path_of self.now }
    {
        &self.path
    }

    /// How the array's chunks lie.
    pub fn grid(&self) -> &ChunkGrid
        ensures grid { grid_of_chunks result.now ≡ (document_of C.meaning self.now).grid }
        ensures shape { sizes_of_grid result.now ≡ (document_of C.meaning self.now).shape }
    {
        &self.grid
    }

    /// How the keys of the array's chunks are made.
    pub fn keys(&self) -> &ChunkKeyEncoding
        ensures { keys_of result.now ≡ (document_of C.meaning self.now).keys }
    {
        &self.keys
    }

    /// What the array's elements are.
    pub fn elements(&self) -> &Elements
        ensures { elements_of result.now ≡ (document_of C.meaning self.now).elements }
    {
        &self.elements
    }

    /// The codecs that store the array's chunks.
    pub fn codecs(&self) -> &C
        ensures { C.meaning result.now ≡ (document_of C.meaning self.now).chain }
    {
        &self.codecs
    }

    /// Puts other codecs in the place of the array's, and gives the old ones.
    pub fn replace_codecs(&mut self, codecs: C) -> C
        ensures codecs { codecs_of self.new ≡ codecs }
        ensures old { result ≡ codecs_of self.old }
        ensures path { path_of self.new ≡ path_of self.old }
        ensures says { document_of C.meaning self.new
            ≡ record (document_of C.meaning self.old) { chain = C.meaning codecs } }
    {
        replace(&mut self.codecs, codecs)
    }
}
