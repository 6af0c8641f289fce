//! Memory that is kept from one chunk to the next.
use std::alloc::Global;
use std::mem::replace;
use zarr_grids_boxes::ArraySubset;

/// The memory that chunks' indices and boxes take while boxes of arrays are read and written. It is
/// kept from call to call, and what it holds between them says nothing.
#[derive(Drop)]
pub struct ChunkRooms {
    alloc: Global,
    indices: Vec<u64>,
    own: ArraySubset,
    shared: ArraySubset,
}

impl ChunkRooms {
    /// Rooms that take no memory yet. Later they take it of `alloc`, and so does all that is made
    /// over them.
    pub fn new(alloc: Global) -> ChunkRooms {
        ChunkRooms {
            alloc,
            indices: Vec::new(alloc),
            own: no_dimensions(alloc),
            shared: no_dimensions(alloc),
        }
    }

    /// What memory is taken of.
    pub fn alloc(&self) -> Global {
        self.alloc
    }

    /// Takes the room for a chunk's indices.
    pub(crate) fn take_indices(&mut self) -> Vec<u64> {
        replace(&mut self.indices, Vec::new(self.alloc))
    }

    /// Takes the room for a chunk's box.
    pub(crate) fn take_own(&mut self) -> ArraySubset {
        replace(&mut self.own, no_dimensions(self.alloc))
    }

    /// Takes the room for the box that a chunk shares with another one.
    pub(crate) fn take_shared(&mut self) -> ArraySubset {
        replace(&mut self.shared, no_dimensions(self.alloc))
    }

    /// Gives the room for a chunk's indices back.
    pub(crate) fn keep_indices(&mut self, indices: Vec<u64>) {
        self.indices = indices;
    }

    /// Gives the room for a chunk's box back.
    pub(crate) fn keep_own(&mut self, own: ArraySubset) {
        self.own = own;
    }

    /// Gives the room for the box that a chunk shares with another one back.
    pub(crate) fn keep_shared(&mut self, shared: ArraySubset) {
        self.shared = shared;
    }
}

/// A box without dimensions, which takes no memory.
fn no_dimensions(alloc: Global) -> ArraySubset {
    ArraySubset {
        start: Vec::new(alloc),
        shape: Vec::new(alloc),
    }
}
