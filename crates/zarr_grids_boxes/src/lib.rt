//! Boxes of places in arrays of any dimensionality, and walks over them.
#![tactic(auto)]

pub mod cutting;
pub mod ends;
pub mod indices;
pub mod laws;
pub mod linearised;
pub mod making;
pub mod ravel;
pub mod shapes;
pub mod subset;
pub mod walk;

pub use indices::Indices;
pub use linearised::LinearisedIndices;
pub use ravel::{ravel_indices, unravel_index};
pub use shapes::{
    ArrayIndices, ArrayShape, ChunkShape, ChunkShapeError, chunk_shape_to_array_shape,
};
pub use subset::{ArraySubset, ArraySubsetError};
