//! What an array asks of its grid: which chunks and boxes lie in the grid, where a chunk lies and
//! how large it is, and the chunks that a box of places intersects.
#![tactic(auto)]

pub mod boxed;
pub mod chunk;
pub mod in_grid;
pub mod intersecting;
pub mod laws;
pub mod sizes;

pub use boxed::chunks_in_grid;
pub use chunk::{chunk_box_into, chunk_region};
pub use in_grid::{are_in_grid, covers, is_in_grid};
pub use intersecting::chunks_intersecting;
pub use sizes::has_chunk_of;
