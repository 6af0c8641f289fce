//! What commands do to one array: boxes and chunks read and written, and chunks erased, compacted
//! and stored anew.
#![tactic(auto)]

pub mod cell_write;
pub mod compacting;
mod covered_reading;
mod covered_writing;
pub mod erasing;
pub mod reading;
pub mod refusal;
pub mod rewriting;
mod targets;
pub mod writing;

pub use cell_write::CellWrite;
pub use compacting::compact;
pub use erasing::erase_chunks;
pub use reading::{read_box, read_chunk};
pub use refusal::Refusal;
pub use rewriting::rewrite;
pub use writing::{write_box, write_chunk};
