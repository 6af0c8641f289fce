//! The sections of what `vlen` and `optional` write: an index of offsets or a mask, and the data.
#![tactic(auto)]

pub mod choosing;
pub mod content;
pub mod index;
pub mod laws;
pub mod masks;
pub mod offsets;
pub mod sections;
pub mod splitting;
pub mod spreading;
mod words;
pub mod zero;

pub use choosing::choose_elements;
pub use content::{cut_elements, joined_bytes};
pub use index::{VlenIndexDataType, VlenIndexLocation};
pub use masks::{count_ones, marks_of, spread_marks};
pub use offsets::{last_offset, offset_elements, read_offsets};
pub use sections::{Sections, join_index, join_mask, split_index, split_mask};
pub use splitting::{SplitOptions, split_chosen, split_options};
pub use spreading::{mask_elements, spread_elements};
pub use zero::zero_filled;
