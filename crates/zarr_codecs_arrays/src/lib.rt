//! Elements as calls take and give them, what they fill with, and why a codec refuses.
#![tactic(auto)]

pub mod array_bytes;
pub mod concat;
mod counting;
pub mod elements;
pub mod error;
mod filling;
mod fills;
mod fixed;
mod limits;
pub mod offsets;
mod values;

pub use array_bytes::ArrayBytes;
pub use concat::concat_elements;
pub use elements::Elements;
pub use error::CodecError;
pub use fixed::takes_all_bytes;
pub use offsets::ArrayBytesOffsets;
