//! Elements put together subchunk by subchunk, and the subchunks that places lie in.
#![tactic(auto)]

pub mod boxed;
pub mod groups;
pub mod locating;
pub mod placed;

pub use boxed::BoxedElements;
pub use groups::{insides_of, leading_group, positions_of};
pub use locating::{AskedPlace, places_by_subchunk};
pub use placed::PlacedElements;
