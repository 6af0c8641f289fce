//! Cells of one box put over those of another, as bytes.
#![tactic(auto)]

pub mod extents;
pub mod fill;
pub mod stretches;

pub use extents::Extent;
pub use fill::is_all;
pub use stretches::overlay;
