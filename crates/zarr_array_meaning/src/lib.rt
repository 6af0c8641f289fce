//! What array documents say, what a store holds, and which cells of an array it stands for:
//! definitions and their laws.
#![tactic(auto)]

pub mod error;
pub mod laws;
pub mod versions;

pub use error::DocumentError;
pub use versions::{MetadataEraseVersion, MetadataRetrieveVersion};
