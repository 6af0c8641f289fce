//! JSON metadata as Zarr documents use it: trees, members and extension points.
#![tactic(auto)]

mod equality;
pub mod error;
pub mod extension_point;
pub mod laws;
pub mod members;
pub mod metadata;
pub mod trees;

pub use error::PluginCreateError;
pub use extension_point::{Configuration, ExtensionPoint, must_understand_field, written_point};
pub use members::{has_only, member};
pub use metadata::MetadataV3;
pub use trees::{has_float, is_deeper, same_tree};
