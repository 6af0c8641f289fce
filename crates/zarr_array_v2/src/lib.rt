//! Array documents of Zarr version 2, as version 3 documents that say the same.
#![tactic(auto)]

mod attributes;
mod codecs;
mod conversion;
mod dtypes;
mod fields;
pub mod laws;
mod version;

pub use attributes::{attributes_of, with_attributes, without_attributes};
pub use conversion::to_v3;
pub use fields::Order;
pub use version::{has_version_2, is_version_2};
