//! Array documents: what a JSON tree says of an array.
#![tactic(auto)]

mod codecs;
pub mod document;
mod reading;

pub use document::ArrayDocument;
pub use reading::read_document;
pub use zarr_array_fields::written_document;
pub use zarr_array_meaning::DocumentError;
