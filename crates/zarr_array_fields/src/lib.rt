//! The fields of an array document: what each of them says, and the document that is written for
//! one that is given.
#![tactic(auto)]

pub mod fields;
pub mod grids;
pub mod keys;
pub mod names;
pub mod parts;
pub mod writing;

pub use writing::written_document;
