//! Kinds of calls of metadata, keys and grids; how the arguments of calls are read and answers
//! written; and the steps of calls that take several.
//!
//! `answer` makes such a call. They are for tests, so they promise nothing but to be safe.
#![tactic(auto)]

mod grids;
mod keys;
mod kinds;
mod metadata;
pub mod steps;
pub mod words;

pub use kinds::answer;
