//! Scripts of sessions in which any allocation may be refused: what a line of a script asks, and
//! the tables by which its answer is judged.
//!
//! They are for tests, so they promise nothing but to be safe.
#![tactic(auto)]

mod script;
mod tables;

pub use script::{Asks, Line, Names, Script, command, is_by_store, is_refused_by_chance};
pub use tables::{Array, Cells, Keys, Tables, keys_of};
