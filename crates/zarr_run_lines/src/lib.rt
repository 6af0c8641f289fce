//! Commands read line by line, and their answers written line by line.
#![tactic(auto)]

mod answers;
mod input;
pub mod lines;

pub use lines::{LinesFault, run_lines};
