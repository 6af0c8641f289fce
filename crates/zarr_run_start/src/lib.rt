//! The program from its words to its status.
#![tactic(auto)]

pub mod fault;
pub mod program;

pub use fault::Fault;
pub use program::{run_program, run_store, run_words};
