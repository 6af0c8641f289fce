//! Sessions: arrays in a store that are created, written, read, erased, compacted and rewritten by
//! commands.
#![tactic(auto)]

mod commands;
mod finding;
mod replies;
mod runs;
pub mod session;

pub use runs::{GiveBack, run, run_on};
pub use session::Session;
