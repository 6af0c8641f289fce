//! The commands and replies of a session, and the lines that they are read from and written to.
#![tactic(auto)]

pub mod answer;
pub mod command;
mod cursor;
mod field;
pub mod laws;
pub mod line;
mod members;
mod operation;
mod options;
mod tokens;

pub use answer::push_answer;
pub use command::{Command, CommandCells, Reply};
pub use line::{CommandReader, read_command};
