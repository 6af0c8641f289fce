//! Scripts of calls in which any allocation may be refused: how one is chosen and run, and why it
//! ends before its end.
//!
//! A program of such scripts refuses nothing itself: `tools/refused_allocations` runs it over a C
//! library's allocator that does, and so the calls of the repository.
#![tactic(auto)]

mod scripts;
mod stop;

pub use scripts::{read_letter, tell};
pub use stop::{Stop, expect};
