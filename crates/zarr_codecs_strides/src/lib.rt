//! Elements of one size, gathered along strides.
#![tactic(auto)]

mod columns;
pub mod gathering;
mod lines;
mod panels;
mod stretches;
pub mod walk;

pub use gathering::gather_walk;
pub use walk::Walk;
