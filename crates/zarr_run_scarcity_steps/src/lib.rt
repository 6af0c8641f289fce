//! Scripts of sessions in which any allocation may be refused, run step by step, also over stores
//! that refuse a call.
//!
//! They are for tests, so they promise nothing but to be safe.
#![tactic(auto)]

mod steps;

pub use steps::{run, run_over_refusals};
