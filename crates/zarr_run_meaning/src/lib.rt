//! What a session is asked, what it may answer, and what that changes: definitions and their laws.
#![tactic(auto)]

pub mod box_laws;
pub mod cause;
pub mod laws;

pub use cause::Cause;
