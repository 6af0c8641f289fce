//! The kind of call of a shard that is kept open: what the steps give that are taken over it, and
//! the value after them.
//!
//! `answer` makes such a call. They are for tests, so they promise nothing but to be safe.
#![tactic(auto)]

mod states;

pub use states::answer;
