//! Kinds of calls of shards that are read in part, and of their indexes.
//!
//! `answer` makes such a call. They are for tests, so they promise nothing but to be safe.
#![tactic(auto)]

mod decoders;

pub use decoders::answer;
