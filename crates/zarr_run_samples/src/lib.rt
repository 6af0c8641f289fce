//! What tests of sessions share: lines, and whether a session answers them so.
//!
//! They are for tests, so they promise nothing but to be safe.
#![tactic(auto)]

mod samples;

pub use samples::{
    CREATE, DONE, MemorySession, READ, READ_ANSWER, REOPEN, WRITE, command, creates, does, has,
    has_keys, is_answered, new_session, put, talks,
};
