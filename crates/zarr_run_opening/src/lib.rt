//! The arrays that a session holds: how they are found by their paths, created and opened.
#![tactic(auto)]

mod arrays;
mod chunk_keys;
pub mod creating;
pub mod held;
pub mod laws;
mod opening;
pub mod reopening;
mod store_calls;
mod stored;
mod texts;
mod write_order;

pub use creating::create;
pub use held::HeldArray;
pub use reopening::reopen;
