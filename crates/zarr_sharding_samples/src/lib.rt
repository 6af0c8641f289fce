//! What tests of shards share: codecs, elements, and values with bytes typed in by hand. That the
//! codecs may be lent to other threads is proved in proofs/.
//!
//! They are for tests, so they promise nothing but to be safe.
#![tactic(auto)]

mod samples;

pub use samples::{
    Chain, NINE_PUT, NONE, Nested, ONE_OF_FOUR, Shards, Value, are, bytes_of, chunk_shape,
    elements, is, makes, nested, plain, shards, transposition,
};
