//! What tests of sessions have in the place of a store and of a codec: a store that counts calls
//! and isn't honest, and a codec on bytes that refuses some.
#![tactic(auto)]

mod refusing_codec;
mod test_store;

pub use refusing_codec::RefusingCodec;
pub use test_store::TestStore;
