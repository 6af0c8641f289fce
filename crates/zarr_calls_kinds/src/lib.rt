//! Kinds of calls: what each makes of libraries, and the line that it answers.
//!
//! `answer` knows the calls of types, elements and codecs between arrays, and `answer_of_chain` those
//! of a codec chain, whatever chain it is. The others read and write the arguments of calls. They
//! are for tests, so they promise nothing but to be safe.
#![tactic(auto)]

mod arrays;
mod byte_codecs;
mod counting_source;
mod elements;
mod kinds;
mod parts;
mod raw;
mod shapes;
mod sources;
mod telling;
mod types;

pub use arrays::{Array, array_in};
pub use byte_codecs::TestCodec;
pub use counting_source::CountingSource;
pub use elements::{given_in, json};
pub use kinds::{answer, answer_of_chain};
pub use parts::{Places, left, left_by, places_in, put_or_not};
pub use sources::counting_in;
