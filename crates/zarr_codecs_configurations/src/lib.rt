//! The configurations of codecs that hold chains: `vlen` and `optional`; how deep metadata may
//! nest.
#![tactic(auto)]

pub mod depth;
pub mod lists;
pub mod optional;
pub mod vlen;

pub use depth::{any_too_deep, is_too_deep};
pub use lists::{configured_value, push_values};
pub use optional::{LentOptionalConfiguration, OptionalCodecConfiguration, optional_members};
pub use vlen::{LentVlenConfiguration, VlenCodecConfiguration, vlen_members};
