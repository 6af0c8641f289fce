//! Tests that workers are several threads: by a codec that waits for a second piece, and answers
//! with workers alone. What calls and commands with workers give is in the calls and the stories.
#![tactic(auto)]

#[cfg(test)]
mod chunks;
#[cfg(test)]
mod samples;
#[cfg(test)]
mod shards;
#[cfg(test)]
mod waiting_codec;
