//! Tests of shards in shards: options, which hold at every depth, and shards that nest deeper than
//! documents have them. What shards of shards are read and written as is in the calls of the
//! repository.
#![tactic(auto)]

#[cfg(test)]
mod options;
#[cfg(test)]
mod thrice;
