//! Tests of shards that a builder makes, and of chains around them. What shards of other parts are
//! encoded to is in the calls of the repository.
#![tactic(auto)]

#[cfg(test)]
mod builders;
