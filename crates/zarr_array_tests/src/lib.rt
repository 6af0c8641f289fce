//! Tests of stores, and of how deep array documents may be, which no call and no story shows.
#![tactic(auto)]

#[cfg(test)]
mod calls;
#[cfg(test)]
mod counting_store;
#[cfg(test)]
mod folder;
#[cfg(test)]
mod metadata;
#[cfg(test)]
mod partial_encoder;
#[cfg(test)]
mod storage;
