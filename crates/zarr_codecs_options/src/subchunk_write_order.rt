//! The order in which a shard's subchunks are written.

/// The order of the subchunks in a shard's value.
#[derive(Clone, Copy, Debug, PartialEq, Eq)]
pub enum SubchunkWriteOrder {
    Random,
    /// Row-major.
    C,
    Unordered,
}
