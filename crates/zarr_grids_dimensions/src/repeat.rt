//! Repeats of equal edges.

/// `count` chunks of one edge, one after another.
#[derive(Clone, Copy, Debug, PartialEq, Eq)]
pub struct RepeatedEdge {
    pub edge: u64,
    pub count: u64,
}
