//! Laws of values of any chain: of what compaction makes of them, and of what storing their cells
//! afresh leaves.
#![tactic(auto)]

pub mod fresh;
pub mod laws;
