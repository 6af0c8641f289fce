//! Chunk grids: which chunks there are, where they lie, and which of them a box of places
//! intersects. Definitions and lemmas only.
#![tactic(auto)]
