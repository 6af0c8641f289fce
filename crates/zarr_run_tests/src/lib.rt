//! Tests of sessions that need code: typed commands, stores that count or change, and a codec that
//! refuses. Lines are in `zarr_run_lines_tests`, and what reads take of a store in
//! `zarr_run_reads_tests`. Whole sessions are in the stories.
#![tactic(auto)]

#[cfg(test)]
mod sessions;
