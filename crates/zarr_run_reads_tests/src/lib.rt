//! Tests of reads that need code: how many bytes a read takes of its store, which lines are read
//! with workers, and want of memory in a thread. That workers are several threads is in
//! `zarr_workers_tests`.
#![tactic(auto)]

#[cfg(test)]
mod reads;
#[cfg(test)]
mod workers;
