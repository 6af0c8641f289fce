//! Scripts of sessions in which any allocation may be refused.
//!
//! The first byte of standard input names the script: `s` for a session's commands, `r` for these
//! over stores that refuse each of their calls in turn, `p` and `q` the same at arrays in shards,
//! `v` and `w` at arrays of version 2, `l` for a session's lines. A capital letter names the same
//! with workers.
//! It prints `as stated` if each answer is the one with ample memory and an honest store, which is
//! typed in here, or says that memory ran out or the store refused, and has made just the change
//! that it says.
#![tactic(auto)]

mod lines;
mod older;
mod plain;
mod shards;

use crate::older::OLDER;
use crate::plain::PLAIN;
use crate::shards::SHARDS;
use std::process::ExitCode;
use std::thread::Threads;
use zarr_scarcity_scripts::{Stop, read_letter, tell};

/// Runs the script with this letter.
fn run<R: AllocGlobal + Threads + Sync>(rt: &R, letter: u8) -> Result<(), Stop> {
    let workers = letter.is_ascii_uppercase();
    match letter.to_ascii_lowercase() {
        b's' => zarr_run_scarcity_steps::run(rt, PLAIN.with_workers(workers)),
        b'r' => zarr_run_scarcity_steps::run_over_refusals(rt, PLAIN.with_workers(workers)),
        b'p' => zarr_run_scarcity_steps::run(rt, SHARDS.with_workers(workers)),
        b'q' => zarr_run_scarcity_steps::run_over_refusals(rt, SHARDS.with_workers(workers)),
        b'v' => zarr_run_scarcity_steps::run(rt, OLDER.with_workers(workers)),
        b'w' => zarr_run_scarcity_steps::run_over_refusals(rt, OLDER.with_workers(workers)),
        b'l' => lines::run(rt, workers),
        _ => Err(Stop::Other),
    }
}

/// Runs a script, and once more where memory ran out in it: one allocation is refused, so the
/// second run has ample memory.
fn run_twice<R: AllocGlobal + Threads + Sync>(rt: &R, letter: u8) -> Result<(), Stop> {
    match run(rt, letter) {
        Err(Stop::Short) => run(rt, letter),
        said => said,
    }
}

fn main(rt: HostRuntime) -> ExitCode {
    let letter = read_letter(&mut rt.stdin());
    let came = run_twice(&rt, letter);
    tell(&mut rt.stdout(), came)
}
