//! Scripts of the library, in which any allocation may be refused.
//!
//! The first byte of standard input names the script: `m` for types, codecs and shards that are made
//! by their constructors, `t` for a shard that threads encode and decode. It prints `as stated` if
//! each is made as with ample memory, or refused as memory ran out.
#![tactic(auto)]

mod made;
mod shards;

use std::marker::Sync;
use std::process::ExitCode;
use std::thread::Threads;
use zarr_scarcity_scripts::{Stop, read_letter, tell};

/// Runs the script with this letter.
fn run<R: AllocGlobal + Threads + Sync>(rt: &R, letter: u8) -> Result<(), Stop> {
    match letter {
        b'm' => made::run(rt.alloc()),
        b't' => shards::run(rt),
        _ => Err(Stop::Other),
    }
}

/// Runs a script, and once more where memory ran out in it: one allocation is refused, so the
/// second run has ample memory.
fn run_twice<R: AllocGlobal + Threads + Sync>(rt: &R, letter: u8) -> Result<(), Stop> {
    match run(rt, letter) {
        Err(Stop::Short) => run(rt, letter),
        said => said,
    }
}

fn main(rt: HostRuntime) -> ExitCode {
    let letter = read_letter(&mut rt.stdin());
    let came = run_twice(&rt, letter);
    tell(&mut rt.stdout(), came)
}
