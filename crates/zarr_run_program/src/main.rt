//! The program: runs commands from standard input, one a line, and writes an answer to each.
#![tactic(auto)]

use std::process::ExitCode;
use zarr_run_start::run_program;

fn main(rt: HostRuntime) -> ExitCode {
    run_program(&rt, rt.stdin(), &mut rt.stdout(), &mut rt.stderr())
}
