//! A program for tests: it makes the calls that lines name, and prints what they give.
//!
//! Standard input has a call on each line: its name, a space, and its arguments with ` | ` between
//! them. Standard output has a line for each of them. calls/README.md lists the calls.
#![tactic(auto)]

mod chains;
mod documents;
mod lines;

fn main(rt: HostRuntime) -> anyhow::Result<()> {
    lines::answer_lines(&rt, rt.alloc(), rt.stdin(), &mut rt.stdout())
}
