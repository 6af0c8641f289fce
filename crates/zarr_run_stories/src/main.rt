//! A program for tests of whole sessions: it runs commands over a store that it is given, and
//! prints the store that they leave.
//!
//! Standard input has a line for each key of the store that the session begins with, then an empty
//! line, and then the commands, one a line. Before them may stand a line such as `refuse write 4`:
//! then the store refuses the fourth of the session's calls that write, or, with `read`, of those
//! that read; and the line `workers`: then commands that don't say this option have it. Standard
//! output has a line of answer for each command, then an empty line, and then a
//! line for each key of the store that the session left, in the order of the keys' bytes. The line
//! of a key is its value in hexadecimal digits, a space, and the key.
#![tactic(auto)]

mod entries;
mod refusals;
mod story;

fn main(rt: HostRuntime) -> anyhow::Result<()> {
    story::run_story(&rt, rt.stdin(), &mut rt.stdout())
}
