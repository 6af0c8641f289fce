//! What a line says and no answer shows: the order of subchunks, and options.

use std::alloc::{AllocError, Global};
use zarr_run::{CodecOptions, Command};
use zarr_run_samples::command;

/// Lines, after the orders that they say.
const ORDERS: &str = r#"Unordered {"op":"create","path":"","document":1}
C {"op":"create","path":"","document":1,"order":"C"}
Unordered {"op":"create","path":"","document":null,"order":"Unordered"}
Random {"op":"create","path":"","document":1,"order":"C","order":"Random"}
Unordered {"op":"reopen","path":""}
C {"op":"reopen","path":"","order":"C"}
Random {"order":"Random","path":"","op":"reopen"}"#;

/// Whether the line of a case says its order.
fn says_order(alloc: Global, case: &str) -> Result<bool, AllocError> {
    let Some((want, line)) = case.split_once(' ') else {
        return Ok(false);
    };
    let order = match command(alloc, line)? {
        Command::Create { order, .. } => order,
        Command::Reopen { order, .. } => order,
        _ => return Ok(false),
    };
    Ok(format!(in alloc; "{order:?}")?.as_str() == want)
}

#[test]
fn a_line_says_its_order(rt: HostRuntime) {
    for case in ORDERS.lines() {
        assert!(rt; matches!(says_order(rt.alloc(), case), Ok(true)), "{case}");
    }
}

/// Lines, after the first letters of the options that are true.
const OPTIONS: &str = r#"- {"op":"write_box","path":"","box":[],"cells":[],"options":{}}
p {"op":"write_chunk","path":"","chunk":[],"cells":[],"options":{"partial":true}}
e {"op":"read_box","path":"","box":[],"options":{"empty":true,"workers":false}}
w {"op":"read_chunk","path":"","chunk":[],"options":{"workers":true}}
- {"op":"read_chunk","path":"","chunk":[]}
p {"options":{"empty":false,"partial":true},"path":"","op":"read_box","box":[]}
p {"op":"read_box","path":"","box":[],"options": { "partial" : true } }
- {"op":"read_box","path":"","box":[],"options":{"partial":true,"partial":false}}
e {"op":"read_box","path":"","box":[],"options":{"partial":true},"options":{"empty":true}}"#;

/// Whether of some options just the one with this letter is true.
fn are_options(options: CodecOptions, want: &str) -> bool {
    options.store_empty_chunks == (want == "e")
        && options.experimental_partial_encoding == (want == "p")
        && options.workers == (want == "w")
}

/// Whether the line of a case says its options.
fn says_options(alloc: Global, case: &str) -> Result<bool, AllocError> {
    let Some((want, line)) = case.split_once(' ') else {
        return Ok(false);
    };
    let options = match command(alloc, line)? {
        Command::WriteBox { options, .. } => options,
        Command::WriteChunk { options, .. } => options,
        Command::ReadBox { options, .. } => options,
        Command::ReadChunk { options, .. } => options,
        _ => return Ok(false),
    };
    Ok(are_options(options, want))
}

#[test]
fn a_line_says_its_options(rt: HostRuntime) {
    for case in OPTIONS.lines() {
        assert!(rt;
            matches!(says_options(rt.alloc(), case), Ok(true)),
            "{case}"
        );
    }
}
