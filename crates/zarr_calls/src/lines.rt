//! Lines and their answers.
use crate::{chains, documents};
use anyhow::{Context, Result};
use std::alloc::Global;
use std::io::{Read, Write, read_to_string};
use std::marker::Sync;
use std::thread::Threads;

/// What the call of a line gives.
fn answer<R: Threads + Sync>(rt: &R, alloc: Global, line: &str) -> Result<String> {
    let (name, rest) = line.split_once(' ').context("a call has no argument")?;
    if let Some(answer) = zarr_calls_grids::answer(alloc, name, rest) {
        return answer;
    }
    if let Some(answer) = zarr_calls_kinds::answer(alloc, name, rest) {
        return answer;
    }
    if let Some(answer) = documents::answer(alloc, name, rest) {
        return answer;
    }
    chains::answer(rt, alloc, name, rest)
}

/// What answers the call of a line: what it gives, or how it failed.
fn answer_or_fault<R: Threads + Sync>(rt: &R, alloc: Global, line: &str) -> Result<String> {
    match answer(rt, alloc, line) {
        Ok(text) => Ok(text),
        Err(error) => Ok(format!(in alloc; "failed: {error}")?),
    }
}

/// Reads all lines of a reader, and answers each of them.
pub(crate) fn answer_lines<R: Threads + Sync, I: Read + Drop, W: Write>(
    rt: &R,
    alloc: Global,
    reader: I,
    writer: &mut W,
) -> Result<()> {
    let text = read_to_string(alloc, reader)?;
    for line in text.as_str().lines() {
        writer.write_all(answer_or_fault(rt, alloc, line)?.as_bytes())?;
        writer.write_all(b"\n")?;
    }
    writer.flush()?;
    Ok(())
}
