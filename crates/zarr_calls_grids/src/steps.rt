//! Steps that are taken over a shard, one after another.
use anyhow::{Result, bail};
use std::alloc::Global;

/// A step that was taken, and what it gave.
#[derive(Drop)]
pub struct Taken<'x> {
    pub step: &'x str,
    pub given: String,
}

/// No step.
pub fn none_taken<'x>(alloc: Global) -> Taken<'x> {
    Taken {
        step: "",
        given: String::new(alloc),
    }
}

/// Whether memory ran out in the step that gave this.
pub fn lacks_memory(given: &str) -> bool {
    given == "refused Memory"
}

/// Whether a step reads, so that it gives the same once more.
pub fn is_read(step: &str) -> bool {
    step.starts_with("read ")
}

/// Fails where a step that was taken once more gave something else than before.
pub fn stays(before: &Taken<'_>, given: &str) -> Result<()> {
    if given != before.given.as_str() {
        bail!("a step that was refused changed cells");
    }
    Ok(())
}
