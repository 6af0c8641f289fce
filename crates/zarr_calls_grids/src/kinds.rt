//! Calls by their names.
use crate::{grids, keys, metadata};
use anyhow::Result;
use std::alloc::Global;

/// What a call of metadata, keys or grids gives, or `None` where the name is that of no such call.
pub fn answer(alloc: Global, name: &str, rest: &str) -> Option<Result<String>> {
    if let Some(answer) = metadata::answer(alloc, name, rest) {
        return Some(answer);
    }
    if let Some(answer) = keys::answer(alloc, name, rest) {
        return Some(answer);
    }
    grids::answer(alloc, name, rest)
}
