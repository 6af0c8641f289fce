//! Metadata.
use crate::words::{cut, refused, text_of, truth, word};
use anyhow::{Result, bail};
use std::alloc::Global;
use zarr_grids_metadata::MetadataV3;

/// What a call of metadata gives.
pub(crate) fn answer(alloc: Global, name: &str, rest: &str) -> Option<Result<String>> {
    match name {
        "metadata" => Some(read(alloc, rest)),
        "same" => Some(same(alloc, rest)),
        "said" => Some(said(alloc, rest)),
        _ => None,
    }
}

/// How the metadata of a text is written.
fn read(alloc: Global, text: &str) -> Result<String> {
    let text = if text == "empty" { "" } else { text };
    match MetadataV3::from_text(alloc, text) {
        Ok(metadata) => written(alloc, &metadata),
        Err(error) => refused(alloc, &error),
    }
}

/// How metadata is written. It is equal to its copy, and to what is made of its point.
fn written(alloc: Global, metadata: &MetadataV3) -> Result<String> {
    let copy = metadata.try_clone(alloc)?;
    let point = MetadataV3::from_point(alloc, metadata.as_point())?;
    if copy != *metadata || point != *metadata {
        bail!("a copy of metadata differs");
    }
    text_of(alloc, &copy)
}

/// Whether the metadata of two texts is equal, from either side.
fn same(alloc: Global, rest: &str) -> Result<String> {
    let (text, other) = cut(rest)?;
    let (one, two) = (
        MetadataV3::from_text(alloc, text)?,
        MetadataV3::from_text(alloc, other)?,
    );
    let is_equal = one == two;
    if (two == one) != is_equal || (one != two) == is_equal || (two != one) == is_equal {
        bail!("metadata is equal from one side alone");
    }
    truth(alloc, is_equal)
}

/// How the refusal of a text is said.
fn said(alloc: Global, text: &str) -> Result<String> {
    match MetadataV3::from_text(alloc, text) {
        Ok(_) => word(alloc, "none"),
        Err(error) => Ok(format!(in alloc; "{error}")?),
    }
}
