//! Node paths.
ghost use Rattle.std.specs.Prelude.{◌≡◌, ◌↔◌, IsTrue, false, IfOk, IsErr};
ghost use Rattle.std.specs.String.{string_bytes};
ghost use Rattle.zarr_grids_keys.specs.Paths.{begins_with_slash, ends_with_slash, has_double_slash, is_node_path};

use std::alloc::{AllocError, Global};
use std::marker::Model;
use thiserror::Error;

/// The path of a node: `/`, or a slash and names between single slashes (Zarr core specification,
/// "Node paths").
#[derive(Debug, Drop)]
pub struct NodePath {
    text: String,
}

/// A contract sees it as its text.
impl Model for NodePath {
    ghost use Rattle.std.specs.Prelude.{IsTrue, ℕ, List};
    ghost use Rattle.std.specs.String.{string_bytes};
    ghost use Rattle.zarr_grids_keys.specs.Paths.{is_node_path};

    ghost Value = { List ℕ };

    ghost view = { λ path. string_bytes path.text };

    ghost invariant = { λ path. IsTrue (is_node_path (string_bytes path.text)) };
}

/// A text is no node path.
#[derive(Clone, Copy, Debug, PartialEq, Eq, Error)]
#[error("not a path of a node")]
pub struct NodePathError;

impl NodePath {
    /// The node path that a text is.
    pub fn new(text: String) -> Result<Self, NodePathError>
        ensures text { IfOk result (λ path. path ≡ string_bytes text) }
        ensures refused { IsErr result ↔ (is_node_path (string_bytes text) ≡ false) }
    {
        if !is_node_path(text.as_str()) {
            return Err(NodePathError);
        }
        Ok(NodePath { text })
    }

    /// The path as a text.
    pub fn as_str(&self) -> &str
        ensures text { result.now ≡ self.now }
        ensures node_path { IsTrue (is_node_path result.now) }
    {
        self.text.as_str()
    }

    /// An equal path, in memory of its own.
    pub fn try_clone(&self, alloc: Global) -> Result<Self, AllocError>
        ensures { IfOk result (λ copy. copy ≡ self.now) }
    {
        let text = String::from_str(alloc, self.text.as_str())?;
        Ok(NodePath { text })
    }
}

impl PartialEq for NodePath {
    ghost use Rattle.std.specs.Prelude.{bytes_eq};
    ghost use Rattle.std.specs.Cmp.{partial_equiv_from_equiv};
    ghost use Rattle.std.specs.Cmp.Lexicographic.{nat_list_eq_equiv};

    ghost eq = { bytes_eq };

    ghost laws = { partial_equiv_from_equiv nat_list_eq_equiv };

    fn eq(&self, other: &NodePath) -> bool {
        self.as_str() == other.as_str()
    }
}

impl Eq for NodePath {
    ghost use Rattle.std.specs.Cmp.Lexicographic.{nat_list_eq_equiv};

    ghost laws = { nat_list_eq_equiv };
}

/// Whether a text is a node path: `/`, or a slash and names between single slashes.
pub fn is_node_path(path: &str) -> bool
    ensures { result ≡ is_node_path path.now }
{
    let bytes = path.as_bytes();
    path == "/" || (begins_with_slash(bytes) && !ends_with_slash(bytes) && !has_double_slash(bytes))
}

pub(crate) fn begins_with_slash(bytes: &[u8]) -> bool
    ensures { result ≡ begins_with_slash bytes.now }
{
    matches!(bytes.first(), Some(b'/'))
}

/// Whether a text ends with `/`.
pub fn ends_with_slash(bytes: &[u8]) -> bool
    ensures { result ≡ ends_with_slash bytes.now }
{
    match bytes.last() {
        Some(byte) => *byte == b'/',
        None => false,
    }
}

fn has_double_slash(bytes: &[u8]) -> bool
    ensures { result ≡ has_double_slash bytes.now }
{
    let mut is_after_slash = false;
    for byte in bytes {
        let is_slash = *byte == b'/';
        if is_after_slash && is_slash {
            return true;
        }
        is_after_slash = is_slash;
    }
    false
}
