//! Store keys: of the chunks and of the documents of an array, and any other.
ghost use Rattle.std.specs.Prelude.{◌≡◌, ◌↔◌, ◌++◌, [], IsTrue, false, OnOk, IfOk, IsErr};
ghost use Rattle.std.specs.String.{string_bytes};
ghost use Rattle.zarr_grids_keys.specs.Documents.{document_key};
ghost use Rattle.zarr_grids_keys.specs.Encodings.{keys_of};
ghost use Rattle.zarr_grids_keys.specs.Keys.{chunk_key, key_under};
ghost use Rattle.zarr_grids_keys.specs.Paths.{ends_with_slash, is_node_path};

use crate::document_name::DocumentName;
use crate::encoding::ChunkKeyEncoding;
use crate::node_path::ends_with_slash;
use std::alloc::{AllocError, Global};
use std::marker::Model;
use thiserror::Error;

/// A key of a store: a text that does not end with `/` (Zarr core specification, "Abstract store
/// interface").
#[derive(Debug, Drop)]
pub struct StoreKey {
    text: String,
}

/// A contract sees it as its text.
impl Model for StoreKey {
    ghost use Rattle.std.specs.Prelude.{◌≡◌, false, ℕ, List};
    ghost use Rattle.std.specs.String.{string_bytes};
    ghost use Rattle.zarr_grids_keys.specs.Paths.{ends_with_slash};

    ghost Value = { List ℕ };

    ghost view = { λ key. string_bytes key.text };

    ghost invariant = { λ key. ends_with_slash (string_bytes key.text) ≡ false };
}

/// A text ends with `/`, so it is no store key.
#[derive(Clone, Copy, Debug, PartialEq, Eq, Error)]
#[error("a store key ends with /")]
pub struct StoreKeyError;

impl StoreKey {
    /// The store key that a text is.
    pub fn new(text: String) -> Result<Self, StoreKeyError>
        ensures text { IfOk result (λ key. key ≡ string_bytes text) }
        ensures refused { IsErr result ↔ IsTrue (ends_with_slash (string_bytes text)) }
    {
        if ends_with_slash(text.as_bytes()) {
            return Err(StoreKeyError);
        }
        Ok(StoreKey { text })
    }

    /// The key as a text.
    pub fn as_str(&self) -> &str
        ensures text { result.now ≡ self.now }
        ensures store_key { ends_with_slash result.now ≡ false }
    {
        self.text.as_str()
    }

    /// An equal key, in memory of its own.
    pub fn try_clone(&self, alloc: Global) -> Result<Self, AllocError>
        ensures { IfOk result (λ copy. copy ≡ self.now) }
    {
        let text = String::from_str(alloc, self.text.as_str())?;
        Ok(StoreKey { text })
    }
}

impl PartialEq for StoreKey {
    ghost use Rattle.std.specs.Prelude.{bytes_eq};
    ghost use Rattle.std.specs.Cmp.{partial_equiv_from_equiv};
    ghost use Rattle.std.specs.Cmp.Lexicographic.{nat_list_eq_equiv};

    ghost eq = { bytes_eq };

    ghost laws = { partial_equiv_from_equiv nat_list_eq_equiv };

    fn eq(&self, other: &StoreKey) -> bool {
        self.as_str() == other.as_str()
    }
}

impl Eq for StoreKey {
    ghost use Rattle.std.specs.Cmp.Lexicographic.{nat_list_eq_equiv};

    ghost laws = { nat_list_eq_equiv };
}

/// The store key of a chunk of the array at a path.
pub fn chunk_key(
    alloc: Global,
    path: &str,
    keys: &ChunkKeyEncoding,
    chunk: &[u64],
) -> Result<String, AllocError>
    requires { IsTrue (is_node_path path.now) }
    ensures { IfOk result
        (λ key. string_bytes key ≡ chunk_key path.now (keys_of keys.now) chunk.now) }
{
    let room = keys.longest_key(chunk).saturating_add(path.len());
    let mut key = String::with_capacity(alloc, room)?;
    chunk_key_into(&mut key, path, keys, chunk)?;
    Ok(key)
}

/// Writes the store key of a chunk into a text, in place of what the text had. An `Err` leaves a
/// part of the key there.
pub fn chunk_key_into(
    key: &mut String,
    path: &str,
    keys: &ChunkKeyEncoding,
    chunk: &[u64],
) -> Result<(), AllocError>
    requires { IsTrue (is_node_path path.now) }
    ensures { OnOk result (string_bytes key.new ≡ chunk_key path.now (keys_of keys.now) chunk.now) }
{
    key.clear();
    push_path(key, path)?;
    keys.push_encoded(key, chunk)
}

/// The store key of a document of the node at a path: `a/b/zarr.json` at `/a/b`, `zarr.json` at
/// `/`.
pub fn document_key(alloc: Global, path: &str, name: DocumentName) -> Result<String, AllocError>
    requires { IsTrue (is_node_path path.now) }
    ensures { IfOk result (λ key. string_bytes key ≡ document_key path.now name) }
{
    let name = name.as_str();
    let mut key = String::with_capacity(alloc, path.len().saturating_add(name.len()))?;
    push_path(&mut key, path)?;
    key.push_str(name)?;
    Ok(key)
}

/// Writes what stands before the names in the store keys under a path. An `Err` leaves a part of
/// it.
fn push_path(key: &mut String, path: &str) -> Result<(), AllocError>
    requires { IsTrue (is_node_path path.now) }
    ensures { OnOk result (string_bytes key.new ≡ string_bytes key.old ++ key_under path.now []) }
{
    if path != "/" {
        key.push_str(&path[1..])?;
        key.push_str("/")?;
    }
    Ok(())
}
