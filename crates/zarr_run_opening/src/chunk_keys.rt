//! Whether keys of documents are those of chunks of arrays that are held.
ghost use Rattle.std.specs.Prelude.{◌≡◌, ◌↔◌, ◌<◌, ◌∷◌, ℕ, List, IsTrue, IfOk, length, string_bytes};
ghost use Rattle.zarr_grids_boxes.specs.Boxes.{IsSmall};
ghost use Rattle.zarr_grids_keys.specs.Documents.{document_key};
ghost use Rattle.zarr_grids_keys.specs.Encodings.{suffixed_keys};
ghost use Rattle.zarr_grids_keys.specs.Keys.{chunk_key, numbers_after};
ghost use Rattle.zarr_grids_keys.specs.Paths.{is_node_path};
ghost use Rattle.zarr_grids_keys.specs.Separators.{separator_byte};
ghost use Rattle.zarr_sharding_chains.specs.ArrayChains.{array_meaning};
ghost use Rattle.zarr_array_core.specs.Views.{document_of};
ghost use Rattle.zarr_run_meaning.specs.Causes.{IsChunkKey};
ghost use Rattle.zarr_run_opening.specs.ChunkKeys.{IsChunkKeyAt, IsChunkKeyOf, IsDocumentKey, length_above};

use crate::held::HeldArray;
use std::alloc::{AllocError, Global};
use std::collections::BTreeMap;
use zarr_array_core::ArrayCore;
use zarr_codecs_traits::BytesToBytesCodecTraits;
use zarr_grids_chunk_grids::ChunkGridTraits;
use zarr_grids_cover::is_in_grid;
use zarr_grids_keys::{
    ChunkKeyEncoding, ChunkKeySeparator, DefaultSuffixChunkKeyEncoding, DocumentName, chunk_key,
    document_key, parent_path,
};
use zarr_sharding_chains::ArrayChain;

/// Whether the key of a document of the node at a path is that of a chunk in the grid of an array
/// that is held. Such an array stands above the path, so the paths above are looked up one by one.
/// `Err` only where an allocation failed.
pub(crate) fn is_chunk_key<B: BytesToBytesCodecTraits>(
    alloc: Global,
    arrays: &BTreeMap<String, HeldArray<B>>,
    path: &str,
    name: DocumentName,
) -> Result<bool, AllocError>
    requires { IsTrue (is_node_path path.now) }
    ensures { IfOk result (λ is. IsTrue is
        ↔ IsChunkKeyOf B.meaning arrays.now (document_key path.now name)) }
{
    let key = document_key(alloc, path, name)?;
    let mut lower = path;
    while let Some(parent) = parent_path(lower) {
        if is_chunk_at(alloc, arrays, parent, &key)? {
            return Ok(true);
        }
        lower = parent;
    }
    Ok(false)
}

/// Whether an array is held at a path, and the key of a document is that of a chunk in its grid.
fn is_chunk_at<B: BytesToBytesCodecTraits>(
    alloc: Global,
    arrays: &BTreeMap<String, HeldArray<B>>,
    path: &str,
    key: &str,
) -> Result<bool, AllocError>
    requires node { IsTrue (is_node_path path.now) }
    requires document { IsDocumentKey key.now }
    ensures { IfOk result
        (λ is. IsTrue is ↔ IsChunkKeyAt B.meaning arrays.now key.now path.now) }
{
    match arrays.get(path) {
        Some(array) => is_chunk_of(alloc, path, &array.core, key),
        None => Ok(false),
    }
}

/// Whether the key of a document is that of a chunk in the grid of the array at a path.
fn is_chunk_of<B: BytesToBytesCodecTraits>(
    alloc: Global,
    path: &str,
    array: &ArrayCore<ArrayChain<B>>,
    key: &str,
) -> Result<bool, AllocError>
    requires node { IsTrue (is_node_path path.now) }
    requires document { IsDocumentKey key.now }
    ensures { IfOk result (λ is. IsTrue is
        ↔ IsChunkKey path.now (document_of (array_meaning B.meaning) array.now) key.now) }
{
    let keys = array.keys();
    let encoding = match keys {
        ChunkKeyEncoding::DefaultSuffix(encoding) => encoding,
        ChunkKeyEncoding::Default(_) => return Ok(false),
        ChunkKeyEncoding::V2(_) => return Ok(false),
    };
    let chunk = chunk_in_key(alloc, path, encoding, key)?;
    if !is_in_grid(array.grid().dimensions(), &chunk) {
        return Ok(false);
    }
    let own = chunk_key(alloc, path, keys, &chunk)?;
    Ok(own.as_str() == key)
}

/// The only chunk whose key a text can be, or any where it is the key of none.
fn chunk_in_key(
    alloc: Global,
    path: &str,
    encoding: &DefaultSuffixChunkKeyEncoding,
    key: &str,
) -> Result<Vec<u64>, AllocError>
    requires { IsTrue (is_node_path path.now) }
    ensures { IfOk result (λ found. (chunk : List ℕ) → IsSmall chunk
        → key.now ≡ chunk_key path.now (suffixed_keys encoding.now) chunk
        → found.items ≡ chunk) }
{
    let above = length_above(path);
    let end = key.len().saturating_sub(encoding.suffix().len());
    if end.saturating_sub(above) < 2 {
        return Ok(Vec::new(alloc));
    }
    read_numbers(alloc, &key.as_bytes()[above + 2..end], encoding.separator())
}

/// How many bytes stand before the names in the store keys under a path.
fn length_above(path: &str) -> usize
    ensures { result ≡ length_above path.now }
{
    if path == "/" { 0 } else { path.len() }
}

/// The numbers that a text is made of, with a separator between them, or any where it is not.
fn read_numbers(
    alloc: Global,
    text: &[u8],
    separator: ChunkKeySeparator,
) -> Result<Vec<u64>, AllocError>
    ensures { IfOk result (λ found. (chunk : List ℕ) → IsSmall chunk
        → separator_byte separator ∷ text.now ≡ numbers_after (separator_byte separator) chunk
        → found.items ≡ chunk) }
{
    let between = byte_of(separator);
    let mut numbers = Vec::new(alloc);
    let mut number: u64 = 0;
    for byte in text {
        if *byte == between {
            numbers.push(number)?;
            number = 0;
        } else {
            let digit = u64::from(*byte).saturating_sub(48);
            number = number.saturating_mul(10).saturating_add(digit);
        }
    }
    numbers.push(number)?;
    Ok(numbers)
}

/// The byte of a separator.
fn byte_of(separator: ChunkKeySeparator) -> u8
    ensures { result ≡ separator_byte separator }
{
    match separator {
        ChunkKeySeparator::Slash => b'/',
        ChunkKeySeparator::Dot => b'.',
    }
}
