//! Laws of store keys and of related paths. Each function does nothing: its contract is the law.
ghost use Rattle.zarr_grids_keys.specs.Laws.{KeysDiffer, DefaultKeysDiffer, UnrelatedKeysDiffer, ChunksAreNoDocuments, OnlyDocumentsUnder, NoChunkIsOwnDocument, DocumentKeysDiffer};
ghost use Rattle.zarr_grids_keys.specs.Laws.{RelatedIsSymmetric, RelatedIsReflexive, RelatedAbove, UnderIsTransitive, UnderIsStrict, UnderBeginsWithPath, UnderIsRange, AboveByParent, AboveIsReached};

/// The chunks of an array have different keys.
pub fn keys_differ()
    ensures { KeysDiffer }
{}

/// With `default`, with a suffix or without one, chunks have different keys also where their
/// numbers of dimensions differ: the key of no dimension is `c` and that of chunk 0 of one is
/// `c/0`, where `v2` gives `0` to both.
pub fn default_keys_differ()
    ensures { DefaultKeysDiffer }
{}

/// The store keys under two unrelated node paths differ, so no chunk or document of one array has
/// a key that a chunk or document of an unrelated one has.
pub fn unrelated_keys_differ()
    ensures { UnrelatedKeysDiffer }
{}

/// The keys of chunks are not those of documents, whatever the nodes are, where no suffix holds a
/// slash. With the suffix `/zarr.json` the chunks of an array at `/a` stand where the nodes under
/// it, as `/a/c/1`, have their documents.
pub fn chunks_are_no_documents()
    ensures { ChunksAreNoDocuments }
{}

/// Where the key of a chunk is that of a document, the suffix holds a slash and the document's node
/// is under the array.
pub fn only_documents_under()
    ensures { OnlyDocumentsUnder }
{}

/// The keys of the chunks of an array are not those of its own documents.
pub fn no_chunk_is_own_document()
    ensures { NoChunkIsOwnDocument }
{}

/// The documents of nodes have different keys.
pub fn document_keys_differ()
    ensures { DocumentKeysDiffer }
{}

/// Whether two paths are related is the same from either side.
pub fn related_is_symmetric()
    ensures { RelatedIsSymmetric }
{}

/// Each path is related to itself.
pub fn related_is_reflexive()
    ensures { RelatedIsReflexive }
{}

/// What is related to a node path is related to each above it, so what is unrelated to one is
/// unrelated to all under it.
pub fn related_above()
    ensures { RelatedAbove }
{}

/// A node path under one that is under another is under that other.
pub fn under_is_transitive()
    ensures { UnderIsTransitive }
{}

/// No node path is under itself.
pub fn under_is_strict()
    ensures { UnderIsStrict }
{}

/// Under a path other than `/` is what begins with it and a slash.
pub fn under_begins_with_path()
    ensures { UnderBeginsWithPath }
{}

/// In a map that is sorted by bytes, what is under a path other than `/` is one range of keys.
pub fn under_is_range()
    ensures { UnderIsRange }
{}

/// Above a node path are its parent and what is above that; nothing is above `/`.
pub fn above_by_parent()
    ensures { AboveByParent }
{}

/// The node paths above another are its parent, the parent of that, and so on.
pub fn above_is_reached()
    ensures { AboveIsReached }
{}
