//! Why a command is refused.

/// The cause of a refusal. The causes are tested in this order: `Path`; `PathTaken` by an array
/// that is held; `NoArray` or `DocumentChanged`; `Document`; `PathTaken` by a document that is
/// stored; `Region`, `Data`, `Size`; and then, chunk by chunk, `Fit`, `Damage`, and `Codec` and
/// `Size`, of which either may be answered where both hold. `Store` comes where the store refuses a
/// call, and `Memory` can come at any point.
#[derive(Clone, Copy, Debug, PartialEq, Eq)]
pub enum Cause {
    /// The text is not a node path.
    Path,
    /// An array is held at a related path, or a document is stored at the path.
    PathTaken,
    /// No array is held at the path; for a reopening, and no document is stored there.
    NoArray,
    /// The document cannot be opened.
    Document,
    /// The box has other dimensions, or a place in no chunk; or the chunk isn't one of the grid.
    Region,
    /// The cells are of another count or form, or not values of the type.
    Data,
    /// A box, a chunk or a stored value would have 2^63 cells or bytes or more, or an offset is too
    /// large for its index; or 2^63 chunks or more are to be erased.
    Size,
    /// A chunk does not fit its codecs.
    Fit,
    /// A codec refused to encode.
    Codec,
    /// The store refused a call.
    Store,
    /// A stored value cannot be decoded.
    Damage,
    /// Memory ran out.
    Memory,
    /// Another document is stored for the array than the one that was written or opened.
    DocumentChanged,
}
