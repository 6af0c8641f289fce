//! A law of documents. Its function does nothing: its contract is the law.
ghost use Rattle.zarr_run_meaning.specs.Sound.{ReadsGood};

use zarr_codecs_traits::BytesToBytesCodecTraits;

/// Whatever the type of the caller's codecs, the documents that open are good: their chains are
/// lawful, and their fill values are values of their data types.
pub fn documents_good<B: BytesToBytesCodecTraits>()
    ensures { ReadsGood B.reads }
{}
