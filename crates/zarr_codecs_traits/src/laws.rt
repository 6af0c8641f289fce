//! Worked examples and a law of codecs that read and write a part of a value. Each function does
//! nothing: its contract is the law.
ghost use Rattle.zarr_codecs_traits.specs.PartEncoding.{PatchedDecode};
ghost use Rattle.zarr_codecs_traits.specs.WorkedWrites.{ReadRows, UnwrittenRows, WriteRows};

/// Where elements can be replaced in values that nobody reads, a value is decoded exactly where it
/// has as many bytes as the array's elements.
pub fn patched_decode()
    ensures { PatchedDecode }
{}

/// How many bytes of values are taken for some of their elements.
pub fn read_rows()
    ensures { ReadRows }
{}

/// What writes in part leave of a shard.
pub fn write_rows()
    ensures { WriteRows }
{}

/// What a write into a shard asks of a caller's codec, and room behind a shard.
pub fn unwritten_rows()
    ensures { UnwrittenRows }
{}
