//! Codecs that other codecs can stand around.
ghost use Rattle.std.specs.Prelude.{◌≡◌, IfOk, true};
ghost use Rattle.zarr_codecs_meaning.specs.Fits.{is_plain};

use std::alloc::{AllocError, Global};
use zarr_codecs_traits::ArrayToBytesCodecTraits;

/// A codec between arrays and bytes, so far as codecs that stand around it need to know more of it
/// than any of them tells.
pub trait InnerCodec: ArrayToBytesCodecTraits {
    /// Whether it makes no shard.
    fn makes_no_shard(&self) -> bool
        ensures { result ≡ is_plain (Self.meaning self.now) };

    /// A codec that does the same, of which what it makes of elements depends on these alone: it
    /// writes the subchunks of each shard row-major. `Err` only where an allocation failed.
    fn row_major(&self, alloc: Global) -> Result<Self, AllocError>
        ensures meaning { IfOk result (λ codec. Self.meaning codec ≡ Self.meaning self.now) }
        ensures function { IfOk result (λ codec. Self.is_function codec ≡ true) };
}
