//! What is known of the size of bytes before they are made.
ghost use Rattle.std.specs.Prelude.{◌≡◌};
ghost use Rattle.zarr_codecs_meaning.specs.Fits.{is_too_long};
ghost use Rattle.zarr_codecs_traits.specs.Representations.{known_size};

/// How many bytes a codec makes, as far as that is known before it makes them (Zarr core
/// specification, "Codecs": `compute_encoded_size`).
#[derive(Clone, Copy, Debug, PartialEq, Eq)]
pub enum BytesRepresentation {
    /// Exactly this many bytes.
    FixedSize(u64),
    /// At most this many bytes.
    BoundedSize(u64),
    /// Nothing is known.
    UnboundedSize,
}

/// Whether a size is told, or the most that it can be, and that is 2^63 bytes or more.
pub fn is_too_long(told: BytesRepresentation) -> bool
    ensures { result ≡ is_too_long (known_size told) }
{
    match told {
        BytesRepresentation::FixedSize(size) | BytesRepresentation::BoundedSize(size) => {
            size >= 1 << 63
        }
        BytesRepresentation::UnboundedSize => false,
    }
}
