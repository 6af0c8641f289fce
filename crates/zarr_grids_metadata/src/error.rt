//! Why a part of a document is not made from its metadata.
ghost use Rattle.std.specs.Prelude.{◌≡◌};
ghost use Rattle.zarr_grids_metadata.specs.declared.error.PluginCreateError.TheVariants.{Memory};

use std::alloc::AllocError;
use thiserror::Error;

/// Why an extension point does not name something that is known here, or does not describe it.
/// It holds no text, so that making one needs no memory.
#[derive(Clone, Copy, Debug, PartialEq, Eq, Error)]
pub enum PluginCreateError {
    /// Nothing of this kind has the name.
    #[error("the name is not supported")]
    NameUnsupported,
    /// The metadata is no extension point, or its configuration is not one of the name's.
    #[error("the metadata is not valid")]
    MetadataInvalid,
    /// The metadata nests deeper than is read (this project's profile).
    #[error("the metadata nests too deep")]
    TooDeep,
    #[error("out of memory")]
    Memory,
    #[error("the metadata is refused")]
    Other,
}

impl From<AllocError> for PluginCreateError {
    ghost from_gives = { λ _ e. e ≡ Memory };

    fn from(_error: AllocError) -> PluginCreateError {
        PluginCreateError::Memory
    }
}
