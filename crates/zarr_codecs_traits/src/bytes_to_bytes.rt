//! Codecs between bytes, which a caller brings.
ghost use Rattle.std.specs.Prelude.{◌≡◌, Option, Some, IfOk};
ghost use Rattle.zarr_codecs_meaning.specs.Chains.{ByteCodec};
ghost use Rattle.zarr_codecs_meaning.specs.Laws.{IsLawful};
ghost use Rattle.zarr_codecs_traits.specs.Outcomes.{Creates, MakesBytes, UndoesBytes};
ghost use Rattle.zarr_codecs_traits.specs.Representations.{Represents, known_size};
ghost use Rattle.zarr_grids_metadata.specs.ExtensionPoints.{ExtensionPoint};
ghost use Rattle.zarr_grids_metadata.specs.Views.{point_of};

use crate::bytes_representation::BytesRepresentation;
use std::alloc::{AllocError, Global};
use zarr_codecs_arrays::CodecError;
use zarr_grids_metadata::{MetadataV3, PluginCreateError};

/// A codec between bytes that a caller brings (Zarr core specification, "Codecs"). What it makes of
/// bytes, or that it refuses them, depends on the bytes alone, and what it made it undoes.
pub trait BytesToBytesCodecTraits: Sized + Drop {
    /// What it makes of bytes, what it undoes them to, and what it tells of their sizes.
    ghost meaning: { Self → ByteCodec };

    /// Its metadata.
    ghost described: { Self → ExtensionPoint };

    /// What codecs of this type are, by their metadata.
    ghost reads: { ExtensionPoint → Option ByteCodec };

    /// What the codec makes of bytes. `Codec` where it refuses them.
    fn encode(&self, alloc: Global, bytes: &[u8]) -> Result<Vec<u8>, CodecError>
        ensures { MakesBytes (meaning self.now).encode bytes.now result };

    /// The bytes that the codec made these of. `Damage` where it made them of none.
    fn decode(&self, alloc: Global, bytes: &[u8]) -> Result<Vec<u8>, CodecError>
        ensures { UndoesBytes (meaning self.now).decode bytes.now result };

    /// What is known of the size of what the codec makes of bytes, by what is known of the size of
    /// these. It is true of all that `encode` makes, and no larger for fewer bytes. `Size` only
    /// where it is 2^63 or more.
    fn encoded_representation(
        &self,
        decoded: BytesRepresentation,
    ) -> Result<BytesRepresentation, CodecError>
        ensures { Represents ((meaning self.now).representation (known_size decoded)) result };

    /// The codec's metadata, of which `create` makes an equal codec. `Err` only where an allocation
    /// failed.
    fn metadata(&self, alloc: Global) -> Result<MetadataV3, AllocError>
        ensures { IfOk result (λ metadata. point_of metadata ≡ described self.now) };

    /// The codec that metadata names and describes. Any refusal but `Memory` says that there is
    /// none.
    fn create(alloc: Global, metadata: &MetadataV3) -> Result<Self, PluginCreateError>
        ensures { Creates reads meaning (point_of metadata.now) result };

    ghost lawful: { (codec : Self) → IsLawful (meaning codec) };

    ghost reads_back: { (codec : Self) → reads (described codec) ≡ Some (meaning codec) };

    ghost reads_lawful: { (point : ExtensionPoint) (codec : ByteCodec) → reads point ≡ Some codec
        → IsLawful codec };
}
