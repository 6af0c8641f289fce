//! The codec `x-reverse`, which reverses bytes.

use std::alloc::{AllocError, Global};
use zarr_codecs_arrays::CodecError;
use zarr_codecs_traits::{BytesRepresentation, BytesToBytesCodecTraits};
use zarr_grids_metadata::{MetadataV3, PluginCreateError, has_only};

/// The codec whose metadata is its name alone, `x-reverse`. It has no field to configure: an empty
/// configuration is fine, and any other is refused.
#[derive(Debug, Drop)]
pub struct ReverseCodec;

impl BytesToBytesCodecTraits for ReverseCodec {
    ghost use Rattle.std.specs.Prelude.{refl};
    ghost use Rattle.zarr_codecs_reverse.specs.Lawful.{reads_reversing_lawful, reversing_lawful};
    ghost use Rattle.zarr_codecs_reverse.specs.Reversing.{reversing, reversing_point, reads_reversing};

    ghost meaning = { λ codec. reversing };

    ghost described = { λ codec. reversing_point };

    ghost reads = { reads_reversing };

    fn encode(&self, alloc: Global, bytes: &[u8]) -> Result<Vec<u8>, CodecError> {
        let mut made = bytes.to_vec(alloc)?;
        made.reverse();
        Ok(made)
    }

    fn decode(&self, alloc: Global, bytes: &[u8]) -> Result<Vec<u8>, CodecError> {
        let mut given = bytes.to_vec(alloc)?;
        given.reverse();
        Ok(given)
    }

    fn encoded_representation(
        &self,
        decoded: BytesRepresentation,
    ) -> Result<BytesRepresentation, CodecError> {
        Ok(decoded)
    }

    fn metadata(&self, alloc: Global) -> Result<MetadataV3, AllocError> {
        Ok(MetadataV3::new(String::from_str(alloc, "x-reverse")?))
    }

    fn create(alloc: Global, metadata: &MetadataV3) -> Result<Self, PluginCreateError> {
        if metadata.name() != "x-reverse" {
            return Err(PluginCreateError::NameUnsupported);
        }
        match metadata.configuration() {
            Some(members) if !has_only(members, &[]) => Err(PluginCreateError::MetadataInvalid),
            _ => Ok(ReverseCodec),
        }
    }

    ghost lawful = { λ codec. reversing_lawful };

    ghost reads_lawful = { reads_reversing_lawful };

    ghost reads_back = { λ codec. refl };
}
