//! A codec on bytes that refuses some.
ghost use Rattle.std.specs.Prelude.{◌≡◌, ◌∷◌, [], bytes_eq};

use std::alloc::{AllocError, Global};
use zarr_run::{
    BytesRepresentation, BytesToBytesCodecTraits, CodecError, MetadataV3, PluginCreateError,
};

/// The codec `x-refuse`: it leaves bytes as they are, and refuses the bytes 7, 8. To decode the
/// bytes 9, 9 it has no memory.
#[derive(Debug, Drop)]
pub struct RefusingCodec;

fn is_refused(bytes: &[u8]) -> bool
    ensures { result ≡ bytes_eq bytes.now (7 ∷ 8 ∷ []) }
{
    bytes == [7, 8].as_slice()
}

impl BytesToBytesCodecTraits for RefusingCodec {
    ghost use Rattle.std.specs.Prelude.{refl};
    ghost use Rattle.zarr_run_fakes.specs.Refusing.{refusing, refusing_point, reads_refusing, reads_refusing_lawful, refusing_lawful};

    ghost meaning = { λ codec. refusing };

    ghost described = { λ codec. refusing_point };

    ghost reads = { reads_refusing };

    fn encode(&self, alloc: Global, bytes: &[u8]) -> Result<Vec<u8>, CodecError> {
        if is_refused(bytes) {
            return Err(CodecError::Codec);
        }
        Ok(bytes.to_vec(alloc)?)
    }

    fn decode(&self, alloc: Global, bytes: &[u8]) -> Result<Vec<u8>, CodecError> {
        if is_refused(bytes) {
            return Err(CodecError::Damage);
        }
        if bytes == [9, 9].as_slice() {
            return Err(CodecError::Memory);
        }
        Ok(bytes.to_vec(alloc)?)
    }

    fn encoded_representation(
        &self,
        decoded: BytesRepresentation,
    ) -> Result<BytesRepresentation, CodecError> {
        Ok(decoded)
    }

    fn metadata(&self, alloc: Global) -> Result<MetadataV3, AllocError> {
        Ok(MetadataV3::new(String::from_str(alloc, "x-refuse")?))
    }

    fn create(_: Global, metadata: &MetadataV3) -> Result<Self, PluginCreateError> {
        if metadata.name() == "x-refuse" {
            Ok(RefusingCodec)
        } else {
            Err(PluginCreateError::NameUnsupported)
        }
    }

    ghost lawful = { λ codec. refusing_lawful };

    ghost reads_lawful = { reads_refusing_lawful };

    ghost reads_back = { λ codec. refl };
}
