//! Bytes codecs that the tests bring.
ghost use Rattle.std.specs.Prelude.{◌≡◌, ◌∷◌, reverse, IfOk};

use std::alloc::{AllocError, Global};
use zarr_codecs_arrays::CodecError;
use zarr_codecs_traits::{BytesRepresentation, BytesToBytesCodecTraits};
use zarr_grids_metadata::{MetadataV3, PluginCreateError};

/// `Reverse` puts bytes the other way round. `Refuse` leaves them as they are, and refuses the
/// bytes 1, 2, 3. `Lengthen` puts a byte 0 before them, and tells nothing of sizes.
#[derive(Clone, Copy, Debug, PartialEq, Eq)]
pub enum TestCodec {
    Reverse,
    Refuse,
    Lengthen,
}

impl BytesToBytesCodecTraits for TestCodec {
    ghost use Rattle.zarr_calls_kinds.specs.ByteCodecs.{codec_of, point_of_codec, codec_in, codec_in_lawful, codec_lawful, codec_reads_back};

    ghost meaning = { codec_of };

    ghost described = { point_of_codec };

    ghost reads = { codec_in };

    fn encode(&self, alloc: Global, bytes: &[u8]) -> Result<Vec<u8>, CodecError> {
        match self {
            TestCodec::Reverse => Ok(reversed(alloc, bytes)?),
            TestCodec::Refuse => {
                if bytes == [1, 2, 3].as_slice() {
                    return Err(CodecError::Codec);
                }
                Ok(bytes.to_vec(alloc)?)
            }
            TestCodec::Lengthen => Ok(lengthened(alloc, bytes)?),
        }
    }

    fn decode(&self, alloc: Global, bytes: &[u8]) -> Result<Vec<u8>, CodecError> {
        match self {
            TestCodec::Reverse => Ok(reversed(alloc, bytes)?),
            TestCodec::Refuse => {
                if bytes == [1, 2, 3].as_slice() {
                    return Err(CodecError::Damage);
                }
                Ok(bytes.to_vec(alloc)?)
            }
            TestCodec::Lengthen => match bytes.split_first() {
                Some((first, others)) if *first == 0 => Ok(others.to_vec(alloc)?),
                _ => Err(CodecError::Damage),
            },
        }
    }

    fn encoded_representation(
        &self,
        decoded: BytesRepresentation,
    ) -> Result<BytesRepresentation, CodecError> {
        match self {
            TestCodec::Lengthen => Ok(BytesRepresentation::UnboundedSize),
            _ => Ok(decoded),
        }
    }

    fn metadata(&self, alloc: Global) -> Result<MetadataV3, AllocError> {
        let name = match self {
            TestCodec::Reverse => "x-reverse",
            TestCodec::Refuse => "x-refuse",
            TestCodec::Lengthen => "x-longer",
        };
        Ok(MetadataV3::new(String::from_str(alloc, name)?))
    }

    fn create(_: Global, metadata: &MetadataV3) -> Result<TestCodec, PluginCreateError> {
        match metadata.name() {
            "x-reverse" => Ok(TestCodec::Reverse),
            "x-refuse" => Ok(TestCodec::Refuse),
            "x-longer" => Ok(TestCodec::Lengthen),
            _ => Err(PluginCreateError::NameUnsupported),
        }
    }

    ghost lawful = { codec_lawful };

    ghost reads_lawful = { codec_in_lawful };

    ghost reads_back = { codec_reads_back };
}

fn reversed(alloc: Global, bytes: &[u8]) -> Result<Vec<u8>, AllocError>
    ensures { IfOk result (λ v. v.items ≡ reverse bytes.now) }
{
    bytes.iter().rev().copied().collect(alloc)
}

fn lengthened(alloc: Global, bytes: &[u8]) -> Result<Vec<u8>, AllocError>
    ensures { IfOk result (λ v. v.items ≡ 0 ∷ bytes.now) }
{
    let mut lengthened = vec![in alloc; 0u8]?;
    lengthened.extend_from_slice(bytes)?;
    Ok(lengthened)
}
