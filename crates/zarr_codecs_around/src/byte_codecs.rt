//! The caller's codecs, one after another.
ghost use Rattle.std.specs.Prelude.{◌≡◌, ℕ, List, map, true, IfOk};
ghost use Rattle.zarr_codecs_meaning.specs.Chains.{Chain};
ghost use Rattle.zarr_codecs_meaning.specs.Laws.{IsLawfulChain};
ghost use Rattle.zarr_codecs_meaning.specs.Payloads.{Payload};
ghost use Rattle.zarr_codecs_meaning.specs.Types.{Elements, is_value};
ghost use Rattle.zarr_codecs_traits.specs.Arrays.{coded};
ghost use Rattle.zarr_codecs_traits.specs.Outcomes.{Encodes, MakesBytes, UndoesBytes};
ghost use Rattle.zarr_codecs_traits.specs.Representations.{known_size};
ghost use Rattle.zarr_codecs_around.specs.Codecs.{RepresentsAll, all_encoded, all_decoded};
ghost use Rattle.zarr_codecs_around.specs.Views.{with_codecs};

use std::alloc::{AllocError, Global};
use zarr_codecs_arrays::CodecError;
use zarr_codecs_traits::bytes_representation::is_too_long;
use zarr_codecs_traits::{BytesRepresentation, BytesToBytesCodecTraits};

/// What the codecs make of bytes, each of what the one before it made. `Codec` where one refuses.
pub fn encode_all<B: BytesToBytesCodecTraits>(
    alloc: Global,
    codecs: &[B],
    bytes: Vec<u8>,
) -> Result<Vec<u8>, CodecError>
    ensures { MakesBytes (all_encoded (map B.meaning codecs.now)) bytes.items result }
{
    let mut made = bytes;
    for codec in codecs {
        made = codec.encode(alloc, made.as_slice())?;
    }
    Ok(made)
}

/// What the codecs make of a value of a chain before them, or why that chain made none.
pub fn encode_made<B: BytesToBytesCodecTraits>(
    alloc: Global,
    codecs: &[B],
    made: Result<Vec<u8>, CodecError>,
) -> Result<Vec<u8>, CodecError>
    ensures { (chain : Chain) (elements : Elements) (shape : List ℕ) (payload : Payload) →
        IsLawfulChain chain → is_value elements.type elements.fill ≡ true → Encodes
        (coded chain elements shape) true payload made → Encodes
        (coded (with_codecs chain (map B.meaning codecs.now)) elements shape) true payload result }
{
    match made {
        Ok(value) => encode_all(alloc, codecs, value),
        Err(error) => Err(error),
    }
}

/// What the codecs undo bytes to, the last codec first. `Damage` where one did not make them.
pub fn decode_all<B: BytesToBytesCodecTraits>(
    alloc: Global,
    codecs: &[B],
    bytes: Vec<u8>,
) -> Result<Vec<u8>, CodecError>
    ensures { UndoesBytes (all_decoded (map B.meaning codecs.now)) bytes.items result }
{
    let mut inside = bytes;
    for k in (0..codecs.len()).rev() {
        inside = match codecs[k].decode(alloc, inside.as_slice()) {
            Ok(undone) => undone,
            Err(error) => return Err(error),
        };
    }
    Ok(inside)
}

/// What is known of the size of what the codecs make, by what is known of the size of what the
/// first is given. `Size` where one of them tells a size of 2^63 or more.
pub fn represent_all<B: BytesToBytesCodecTraits>(
    codecs: &[B],
    decoded: BytesRepresentation,
) -> Result<BytesRepresentation, CodecError>
    ensures { RepresentsAll (map B.meaning codecs.now) (known_size decoded) result }
{
    let mut known = decoded;
    for codec in codecs {
        known = codec.encoded_representation(known)?;
        if is_too_long(known) {
            return Err(CodecError::Size);
        }
    }
    Ok(known)
}

/// Equal codecs. `Err` only where an allocation failed.
pub fn copies<B: BytesToBytesCodecTraits>(alloc: Global, codecs: &[B]) -> Result<Vec<B>, AllocError>
    ensures { IfOk result (λ v. map B.meaning v.items ≡ map B.meaning codecs.now) }
{
    let mut copies = Vec::with_capacity(alloc, codecs.len())?;
    for codec in codecs {
        copies.push(copied(alloc, codec)?)?;
    }
    Ok(copies)
}

/// An equal codec, made of the codec's metadata: that fails only for want of memory.
fn copied<B: BytesToBytesCodecTraits>(alloc: Global, codec: &B) -> Result<B, AllocError>
    ensures { IfOk result (λ copy. B.meaning copy ≡ B.meaning codec.now) }
{
    let metadata = codec.metadata(alloc)?;
    match B::create(alloc, &metadata) {
        Ok(copy) => Ok(copy),
        Err(_) => Err(AllocError),
    }
}
