//! What was made of the pieces of a value or of an array.
ghost use Rattle.std.specs.Prelude.{◌≡◌, Ok, map, IfErr, IfOk};
ghost use Rattle.zarr_sharding_codec.specs.Pieces.{IsRefusalOf};

use std::alloc::Global;
use zarr_codecs_arrays::CodecError;

/// What was made of each piece, or why one of them was refused.
pub(crate) fn all_made<A: Drop>(
    alloc: Global,
    made: Vec<Result<A, CodecError>>,
) -> Result<Vec<A>, CodecError>
    ensures ok { IfOk result (λ found. map Ok found.items ≡ made.items) }
    ensures err { IfErr result (IsRefusalOf made.items) }
{
    let mut found = Vec::with_capacity(alloc, made.len())?;
    for piece in made {
        match piece {
            Ok(value) => found.push(value)?,
            Err(error) => return Err(error),
        }
    }
    Ok(found)
}
