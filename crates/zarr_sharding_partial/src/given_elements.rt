//! Elements that are given for places of an array.
ghost use Rattle.std.specs.Prelude.{◌<◌, ◌^◌, IfErr, OnOk};
ghost use Rattle.zarr_codecs_arrays.specs.Views.{elements_of, payload_of};
ghost use Rattle.zarr_codecs_traits.specs.Indexers.{asked_of, numbers_asked};
ghost use Rattle.zarr_grids_boxes.specs.Boxes.{product};
ghost use Rattle.zarr_sharding_partial.specs.Puts.{AreAsked, NotGiven};

use zarr_codecs_arrays::{ArrayBytes, CodecError};
use zarr_codecs_regions::{count_asked, test_asked};
use zarr_codecs_traits::{Indexer, WholeArray};

/// Nothing, where these are elements for the places that are asked for, one for each.
/// `IncompatibleIndexer` where a place is none of the array's; `InvalidNumberOfElements`,
/// `Expected..` or `CellOutOfRange` where these are not elements, one for each place.
pub(crate) fn test_given(
    array: WholeArray<'_>,
    indexer: Indexer<'_>,
    bytes: &ArrayBytes,
) -> Result<(), CodecError>
    requires { product array.shape.now < 2 ^ 63 }
    ensures ok { OnOk result (AreAsked (elements_of array.entry.elements.now)
        array.entry.shape.now (asked_of indexer.entry) (payload_of bytes.now)
        (numbers_asked array.entry.shape.now (asked_of indexer.entry))) }
    ensures cause { IfErr result (NotGiven (elements_of array.entry.elements.now)
        array.entry.shape.now (asked_of indexer.entry) (payload_of bytes.now)) }
{
    if let Err(error) = test_asked(array.shape, indexer) {
        return Err(error);
    }
    let Some(count) = count_asked(array.shape, indexer) else {
        return Err(CodecError::Memory);
    };
    match bytes.validate(array.elements.data_type(), count) {
        Ok(()) => Ok(()),
        Err(error) => Err(error),
    }
}
