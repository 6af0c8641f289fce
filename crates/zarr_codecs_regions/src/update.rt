//! Elements of an array taken out of it, and replaced.
ghost use Rattle.zarr_codecs_types.specs.Views.{type_of};
ghost use Rattle.zarr_codecs_arrays.specs.Views.{payload_of};
ghost use Rattle.zarr_codecs_traits.specs.Indexers.{asked_of};
ghost use Rattle.zarr_codecs_regions.specs.Updates.{Extracts, Updates, array_places};

use crate::asked::test_asked;
use crate::putting::put_asked;
use crate::taking::take_asked;
use crate::whole::count_asked;
use std::alloc::Global;
use zarr_codecs_arrays::{ArrayBytes, CodecError};
use zarr_codecs_traits::Indexer;
use zarr_codecs_types::DataType;
use zarr_grids_boxes::walk::count_places;

/// The elements at the places of an array that are asked for, in their order. `bytes` has the
/// elements of the array, row-major, and `shape` says how many there are in each dimension.
/// `Size` where they are 2^63 or more, `InvalidNumberOfElements` where `bytes` has more or fewer,
/// `Expected..` where its form is another type's, `IncompatibleIndexer` where a place is not the
/// array's or a box has more or fewer dimensions.
pub fn extract_array_subset(
    alloc: Global,
    bytes: &ArrayBytes,
    shape: &[u64],
    indexer: Indexer<'_>,
    data_type: &DataType,
) -> Result<ArrayBytes, CodecError>
    ensures { Extracts (array_places (type_of data_type.now) shape.now (asked_of indexer.entry))
        (payload_of bytes.now) result }
{
    let Some(count) = count_places(shape) else {
        return Err(CodecError::Size);
    };
    match bytes.test_count(data_type, count) {
        Ok(()) => match test_asked(shape, indexer) {
            Ok(()) => Ok(take_asked(alloc, bytes, shape, indexer, data_type)?),
            Err(error) => Err(error),
        },
        Err(error) => Err(error),
    }
}

/// The elements of an array after new ones were put at the places that are asked for, in their
/// order: where a place is asked for twice, the last one stays. `bytes` has the elements of the
/// array, row-major, `shape` says how many there are in each dimension, and `update` has an element
/// for each place. `Size` where the array's are 2^63 or more, `InvalidNumberOfElements` where
/// `bytes` or `update` has more or fewer, `Expected..` where the form of one is another type's,
/// `IncompatibleIndexer` where a place is not the array's or a box has more or fewer dimensions.
pub fn update_array_bytes(
    alloc: Global,
    bytes: ArrayBytes,
    shape: &[u64],
    indexer: Indexer<'_>,
    update: &ArrayBytes,
    data_type: &DataType,
) -> Result<ArrayBytes, CodecError>
    ensures { Updates (array_places (type_of data_type.now) shape.now (asked_of indexer.entry))
        (payload_of bytes) (payload_of update.now) result }
{
    let Some(count) = count_places(shape) else {
        return Err(CodecError::Size);
    };
    match bytes.test_count(data_type, count) {
        Ok(()) => match test_asked(shape, indexer) {
            Ok(()) => match count_asked(shape, indexer) {
                Some(asked) => match update.test_count(data_type, asked) {
                    Ok(()) => Ok(put_asked(alloc, bytes, shape, indexer, update, data_type)?),
                    Err(error) => Err(error),
                },
                None => Err(CodecError::Size),
            },
            Err(error) => Err(error),
        },
        Err(error) => Err(error),
    }
}
