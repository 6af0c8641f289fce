//! Array to array codecs and their metadata, one after another.
ghost use Rattle.std.specs.Prelude.{◌≡◌, ◌≢◌, ◌≤◌, ◌++◌, drop, length, map, take, true, false, Some, None, IfOk, IfErr, OnOk};
ghost use Rattle.zarr_grids_metadata.specs.Views.{point_of, point_view};
ghost use Rattle.zarr_codecs_array_to_array.specs.Names.{written_codec};
ghost use Rattle.zarr_codecs_array_to_array.specs.Refusals.{cause_of, names_array_codec};
ghost use Rattle.zarr_codecs_array_to_array.specs.Views.{codec_of};
ghost use Rattle.zarr_codecs_metadata.specs.ArrayCodecs.{array_codec_in};
ghost use Rattle.zarr_codecs_around.specs.ArrayMetadata.{array_codecs_of, is_array_codec_misconfigured};
ghost use Rattle.zarr_codecs_around.specs.Views.{array_points, codecs_of};

use std::alloc::{AllocError, Global};
use zarr_codecs_array_to_array::ArrayToArrayCodec;
use zarr_grids_metadata::{ExtensionPoint, MetadataV3, PluginCreateError};

/// The same metadata, lent. `Err` only where an allocation failed.
pub fn points_of(
    alloc: Global,
    metadatas: &[MetadataV3],
) -> Result<Vec<ExtensionPoint<'_>>, AllocError>
    ensures { IfOk result (λ points. map point_view points.items ≡ map point_of metadatas.now) }
{
    let mut points = Vec::with_capacity(alloc, metadatas.len())?;
    for metadata in metadatas {
        points.push(metadata.as_point())?;
    }
    Ok(points)
}

/// The array to array codecs that metadata begins with. `MetadataInvalid` where the configuration
/// of one of them is not one of its name's. Metadata after them isn't copied, however large it is.
pub fn first_array_codecs(
    alloc: Global,
    codecs: &[ExtensionPoint<'_>],
) -> Result<Vec<ArrayToArrayCodec>, PluginCreateError>
    ensures first { IfOk result
        (λ found. codecs_of found.items ≡ array_codecs_of (map point_view codecs.now)) }
    ensures few { IfOk result (λ found. length found.items ≤ length codecs.now) }
    ensures names { IfOk result (λ found. map (λ codec. (written_codec codec).name) found.items
        ≡ map (λ point. (point_view point).name) (take (length found.items) codecs.now)) }
    ensures all { IfOk result
        (λ found. is_array_codec_misconfigured (map point_view codecs.now) ≡ false) }
    ensures cause { IfErr result
        (λ e. e ≢ PluginCreateError.Memory → e ≡ PluginCreateError.MetadataInvalid) }
    ensures refused { IfErr result (λ e. e ≢ PluginCreateError.Memory
        → is_array_codec_misconfigured (map point_view codecs.now) ≡ true) }
{
    let mut array_to_array = Vec::new(alloc);
    for point in codecs {
        if !names_array_codec(point.name) {
            return Ok(array_to_array);
        }
        match read_array_codec(alloc, *point) {
            Ok(codec) => if let Err(_failed) = array_to_array.push(codec) {
                return Err(PluginCreateError::Memory);
            },
            Err(error) => return Err(error),
        }
    }
    Ok(array_to_array)
}

/// Whether this is the name of an array to array codec.
fn names_array_codec(name: &str) -> bool
    ensures { result ≡ names_array_codec name.now }
{
    matches!(name, "transpose" | "reshape" | "squeeze" | "zarrs.squeeze")
}

/// The array to array codec that an extension point describes.
fn read_array_codec(
    alloc: Global,
    point: ExtensionPoint<'_>,
) -> Result<ArrayToArrayCodec, PluginCreateError>
    ensures ok { IfOk result
        (λ codec. array_codec_in (point_view point.entry) ≡ Some (codec_of codec)) }
    ensures name { IfOk result
        (λ codec. (written_codec codec).name ≡ (point_view point.entry).name) }
    ensures err { IfErr result (λ e. e ≢ PluginCreateError.Memory
        → array_codec_in (point_view point.entry) ≡ None) }
    ensures cause { IfErr result (λ e. e ≢ PluginCreateError.Memory
        → e ≡ cause_of (names_array_codec (point_view point.entry).name)) }
{
    let metadata = MetadataV3::from_point(alloc, point)?;
    ArrayToArrayCodec::from_metadata(alloc, &metadata)
}

/// What metadata says after the array to array codecs that were read of it.
pub fn rest_after<'m, 'v>(
    codecs: &'m [ExtensionPoint<'v>],
    read: &[ArrayToArrayCodec],
) -> &'m [ExtensionPoint<'v>]
    requires { length read.now ≤ length codecs.now }
    ensures { result.now ≡ drop (length read.now) codecs.now }
{
    &codecs[read.len()..]
}

/// The metadata of array codecs, each of which is read back as an equal codec.
pub fn array_metadatas(
    alloc: Global,
    codecs: &[ArrayToArrayCodec],
) -> Result<Vec<MetadataV3>, AllocError>
    ensures written { IfOk result
        (λ metadatas. map point_of metadatas.items ≡ array_points codecs.now) }
    ensures reads_back { IfOk result (λ metadatas.
        map array_codec_in (map point_of metadatas.items) ≡ map Some (codecs_of codecs.now)) }
{
    let mut metadatas = Vec::new(alloc);
    for codec in codecs {
        metadatas.push(codec.metadata(alloc)?)?;
    }
    Ok(metadatas)
}

/// Equal codecs, under the names that they have. `Err` only where an allocation failed.
pub fn array_copies(
    alloc: Global,
    codecs: &[ArrayToArrayCodec],
) -> Result<Vec<ArrayToArrayCodec>, AllocError>
    ensures meaning { IfOk result (λ copies. codecs_of copies.items ≡ codecs_of codecs.now) }
    ensures written { IfOk result (λ copies. array_points copies.items ≡ array_points codecs.now) }
{
    let mut copies = Vec::with_capacity(alloc, codecs.len())?;
    for codec in codecs {
        copies.push(codec.try_clone(alloc)?)?;
    }
    Ok(copies)
}
