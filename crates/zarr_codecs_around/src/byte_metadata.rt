//! The caller's codecs read from their metadata, and written as it.
ghost use Rattle.std.specs.Prelude.{◌≡◌, ◌≢◌, ◌++◌, map, Some, None, IfOk, IfErr, OnOk};
ghost use Rattle.zarr_grids_metadata.specs.Views.{point_of, point_view};
ghost use Rattle.zarr_codecs_around.specs.Codecs.{codecs_in};

use std::alloc::{AllocError, Global};
use zarr_codecs_traits::BytesToBytesCodecTraits;
use zarr_grids_metadata::{ExtensionPoint, MetadataV3, PluginCreateError};

/// The caller's codecs that metadata names and describes, in their order.
pub fn read_codecs<B: BytesToBytesCodecTraits>(
    alloc: Global,
    points: &[ExtensionPoint<'_>],
) -> Result<Vec<B>, PluginCreateError>
    ensures ok { IfOk result (λ codecs.
        codecs_in B.reads (map point_view points.now) ≡ Some (map B.meaning codecs.items)) }
    ensures err { IfErr result (λ e. e ≢ PluginCreateError.Memory
        → codecs_in B.reads (map point_view points.now) ≡ None) }
{
    let mut codecs = Vec::new(alloc);
    for point in points {
        let metadata = MetadataV3::from_point(alloc, *point)?;
        match B::create(alloc, &metadata) {
            Ok(codec) => if let Err(_failed) = codecs.push(codec) {
                return Err(PluginCreateError::Memory);
            },
            Err(error) => return Err(error),
        }
    }
    Ok(codecs)
}

/// Appends the metadata of the caller's codecs.
pub fn push_metadatas<B: BytesToBytesCodecTraits>(
    metadatas: &mut Vec<MetadataV3>,
    alloc: Global,
    codecs: &[B],
) -> Result<(), AllocError>
    ensures { OnOk result (map point_of metadatas.new.items
        ≡ map point_of metadatas.old.items ++ map B.described codecs.now) }
{
    for codec in codecs {
        metadatas.push(codec.metadata(alloc)?)?;
    }
    Ok(())
}
