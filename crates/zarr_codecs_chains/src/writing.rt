//! The metadata of a chain, and of the chains inside of it.
//!
//! What is written for an inner codec is moved into the configuration around it, so that the work
//! is as large as the metadata, however deep codecs nest.
ghost use Rattle.std.specs.Prelude.{◌≡◌, map, IfOk};
ghost use Rattle.serde_json.specs.View.{members_view, view};
ghost use Rattle.zarr_grids_metadata.specs.ExtensionPoints.{written_point};
ghost use Rattle.zarr_grids_metadata.specs.Views.{point_of};
ghost use Rattle.zarr_codecs_configurations.specs.Views.{optional_points, vlen_points};
ghost use Rattle.zarr_codecs_configurations.specs.Written.{optional_members, vlen_members};
ghost use Rattle.zarr_codecs_chains.specs.Names.{name_of_optional, name_of_vlen};
ghost use Rattle.zarr_codecs_chains.specs.Views.{codec_point, given_to_optional, given_to_vlen, points_of};

use crate::array_to_bytes::ArrayToBytesCodec;
use crate::chain::CodecChain;
use crate::optional::OptionalCodec;
use crate::vlen::VlenCodec;
use serde_json::{Map, Value};
use std::alloc::{AllocError, Global};
use zarr_codecs_around::array_metadata::array_metadatas;
use zarr_codecs_around::byte_metadata::push_metadatas;
use zarr_codecs_array_to_array::CodecName;
use zarr_codecs_configurations::{
    OptionalCodecConfiguration, VlenCodecConfiguration, configured_value, optional_members,
    push_values, vlen_members,
};
use zarr_codecs_traits::BytesToBytesCodecTraits;
use zarr_grids_metadata::MetadataV3;

/// The metadata of a chain's codecs, in their order.
pub(crate) fn chain_metadatas<B: BytesToBytesCodecTraits>(
    chain: &CodecChain<B>,
    alloc: Global,
) -> Result<Vec<MetadataV3>, AllocError>
    ensures { IfOk result
        (λ codecs. map point_of codecs.items ≡ points_of B.described chain.now) }
{
    let mut metadatas = array_metadatas(alloc, chain.array_to_array.as_slice())?;
    metadatas.push(codec_metadata(&chain.others.array_to_bytes, alloc)?)?;
    push_metadatas(
        &mut metadatas,
        alloc,
        chain.others.bytes_to_bytes.as_slice(),
    )?;
    Ok(metadatas)
}

/// The metadata of an array to bytes codec.
pub(crate) fn codec_metadata<B: BytesToBytesCodecTraits>(
    codec: &ArrayToBytesCodec<B>,
    alloc: Global,
) -> Result<MetadataV3, AllocError>
    ensures { IfOk result
        (λ metadata. point_of metadata ≡ codec_point B.described codec.now) }
{
    match codec {
        ArrayToBytesCodec::Bytes(codec) => codec.metadata(alloc),
        ArrayToBytesCodec::PackBits(codec) => codec.metadata(alloc),
        ArrayToBytesCodec::Vlen(codec) => {
            let name = String::from_str(alloc, vlen_name(codec.name))?;
            let members = members_of_vlen(codec, alloc)?;
            Ok(MetadataV3::new_with_configuration(name, members))
        }
        ArrayToBytesCodec::Optional(codec) => {
            let name = String::from_str(alloc, optional_name(codec.name))?;
            let members = members_of_optional(codec, alloc)?;
            Ok(MetadataV3::new_with_configuration(name, members))
        }
    }
}

/// What `vlen` is configured by.
pub(crate) fn vlen_configuration<B: BytesToBytesCodecTraits>(
    codec: &VlenCodec<B>,
    alloc: Global,
) -> Result<VlenCodecConfiguration, AllocError>
    ensures { IfOk result (λ configuration.
        vlen_points configuration ≡ given_to_vlen B.described codec.now) }
{
    let index_codecs = chain_metadatas(&codec.index_codecs, alloc)?;
    let data_codecs = chain_metadatas(&codec.data_codecs, alloc)?;
    Ok(VlenCodecConfiguration {
        index_codecs,
        data_codecs,
        index_data_type: codec.index_data_type,
        index_location: codec.index_location,
    })
}

/// What `optional` is configured by.
pub(crate) fn optional_configuration<B: BytesToBytesCodecTraits>(
    codec: &OptionalCodec<B>,
    alloc: Global,
) -> Result<OptionalCodecConfiguration, AllocError>
    ensures { IfOk result (λ configuration.
        optional_points configuration ≡ given_to_optional B.described codec.now) }
{
    let mask_codecs = chain_metadatas(&codec.mask_codecs, alloc)?;
    let data_codecs = chain_metadatas(&codec.data_codecs, alloc)?;
    Ok(OptionalCodecConfiguration {
        mask_codecs,
        data_codecs,
    })
}

/// The JSON values that are written for a chain's codecs, in their order.
#[cycle(writing)]
fn chain_values<B: BytesToBytesCodecTraits>(
    chain: &CodecChain<B>,
    alloc: Global,
) -> Result<Vec<Value>, AllocError>
    ensures { IfOk result (λ values. map view values.items
        ≡ map written_point (points_of B.described chain.now)) }
{
    let before = array_metadatas(alloc, chain.array_to_array.as_slice())?;
    let mut after = Vec::new(alloc);
    push_metadatas(&mut after, alloc, chain.others.bytes_to_bytes.as_slice())?;
    let mut values = Vec::new(alloc);
    push_values(&mut values, alloc, before.as_slice())?;
    values.push(codec_value(&chain.others.array_to_bytes, alloc)?)?;
    push_values(&mut values, alloc, after.as_slice())?;
    Ok(values)
}

/// The JSON value that is written for an array to bytes codec.
#[cycle(writing)]
fn codec_value<B: BytesToBytesCodecTraits>(
    codec: &ArrayToBytesCodec<B>,
    alloc: Global,
) -> Result<Value, AllocError>
    ensures { IfOk result
        (λ value. view value ≡ written_point (codec_point B.described codec.now)) }
{
    match codec {
        ArrayToBytesCodec::Bytes(codec) => codec.metadata(alloc)?.to_value(alloc),
        ArrayToBytesCodec::PackBits(codec) => codec.metadata(alloc)?.to_value(alloc),
        ArrayToBytesCodec::Vlen(codec) => {
            let members = members_of_vlen(codec, alloc)?;
            configured_value(alloc, vlen_name(codec.name), members)
        }
        ArrayToBytesCodec::Optional(codec) => {
            let members = members_of_optional(codec, alloc)?;
            configured_value(alloc, optional_name(codec.name), members)
        }
    }
}

/// The members of the configuration of `vlen`.
#[cycle(writing)]
fn members_of_vlen<B: BytesToBytesCodecTraits>(
    codec: &VlenCodec<B>,
    alloc: Global,
) -> Result<Map<String, Value>, AllocError>
    ensures { IfOk result (λ members. members_view members.entries
        ≡ vlen_members (given_to_vlen B.described codec.now)) }
{
    let index_codecs = chain_values(&codec.index_codecs, alloc)?;
    let data_codecs = chain_values(&codec.data_codecs, alloc)?;
    let data_type = codec.index_data_type;
    vlen_members(
        alloc,
        index_codecs,
        data_codecs,
        data_type,
        codec.index_location,
    )
}

/// The members of the configuration of `optional`.
#[cycle(writing)]
fn members_of_optional<B: BytesToBytesCodecTraits>(
    codec: &OptionalCodec<B>,
    alloc: Global,
) -> Result<Map<String, Value>, AllocError>
    ensures { IfOk result (λ members. members_view members.entries
        ≡ optional_members (given_to_optional B.described codec.now)) }
{
    let mask_codecs = chain_values(&codec.mask_codecs, alloc)?;
    let data_codecs = chain_values(&codec.data_codecs, alloc)?;
    optional_members(alloc, mask_codecs, data_codecs)
}

fn vlen_name(name: CodecName) -> &'static str
    ensures { result.now ≡ name_of_vlen name }
{
    match name {
        CodecName::Default => "vlen",
        CodecName::Alias => "zarrs.vlen",
    }
}

fn optional_name(name: CodecName) -> &'static str
    ensures { result.now ≡ name_of_optional name }
{
    match name {
        CodecName::Default => "optional",
        CodecName::Alias => "zarrs.optional",
    }
}
