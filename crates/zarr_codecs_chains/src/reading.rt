//! Chains read from the metadata of their codecs.
//!
//! Metadata is lent to all levels of codecs, so that the work is as large as the metadata, however
//! deep codecs nest.
ghost use Rattle.std.specs.Prelude.{◌≡◌, ◌≢◌, ℕ, List, [], bytes_eq, codes, map, true, false, Option, Some, None, IfOk, IfErr};
ghost use Rattle.zarr_grids_metadata.specs.ExtensionPoints.{configuration_members};
ghost use Rattle.zarr_grids_metadata.specs.Views.{point_of, point_view};
ghost use Rattle.zarr_codecs_meaning.specs.Chains.{Chain};
ghost use Rattle.zarr_codecs_metadata.specs.Chains.{allowed_chain, array_to_bytes_in, bytes_chain_of, bytes_in, chain_of, listed_chain};
ghost use Rattle.zarr_codecs_metadata.specs.Sections.{names_optional, names_vlen, optional_of, vlen_of};
ghost use Rattle.zarr_codecs_packbits.specs.Metadata.{packbits_in};
ghost use Rattle.zarr_grids_metadata.specs.ExtensionPoints as points;
ghost use Rattle.zarr_codecs_chains.specs.Names.{NameAll, Names, NamesChain, NamesOptional, NamesVlen, name_of_optional, name_of_vlen};
ghost use Rattle.zarr_codecs_chains.specs.Reading.{leaf_in};
ghost use Rattle.zarr_codecs_array_to_array.specs.Refusals.{cause_of};
ghost use Rattle.zarr_codecs_chains.specs.Refusals.{RefusedChain, RefusedCodec, RefusesChain, names_leaf};
ghost use Rattle.zarr_codecs_around.specs.ArrayMetadata.{begins_with_array_codec};
ghost use Rattle.zarr_codecs_chains.specs.Views.{bytes_meaning, codec_chain, meaning_of, optional_chain, vlen_chain};

use crate::allowing::is_allowed;
use crate::array_to_bytes::ArrayToBytesCodec;
use crate::bytes_chain::BytesChain;
use crate::chain::CodecChain;
use crate::optional::OptionalCodec;
use crate::vlen::VlenCodec;
use std::alloc::{AllocError, Global};
use zarr_codecs_around::array_metadata::{first_array_codecs, points_of, rest_after};
use zarr_codecs_around::byte_metadata::read_codecs;
use zarr_codecs_array_to_array::CodecName;
use zarr_codecs_bytes::BytesCodec;
use zarr_codecs_configurations::{LentOptionalConfiguration, LentVlenConfiguration};
use zarr_codecs_packbits::PackBitsCodec;
use zarr_codecs_traits::BytesToBytesCodecTraits;
use zarr_grids_metadata::{ExtensionPoint, MetadataV3, PluginCreateError};

/// The chain that metadata says, for metadata whose depth was tested, as a document's is. It
/// refuses as `CodecChain::from_metadata` does, except for the `TooDeep` that comes there before
/// all else.
pub fn read_allowed<B: BytesToBytesCodecTraits>(
    alloc: Global,
    codecs: &[MetadataV3],
) -> Result<CodecChain<B>, PluginCreateError>
    ensures ok { IfOk result (λ chain.
        allowed_chain B.reads (map point_of codecs.now) ≡ Some (meaning_of B.meaning chain)) }
    ensures names { IfOk result (λ chain. NamesChain chain (map point_of codecs.now)) }
    ensures err { IfErr result (λ e. e ≢ PluginCreateError.Memory →
        allowed_chain B.reads (map point_of codecs.now) ≡ None) }
    ensures refused { IfErr result (λ e. e ≢ PluginCreateError.Memory →
        RefusesChain B.reads (map point_of codecs.now) e) }
{
    let points = points_of(alloc, codecs)?;
    read_allowed_points(alloc, points.as_slice())
}

/// The chain that lent metadata says, where its array to array codecs may stand there.
fn read_allowed_points<B: BytesToBytesCodecTraits>(
    alloc: Global,
    codecs: &[ExtensionPoint<'_>],
) -> Result<CodecChain<B>, PluginCreateError>
    ensures ok { IfOk result (λ chain.
        allowed_chain B.reads (map point_view codecs.now) ≡ Some (meaning_of B.meaning chain)) }
    ensures names { IfOk result (λ chain. NamesChain chain (map point_view codecs.now)) }
    ensures err { IfErr result (λ e. e ≢ PluginCreateError.Memory →
        allowed_chain B.reads (map point_view codecs.now) ≡ None) }
    ensures refused { IfErr result (λ e. e ≢ PluginCreateError.Memory →
        RefusesChain B.reads (map point_view codecs.now) e) }
{
    match read_chain(alloc, codecs) {
        Ok(chain) => if is_allowed(&chain) {
            Ok(chain)
        } else {
            Err(PluginCreateError::MetadataInvalid)
        },
        Err(error) => Err(error),
    }
}

/// The chain that metadata says. Whether its array to array codecs may stand there isn't asked.
#[cycle(reading)]
pub(crate) fn read_chain<B: BytesToBytesCodecTraits>(
    alloc: Global,
    codecs: &[ExtensionPoint<'_>],
) -> Result<CodecChain<B>, PluginCreateError>
    ensures ok { IfOk result (λ chain.
        chain_of B.reads (map point_view codecs.now) ≡ Some (meaning_of B.meaning chain)) }
    ensures names { IfOk result (λ chain. NamesChain chain (map point_view codecs.now)) }
    ensures err { IfErr result (λ e. e ≢ PluginCreateError.Memory →
        chain_of B.reads (map point_view codecs.now) ≡ None) }
    ensures refused { IfErr result (λ e. e ≢ PluginCreateError.Memory →
        RefusedChain B.reads (map point_view codecs.now) e) }
{
    let array_to_array = match first_array_codecs(alloc, codecs) {
        Ok(array_to_array) => array_to_array,
        Err(error) => return Err(error),
    };
    match read_bytes_chain(alloc, rest_after(codecs, array_to_array.as_slice())) {
        Ok(others) => Ok(CodecChain {
            array_to_array,
            others,
        }),
        Err(error) => Err(error),
    }
}

/// The chain that metadata without array to array codecs says.
#[cycle(reading)]
fn read_bytes_chain<B: BytesToBytesCodecTraits>(
    alloc: Global,
    codecs: &[ExtensionPoint<'_>],
) -> Result<BytesChain<B>, PluginCreateError>
    ensures ok { IfOk result (λ chain.
        bytes_chain_of B.reads (map point_view codecs.now) ≡ Some (bytes_meaning B.meaning chain)) }
    ensures names { IfOk result
        (λ chain. NameAll [] (Names chain.array_to_bytes) (map point_view codecs.now)) }
    ensures err { IfErr result (λ e. e ≢ PluginCreateError.Memory →
        bytes_chain_of B.reads (map point_view codecs.now) ≡ None) }
    ensures refused { begins_with_array_codec (map point_view codecs.now) ≡ false
        → IfErr result (λ e. e ≢ PluginCreateError.Memory →
        RefusedChain B.reads (map point_view codecs.now) e) }
{
    let Some((first, others)) = codecs.split_first() else {
        return Err(PluginCreateError::MetadataInvalid);
    };
    let array_to_bytes = match read_codec(alloc, *first) {
        Ok(codec) => codec,
        Err(error) => return Err(error),
    };
    match read_codecs(alloc, others) {
        Ok(bytes_to_bytes) => Ok(BytesChain {
            array_to_bytes,
            bytes_to_bytes,
        }),
        Err(error) => Err(error),
    }
}

/// The array to bytes codec that metadata describes, with all chains inside of it.
#[cycle(reading)]
pub(crate) fn read_codec<B: BytesToBytesCodecTraits>(
    alloc: Global,
    point: ExtensionPoint<'_>,
) -> Result<ArrayToBytesCodec<B>, PluginCreateError>
    ensures ok { IfOk result (λ codec. array_to_bytes_in B.reads (point_view point.entry)
        ≡ Some (codec_chain B.meaning codec)) }
    ensures names { IfOk result (λ codec. Names codec (point_view point.entry)) }
    ensures err { IfErr result (λ e. e ≢ PluginCreateError.Memory →
        array_to_bytes_in B.reads (point_view point.entry) ≡ None) }
    ensures refused { IfErr result (λ e. e ≢ PluginCreateError.Memory →
        RefusedCodec B.reads (point_view point.entry) e) }
{
    if names_vlen(point.name) {
        return boxed_vlen(alloc, read_vlen(alloc, point));
    }
    if names_optional(point.name) {
        return boxed_optional(alloc, read_optional(alloc, point));
    }
    read_leaf(alloc, point)
}

/// The codec `vlen` that the configuration in metadata gives.
#[cycle(reading)]
fn read_vlen<B: BytesToBytesCodecTraits>(
    alloc: Global,
    point: ExtensionPoint<'_>,
) -> Result<VlenCodec<B>, PluginCreateError>
    ensures ok { IfOk result (λ codec. vlen_of (listed_chain B.reads)
        (configuration_members (point_view point.entry).configuration)
        ≡ Some (vlen_chain B.meaning codec)) }
    ensures names { names_vlen (point_view point.entry).name ≡ true
        → IfOk result (λ codec. NamesVlen codec (point_view point.entry)) }
    ensures err { IfErr result (λ e. e ≢ PluginCreateError.Memory →
        vlen_of (listed_chain B.reads)
        (configuration_members (point_view point.entry).configuration) ≡ None) }
    ensures refused { names_vlen (point_view point.entry).name ≡ true
        → IfErr result (λ e. e ≢ PluginCreateError.Memory →
        RefusedCodec B.reads (point_view point.entry) e) }
{
    let configuration = match LentVlenConfiguration::read(alloc, point) {
        Ok(configuration) => configuration,
        Err(error) => return Err(error),
    };
    let index_codecs = match read_chain(alloc, configuration.index_codecs.as_slice()) {
        Ok(chain) => chain,
        Err(error) => return Err(error),
    };
    match read_chain(alloc, configuration.data_codecs.as_slice()) {
        Ok(data_codecs) => Ok(VlenCodec {
            index_codecs,
            data_codecs,
            index_data_type: configuration.index_data_type,
            index_location: configuration.index_location,
            name: vlen_name(point.name),
        }),
        Err(error) => Err(error),
    }
}

/// The codec `optional` that the configuration in metadata gives.
#[cycle(reading)]
fn read_optional<B: BytesToBytesCodecTraits>(
    alloc: Global,
    point: ExtensionPoint<'_>,
) -> Result<OptionalCodec<B>, PluginCreateError>
    ensures ok { IfOk result (λ codec. optional_of (listed_chain B.reads)
        (configuration_members (point_view point.entry).configuration)
        ≡ Some (optional_chain B.meaning codec)) }
    ensures names { names_optional (point_view point.entry).name ≡ true
        → IfOk result (λ codec. NamesOptional codec (point_view point.entry)) }
    ensures err { IfErr result (λ e. e ≢ PluginCreateError.Memory →
        optional_of (listed_chain B.reads)
        (configuration_members (point_view point.entry).configuration) ≡ None) }
    ensures refused { names_optional (point_view point.entry).name ≡ true
        → IfErr result (λ e. e ≢ PluginCreateError.Memory →
        RefusedCodec B.reads (point_view point.entry) e) }
{
    let configuration = match LentOptionalConfiguration::read(alloc, point) {
        Ok(configuration) => configuration,
        Err(error) => return Err(error),
    };
    let mask_codecs = match read_chain(alloc, configuration.mask_codecs.as_slice()) {
        Ok(chain) => chain,
        Err(error) => return Err(error),
    };
    match read_chain(alloc, configuration.data_codecs.as_slice()) {
        Ok(data_codecs) => Ok(OptionalCodec {
            mask_codecs,
            data_codecs,
            name: optional_name(point.name),
        }),
        Err(error) => Err(error),
    }
}

/// Any array to bytes codec, of `vlen` as it was read.
fn boxed_vlen<B: BytesToBytesCodecTraits>(
    alloc: Global,
    read: Result<VlenCodec<B>, PluginCreateError>,
) -> Result<ArrayToBytesCodec<B>, PluginCreateError>
    ensures ok { (said : Option Chain)
        → IfOk read (λ codec. said ≡ Some (vlen_chain B.meaning codec))
        → IfOk result (λ codec. said ≡ Some (codec_chain B.meaning codec)) }
    ensures names { (point : points.ExtensionPoint) → IfOk read (λ codec. NamesVlen codec point)
        → IfOk result (λ codec. Names codec point) }
    ensures err { (said : Option Chain) →
        IfErr read (λ e. e ≢ PluginCreateError.Memory → said ≡ None)
        → IfErr result (λ e. e ≢ PluginCreateError.Memory → said ≡ None) }
    ensures refused { (point : points.ExtensionPoint) →
        IfErr read (λ e. e ≢ PluginCreateError.Memory → RefusedCodec B.reads point e)
        → IfErr result (λ e. e ≢ PluginCreateError.Memory → RefusedCodec B.reads point e) }
{
    match read {
        Ok(codec) => match Box::new(alloc, codec) {
            Ok(codec) => Ok(ArrayToBytesCodec::Vlen(codec)),
            Err(_failed) => Err(PluginCreateError::Memory),
        },
        Err(error) => Err(error),
    }
}

/// Any array to bytes codec, of `optional` as it was read.
fn boxed_optional<B: BytesToBytesCodecTraits>(
    alloc: Global,
    read: Result<OptionalCodec<B>, PluginCreateError>,
) -> Result<ArrayToBytesCodec<B>, PluginCreateError>
    ensures ok { (said : Option Chain) →
        IfOk read (λ codec. said ≡ Some (optional_chain B.meaning codec))
        → IfOk result (λ codec. said ≡ Some (codec_chain B.meaning codec)) }
    ensures names { (point : points.ExtensionPoint) → IfOk read (λ codec. NamesOptional codec point)
        → IfOk result (λ codec. Names codec point) }
    ensures err { (said : Option Chain) →
        IfErr read (λ e. e ≢ PluginCreateError.Memory → said ≡ None)
        → IfErr result (λ e. e ≢ PluginCreateError.Memory → said ≡ None) }
    ensures refused { (point : points.ExtensionPoint) →
        IfErr read (λ e. e ≢ PluginCreateError.Memory → RefusedCodec B.reads point e)
        → IfErr result (λ e. e ≢ PluginCreateError.Memory → RefusedCodec B.reads point e) }
{
    match read {
        Ok(codec) => match Box::new(alloc, codec) {
            Ok(codec) => Ok(ArrayToBytesCodec::Optional(codec)),
            Err(_failed) => Err(PluginCreateError::Memory),
        },
        Err(error) => Err(error),
    }
}

/// The codec without chains inside of it that metadata describes: `bytes` or `packbits`.
fn read_leaf<B: BytesToBytesCodecTraits>(
    alloc: Global,
    point: ExtensionPoint<'_>,
) -> Result<ArrayToBytesCodec<B>, PluginCreateError>
    ensures ok { IfOk result
        (λ codec. leaf_in (point_view point.entry) ≡ Some (codec_chain B.meaning codec)) }
    ensures names { IfOk result (λ codec. Names codec (point_view point.entry)) }
    ensures err { IfErr result (λ e. e ≢ PluginCreateError.Memory
        → leaf_in (point_view point.entry) ≡ None) }
    ensures cause { IfErr result (λ e. e ≢ PluginCreateError.Memory
        → e ≡ cause_of (names_leaf (point_view point.entry).name)) }
{
    if names_packbits(point.name) {
        return read_packbits(alloc, point);
    }
    if names_bytes(point.name) {
        return read_bytes(alloc, point);
    }
    Err(PluginCreateError::NameUnsupported)
}

/// The codec `packbits` that metadata describes. `MetadataInvalid` where it describes none.
fn read_packbits<B: BytesToBytesCodecTraits>(
    alloc: Global,
    point: ExtensionPoint<'_>,
) -> Result<ArrayToBytesCodec<B>, PluginCreateError>
    ensures ok { IfOk result
        (λ codec. packbits_in (point_view point.entry) ≡ Some (codec_chain B.meaning codec)) }
    ensures names { IfOk result (λ codec. Names codec (point_view point.entry)) }
    ensures err { IfErr result (λ e. e ≢ PluginCreateError.Memory
        → packbits_in (point_view point.entry) ≡ None) }
    ensures cause { IfErr result
        (λ e. e ≢ PluginCreateError.Memory → e ≡ PluginCreateError.MetadataInvalid) }
{
    let metadata = MetadataV3::from_point(alloc, point)?;
    match PackBitsCodec::from_metadata(&metadata) {
        Ok(codec) => Ok(ArrayToBytesCodec::PackBits(codec)),
        Err(_none) => Err(PluginCreateError::MetadataInvalid),
    }
}

/// The codec `bytes` that metadata describes. `MetadataInvalid` where it describes none.
fn read_bytes<B: BytesToBytesCodecTraits>(
    alloc: Global,
    point: ExtensionPoint<'_>,
) -> Result<ArrayToBytesCodec<B>, PluginCreateError>
    ensures ok { IfOk result
        (λ codec. bytes_in (point_view point.entry) ≡ Some (codec_chain B.meaning codec)) }
    ensures names { IfOk result (λ codec. Names codec (point_view point.entry)) }
    ensures err { IfErr result (λ e. e ≢ PluginCreateError.Memory
        → bytes_in (point_view point.entry) ≡ None) }
    ensures cause { IfErr result
        (λ e. e ≢ PluginCreateError.Memory → e ≡ PluginCreateError.MetadataInvalid) }
{
    let metadata = MetadataV3::from_point(alloc, point)?;
    match BytesCodec::from_metadata(&metadata) {
        Ok(codec) => Ok(ArrayToBytesCodec::Bytes(codec)),
        Err(_none) => Err(PluginCreateError::MetadataInvalid),
    }
}

fn names_vlen(name: &str) -> bool
    ensures { result ≡ names_vlen name.now }
{
    name == "vlen" || name == "zarrs.vlen"
}

/// Which name of `vlen` this is.
fn vlen_name(name: &str) -> CodecName
    ensures { names_vlen name.now ≡ true → name_of_vlen result ≡ name.now }
{
    match name {
        "zarrs.vlen" => CodecName::Alias,
        _ => CodecName::Default,
    }
}

fn names_optional(name: &str) -> bool
    ensures { result ≡ names_optional name.now }
{
    name == "optional" || name == "zarrs.optional"
}

/// Which name of `optional` this is.
fn optional_name(name: &str) -> CodecName
    ensures { names_optional name.now ≡ true → name_of_optional result ≡ name.now }
{
    match name {
        "zarrs.optional" => CodecName::Alias,
        _ => CodecName::Default,
    }
}

fn names_bytes(name: &str) -> bool
    ensures { result ≡ bytes_eq name.now (codes "bytes") }
{
    name == "bytes"
}

fn names_packbits(name: &str) -> bool
    ensures { result ≡ bytes_eq name.now (codes "packbits") }
{
    name == "packbits"
}
