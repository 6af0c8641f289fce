//! `packbits` read from its metadata, and written as it.
ghost use Rattle.std.specs.Prelude.{◌≡◌, option_map, IfOk, IfErr, OnOk};
ghost use Rattle.serde_json.specs.View.{view, members_view};
ghost use Rattle.zarr_grids_metadata.specs.ExtensionPoints.{configuration_members};
ghost use Rattle.zarr_codecs_metadata.specs.PackBits.{bit_in, packbits_of, packbits_with, padding_in, padding_named};
ghost use Rattle.zarr_codecs_packbits.specs.Metadata.{packbits_members, padding_name, with_bit};
ghost use Rattle.zarr_codecs_packbits.specs.Views.{packbits_chain, padding_of};

use crate::codec::{PackBitsCodec, PackBitsPaddingEncoding};
use serde_json::{Map, Value, put};
use std::alloc::{AllocError, Global};
use zarr_grids_metadata::{MetadataV3, PluginCreateError, has_only, member};

impl PackBitsCodec {
    ghost use Rattle.std.specs.Prelude.{◌≡◌, Some, None, IfOk, IfErr};
    ghost use Rattle.zarr_grids_metadata.specs.Views.{point_of};
    ghost use Rattle.zarr_codecs_packbits.specs.Metadata.{packbits_in, packbits_point};
    ghost use Rattle.zarr_codecs_packbits.specs.Views.{packbits_chain};

    /// The codec that metadata describes. `NameUnsupported` where its name is not `packbits`,
    /// `MetadataInvalid` where its configuration has another member than a `padding_encoding` that
    /// is `none`, `first_byte` or `last_byte`, and a `first_bit` and a `last_bit` that are numbers
    /// from 0 to 2^64 - 1.
    pub fn from_metadata(metadata: &MetadataV3) -> Result<PackBitsCodec, PluginCreateError>
        ensures ok { IfOk result
            (λ codec. packbits_in (point_of metadata.now) ≡ Some (packbits_chain codec)) }
        ensures err { IfErr result (λ e. packbits_in (point_of metadata.now) ≡ None) }
    {
        if metadata.name() != "packbits" {
            return Err(PluginCreateError::NameUnsupported);
        }
        match configured(metadata.configuration()) {
            Some(codec) => Ok(codec),
            None => Err(PluginCreateError::MetadataInvalid),
        }
    }

    /// The codec's metadata, of which `from_metadata` makes an equal codec. `Err` only where an
    /// allocation failed.
    #[tactic(auto, using(crate::proofs::ReadsBack::read_back))]
    pub fn metadata(self, alloc: Global) -> Result<MetadataV3, AllocError>
        ensures written { IfOk result (λ metadata. point_of metadata ≡ packbits_point self) }
        ensures reads_back { IfOk result
            (λ metadata. packbits_in (point_of metadata) ≡ Some (packbits_chain self)) }
    {
        let name = String::from_str(alloc, "packbits")?;
        Ok(MetadataV3::new_with_configuration(name, members_of(alloc, self)?))
    }
}

/// The members of the configuration of a codec.
fn members_of(alloc: Global, codec: PackBitsCodec) -> Result<Map<String, Value>, AllocError>
    ensures { IfOk result (λ members. members_view members.entries ≡ packbits_members codec) }
{
    let padding = Value::try_from_str(alloc, padding_name(codec.padding))?;
    let mut members = Map::new(alloc);
    put(&mut members, alloc, "padding_encoding", padding)?;
    put_bit(&mut members, alloc, "first_bit", codec.first_bit)?;
    put_bit(&mut members, alloc, "last_bit", codec.last_bit)?;
    Ok(members)
}

/// The codec that a configuration gives.
fn configured(configuration: Option<&Map<String, Value>>) -> Option<PackBitsCodec>
    ensures { option_map packbits_chain result ≡ packbits_of (configuration_members
        (option_map (λ members. members_view members.now.entries) configuration.entry)) }
{
    match configuration {
        None => Some(PackBitsCodec::new(PackBitsPaddingEncoding::None, None, None)),
        Some(members) => {
            if has_only(members, &["padding_encoding", "first_bit", "last_bit"]) {
                configured_by(
                    member(members, "padding_encoding"),
                    member(members, "first_bit"),
                    member(members, "last_bit"),
                )
            } else {
                None
            }
        }
    }
}

/// The codec that these members give.
#[tactic(auto, using(crate::proofs::ReadsBack::all_told, crate::proofs::ReadsBack::last_untold))]
fn configured_by(
    padding: Option<&Value>,
    first_bit: Option<&Value>,
    last_bit: Option<&Value>,
) -> Option<PackBitsCodec>
    ensures { option_map packbits_chain result
        ≡ packbits_with (option_map (λ v. view v.now) padding.entry)
        (option_map (λ v. view v.now) first_bit.entry)
        (option_map (λ v. view v.now) last_bit.entry) }
{
    let padding = padding_in(padding)?;
    let first_bit = bit_in(first_bit)?;
    let last_bit = bit_in(last_bit)?;
    Some(PackBitsCodec::new(padding, first_bit, last_bit))
}

/// Where a member says that the padding is told.
fn padding_in(value: Option<&Value>) -> Option<PackBitsPaddingEncoding>
    ensures { option_map padding_of result
        ≡ padding_in (option_map (λ v. view v.now) value.entry) }
{
    match value {
        None => Some(PackBitsPaddingEncoding::None),
        Some(value) => padding_named(value.as_str()?),
    }
}

fn padding_named(name: &str) -> Option<PackBitsPaddingEncoding>
    ensures { option_map padding_of result ≡ padding_named name.now }
{
    match name {
        "none" => Some(PackBitsPaddingEncoding::None),
        "first_byte" => Some(PackBitsPaddingEncoding::FirstByte),
        "last_byte" => Some(PackBitsPaddingEncoding::LastByte),
        _ => None,
    }
}

fn padding_name(padding: PackBitsPaddingEncoding) -> &'static str
    ensures { result.now ≡ padding_name padding }
{
    match padding {
        PackBitsPaddingEncoding::None => "none",
        PackBitsPaddingEncoding::FirstByte => "first_byte",
        PackBitsPaddingEncoding::LastByte => "last_byte",
    }
}

/// The number of a bit that a member gives. The outer `None` is for a member that gives none.
fn bit_in(value: Option<&Value>) -> Option<Option<u64>>
    ensures { result ≡ bit_in (option_map (λ v. view v.now) value.entry) }
{
    match value {
        None => Some(None),
        Some(value) => {
            let bit = value.as_u64()?;
            Some(Some(bit))
        }
    }
}

/// Puts the number of a bit among members, where there is one.
fn put_bit(
    members: &mut Map<String, Value>,
    alloc: Global,
    name: &str,
    bit: Option<u64>,
) -> Result<(), AllocError>
    ensures { OnOk result (members_view members.new.entries
        ≡ with_bit name.now bit (members_view members.old.entries)) }
{
    match bit {
        None => Ok(()),
        Some(bit) => put(members, alloc, name, Value::from(bit)),
    }
}
