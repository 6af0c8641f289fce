//! The metadata of `bytes`.
ghost use Rattle.std.specs.Prelude.{◌≡◌, option_map};
ghost use Rattle.serde_json.specs.View.{view, members_view};
ghost use Rattle.zarr_grids_metadata.specs.ExtensionPoints.{configuration_members};
ghost use Rattle.zarr_grids_metadata.specs.Views.{point_of};
ghost use Rattle.zarr_codecs_meaning.specs.Chains.Chain.{bytes};
ghost use Rattle.zarr_codecs_metadata.specs.Chains.{endianness_named, endian_in, bytes_of};
ghost use Rattle.zarr_codecs_bytes.specs.Views.{order_of, order_name};

use crate::bytes::{BytesCodec, Endianness};
use serde_json::{Map, Value, put};
use std::alloc::{AllocError, Global};
use zarr_grids_metadata::{MetadataV3, PluginCreateError, has_only, member};

impl BytesCodec {
    ghost use Rattle.std.specs.Prelude.{◌≡◌, Some, None, IfOk, IfErr};
    ghost use Rattle.zarr_grids_metadata.specs.Views.{point_of};
    ghost use Rattle.zarr_codecs_metadata.specs.Chains.{bytes_in};
    ghost use Rattle.zarr_codecs_bytes.specs.Views.{bytes_chain, bytes_point};

    /// The codec that metadata describes. `NameUnsupported` where its name is not `bytes`,
    /// `MetadataInvalid` where its configuration has another member than an `endian` that is
    /// `little` or `big`.
    pub fn from_metadata(metadata: &MetadataV3) -> Result<BytesCodec, PluginCreateError>
        ensures ok { IfOk result
            (λ codec. bytes_in (point_of metadata.now) ≡ Some (bytes_chain codec)) }
        ensures err { IfErr result (λ e. bytes_in (point_of metadata.now) ≡ None) }
    {
        if metadata.name() != "bytes" {
            return Err(PluginCreateError::NameUnsupported);
        }
        match configured_endian(metadata.configuration()) {
            Some(endian) => Ok(BytesCodec::new(endian)),
            None => Err(PluginCreateError::MetadataInvalid),
        }
    }

    /// The codec's metadata, of which `from_metadata` makes an equal codec. `Err` only where an
    /// allocation failed.
    pub fn metadata(self, alloc: Global) -> Result<MetadataV3, AllocError>
        ensures { IfOk result (λ metadata. point_of metadata ≡ bytes_point self.endian) }
    {
        let name = String::from_str(alloc, "bytes")?;
        match self.endian {
            None => Ok(MetadataV3::new(name)),
            Some(endian) => {
                let order = Value::try_from_str(alloc, order_name(endian))?;
                let mut members = Map::new(alloc);
                put(&mut members, alloc, "endian", order)?;
                Ok(MetadataV3::new_with_configuration(name, members))
            }
        }
    }
}

/// The byte order that a configuration gives. The outer `None` is for a configuration that is not
/// one of `bytes`.
fn configured_endian(configuration: Option<&Map<String, Value>>) -> Option<Option<Endianness>>
    ensures { option_map (λ endian. bytes (option_map order_of endian)) result
        ≡ bytes_of (configuration_members
        (option_map (λ members. members_view members.now.entries) configuration.entry)) }
{
    match configuration {
        None => Some(None),
        Some(members) => {
            if has_only(members, &["endian"]) {
                endian_in(member(members, "endian"))
            } else {
                None
            }
        }
    }
}

/// The byte order that a member gives. The outer `None` is for a member that names none.
fn endian_in(value: Option<&Value>) -> Option<Option<Endianness>>
    ensures { option_map (option_map order_of) result
        ≡ endian_in (option_map (λ v. view v.now) value.entry) }
{
    match value {
        None => Some(None),
        Some(value) => {
            let endian = endianness_named(value.as_str()?)?;
            Some(Some(endian))
        }
    }
}

fn endianness_named(name: &str) -> Option<Endianness>
    ensures { option_map order_of result ≡ endianness_named name.now }
{
    match name {
        "little" => Some(Endianness::Little),
        "big" => Some(Endianness::Big),
        _ => None,
    }
}

fn order_name(endian: Endianness) -> &'static str
    ensures { result.now ≡ order_name endian }
{
    match endian {
        Endianness::Little => "little",
        Endianness::Big => "big",
    }
}
