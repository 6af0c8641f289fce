//! The configuration of `vlen`.
ghost use Rattle.std.specs.Prelude.{◌≡◌, ◌≢◌, Some, None, option_map, IfOk, IfErr};
ghost use Rattle.serde_json.specs.View.{items_view, view, members_view};
ghost use Rattle.zarr_codecs_metadata.specs.Sections.{width_in, width_named, location_in, location_named};
ghost use Rattle.zarr_codecs_sections.specs.Views.{width_of, location_of};
ghost use Rattle.zarr_codecs_configurations.specs.Reading.{vlen_index_in, vlen_points_in};
ghost use Rattle.zarr_codecs_configurations.specs.Written.{listed_vlen, vlen_members, width_name, location_name};
ghost use Rattle.zarr_codecs_configurations.specs.Views.{lent_vlen_points, vlen_points};

use crate::lists::{copies_of, listed_points, values_of};
use serde_json::{Map, Value, put};
use std::alloc::{AllocError, Global};
use zarr_codecs_sections::{VlenIndexDataType, VlenIndexLocation};
use zarr_grids_metadata::{ExtensionPoint, MetadataV3, PluginCreateError, has_only, member};

/// What `vlen` is configured by (this project's profile): the codecs of its index and of its joined
/// data, the type of the index's numbers, and where the index stands.
#[derive(Debug, Drop)]
pub struct VlenCodecConfiguration {
    pub index_codecs: Vec<MetadataV3>,
    pub data_codecs: Vec<MetadataV3>,
    pub index_data_type: VlenIndexDataType,
    pub index_location: VlenIndexLocation,
}

/// What `vlen` is configured by, as its metadata lends it.
#[derive(Drop)]
pub struct LentVlenConfiguration<'v> {
    pub index_codecs: Vec<ExtensionPoint<'v>>,
    pub data_codecs: Vec<ExtensionPoint<'v>>,
    pub index_data_type: VlenIndexDataType,
    pub index_location: VlenIndexLocation,
}

impl<'v> LentVlenConfiguration<'v> {
    ghost use Rattle.std.specs.Prelude.{◌≡◌, ◌≢◌, Some, None, IfOk, IfErr};
    ghost use Rattle.zarr_grids_metadata.specs.ExtensionPoints.{configuration_members};
    ghost use Rattle.zarr_grids_metadata.specs.Views.{point_view};
    ghost use Rattle.zarr_codecs_configurations.specs.Reading.{vlen_points_in};
    ghost use Rattle.zarr_codecs_configurations.specs.Views.{lent_vlen_points, vlen_points};

    /// The configuration in metadata of `vlen`, of whatever name. It is refused as
    /// `VlenCodecConfiguration::from_metadata` refuses it.
    pub fn read(
        alloc: Global,
        point: ExtensionPoint<'v>,
    ) -> Result<LentVlenConfiguration<'v>, PluginCreateError>
        ensures ok { IfOk result (λ configuration.
            vlen_points_in (configuration_members (point_view point.entry).configuration)
            ≡ Some (lent_vlen_points configuration)) }
        ensures err { IfErr result (λ e. e ≢ PluginCreateError.Memory →
            vlen_points_in (configuration_members (point_view point.entry).configuration)
            ≡ None) }
        ensures cause { IfErr result
            (λ e. e ≢ PluginCreateError.Memory → e ≡ PluginCreateError.MetadataInvalid) }
    {
        match point.configuration {
            Some(members) => read_members(alloc, members),
            None => Err(PluginCreateError::MetadataInvalid),
        }
    }

    /// The same configuration, copied. `Err` only where an allocation failed.
    pub fn to_owned(&self, alloc: Global) -> Result<VlenCodecConfiguration, AllocError>
        ensures { IfOk result
            (λ configuration. vlen_points configuration ≡ lent_vlen_points self.now) }
    {
        Ok(VlenCodecConfiguration {
            index_codecs: copies_of(alloc, self.index_codecs.as_slice())?,
            data_codecs: copies_of(alloc, self.data_codecs.as_slice())?,
            index_data_type: self.index_data_type,
            index_location: self.index_location,
        })
    }
}

impl VlenCodecConfiguration {
    ghost use Rattle.std.specs.Prelude.{◌≡◌, ◌≢◌, Some, None, map, option_map, IfOk, IfErr};
    ghost use Rattle.serde_json.specs.View.{members_view};
    ghost use Rattle.zarr_grids_metadata.specs.ExtensionPoints.{configuration_members};
    ghost use Rattle.zarr_grids_metadata.specs.Views.{point_of};
    ghost use Rattle.zarr_codecs_configurations.specs.Reading.{vlen_points_in};
    ghost use Rattle.zarr_codecs_configurations.specs.Written.{vlen_point};
    ghost use Rattle.zarr_codecs_configurations.specs.Views.{vlen_points};

    /// The configuration in metadata of `vlen`, of whatever name. `MetadataInvalid` where it has
    /// another member than `index_codecs` and `data_codecs`, which are lists of extension points,
    /// `index_data_type`, which is `uint32` or `uint64`, and perhaps `index_location`, which is
    /// `start` or `end`; `Memory` where an allocation failed.
    pub fn from_metadata(
        alloc: Global,
        metadata: &MetadataV3,
    ) -> Result<VlenCodecConfiguration, PluginCreateError>
        ensures ok { IfOk result (λ configuration.
            vlen_points_in (configuration_members (point_of metadata.now).configuration)
            ≡ Some (vlen_points configuration)) }
        ensures err { IfErr result (λ e. e ≢ PluginCreateError.Memory →
            vlen_points_in (configuration_members (point_of metadata.now).configuration)
            ≡ None) }
        ensures cause { IfErr result
            (λ e. e ≢ PluginCreateError.Memory → e ≡ PluginCreateError.MetadataInvalid) }
    {
        match LentVlenConfiguration::read(alloc, metadata.as_point()) {
            Ok(configuration) => Ok(configuration.to_owned(alloc)?),
            Err(error) => Err(error),
        }
    }

    /// The metadata of `vlen` under one of its names, of which `from_metadata` makes an equal
    /// configuration. `Err` only where an allocation failed.
    pub fn metadata(&self, alloc: Global, name: &str) -> Result<MetadataV3, AllocError>
        ensures written { IfOk result
            (λ metadata. point_of metadata ≡ vlen_point name.now (vlen_points self.now)) }
        ensures reads_back { IfOk result (λ metadata.
            vlen_points_in (configuration_members (point_of metadata).configuration)
            ≡ Some (vlen_points self.now)) }
    {
        let members = members_of(alloc, self)?;
        let name = String::from_str(alloc, name)?;
        Ok(MetadataV3::new_with_configuration(name, members))
    }
}

/// The configuration that members give.
fn read_members<'v>(
    alloc: Global,
    members: &'v Map<String, Value>,
) -> Result<LentVlenConfiguration<'v>, PluginCreateError>
    ensures ok { IfOk result (λ configuration. vlen_points_in (members_view members.now.entries)
        ≡ Some (lent_vlen_points configuration)) }
    ensures err { IfErr result (λ e. e ≢ PluginCreateError.Memory →
        vlen_points_in (members_view members.now.entries) ≡ None) }
    ensures cause { IfErr result
        (λ e. e ≢ PluginCreateError.Memory → e ≡ PluginCreateError.MetadataInvalid) }
{
    let Some((index_data_type, index_location)) = index_in(members) else {
        return Err(PluginCreateError::MetadataInvalid);
    };
    let Some(index_codecs) = listed_points(alloc, members, "index_codecs")? else {
        return Err(PluginCreateError::MetadataInvalid);
    };
    let Some(data_codecs) = listed_points(alloc, members, "data_codecs")? else {
        return Err(PluginCreateError::MetadataInvalid);
    };
    Ok(LentVlenConfiguration {
        index_codecs,
        data_codecs,
        index_data_type,
        index_location,
    })
}

/// The members that are written for a configuration.
fn members_of(
    alloc: Global,
    configuration: &VlenCodecConfiguration,
) -> Result<Map<String, Value>, AllocError>
    ensures { IfOk result (λ members.
        members_view members.entries ≡ vlen_members (vlen_points configuration.now)) }
{
    let index_codecs = values_of(alloc, configuration.index_codecs.as_slice())?;
    let data_codecs = values_of(alloc, configuration.data_codecs.as_slice())?;
    let data_type = configuration.index_data_type;
    let location = configuration.index_location;
    vlen_members(alloc, index_codecs, data_codecs, data_type, location)
}

/// The members that are written for a configuration of `vlen`, of the JSON values that are written
/// for its codecs, which are moved into them. `Err` only where an allocation failed.
pub fn vlen_members(
    alloc: Global,
    index_codecs: Vec<Value>,
    data_codecs: Vec<Value>,
    index_data_type: VlenIndexDataType,
    index_location: VlenIndexLocation,
) -> Result<Map<String, Value>, AllocError>
    ensures { IfOk result (λ members. members_view members.entries
        ≡ listed_vlen (items_view index_codecs.items) (items_view data_codecs.items)
        (width_of index_data_type) (location_of index_location)) }
{
    let mut members = Map::new(alloc);
    let content = Value::Array(data_codecs);
    put(&mut members, alloc, "data_codecs", content)?;
    let index = Value::Array(index_codecs);
    put(&mut members, alloc, "index_codecs", index)?;
    let data_type = Value::try_from_str(alloc, width_name(index_data_type))?;
    put(&mut members, alloc, "index_data_type", data_type)?;
    let location = Value::try_from_str(alloc, location_name(index_location))?;
    put(&mut members, alloc, "index_location", location)?;
    Ok(members)
}

/// The type of the index's numbers and where the index stands, where the configuration has only
/// the members of `vlen`.
fn index_in(members: &Map<String, Value>) -> Option<(VlenIndexDataType, VlenIndexLocation)>
    ensures { option_map (λ found. (width_of found.0, location_of found.1)) result
        ≡ vlen_index_in (members_view members.now.entries) }
{
    let names = [
        "index_codecs",
        "data_codecs",
        "index_data_type",
        "index_location",
    ];
    if !has_only(members, &names) {
        return None;
    }
    let data_type = width_in(member(members, "index_data_type"))?;
    let location = location_in(member(members, "index_location"))?;
    Some((data_type, location))
}

/// The type of the index's numbers that a member gives.
fn width_in(value: Option<&Value>) -> Option<VlenIndexDataType>
    ensures { option_map width_of result ≡ width_in (option_map (λ v. view v.now) value.entry) }
{
    width_named(value?.as_str()?)
}

fn width_named(name: &str) -> Option<VlenIndexDataType>
    ensures { option_map width_of result ≡ width_named name.now }
{
    match name {
        "uint32" => Some(VlenIndexDataType::UInt32),
        "uint64" => Some(VlenIndexDataType::UInt64),
        _ => None,
    }
}

/// Where a member says that the index stands.
fn location_in(value: Option<&Value>) -> Option<VlenIndexLocation>
    ensures { option_map location_of result
        ≡ location_in (option_map (λ v. view v.now) value.entry) }
{
    match value {
        None => Some(VlenIndexLocation::Start),
        Some(value) => location_named(value.as_str()?),
    }
}

fn location_named(name: &str) -> Option<VlenIndexLocation>
    ensures { option_map location_of result ≡ location_named name.now }
{
    match name {
        "start" => Some(VlenIndexLocation::Start),
        "end" => Some(VlenIndexLocation::End),
        _ => None,
    }
}

fn width_name(data_type: VlenIndexDataType) -> &'static str
    ensures { result.now ≡ width_name (width_of data_type) }
{
    match data_type {
        VlenIndexDataType::UInt32 => "uint32",
        VlenIndexDataType::UInt64 => "uint64",
    }
}

fn location_name(location: VlenIndexLocation) -> &'static str
    ensures { result.now ≡ location_name (location_of location) }
{
    match location {
        VlenIndexLocation::Start => "start",
        VlenIndexLocation::End => "end",
    }
}
