//! The configuration of `optional`.
ghost use Rattle.std.specs.Prelude.{◌≡◌, ◌≢◌, Some, None, IfOk, IfErr};
ghost use Rattle.serde_json.specs.View.{items_view, members_view};
ghost use Rattle.zarr_codecs_configurations.specs.Reading.{optional_points_in};
ghost use Rattle.zarr_codecs_configurations.specs.Written.{listed_optional, optional_members};
ghost use Rattle.zarr_codecs_configurations.specs.Views.{lent_optional_points, optional_points};

use crate::lists::{copies_of, listed_points, values_of};
use serde_json::{Map, Value, put};
use std::alloc::{AllocError, Global};
use zarr_grids_metadata::{ExtensionPoint, MetadataV3, PluginCreateError, has_only};

/// What `optional` is configured by (this project's profile): the codecs of its mask, and of the
/// elements that are present.
#[derive(Debug, Drop)]
pub struct OptionalCodecConfiguration {
    pub mask_codecs: Vec<MetadataV3>,
    pub data_codecs: Vec<MetadataV3>,
}

/// What `optional` is configured by, as its metadata lends it.
#[derive(Drop)]
pub struct LentOptionalConfiguration<'v> {
    pub mask_codecs: Vec<ExtensionPoint<'v>>,
    pub data_codecs: Vec<ExtensionPoint<'v>>,
}

impl<'v> LentOptionalConfiguration<'v> {
    ghost use Rattle.std.specs.Prelude.{◌≡◌, ◌≢◌, Some, None, IfOk, IfErr};
    ghost use Rattle.zarr_grids_metadata.specs.ExtensionPoints.{configuration_members};
    ghost use Rattle.zarr_grids_metadata.specs.Views.{point_view};
    ghost use Rattle.zarr_codecs_configurations.specs.Reading.{optional_points_in};
    ghost use Rattle.zarr_codecs_configurations.specs.Views.{lent_optional_points, optional_points};

    /// The configuration in metadata of `optional`, of whatever name. It is refused as
    /// `OptionalCodecConfiguration::from_metadata` refuses it.
    pub fn read(
        alloc: Global,
        point: ExtensionPoint<'v>,
    ) -> Result<LentOptionalConfiguration<'v>, PluginCreateError>
        ensures ok { IfOk result (λ configuration.
            optional_points_in (configuration_members (point_view point.entry).configuration)
            ≡ Some (lent_optional_points configuration)) }
        ensures err { IfErr result (λ e. e ≢ PluginCreateError.Memory →
            optional_points_in (configuration_members (point_view point.entry).configuration)
            ≡ None) }
        ensures cause { IfErr result
            (λ e. e ≢ PluginCreateError.Memory → e ≡ PluginCreateError.MetadataInvalid) }
    {
        match point.configuration {
            Some(members) => read_members(alloc, members),
            None => Err(PluginCreateError::MetadataInvalid),
        }
    }

    /// The same configuration, copied. `Err` only where an allocation failed.
    pub fn to_owned(&self, alloc: Global) -> Result<OptionalCodecConfiguration, AllocError>
        ensures { IfOk result (λ configuration.
            optional_points configuration ≡ lent_optional_points self.now) }
    {
        Ok(OptionalCodecConfiguration {
            mask_codecs: copies_of(alloc, self.mask_codecs.as_slice())?,
            data_codecs: copies_of(alloc, self.data_codecs.as_slice())?,
        })
    }
}

impl OptionalCodecConfiguration {
    ghost use Rattle.std.specs.Prelude.{◌≡◌, ◌≢◌, Some, None, IfOk, IfErr};
    ghost use Rattle.zarr_grids_metadata.specs.ExtensionPoints.{configuration_members};
    ghost use Rattle.zarr_grids_metadata.specs.Views.{point_of};
    ghost use Rattle.zarr_codecs_configurations.specs.Reading.{optional_points_in};
    ghost use Rattle.zarr_codecs_configurations.specs.Written.{optional_point};
    ghost use Rattle.zarr_codecs_configurations.specs.Views.{optional_points};

    /// The configuration in metadata of `optional`, of whatever name. `MetadataInvalid` where it
    /// has another member than `mask_codecs` and `data_codecs`, which are lists of extension
    /// points; `Memory` where an allocation failed.
    pub fn from_metadata(
        alloc: Global,
        metadata: &MetadataV3,
    ) -> Result<OptionalCodecConfiguration, PluginCreateError>
        ensures ok { IfOk result (λ configuration.
            optional_points_in (configuration_members (point_of metadata.now).configuration)
            ≡ Some (optional_points configuration)) }
        ensures err { IfErr result (λ e. e ≢ PluginCreateError.Memory →
            optional_points_in (configuration_members (point_of metadata.now).configuration)
            ≡ None) }
        ensures cause { IfErr result
            (λ e. e ≢ PluginCreateError.Memory → e ≡ PluginCreateError.MetadataInvalid) }
    {
        match LentOptionalConfiguration::read(alloc, metadata.as_point()) {
            Ok(configuration) => Ok(configuration.to_owned(alloc)?),
            Err(error) => Err(error),
        }
    }

    /// The metadata of `optional` under one of its names, of which `from_metadata` makes an equal
    /// configuration. `Err` only where an allocation failed.
    pub fn metadata(&self, alloc: Global, name: &str) -> Result<MetadataV3, AllocError>
        ensures written { IfOk result
            (λ metadata. point_of metadata ≡ optional_point name.now (optional_points self.now)) }
        ensures reads_back { IfOk result (λ metadata.
            optional_points_in (configuration_members (point_of metadata).configuration)
            ≡ Some (optional_points self.now)) }
    {
        let members = members_of(alloc, self)?;
        let name = String::from_str(alloc, name)?;
        Ok(MetadataV3::new_with_configuration(name, members))
    }
}

/// The configuration that members give.
fn read_members<'v>(
    alloc: Global,
    members: &'v Map<String, Value>,
) -> Result<LentOptionalConfiguration<'v>, PluginCreateError>
    ensures ok { IfOk result (λ configuration.
        optional_points_in (members_view members.now.entries)
        ≡ Some (lent_optional_points configuration)) }
    ensures err { IfErr result (λ e. e ≢ PluginCreateError.Memory →
        optional_points_in (members_view members.now.entries) ≡ None) }
    ensures cause { IfErr result
        (λ e. e ≢ PluginCreateError.Memory → e ≡ PluginCreateError.MetadataInvalid) }
{
    if !has_only(members, &["mask_codecs", "data_codecs"]) {
        return Err(PluginCreateError::MetadataInvalid);
    }
    let Some(mask_codecs) = listed_points(alloc, members, "mask_codecs")? else {
        return Err(PluginCreateError::MetadataInvalid);
    };
    let Some(data_codecs) = listed_points(alloc, members, "data_codecs")? else {
        return Err(PluginCreateError::MetadataInvalid);
    };
    Ok(LentOptionalConfiguration {
        mask_codecs,
        data_codecs,
    })
}

/// The members that are written for a configuration.
fn members_of(
    alloc: Global,
    configuration: &OptionalCodecConfiguration,
) -> Result<Map<String, Value>, AllocError>
    ensures { IfOk result (λ members.
        members_view members.entries ≡ optional_members (optional_points configuration.now)) }
{
    let mask_codecs = values_of(alloc, configuration.mask_codecs.as_slice())?;
    let data_codecs = values_of(alloc, configuration.data_codecs.as_slice())?;
    optional_members(alloc, mask_codecs, data_codecs)
}

/// The members that are written for a configuration of `optional`, of the JSON values that are
/// written for its codecs, which are moved into them. `Err` only where an allocation failed.
pub fn optional_members(
    alloc: Global,
    mask_codecs: Vec<Value>,
    data_codecs: Vec<Value>,
) -> Result<Map<String, Value>, AllocError>
    ensures { IfOk result (λ members. members_view members.entries
        ≡ listed_optional (items_view mask_codecs.items) (items_view data_codecs.items)) }
{
    let mut members = Map::new(alloc);
    let content = Value::Array(data_codecs);
    put(&mut members, alloc, "data_codecs", content)?;
    let mask = Value::Array(mask_codecs);
    put(&mut members, alloc, "mask_codecs", mask)?;
    Ok(members)
}
