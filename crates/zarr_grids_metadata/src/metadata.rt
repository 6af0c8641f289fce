//! Extension points that own what they hold.
ghost use Rattle.std.specs.Prelude.{◌≡◌, option_map, IfOk};
ghost use Rattle.serde_json.specs.View.{members_view};

use crate::error::PluginCreateError;
use crate::extension_point::ExtensionPoint;
use serde_json::{Map, Value};
use std::alloc::{AllocError, Global};

/// An extension point that owns its name and its configuration (Zarr core specification,
/// "Extension points").
#[derive(Debug, Drop)]
pub struct MetadataV3 {
    name: String,
    configuration: Option<Map<String, Value>>,
    must_understand: bool,
}

impl MetadataV3 {
    ghost use Rattle.std.specs.Prelude.{◌≡◌, ◌≢◌, Some, string_bytes, option_map, IfOk, IfErr};
    ghost use Rattle.serde_json.specs.View.{view, members_view};
    ghost use Rattle.zarr_grids_metadata.specs.ExtensionPoints.{extension_point, written_point, named, configured, renamed};
    ghost use Rattle.zarr_grids_metadata.specs.Views.{point_view, point_of};
    ghost use Rattle.zarr_grids_metadata.specs.Texts.{point_in_text};

    /// A name alone, which must be understood.
    pub fn new(name: String) -> MetadataV3
        ensures { point_of result ≡ named (string_bytes name) }
    {
        MetadataV3 {
            name,
            configuration: None,
            must_understand: true,
        }
    }

    /// A name with a configuration, which must be understood.
    pub fn new_with_configuration(name: String, configuration: Map<String, Value>) -> MetadataV3
        ensures { point_of result
            ≡ configured (string_bytes name) (members_view configuration.entries) }
    {
        let mut metadata = MetadataV3::new(name);
        metadata.configuration = Some(configuration);
        metadata
    }

    /// The extension point that a JSON text is. A bare name stands in quotes there, as a JSON
    /// string does. `MetadataInvalid` where the text is no JSON, nests deeper than 127 levels, or
    /// is no extension point; `Memory` where an allocation failed.
    pub fn from_text(alloc: Global, text: &str) -> Result<MetadataV3, PluginCreateError>
        ensures ok { IfOk result (λ metadata. point_in_text text.now ≡ Ok (point_of metadata)) }
        ensures err { IfErr result (λ e. e ≢ PluginCreateError.Memory
            → point_in_text text.now ≡ Err e) }
    {
        match Value::from_str(alloc, text) {
            Ok(value) => match MetadataV3::from_value(alloc, &value)? {
                Some(metadata) => Ok(metadata),
                None => Err(PluginCreateError::MetadataInvalid),
            },
            Err(error) => if error.is_memory() {
                Err(PluginCreateError::Memory)
            } else {
                Err(PluginCreateError::MetadataInvalid)
            },
        }
    }

    /// The extension point that a JSON value is: a bare name, or an object with a name. `Err` only
    /// where an allocation failed.
    pub fn from_value(alloc: Global, value: &Value) -> Result<Option<MetadataV3>, AllocError>
        ensures { IfOk result
            (λ found. option_map point_of found ≡ extension_point (view value.now)) }
    {
        match ExtensionPoint::read(value) {
            Some(point) => Ok(Some(MetadataV3::from_point(alloc, point)?)),
            None => Ok(None),
        }
    }

    /// A copy of an extension point. `Err` only where an allocation failed.
    pub fn from_point(alloc: Global, point: ExtensionPoint<'_>) -> Result<MetadataV3, AllocError>
        ensures { IfOk result (λ metadata. point_of metadata ≡ point_view point.entry) }
    {
        let name = String::from_str(alloc, point.name)?;
        let configuration = copied(point.configuration)?;
        Ok(MetadataV3 {
            name,
            configuration,
            must_understand: point.must_understand,
        })
    }

    /// The same extension point, lent.
    pub fn as_point(&self) -> ExtensionPoint<'_>
        ensures { point_view result ≡ point_of self.now }
    {
        ExtensionPoint {
            name: self.name(),
            configuration: self.configuration(),
            must_understand: self.must_understand(),
        }
    }

    /// The JSON value that is written: a bare name where that says it all, else an object. `Err`
    /// only where an allocation failed.
    pub fn to_value(&self, alloc: Global) -> Result<Value, AllocError>
        ensures { IfOk result (λ v. view v ≡ written_point (point_of self.now)) }
    {
        self.as_point().to_value(alloc)
    }

    /// The name of the grid, key encoding, codec or data type, as the document gives it (Zarr core
    /// specification, "Extension definition").
    pub fn name(&self) -> &str
        ensures { result.now ≡ (point_of self.now).name }
    {
        self.name.as_str()
    }

    /// The configuration, where one is given. One without members is not the same as none.
    pub fn configuration(&self) -> Option<&Map<String, Value>>
        ensures { option_map (λ members. members_view members.now.entries) result
            ≡ (point_of self.now).configuration }
    {
        self.configuration.as_ref()
    }

    /// Whether a reader that does not know the name has to refuse the document.
    pub fn must_understand(&self) -> bool
        ensures { result ≡ (point_of self.now).must_understand }
    {
        self.must_understand
    }

    /// Gives another name, and keeps the rest.
    pub fn set_name(&mut self, name: String)
        ensures { point_of self.new ≡ renamed (string_bytes name) (point_of self.old) }
    {
        self.name = name;
    }

    /// `Err` only where an allocation failed.
    pub fn try_clone(&self, alloc: Global) -> Result<MetadataV3, AllocError>
        ensures { IfOk result (λ copy. point_of copy ≡ point_of self.now) }
    {
        MetadataV3::from_point(alloc, self.as_point())
    }
}

fn copied(
    configuration: Option<&Map<String, Value>>,
) -> Result<Option<Map<String, Value>>, AllocError>
    ensures { IfOk result (λ copy. option_map (λ members. members_view members.entries) copy
        ≡ option_map (λ members. members_view members.now.entries) configuration.entry) }
{
    match configuration {
        Some(members) => Ok(Some(members.clone()?)),
        None => Ok(None),
    }
}
