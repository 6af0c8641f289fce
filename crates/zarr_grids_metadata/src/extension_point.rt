//! Extension points: a name, a configuration where one is given, and whether a reader has to
//! understand them.
ghost use Rattle.std.specs.Prelude.{◌≡◌, option_map, IfOk, OnOk};
ghost use Rattle.serde_json.specs.View.{view, members_view};
ghost use Rattle.zarr_grids_metadata.specs.ExtensionPoints.{written_point_in, must_understand_field, configuration_in, flag_in, says_false, put_configuration, put_flag};

use crate::members::{has_only, member};
use serde_json::{Map, Value, put};
use std::alloc::{AllocError, Global};

/// The configuration of an extension point. An absent one has no members.
#[derive(Clone, Copy)]
pub struct Configuration<'v> {
    members: Option<&'v Map<String, Value>>,
}

/// An extension point: a name and perhaps a configuration. A reader that does not know it must
/// refuse the document where `must_understand` is true.
#[derive(Clone, Copy)]
pub struct ExtensionPoint<'v> {
    pub name: &'v str,
    pub configuration: Option<&'v Map<String, Value>>,
    pub must_understand: bool,
}

impl<'v> Configuration<'v> {
    ghost use Rattle.std.specs.Prelude.{◌≡◌, map, option_map};
    ghost use Rattle.serde_json.specs.Find.{get_member};
    ghost use Rattle.serde_json.specs.View.{view};
    ghost use Rattle.zarr_grids_metadata.specs.ExtensionPoints.{configuration_of};
    ghost use Rattle.zarr_grids_metadata.specs.Members.{has_only};
    ghost use Rattle.zarr_grids_metadata.specs.Views.{configuration_view};

    /// The configuration of the extension point in a value, where it has this name.
    pub fn of(name: &str, value: &'v Value) -> Option<Configuration<'v>>
        ensures { option_map configuration_view result
            ≡ configuration_of name.now (view value.now) }
    {
        let point = ExtensionPoint::read(value)?;
        if point.name == name {
            Some(Configuration {
                members: point.configuration,
            })
        } else {
            None
        }
    }

    /// The member with this name.
    pub fn member(self, name: &str) -> Option<&'v Value>
        ensures { option_map (λ v. view v.now) result
            ≡ get_member name.now (configuration_view self.entry) }
    {
        match self.members {
            Some(members) => member(members, name),
            None => None,
        }
    }

    /// Whether each member's name is one of these. A name may be absent.
    pub fn has_only(self, names: &[&str]) -> bool
        ensures { result
            ≡ has_only (map (λ name. name.now) names.now) (configuration_view self.entry) }
    {
        match self.members {
            Some(members) => has_only(members, names),
            None => true,
        }
    }
}

impl<'v> ExtensionPoint<'v> {
    ghost use Rattle.std.specs.Prelude.{◌≡◌, option_map, IfOk};
    ghost use Rattle.serde_json.specs.View.{view, members_view};
    ghost use Rattle.zarr_grids_metadata.specs.ExtensionPoints.{extension_point, point_of_members, written_point};
    ghost use Rattle.zarr_grids_metadata.specs.Views.{point_view};

    /// The extension point that a JSON value is: a bare name, or an object with a name.
    pub fn read(value: &'v Value) -> Option<ExtensionPoint<'v>>
        ensures { option_map point_view result ≡ extension_point (view value.now) }
    {
        match value {
            Value::String(name) => Some(ExtensionPoint {
                name: name.as_str(),
                configuration: None,
                must_understand: true,
            }),
            Value::Object(members) => ExtensionPoint::of_members(members),
            _ => None,
        }
    }

    fn of_members(members: &'v Map<String, Value>) -> Option<ExtensionPoint<'v>>
        ensures { option_map point_view result
            ≡ point_of_members (members_view members.now.entries) }
    {
        if !has_only(members, &["name", "configuration", "must_understand"]) {
            return None;
        }
        let name = member(members, "name")?.as_str()?;
        let configuration = configuration_in(member(members, "configuration"))?;
        let must_understand = flag_in(member(members, "must_understand"))?;
        Some(ExtensionPoint {
            name,
            configuration,
            must_understand,
        })
    }

    /// The JSON value that is written: a bare name where that says it all, else an object. `Err`
    /// only where an allocation failed.
    pub fn to_value(self, alloc: Global) -> Result<Value, AllocError>
        ensures { IfOk result (λ v. view v ≡ written_point (point_view self.entry)) }
    {
        if self.configuration.is_none() && self.must_understand {
            return Value::try_from_str(alloc, self.name);
        }
        let mut members = Map::new(alloc);
        let name = Value::try_from_str(alloc, self.name)?;
        put(&mut members, alloc, "name", name)?;
        put_configuration(&mut members, alloc, self.configuration)?;
        put_flag(&mut members, alloc, self.must_understand)?;
        Ok(Value::Object(members))
    }
}

/// The configuration that a member gives. The outer `None` is for a member that is no object.
fn configuration_in<'v>(value: Option<&'v Value>) -> Option<Option<&'v Map<String, Value>>>
    ensures { option_map (option_map (λ members. members_view members.now.entries)) result
        ≡ configuration_in (option_map (λ v. view v.now) value.entry) }
{
    match value {
        None => Some(None),
        Some(value) => {
            let members = value.as_object()?;
            Some(Some(members))
        }
    }
}

/// The flag that a member gives: true where it is absent.
fn flag_in(value: Option<&Value>) -> Option<bool>
    ensures { result ≡ flag_in (option_map (λ v. view v.now) value.entry) }
{
    match value {
        None => Some(true),
        Some(value) => value.as_bool(),
    }
}

fn put_configuration(
    members: &mut Map<String, Value>,
    alloc: Global,
    configuration: Option<&Map<String, Value>>,
) -> Result<(), AllocError>
    ensures { OnOk result (members_view members.new.entries ≡ put_configuration
        (option_map (λ members. members_view members.now.entries) configuration.entry)
        (members_view members.old.entries)) }
{
    match configuration {
        Some(configuration) => {
            let value = Value::Object(configuration.clone()?);
            put(members, alloc, "configuration", value)
        }
        None => Ok(()),
    }
}

fn put_flag(
    members: &mut Map<String, Value>,
    alloc: Global,
    must_understand: bool,
) -> Result<(), AllocError>
    ensures { OnOk result (members_view members.new.entries
        ≡ put_flag must_understand (members_view members.old.entries)) }
{
    if must_understand {
        Ok(())
    } else {
        put(members, alloc, "must_understand", Value::Bool(false))
    }
}

/// What is written for a JSON value: an extension point in its shortest form, any other value as
/// it is. `Err` only where an allocation failed.
pub fn written_point(alloc: Global, value: &Value) -> Result<Value, AllocError>
    ensures { IfOk result (λ v. view v ≡ written_point_in (view value.now)) }
{
    match ExtensionPoint::read(value) {
        Some(point) => point.to_value(alloc),
        None => value.clone(),
    }
}

/// Whether a field that is not known must be understood: each must, but for an object that says
/// `"must_understand": false`.
pub fn must_understand_field(value: &Value) -> bool
    ensures { result ≡ must_understand_field (view value.now) }
{
    match value.as_object() {
        Some(members) => !says_false(member(members, "must_understand")),
        None => true,
    }
}

fn says_false(value: Option<&Value>) -> bool
    ensures { result ≡ says_false (option_map (λ v. view v.now) value.entry) }
{
    match value {
        Some(value) => matches!(value.as_bool(), Some(false)),
        None => false,
    }
}
