//! The fields of a version 2 document.
ghost use Rattle.std.specs.Prelude.{◌≡◌};
ghost use Rattle.serde_json.specs.View.{view};
ghost use Rattle.zarr_array_v2.specs.Fields.{order_in, order_named};

use serde_json::{Map, Value};
use zarr_grids_metadata::member;

/// How the elements of a chunk are laid out in memory.
#[derive(Clone, Copy, Debug, Eq, PartialEq)]
pub enum Order {
    /// The last dimension varies fastest.
    C,
    /// The first dimension varies fastest.
    F,
}

/// The fields of a version 2 document, but for its attributes.
#[derive(Clone, Copy)]
pub(crate) struct Fields<'v> {
    pub shape: &'v Value,
    pub chunks: &'v Value,
    pub dtype: &'v Value,
    pub fill_value: &'v Value,
    pub order: Order,
    pub filters: &'v Value,
    pub compressor: &'v Value,
    pub dimension_separator: Option<&'v Value>,
}

impl<'v> Fields<'v> {
    ghost use Rattle.std.specs.Prelude.{◌≡◌, option_map};
    ghost use Rattle.serde_json.specs.View.{members_view};
    ghost use Rattle.zarr_array_v2.specs.Fields.{fields_in};
    ghost use Rattle.zarr_array_v2.specs.Views.{fields_of};

    /// The fields of an object. `None` where one that has to be there is missing, or where the
    /// order is neither C nor F.
    pub(crate) fn read(members: &'v Map<String, Value>) -> Option<Fields<'v>>
        ensures { option_map fields_of result ≡ fields_in (members_view members.now.entries) }
    {
        Some(Fields {
            shape: member(members, "shape")?,
            chunks: member(members, "chunks")?,
            dtype: member(members, "dtype")?,
            fill_value: member(members, "fill_value")?,
            order: order_in(member(members, "order")?)?,
            filters: member(members, "filters")?,
            compressor: member(members, "compressor")?,
            dimension_separator: member(members, "dimension_separator"),
        })
    }
}

fn order_in(value: &Value) -> Option<Order>
    ensures { result ≡ order_in (view value.now) }
{
    order_named(value.as_str()?)
}

fn order_named(name: &str) -> Option<Order>
    ensures { result ≡ order_named name.now }
{
    match name {
        "C" => Some(Order::C),
        "F" => Some(Order::F),
        _ => None,
    }
}
