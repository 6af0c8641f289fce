//! What a line asks for.
ghost use Rattle.std.specs.Prelude.{◌≡◌};
ghost use Rattle.serde_json.specs.View.{members_view};
ghost use Rattle.zarr_grids_metadata.specs.Members.{has_only};
ghost use Rattle.zarr_run_commands.specs.Lines.{operation_named, operation_of, field_names};

use serde_json::{Map, Value};
use zarr_grids_metadata::{has_only, member};

/// The operations that a line may name.
#[derive(Clone, Copy)]
pub(crate) enum Operation {
    Create,
    Reopen,
    WriteBox,
    WriteChunk,
    ReadBox,
    ReadChunk,
    EraseChunks,
    Compact,
    Rewrite,
}

impl Operation {
    /// The operation that a line's members name.
    pub(crate) fn of_members(members: &Map<String, Value>) -> Option<Operation>
        ensures { result ≡ operation_of (members_view members.now.entries) }
    {
        let name = member(members, "op")?.as_str()?;
        Operation::from_name(name)
    }

    /// The operation with this name.
    pub(crate) fn from_name(name: &str) -> Option<Operation>
        ensures { result ≡ operation_named name.now }
    {
        match name {
            "create" => Some(Operation::Create),
            "reopen" => Some(Operation::Reopen),
            "write_box" => Some(Operation::WriteBox),
            "write_chunk" => Some(Operation::WriteChunk),
            "read_box" => Some(Operation::ReadBox),
            "read_chunk" => Some(Operation::ReadChunk),
            "erase_chunks" => Some(Operation::EraseChunks),
            "compact" => Some(Operation::Compact),
            "rewrite" => Some(Operation::Rewrite),
            _ => None,
        }
    }

    /// Whether the operation has a field for each of these members.
    pub(crate) fn has_fields(self, members: &Map<String, Value>) -> bool
        ensures { result ≡ has_only (field_names self) (members_view members.now.entries) }
    {
        match self {
            Operation::Create => has_only(members, &["op", "path", "document", "order"]),
            Operation::Reopen => has_only(members, &["op", "path", "order"]),
            Operation::WriteBox => has_only(members, &["op", "path", "box", "cells", "options"]),
            Operation::WriteChunk => has_only(
                members,
                &["op", "path", "chunk", "cells", "options"],
            ),
            Operation::ReadBox => has_only(members, &["op", "path", "box", "options"]),
            Operation::ReadChunk => has_only(members, &["op", "path", "chunk", "options"]),
            Operation::EraseChunks => has_only(members, &["op", "path", "box"]),
            Operation::Compact => has_only(members, &["op", "path", "chunk", "options"]),
            Operation::Rewrite => has_only(members, &["op", "path", "options"]),
        }
    }
}
