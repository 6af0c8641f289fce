//! The lines of answers.
ghost use Rattle.std.specs.Prelude.{◌≡◌, ◌++◌, codes, OnOk, OnErr, option_copied, option_map};
ghost use Rattle.serde_json.specs.Written.{compact_text};
ghost use Rattle.zarr_codecs_json.specs.Texts.{Begins};
ghost use Rattle.zarr_codecs_types.specs.Views.{type_of};
ghost use Rattle.zarr_codecs_arrays.specs.Views.{payload_of};
ghost use Rattle.zarr_run_meaning.specs.Requests as ask;
ghost use Rattle.zarr_run_commands.specs.Answers.{answer_json, cause_name, compacted_json, fault_json};
ghost use Rattle.zarr_run_commands.specs.Commands.{answered};
ghost use Rattle.zarr_run_commands.specs.Texts.{cause_text, refusal_text};

use crate::command::Reply;
use itoa::Buffer;
use std::alloc::AllocError;
use zarr_codecs_arrays::ArrayBytes;
use zarr_codecs_json::{Printed, push_elements};
use zarr_codecs_types::DataType;
use zarr_run_meaning::Cause;

/// Appends the compact JSON text of a reply. `data_type` is that of the array at the command's
/// path, if one is held there. Cells that are values of that type become their list, strings in
/// quotes; where one has no text, as a string that is not UTF-8, the answer is `{"fault":"text"}`.
/// After an error a part of the text may stand there.
pub fn push_answer(
    text: &mut Vec<u8>,
    data_type: Option<&DataType>,
    reply: &Reply,
) -> Result<(), AllocError>
    ensures ok { OnOk result (text.new.items ≡ text.old.items ++ compact_text
        (answer_json (option_map type_of (option_copied data_type.entry)) (answered reply.now))) }
    ensures err { OnErr result (Begins text.old.items text.new.items) }
{
    match reply {
        Reply::Done => text.extend_from_slice(b"{\"done\":true}"),
        Reply::Cells(cells) => push_cells(text, data_type, cells),
        Reply::Compacted(changed) => push_compacted(text, *changed),
        Reply::Refused { cause, applied } => push_refusal(text, *cause, *applied),
    }
}

/// Appends the answer of a read.
fn push_cells(
    text: &mut Vec<u8>,
    data_type: Option<&DataType>,
    cells: &ArrayBytes,
) -> Result<(), AllocError>
    ensures ok { OnOk result (text.new.items ≡ text.old.items ++ compact_text
        (answer_json (option_map type_of (option_copied data_type.entry))
        (ask.cells (payload_of cells.now)))) }
    ensures err { OnErr result (Begins text.old.items text.new.items) }
{
    let Some(data_type) = data_type else {
        return push_fault(text);
    };
    let before = text.len();
    text.extend_from_slice(b"{\"cells\":")?;
    match push_elements(text, data_type, cells)? {
        Printed::Whole => text.extend_from_slice(b"}"),
        Printed::NoText => {
            text.truncate(before);
            push_fault(text)
        }
    }
}

/// Appends the answer of a read of cells that have no text.
fn push_fault(text: &mut Vec<u8>) -> Result<(), AllocError>
    ensures ok { OnOk result (text.new.items
        ≡ text.old.items ++ compact_text (fault_json (codes "text"))) }
    ensures err { OnErr result (text.new.items ≡ text.old.items) }
{
    text.extend_from_slice(b"{\"fault\":\"text\"}")
}

/// Appends the answer of a compaction.
fn push_compacted(text: &mut Vec<u8>, changed: bool) -> Result<(), AllocError>
    ensures ok { OnOk result (text.new.items
        ≡ text.old.items ++ compact_text (compacted_json changed)) }
    ensures err { OnErr result (Begins text.old.items text.new.items) }
{
    if changed {
        text.extend_from_slice(b"{\"compacted\":true}")
    } else {
        text.extend_from_slice(b"{\"compacted\":false}")
    }
}

fn push_refusal(text: &mut Vec<u8>, cause: Cause, applied: u64) -> Result<(), AllocError>
    ensures ok { OnOk result (text.new.items ≡ text.old.items ++ refusal_text cause applied) }
    ensures err { OnErr result (Begins text.old.items text.new.items) }
{
    let mut buffer = Buffer::new();
    text.extend_from_slice(b"{\"applied\":")?;
    text.extend_from_slice(buffer.format(applied).as_bytes())?;
    push_cause(text, cause)
}

/// Appends the member with the cause, and the object's end.
fn push_cause(text: &mut Vec<u8>, cause: Cause) -> Result<(), AllocError>
    ensures ok { OnOk result (text.new.items ≡ text.old.items ++ cause_text cause) }
    ensures err { OnErr result (Begins text.old.items text.new.items) }
{
    text.extend_from_slice(b",\"refused\":\"")?;
    text.extend_from_slice(name_of(cause).as_bytes())?;
    text.extend_from_slice(b"\"}")
}

/// The name of a cause.
fn name_of(cause: Cause) -> &'static str
    ensures { result.now ≡ cause_name cause }
{
    match cause {
        Cause::Path => "Path",
        Cause::PathTaken => "PathTaken",
        Cause::NoArray => "NoArray",
        Cause::Document => "Document",
        Cause::Region => "Region",
        Cause::Data => "Data",
        Cause::Size => "Size",
        Cause::Fit => "Fit",
        Cause::Codec => "Codec",
        Cause::Store => "Store",
        Cause::Damage => "Damage",
        Cause::Memory => "Memory",
        Cause::DocumentChanged => "DocumentChanged",
    }
}
