//! The commands of lines.
ghost use Rattle.std.specs.Prelude.{◌≡◌, Some, IfOk, IfSome, false, option_and_then, option_map};
ghost use Rattle.serde_json.specs.Data.{Members};
ghost use Rattle.serde_json.specs.Read.{read as json_of};
ghost use Rattle.serde_json.specs.View.{view, members_view};
ghost use Rattle.zarr_run_commands.specs.Commands.{asked};
ghost use Rattle.zarr_run_commands.specs.Lines.{Says, SaysWith, request_in, request_of, request_by};
ghost use Rattle.zarr_run_commands.specs.LineCells.{IsLine};

use crate::command::{Command, CommandCells};
use crate::operation::Operation;
use crate::tokens::{Line, NotRead, read_line};
use crate::{field, members};
use serde_json::{Map, Value};
use std::alloc::{AllocError, Global};

/// Reads the commands of lines.
#[derive(Drop)]
pub struct CommandReader {
    alloc: Global,
    /// The option `workers` of a line that doesn't say it.
    workers: bool,
}

impl CommandReader {
    ghost use Rattle.std.specs.Prelude.{◌≡◌, IfOk, option_map};
    ghost use Rattle.zarr_run_commands.specs.Commands.{asked};
    ghost use Rattle.zarr_run_commands.specs.Lines.{SaysWith};

    /// A reader whose commands take memory of `alloc`. A line that doesn't say its option `workers`
    /// has this one.
    pub fn new(alloc: Global, workers: bool) -> CommandReader
        ensures { result.workers ≡ workers }
    {
        CommandReader { alloc, workers }
    }

    /// The allocator of its commands.
    pub fn alloc(&self) -> Global {
        self.alloc
    }

    /// The command of a line, or `None` where the line is no command.
    pub fn read(&self, line: &[u8]) -> Result<Option<Command>, AllocError>
        ensures { IfOk result
            (λ said. SaysWith self.now.workers line.now (option_map asked said)) }
    {
        let Ok(text) = simdutf8::basic::from_utf8(line) else {
            return Ok(None);
        };
        match read_line(self.alloc, text, self.workers) {
            Ok(line) => match command_of_line(line, self.workers) {
                Some(command) => Ok(Some(command)),
                None => command_of_text(self.alloc, text, self.workers),
            },
            Err(NotRead::Memory) => Err(AllocError),
            Err(NotRead::Other) => command_of_text(self.alloc, text, self.workers),
        }
    }
}

/// The command of a line, or `None` where the line is no command.
pub fn read_command(alloc: Global, line: &[u8]) -> Result<Option<Command>, AllocError>
    ensures { IfOk result (λ said. Says line.now (option_map asked said)) }
{
    let reader = CommandReader::new(alloc, false);
    reader.read(line)
}

/// The command that a text asks, whatever its members are.
fn command_of_text(alloc: Global, text: &str, workers: bool) -> Result<Option<Command>, AllocError>
    ensures { IfOk result (λ said. option_map asked said
        ≡ option_and_then (request_in workers) (json_of text.now)) }
{
    match Value::from_str(alloc, text) {
        Ok(value) => command_in(alloc, value, workers),
        Err(e) => {
            if e.is_memory() {
                return Err(AllocError);
            }
            Ok(None)
        }
    }
}

/// The command that the members of a line ask. `None` where it asks none, or one that is read of
/// its JSON alone.
fn command_of_line(line: Line, workers: bool) -> Option<Command>
    ensures { IfSome result (λ command. (ms : Members) → IsLine workers ms line
        → request_of workers ms ≡ Some (asked command)) }
{
    let Line {
        operation,
        path,
        region,
        chunk,
        cells,
        options,
    } = line;
    let (operation, path) = (operation?, path?);
    let cells = match cells {
        Some(numbers) => Some(CommandCells::Numbers(numbers)),
        None => None,
    };
    let has_options = options.is_some();
    let options = options.unwrap_or(field::no_options(workers));
    match (operation, region, chunk, cells) {
        (Operation::WriteBox, Some(region), None, Some(cells)) => Some(Command::WriteBox {
            path,
            region,
            cells,
            options,
        }),
        (Operation::WriteChunk, None, Some(chunk), Some(cells)) => Some(Command::WriteChunk {
            path,
            chunk,
            cells,
            options,
        }),
        (Operation::ReadBox, Some(region), None, None) => Some(Command::ReadBox {
            path,
            region,
            options,
        }),
        (Operation::ReadChunk, None, Some(chunk), None) => Some(Command::ReadChunk {
            path,
            chunk,
            options,
        }),
        (Operation::EraseChunks, Some(chunks), None, None) if !has_options => Some(
            Command::EraseChunks { path, chunks },
        ),
        _ => None,
    }
}

/// The command that a JSON value asks.
fn command_in(alloc: Global, value: Value, workers: bool) -> Result<Option<Command>, AllocError>
    ensures { IfOk result (λ said. option_map asked said ≡ request_in workers (view value)) }
{
    match value {
        Value::Object(line) => command_of(alloc, line, workers),
        _ => Ok(None),
    }
}

/// The command that an object's members ask.
fn command_of(
    alloc: Global,
    line: Map<String, Value>,
    workers: bool,
) -> Result<Option<Command>, AllocError>
    ensures { IfOk result (λ said. option_map asked said
        ≡ request_of workers (members_view line.entries)) }
{
    let Some(operation) = Operation::of_members(&line) else {
        return Ok(None);
    };
    if !operation.has_fields(&line) {
        return Ok(None);
    }
    match operation {
        Operation::Create => Ok(create(line)),
        Operation::Reopen => Ok(reopen(line)),
        Operation::WriteBox => write_box(alloc, line, workers),
        Operation::WriteChunk => write_chunk(alloc, line, workers),
        Operation::ReadBox => read_box(alloc, line, workers),
        Operation::ReadChunk => read_chunk(alloc, line, workers),
        Operation::EraseChunks => erase_chunks(alloc, line),
        Operation::Compact => compact(alloc, line, workers),
        Operation::Rewrite => Ok(rewrite(line, workers)),
    }
}

fn create(mut line: Map<String, Value>) -> Option<Command>
    ensures { option_map asked result
        ≡ request_by false Operation.Create (members_view line.entries) }
{
    let order = field::order(&line)?;
    let path = members::take_text(&mut line, "path")?;
    let document = members::take(&mut line, "document")?;
    Some(Command::Create {
        path,
        document,
        order,
    })
}

fn reopen(mut line: Map<String, Value>) -> Option<Command>
    ensures { option_map asked result
        ≡ request_by false Operation.Reopen (members_view line.entries) }
{
    let order = field::order(&line)?;
    let path = members::take_text(&mut line, "path")?;
    Some(Command::Reopen { path, order })
}

fn write_box(
    alloc: Global,
    mut line: Map<String, Value>,
    workers: bool,
) -> Result<Option<Command>, AllocError>
    ensures { IfOk result (λ said. option_map asked said
        ≡ request_by workers Operation.WriteBox (members_view line.entries)) }
{
    let Some(options) = field::options(&line, workers) else {
        return Ok(None);
    };
    let Some(region) = field::region(alloc, &line)? else {
        return Ok(None);
    };
    let Some(path) = members::take_text(&mut line, "path") else {
        return Ok(None);
    };
    let Some(cells) = members::take(&mut line, "cells") else {
        return Ok(None);
    };
    Ok(Some(Command::WriteBox {
        path,
        region,
        cells: CommandCells::Json(cells),
        options,
    }))
}

fn write_chunk(
    alloc: Global,
    mut line: Map<String, Value>,
    workers: bool,
) -> Result<Option<Command>, AllocError>
    ensures { IfOk result (λ said. option_map asked said
        ≡ request_by workers Operation.WriteChunk (members_view line.entries)) }
{
    let Some(options) = field::options(&line, workers) else {
        return Ok(None);
    };
    let Some(chunk) = field::chunk(alloc, &line)? else {
        return Ok(None);
    };
    let Some(path) = members::take_text(&mut line, "path") else {
        return Ok(None);
    };
    let Some(cells) = members::take(&mut line, "cells") else {
        return Ok(None);
    };
    Ok(Some(Command::WriteChunk {
        path,
        chunk,
        cells: CommandCells::Json(cells),
        options,
    }))
}

fn read_box(
    alloc: Global,
    mut line: Map<String, Value>,
    workers: bool,
) -> Result<Option<Command>, AllocError>
    ensures { IfOk result (λ said. option_map asked said
        ≡ request_by workers Operation.ReadBox (members_view line.entries)) }
{
    let Some(options) = field::options(&line, workers) else {
        return Ok(None);
    };
    let Some(region) = field::region(alloc, &line)? else {
        return Ok(None);
    };
    let Some(path) = members::take_text(&mut line, "path") else {
        return Ok(None);
    };
    Ok(Some(Command::ReadBox {
        path,
        region,
        options,
    }))
}

fn read_chunk(
    alloc: Global,
    mut line: Map<String, Value>,
    workers: bool,
) -> Result<Option<Command>, AllocError>
    ensures { IfOk result (λ said. option_map asked said
        ≡ request_by workers Operation.ReadChunk (members_view line.entries)) }
{
    let Some(options) = field::options(&line, workers) else {
        return Ok(None);
    };
    let Some(chunk) = field::chunk(alloc, &line)? else {
        return Ok(None);
    };
    let Some(path) = members::take_text(&mut line, "path") else {
        return Ok(None);
    };
    Ok(Some(Command::ReadChunk {
        path,
        chunk,
        options,
    }))
}

fn erase_chunks(alloc: Global, mut line: Map<String, Value>) -> Result<Option<Command>, AllocError>
    ensures { IfOk result (λ said. option_map asked said
        ≡ request_by false Operation.EraseChunks (members_view line.entries)) }
{
    let Some(chunks) = field::region(alloc, &line)? else {
        return Ok(None);
    };
    let Some(path) = members::take_text(&mut line, "path") else {
        return Ok(None);
    };
    Ok(Some(Command::EraseChunks { path, chunks }))
}

fn compact(
    alloc: Global,
    mut line: Map<String, Value>,
    workers: bool,
) -> Result<Option<Command>, AllocError>
    ensures { IfOk result (λ said. option_map asked said
        ≡ request_by workers Operation.Compact (members_view line.entries)) }
{
    let Some(options) = field::options(&line, workers) else {
        return Ok(None);
    };
    let Some(chunk) = field::chunk(alloc, &line)? else {
        return Ok(None);
    };
    let Some(path) = members::take_text(&mut line, "path") else {
        return Ok(None);
    };
    Ok(Some(Command::Compact {
        path,
        chunk,
        options,
    }))
}

fn rewrite(mut line: Map<String, Value>, workers: bool) -> Option<Command>
    ensures { option_map asked result
        ≡ request_by workers Operation.Rewrite (members_view line.entries) }
{
    let options = field::options(&line, workers)?;
    let path = members::take_text(&mut line, "path")?;
    Some(Command::Rewrite { path, options })
}
