//! Answers that wait to be written.
ghost use Rattle.std.specs.Prelude.{◌≡◌, [], ◌∷◌, ◌++◌, IsTrue, Some, IfOk, IfErr, OnOk, OnErr, option_copied, option_map};
ghost use Rattle.std.specs.Io.KnownBytes.{Keeps, append_known};
ghost use Rattle.serde_json.specs.Written.{compact_text};
ghost use Rattle.zarr_codecs_types.specs.Views.{type_of};
ghost use Rattle.zarr_run_commands.specs.Answers.{answer_json};
ghost use Rattle.zarr_run_commands.specs.Commands.{answered, asked};
ghost use Rattle.zarr_run_commands.specs.Lines.{SaysWith};
ghost use Rattle.zarr_run_session.specs.Sessions.{state_of, store_of};
ghost use Rattle.zarr_run_lines.specs.Lines.{Answers, Leaves, output};
ghost use Rattle.zarr_run_lines.specs.Sessions.{LeadsTo};

use crate::lines::LinesFault;
use memchr::memchr;
use std::alloc::AllocError;
use std::io::{BufReader, Read, Write};
use std::thread::Threads;
use zarr_array_storage::WritableStorageTraits;
use zarr_codecs_traits::BytesToBytesCodecTraits;
use zarr_codecs_types::DataType;
use zarr_run_commands::{Command, CommandReader, Reply, push_answer};
use zarr_run_session::Session;

/// How many bytes of answers wait at most before they are written.
const PENDING_BYTES: usize = 65_536;

/// A line of more bytes isn't kept beside the command that is read from it.
const LONG_LINE_BYTES: usize = 8_388_608;

/// Appends the line of a reply. After an error a part of it may stand there.
fn append_reply(
    pending: &mut Vec<u8>,
    data_type: Option<&DataType>,
    reply: &Reply,
) -> Result<(), AllocError>
    ensures { OnOk result (pending.new.items ≡ pending.old.items ++ (compact_text
        (answer_json (option_map type_of (option_copied data_type.entry)) (answered reply.now))
        ++ 10 ∷ [])) }
{
    push_answer(pending, data_type, reply)?;
    pending.push(b'\n')?;
    Ok(())
}

/// The command of a line. The text of a long line is let go once it is read.
fn take_command(commands: &CommandReader, line: &mut Vec<u8>) -> Result<Option<Command>, AllocError>
    ensures { IfOk result
        (λ said. SaysWith commands.now.workers line.old.items (option_map asked said)) }
{
    let command = commands.read(line.as_slice())?;
    if line.len() > LONG_LINE_BYTES {
        *line = Vec::new(commands.alloc());
    }
    Ok(command)
}

/// Runs the command of a line, and appends the line of its answer. After an error a part of it may
/// stand there.
fn run_command<H: Threads + Sync, S: WritableStorageTraits, B: BytesToBytesCodecTraits + Sync>(
    rt: &H,
    commands: &CommandReader,
    session: &mut Session<S, B>,
    line: &mut Vec<u8>,
    pending: &mut Vec<u8>,
) -> Result<(), AllocError>
    ensures ok { IsTrue (S.is_honest (store_of session.old)) → OnOk result
        (LeadsTo B.meaning B.reads (state_of S.held S.refused_calls session.old)
        (state_of S.held S.refused_calls session.new)
        (Answers (B.reads, S.supports_set_partial) line.old.items
        (output (Some pending.old.items) (Some pending.new.items)))) }
    ensures err { IsTrue (S.is_honest (store_of session.old)) → OnErr result
        (LeadsTo B.meaning B.reads (state_of S.held S.refused_calls session.old)
        (state_of S.held S.refused_calls session.new)
        (λ old new. Leaves (B.reads, S.supports_set_partial) old line.old.items new)) }
    ensures honest { S.is_honest (store_of session.new) ≡ S.is_honest (store_of session.old) }
{
    let Some(command) = take_command(commands, line)? else {
        return pending.extend_from_slice(b"{\"fault\":\"line\"}\n");
    };
    let reply = session.step(rt, &command);
    let data_type = session.data_type_at(command.path());
    match append_reply(pending, data_type, &reply) {
        Ok(()) => Ok(()),
        Err(e) => Err(e),
    }
}

/// Runs a line, and appends the line of its answer. The text of a long line is let go once it is
/// read.
pub(crate) fn answer_line<
    H: Threads + Sync,
    S: WritableStorageTraits,
    B: BytesToBytesCodecTraits + Sync,
>(
    rt: &H,
    commands: &CommandReader,
    session: &mut Session<S, B>,
    line: &mut Vec<u8>,
    pending: &mut Vec<u8>,
) -> Result<(), LinesFault>
    ensures ok { IsTrue (S.is_honest (store_of session.old)) → OnOk result
        (LeadsTo B.meaning B.reads (state_of S.held S.refused_calls session.old)
        (state_of S.held S.refused_calls session.new)
        (Answers (B.reads, S.supports_set_partial) line.old.items
        (output (Some pending.old.items) (Some pending.new.items)))) }
    ensures err { IsTrue (S.is_honest (store_of session.old)) → OnErr result
        (LeadsTo B.meaning B.reads (state_of S.held S.refused_calls session.old)
        (state_of S.held S.refused_calls session.new)
        (λ old new. Leaves (B.reads, S.supports_set_partial) old line.old.items new)) }
    ensures honest { S.is_honest (store_of session.new) ≡ S.is_honest (store_of session.old) }
    ensures fault { IfErr result (λ fault. fault ≡ LinesFault.Memory) }
{
    let before = pending.len();
    match run_command(rt, commands, session, line, pending) {
        Ok(()) => Ok(()),
        Err(_) => {
            pending.truncate(before);
            Err(LinesFault::Memory)
        }
    }
}

/// Writes what is pending.
pub(crate) fn write_pending<W: Write>(
    writer: &mut W,
    pending: &mut Vec<u8>,
) -> Result<(), LinesFault>
    ensures kept { OnOk result (Keeps (append_known (W.contents writer.old) pending.old.items)
        (append_known (W.contents writer.new) pending.new.items)) }
    ensures empty { OnOk result (pending.new.items ≡ []) }
    ensures fault { IfErr result (λ fault. fault ≡ LinesFault.Write) }
{
    if writer.write_all(pending.as_slice()).is_err() || writer.flush().is_err() {
        return Err(LinesFault::Write);
    }
    pending.clear();
    Ok(())
}

/// Writes what is pending where the next read may wait, or where much is pending.
pub(crate) fn write_before_wait<R: Read, W: Write>(
    reader: &BufReader<R>,
    writer: &mut W,
    pending: &mut Vec<u8>,
) -> Result<(), LinesFault>
    ensures kept { OnOk result (Keeps (append_known (W.contents writer.old) pending.old.items)
        (append_known (W.contents writer.new) pending.new.items)) }
    ensures fault { IfErr result (λ fault. fault ≡ LinesFault.Write) }
{
    if pending.len() < PENDING_BYTES && memchr(b'\n', reader.buffer()).is_some() {
        return Ok(());
    }
    write_pending(writer, pending)
}
