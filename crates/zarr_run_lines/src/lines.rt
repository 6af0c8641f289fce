//! Running the lines of an input.
ghost use Rattle.std.specs.Prelude.{◌≡◌, [], IsTrue, OnOk, OnErr, IfErr, IfSome};
ghost use Rattle.std.specs.Io.KnownBytes.{append_known};
ghost use Rattle.zarr_run_session.specs.Sessions.{state_of, store_of};
ghost use Rattle.zarr_run_lines.specs.Lines.{RunsAll, RunsSome, StandsAfterSome, IsWithinLimits, output};
ghost use Rattle.zarr_run_lines.specs.Sessions.{LeadsTo};

use crate::answers::{answer_line, write_before_wait, write_pending};
use crate::input::{Limits, limited, next_line};
use std::alloc::{AllocError, Global};
use std::io::{Read, Write};
use std::thread::Threads;
use zarr_array_storage::WritableStorageTraits;
use zarr_codecs_traits::BytesToBytesCodecTraits;
use zarr_run_commands::CommandReader;
use zarr_run_session::Session;

/// Why lines were not run to their end.
#[derive(Clone, Copy, Debug, PartialEq, Eq)]
pub enum LinesFault {
    /// The reader failed, or the input has more than 2^32 bytes or more than 1,048,576 lines.
    Read,
    /// The writer failed. How much of the answers was written is not known.
    Write,
    /// There was no memory. The answer of the last line that was run may be missing.
    Memory,
}

impl From<AllocError> for LinesFault {
    fn from(_error: AllocError) -> LinesFault {
        LinesFault::Memory
    }
}

/// Runs the lines of a reader, and writes a line of answer to each. A line that doesn't say its
/// option `workers` has this one.
///
/// All answers are written and flushed before a read that may wait. The line that passes a limit is
/// not run, and the answers before it are written.
pub fn run_lines<
    H: Threads + Sync,
    R: Read + Drop,
    W: Write,
    S: WritableStorageTraits,
    B: BytesToBytesCodecTraits + Sync,
>(
    rt: &H,
    alloc: Global,
    session: &mut Session<S, B>,
    reader: R,
    writer: &mut W,
    workers: bool,
) -> Result<(), LinesFault>
    ensures ok { IsTrue (S.is_honest (store_of session.old)) → OnOk result
        (LeadsTo B.meaning B.reads (state_of S.held S.refused_calls session.old)
        (state_of S.held S.refused_calls session.new)
        (RunsAll (B.reads, S.supports_set_partial) (R.remaining reader)
        (output (W.contents writer.old) (W.contents writer.new)))) }
    ensures limits { OnOk result (IfSome (R.remaining reader) IsWithinLimits) }
    ensures err { IsTrue (S.is_honest (store_of session.old)) → OnErr result
        (LeadsTo B.meaning B.reads (state_of S.held S.refused_calls session.old)
        (state_of S.held S.refused_calls session.new)
        (StandsAfterSome (B.reads, S.supports_set_partial) (R.remaining reader))) }
    ensures read { IsTrue (S.is_honest (store_of session.old)) → IfErr result
        (λ fault. fault ≡ LinesFault.Read →
        LeadsTo B.meaning B.reads (state_of S.held S.refused_calls session.old)
        (state_of S.held S.refused_calls session.new)
        (RunsSome (B.reads, S.supports_set_partial) (R.remaining reader)
        (output (W.contents writer.old) (W.contents writer.new)))) }
    ensures honest { S.is_honest (store_of session.new) ≡ S.is_honest (store_of session.old) }
{
    let commands = CommandReader::new(alloc, workers);
    let mut pending = Vec::new(alloc);
    match answer_lines(rt, &commands, session, reader, writer, &mut pending) {
        Ok(()) => write_pending(writer, &mut pending),
        Err(LinesFault::Write) => Err(LinesFault::Write),
        Err(fault) => {
            write_pending(writer, &mut pending)?;
            Err(fault)
        }
    }
}

/// Runs the lines of a reader. The last answers may be left in `pending`.
fn answer_lines<
    H: Threads + Sync,
    R: Read + Drop,
    W: Write,
    S: WritableStorageTraits,
    B: BytesToBytesCodecTraits + Sync,
>(
    rt: &H,
    commands: &CommandReader,
    session: &mut Session<S, B>,
    reader: R,
    writer: &mut W,
    pending: &mut Vec<u8>,
) -> Result<(), LinesFault>
    requires { pending.old.items ≡ [] }
    ensures ok { IsTrue (S.is_honest (store_of session.old)) → OnOk result
        (LeadsTo B.meaning B.reads (state_of S.held S.refused_calls session.old)
        (state_of S.held S.refused_calls session.new)
        (RunsAll (B.reads, S.supports_set_partial) (R.remaining reader)
        (output (W.contents writer.old)
        (append_known (W.contents writer.new) pending.new.items)))) }
    ensures limits { OnOk result (IfSome (R.remaining reader) IsWithinLimits) }
    ensures err { IsTrue (S.is_honest (store_of session.old)) → OnErr result
        (LeadsTo B.meaning B.reads (state_of S.held S.refused_calls session.old)
        (state_of S.held S.refused_calls session.new)
        (StandsAfterSome (B.reads, S.supports_set_partial) (R.remaining reader))) }
    ensures read { IsTrue (S.is_honest (store_of session.old)) → IfErr result
        (λ fault. fault ≡ LinesFault.Read →
        LeadsTo B.meaning B.reads (state_of S.held S.refused_calls session.old)
        (state_of S.held S.refused_calls session.new)
        (RunsSome (B.reads, S.supports_set_partial) (R.remaining reader)
        (output (W.contents writer.old)
        (append_known (W.contents writer.new) pending.new.items)))) }
    ensures honest { S.is_honest (store_of session.new) ≡ S.is_honest (store_of session.old) }
{
    let mut reader = limited(commands.alloc(), reader)?;
    let mut limits = Limits::new();
    let mut line = Vec::new(commands.alloc());
    while next_line(&mut reader, &mut limits, &mut line)? {
        answer_line(rt, commands, session, &mut line, pending)?;
        write_before_wait(&reader, writer, pending)?;
    }
    Ok(())
}
