//! The program between its words, a reader and two writers.
ghost use Rattle.std.specs.FinMap.{empty};
ghost use Rattle.std.specs.Prelude.{◌≡◌, ◌≢◌, ◌⊎◌, true, false, map, string_bytes, None, IsTrue, OnOk};
ghost use Rattle.std.specs.Process.{exit_status};
ghost use Rattle.clap.specs.Words.{takes};
ghost use Rattle.zarr_codecs_reverse.specs.Reversing.{reads_reversing};
ghost use Rattle.zarr_run_lines.specs.Lines.{output};
ghost use Rattle.zarr_run_meaning.specs.Runs.{world_over};
ghost use Rattle.zarr_run_start.specs.Programs.{RunsAllFrom};
ghost use Rattle.zarr_run_words.specs.CommandLines.{program, root_in};
ghost use Rattle.zarr_run_words.specs.declared.WordsFault.TheVariants.{Memory};

use crate::fault::{Fault, fail};
use std::alloc::Global;
use std::env::Env;
use std::fs::Files;
use std::io::{Read, Write};
use std::process::ExitCode;
use std::thread::Threads;
use std::{env, io};
use zarr_array_folder::FolderStore;
use zarr_array_storage::{MemoryStore, StorageError, WritableStorageTraits};
use zarr_codecs_reverse::ReverseCodec;
use zarr_run_lines::run_lines;
use zarr_run_session::Session;
use zarr_run_words::{Words, WordsFault, read_words};

/// The status where the words of the command line are wrong.
const USAGE: u8 = 2;

/// What is said of a word that isn't UTF-8, as `clap` says it.
const NO_TEXT: &str = "error: invalid UTF-8 was detected in one or more arguments\n\n\
Usage: zarr_run [OPTIONS]\n\n\
For more information, try '--help'.\n";

/// Runs the program by the words that it was started with. A word that isn't UTF-8 ends it with
/// status 2; the rest is as `run_words` says.
pub fn run_program<
    H: Env + Files + AllocGlobal + Threads + Clone + Drop + Sync,
    R: Read + Drop,
    W: Write,
    E: Write,
>(rt: &H, reader: R, writer: &mut W, errors: &mut E) -> ExitCode
    ensures silence { exit_status result ≡ 0 → errors.new ≡ errors.old }
    ensures failure { exit_status result ≢ 0 →
        (exit_status result ≡ 1) ⊎ (exit_status result ≡ 2) }
{
    match words_given(rt) {
        Ok(words) => run_words(rt, words.as_slice(), reader, writer, errors),
        Err(fault) => end_by_words(fault, writer, errors),
    }
}

/// The words that the program was started with.
fn words_given<H: Env + AllocGlobal>(rt: &H) -> Result<Vec<String>, WordsFault> {
    match env::args(rt) {
        Ok(words) => match words.collect::<Vec<String>>(rt.alloc()) {
            Ok(words) => Ok(words),
            Err(_) => Err(WordsFault::Memory),
        },
        Err(error) if error.kind() == io::ErrorKind::OutOfMemory => Err(WordsFault::Memory),
        Err(_) => match String::from_str(rt.alloc(), NO_TEXT) {
            Ok(text) => Err(WordsFault::Usage(text)),
            Err(_) => Err(WordsFault::Memory),
        },
    }
}

/// Runs the program by words, of which the first is its name: reads them, opens the folder that
/// they name, or else a store in memory, and runs the lines of the reader. With status 0 each line
/// was answered, or help was written. Else `errors` is told why: of wrong words with status 2, of
/// any other fault with status 1.
pub fn run_words<
    H: Files + AllocGlobal + Threads + Clone + Drop + Sync,
    R: Read + Drop,
    W: Write,
    E: Write,
>(rt: &H, words: &[String], reader: R, writer: &mut W, errors: &mut E) -> ExitCode
    ensures success { takes program (map string_bytes words.now) ≡ true →
        root_in (map string_bytes words.now) ≡ None → exit_status result ≡ 0 →
        RunsAllFrom (reads_reversing, true) (world_over empty 0) (R.remaining reader)
        (output (W.contents writer.old) (W.contents writer.new)) }
    ensures silence { exit_status result ≡ 0 → errors.new ≡ errors.old }
    ensures failure { exit_status result ≢ 0 →
        (exit_status result ≡ 1) ⊎ (exit_status result ≡ 2) }
    ensures usage { exit_status result ≡ 2 →
        (takes program (map string_bytes words.now) ≡ false) × (writer.new ≡ writer.old) }
{
    match read_words(rt.alloc(), words) {
        Ok(asked) => match run_root(rt, asked, reader, writer) {
            Ok(()) => ExitCode::SUCCESS,
            Err(fault) => fail(errors, fault),
        },
        Err(fault) => end_by_words(fault, writer, errors),
    }
}

/// Ends a run whose words ask for none: help goes to the writer.
fn end_by_words<W: Write, E: Write>(fault: WordsFault, writer: &mut W, errors: &mut E) -> ExitCode
    ensures silence { exit_status result ≡ 0 → errors.new ≡ errors.old }
    ensures failure { exit_status result ≢ 0 →
        (exit_status result ≡ 1) ⊎ (exit_status result ≡ 2) }
    ensures usage { exit_status result ≡ 2 → writer.new ≡ writer.old }
    ensures memory { fault ≡ Memory → exit_status result ≡ 1 }
{
    match fault {
        WordsFault::Help(text) => {
            if writer.write_all(text.as_bytes()).is_err() || writer.flush().is_err() {
                return fail(errors, Fault::Write);
            }
            ExitCode::SUCCESS
        }
        WordsFault::Usage(text) => {
            let _ = errors.write_all(text.as_bytes());
            ExitCode::from(USAGE)
        }
        WordsFault::Memory => fail(errors, Fault::Memory),
    }
}

/// Runs lines as words ask for: over the store in a folder, or over one in memory where none is
/// named.
fn run_root<H: Files + AllocGlobal + Threads + Clone + Drop + Sync, R: Read + Drop, W: Write>(
    rt: &H,
    words: Words<'_>,
    reader: R,
    writer: &mut W,
) -> Result<(), Fault>
    ensures { words.entry.root ≡ None → OnOk result
        (RunsAllFrom (reads_reversing, true) (world_over empty 0) (R.remaining reader)
        (output (W.contents writer.old) (W.contents writer.new))) }
{
    match words.root {
        Some(dir) => run_folder(rt, dir, reader, writer, words.workers),
        None => run_memory(rt, reader, writer, words.workers),
    }
}

fn run_folder<H: Files + AllocGlobal + Threads + Clone + Drop + Sync, R: Read + Drop, W: Write>(
    rt: &H,
    dir: &str,
    reader: R,
    writer: &mut W,
    workers: bool,
) -> Result<(), Fault> {
    let Ok(handle) = rt.clone() else {
        return Err(Fault::Memory);
    };
    match FolderStore::open(handle, dir) {
        Ok(store) => run_store(rt, rt.alloc(), store, reader, writer, workers),
        Err(StorageError::Memory) => Err(Fault::Memory),
        Err(_) => Err(Fault::Store),
    }
}

fn run_memory<H: AllocGlobal + Threads + Sync, R: Read + Drop, W: Write>(
    rt: &H,
    reader: R,
    writer: &mut W,
    workers: bool,
) -> Result<(), Fault>
    ensures { OnOk result
        (RunsAllFrom (reads_reversing, true) (world_over empty 0) (R.remaining reader)
        (output (W.contents writer.old) (W.contents writer.new))) }
{
    run_store(
        rt,
        rt.alloc(),
        MemoryStore::new(rt.alloc()),
        reader,
        writer,
        workers,
    )
}

/// Runs the lines of a reader in a session over a store, and writes a line of answer to each. The
/// session holds no array yet. A line that doesn't say its option `workers` has this one.
pub fn run_store<H: Threads + Sync, S: WritableStorageTraits + Drop, R: Read + Drop, W: Write>(
    rt: &H,
    alloc: Global,
    store: S,
    reader: R,
    writer: &mut W,
    workers: bool,
) -> Result<(), Fault>
    ensures { IsTrue (S.is_honest store) → OnOk result
        (RunsAllFrom (reads_reversing, S.supports_set_partial)
        (world_over (S.held store) (S.refused_calls store))
        (R.remaining reader) (output (W.contents writer.old) (W.contents writer.new))) }
{
    let mut session = Session::<S, ReverseCodec>::new(alloc, store);
    Ok(run_lines(rt, alloc, &mut session, reader, writer, workers)?)
}
