//! The words of the program's command line, read by `clap`.
#![tactic(auto)]

mod command_line;

ghost use Rattle.std.specs.Prelude.{◌≡◌, IfOk, IfErr, map, option_map, string_bytes, true};
ghost use Rattle.clap.specs.Words.{kind_of, takes};
ghost use Rattle.zarr_run_words.specs.CommandLines.{program, root_in, second_in, workers_in};

use clap::Error;
use clap::error::ErrorKind;
use command_line::command_line;
use std::alloc::Global;

/// What the words of a command line ask for.
#[derive(Clone, Copy, Debug)]
pub struct Words<'a> {
    /// The folder that arrays are kept in. With none, they are kept in memory.
    pub root: Option<&'a str>,
    /// Whether `--workers` was given.
    pub workers: bool,
    /// The file that `--second` names.
    pub second: Option<&'a str>,
}

/// Why words ask for no run.
#[derive(Debug, Drop)]
pub enum WordsFault {
    /// Help was asked for. The text is for standard output.
    Help(String),
    /// The words are wrong. The text says how, and is for standard error.
    Usage(String),
    /// Memory ran out.
    Memory,
}

/// What a refusal by `clap` is, with its text.
fn fault_of(alloc: Global, error: &Error) -> WordsFault
    ensures { kind_of error.now ≡ ErrorKind.OutOfMemory → result ≡ WordsFault.Memory }
{
    if let ErrorKind::OutOfMemory = error.kind() {
        return WordsFault::Memory;
    }
    match error.to_string(alloc) {
        Err(_) => WordsFault::Memory,
        Ok(text) => {
            if error.use_stderr() {
                WordsFault::Usage(text)
            } else {
                WordsFault::Help(text)
            }
        }
    }
}

/// Reads the words of a command line, of which the first is the program's name. What `clap` takes
/// is read as `clap` finds it. Anything else is `Help` or `Usage`, with the text that `clap` has
/// for it.
pub fn read_words<'a>(alloc: Global, words: &'a [String]) -> Result<Words<'a>, WordsFault>
    ensures root { IfOk result (λ found. option_map (λ dir. dir.now) found.root
        ≡ root_in (map string_bytes words.now)) }
    ensures workers { IfOk result (λ found. found.workers
        ≡ workers_in (map string_bytes words.now)) }
    ensures second { IfOk result (λ found. option_map (λ file. file.now) found.second
        ≡ second_in (map string_bytes words.now)) }
    ensures err { takes program (map string_bytes words.now) ≡ true →
        IfErr result (λ fault. fault ≡ WordsFault.Memory) }
{
    let Ok(command) = command_line(alloc) else {
        return Err(WordsFault::Memory);
    };
    match command.try_get_matches_from(words) {
        Ok(matches) => Ok(Words {
            root: matches.get_str("root"),
            workers: matches.get_one("workers").unwrap_or(false),
            second: matches.get_str("second"),
        }),
        Err(error) => Err(fault_of(alloc, &error)),
    }
}
