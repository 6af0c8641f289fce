//! The program's command line, as `clap` describes one.
ghost use Rattle.std.specs.Prelude.{◌≡◌, IfOk, false};
ghost use Rattle.clap.specs.Words.{app_of, rule_of};
ghost use Rattle.zarr_run_words.specs.CommandLines.{program, root_rule, second_rule, workers_rule};

use clap::{Arg, ArgAction, Command};
use std::alloc::{AllocError, Global};

const ABOUT: &str = "Keeps Zarr arrays: reads commands as lines of JSON and answers each";

fn root<'a>(alloc: Global) -> Arg<'a>
    ensures rule { rule_of result ≡ root_rule }
    ensures local { result.global ≡ false }
{
    Arg::new(alloc, "root")
        .long("root")
        .value_name("DIR")
        .help("Keep the arrays in this folder, not in memory")
        .action(ArgAction::Set)
}

fn workers<'a>(alloc: Global) -> Arg<'a>
    ensures rule { rule_of result ≡ workers_rule }
    ensures local { result.global ≡ false }
{
    Arg::new(alloc, "workers")
        .long("workers")
        .help("Decode and encode chunks in several threads unless a line says not to")
        .action(ArgAction::SetTrue)
}

fn second<'a>(alloc: Global) -> Arg<'a>
    ensures rule { rule_of result ≡ second_rule }
    ensures local { result.global ≡ false }
{
    Arg::new(alloc, "second")
        .long("second")
        .value_name("FILE")
        .help("Has no effect yet")
        .action(ArgAction::Set)
}

/// The command line: its three options and what `--help` says of them.
pub(crate) fn command_line<'a>(alloc: Global) -> Result<Command<'a>, AllocError>
    ensures { IfOk result (λ command. app_of command ≡ program) }
{
    let bare = Command::new(alloc, "zarr_run");
    let with_root = bare.arg(root(alloc))?;
    let with_workers = with_root.arg(workers(alloc))?;
    let whole = with_workers.arg(second(alloc))?;
    Ok(whole.about(ABOUT))
}
