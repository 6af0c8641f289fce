//! The script as lines, and its first lines as a list of commands.

use crate::plain::PLAIN;
use std::alloc::{AllocError, Global};
use std::thread::Threads;
use zarr_run::{Command, LinesFault, MemoryStore, Reply, ReverseCodec, Session, run_lines};
use zarr_run_scarcity_tables::{Tables, command, keys_of};
use zarr_scarcity_scripts::{Stop, expect};

/// The answers with ample memory.
const ANSWERS: &str = r#"{"done":true}
{"done":true}
{"done":true}
{"done":true}
{"done":true}
{"done":true}
{"done":true}
{"done":true}
{"done":true}
{"done":true}
{"done":true}
{"done":true}
{"done":true}
{"done":true}
{"compacted":false}
{"done":true}
{"done":true}
{"cells":[11,12,13,14]}
{"cells":[23,24]}
{"cells":[0,0,6,7,0,0,9,10,0,0,11,12,0,0,13,14]}
{"cells":[0,0,23,24]}
"#;

/// How the answer to a command that memory ran out for ends.
const REFUSED: &str = ",\"refused\":\"Memory\"}";

/// The lines, each with its line feed.
fn text(alloc: Global) -> Result<Vec<u8>, AllocError> {
    let mut text = Vec::new(alloc);
    for line in PLAIN.lines {
        text.extend_from_slice(line.text.as_bytes())?;
        text.push(b'\n')?;
    }
    Ok(text)
}

/// Whether answers are those with ample memory, up to the first one that says that memory ran out
/// or to their end.
fn are_as_stated(answers: &[u8]) -> bool {
    for (answer, want) in answers
        .split(|b| *b == b'\n')
        .zip(ANSWERS.as_bytes().split(|b| *b == b'\n'))
    {
        if answer != want {
            return answer.is_empty() || answer.ends_with(REFUSED.as_bytes());
        }
    }
    answers.len() <= ANSWERS.len()
}

/// Runs lines in a new session, with workers or without.
fn answer_lines<R: AllocGlobal + Threads + Sync>(
    rt: &R,
    text: &[u8],
    answers: &mut Vec<u8>,
    workers: bool,
) -> Result<(), LinesFault> {
    let alloc = rt.alloc();
    let mut session = Session::<MemoryStore, ReverseCodec>::new(alloc, MemoryStore::new(alloc));
    run_lines(rt, alloc, &mut session, text, answers, workers)
}

/// The lines. The writer takes memory too, so it can fail.
fn run_text<R: AllocGlobal + Threads + Sync>(rt: &R, workers: bool) -> Result<(), Stop> {
    let alloc = rt.alloc();
    let text = text(alloc)?;
    let mut answers = Vec::new(alloc);
    let end = answer_lines(rt, text.as_slice(), &mut answers, workers);
    expect(!matches!(end, Err(LinesFault::Read)) && are_as_stated(answers.as_slice()))
}

/// How many lines are run as a list: two arrays are created and written.
const LISTED: usize = 4;

/// The commands of the first lines.
fn commands(alloc: Global, workers: bool) -> Result<Vec<Command>, Stop> {
    let mut commands = Vec::new(alloc);
    for line in PLAIN.lines.iter().take(LISTED) {
        if commands.push(command(alloc, line.text, workers)?).is_err() {
            return Err(Stop::Short);
        }
    }
    Ok(commands)
}

/// Whether the first lines are answered as the tables say, which are then as the lines have changed
/// them.
fn answer(tables: &mut Tables, replies: &[Reply]) -> bool {
    for (line, reply) in PLAIN.lines.iter().zip(replies) {
        if !tables.answer(*line, reply) {
            return false;
        }
    }
    replies.len() == LISTED
}

/// The replies to commands, and the store; or the store alone where memory for the replies ran out.
fn reply_all<R: AllocGlobal + Threads + Sync>(
    rt: &R,
    store: MemoryStore,
    commands: &[Command],
) -> Result<(Vec<Reply>, MemoryStore), MemoryStore> {
    match zarr_run::run::<R, MemoryStore, ReverseCodec>(rt, rt.alloc(), store, commands) {
        Ok(answered) => Ok(answered),
        Err(refusal) => Err(refusal.storage),
    }
}

/// Whether the first lines are answered as the tables say, and have left the keys that these tell.
fn expect_replies(replies: &[Reply], store: &mut MemoryStore) -> Result<(), Stop> {
    let mut tables = Tables::new();
    expect(answer(&mut tables, replies))?;
    expect(tables.agree_with(PLAIN, store)?)
}

/// The list. Where memory for the replies runs out, the store comes back empty, and the list is run
/// once more.
fn run_list<R: AllocGlobal + Threads + Sync>(rt: &R, workers: bool) -> Result<(), Stop> {
    let alloc = rt.alloc();
    let commands = commands(alloc, workers)?;
    match reply_all(rt, MemoryStore::new(alloc), commands.as_slice()) {
        Ok((replies, mut store)) => expect_replies(replies.as_slice(), &mut store),
        Err(mut store) => {
            expect(keys_of(&mut store)?.is_empty())?;
            match reply_all(rt, store, commands.as_slice()) {
                Ok((replies, mut store)) => expect_replies(replies.as_slice(), &mut store),
                Err(_) => Err(Stop::Other),
            }
        }
    }
}

/// The lines and the list, with workers or without.
pub(crate) fn run<R: AllocGlobal + Threads + Sync>(rt: &R, workers: bool) -> Result<(), Stop> {
    run_text(rt, workers)?;
    run_list(rt, workers)
}
