//! Lists of commands.
ghost use Rattle.std.specs.Prelude.{◌≡◌, ◌<◌, ◌≤◌, ◌+◌, ◌++◌, ◌∷◌, [], IsTrue, vec_len, vec_capacity, IfOk, IfErr, OnErr};
ghost use Rattle.zarr_run_session.specs.Commands.{exchanges_over};
ghost use Rattle.zarr_run_session.specs.Headline.{TablesFrom, AloneFrom, TablesOver, AloneOver};
ghost use Rattle.zarr_run_session.specs.Sessions.{RunsFrom, RunsOver, state_of, store_of};

use crate::session::Session;
use std::alloc::{AllocError, Global};
use std::thread::Threads;
use zarr_array_storage::WritableStorageTraits;
use zarr_codecs_traits::BytesToBytesCodecTraits;
use zarr_run_commands::{Command, Reply};

/// A refusal that gives back the store that it was given.
#[derive(Drop)]
pub struct GiveBack<S, E> {
    pub storage: S,
    pub error: E,
}

/// Runs commands in order, and answers each. Over an honest store whose keys are the arrays' own,
/// each array of a faithful document answers as a table; and what a rewrite without empty chunks
/// left, in order C or without shards, stands until its cells are changed. Where room for all
/// replies is refused, nothing has been run.
pub fn run_on<R: Threads + Sync, S: WritableStorageTraits, B: BytesToBytesCodecTraits + Sync>(
    rt: &R,
    alloc: Global,
    session: &mut Session<S, B>,
    commands: &[Command],
) -> Result<Vec<Reply>, AllocError>
    ensures runs { IsTrue (S.is_honest (store_of session.old)) → IfOk result (λ replies.
        RunsFrom (B.meaning, B.reads) (state_of S.held S.refused_calls session.old)
        (exchanges_over S.supports_set_partial commands.now replies.items)
        (state_of S.held S.refused_calls session.new)) }
    // the tables, what rewrites leave and tight layout: of all arrays, and of one alone
    ensures tables { IsTrue (S.is_honest (store_of session.old)) → IfOk result (λ replies.
        TablesFrom (B.meaning, B.reads) (state_of S.held S.refused_calls session.old)
        (exchanges_over S.supports_set_partial commands.now replies.items)
        (state_of S.held S.refused_calls session.new)) }
    ensures alone { IsTrue (S.is_honest (store_of session.old)) → IfOk result (λ replies.
        AloneFrom (B.meaning, B.reads) (state_of S.held S.refused_calls session.old)
        (exchanges_over S.supports_set_partial commands.now replies.items)
        (state_of S.held S.refused_calls session.new)) }
    ensures honest { S.is_honest (store_of session.new) ≡ S.is_honest (store_of session.old) }
    ensures err { OnErr result (session.new ≡ session.old) }
{
    let mut replies = Vec::with_capacity(alloc, commands.len())?;
    for command in commands {
        let reply = session.step(rt, command);
        enter(&mut replies, reply);
    }
    Ok(replies)
}

/// Enters a reply where there is room.
fn enter(replies: &mut Vec<Reply>, reply: Reply)
    requires { vec_len replies.old < vec_capacity replies.old }
    ensures items { replies.new.items ≡ replies.old.items ++ reply ∷ [] }
    ensures capacity { vec_capacity replies.old ≤ vec_capacity replies.new }
    ensures len { vec_len replies.new ≡ vec_len replies.old + 1 }
{
    replies.push(reply).unwrap();
}

/// Runs commands in order over a store, in a session that begins with no array. Over an honest
/// store, empty or without keys at the arrays' paths, each array of a faithful document answers as
/// a table that begins as fill, whatever becomes of the others. Where room for all replies is
/// refused, the store comes back untouched.
pub fn run<R: Threads + Sync, S: WritableStorageTraits + Drop, B: BytesToBytesCodecTraits + Sync>(
    rt: &R,
    alloc: Global,
    store: S,
    commands: &[Command],
) -> Result<(Vec<Reply>, S), GiveBack<S, AllocError>>
    ensures runs { IsTrue (S.is_honest store) → IfOk result (λ end.
        RunsOver B.reads (S.held store, S.refused_calls store)
        (exchanges_over S.supports_set_partial commands.now end.0.items)
        (S.held end.1, S.refused_calls end.1)) }
    // the tables, what rewrites leave and tight layout: of all arrays, and of one alone
    ensures tables { IsTrue (S.is_honest store) → IfOk result (λ end.
        TablesOver B.reads (S.held store, S.refused_calls store)
        (exchanges_over S.supports_set_partial commands.now end.0.items)
        (S.held end.1, S.refused_calls end.1)) }
    ensures alone { IsTrue (S.is_honest store) → IfOk result (λ end.
        AloneOver B.reads (S.held store, S.refused_calls store)
        (exchanges_over S.supports_set_partial commands.now end.0.items)
        (S.held end.1, S.refused_calls end.1)) }
    ensures honest { IfOk result (λ end. S.is_honest end.1 ≡ S.is_honest store) }
    ensures back { IfErr result (λ refusal. refusal.storage ≡ store) }
{
    let mut session = Session::<S, B>::new(alloc, store);
    match run_on(rt, alloc, &mut session, commands) {
        Ok(replies) => Ok((replies, session.close())),
        Err(error) => Err(GiveBack {
            storage: session.close(),
            error,
        }),
    }
}
