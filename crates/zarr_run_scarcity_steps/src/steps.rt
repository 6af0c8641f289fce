//! The commands of a script, step by step, over a store that may refuse a call.

use std::alloc::Global;
use std::thread::Threads;
use zarr_run::{
    BytesToBytesCodecTraits, CallKind, Command, MemoryStore, RefusingStore, Reply, ReverseCodec,
    WritableStorageTraits,
};
use zarr_run_scarcity_tables::{Line, Script, Tables, command, is_by_store, is_refused_by_chance};
use zarr_scarcity_scripts::{Stop, expect};

type Session = zarr_run::Session<RefusingStore<MemoryStore>, ReverseCodec>;

/// A script, the commands that read all cells of both arrays, and whether the session is closed
/// where one is refused by chance.
#[derive(Drop)]
struct Plan {
    script: Script,
    square: Command,
    row: Command,
    stops: bool,
}

/// What commands were refused for that may come at any time.
#[derive(Clone, Copy)]
struct Chances {
    by_store: bool,
    by_memory: bool,
}

/// A session, the tables of its arrays, and what its commands were refused for.
#[derive(Drop)]
struct CheckedSession {
    session: Session,
    tables: Tables,
    refused: Chances,
}

/// Runs a command.
fn reply<R: Threads + Sync, S: WritableStorageTraits, B: BytesToBytesCodecTraits + Sync>(
    rt: &R,
    session: &mut zarr_run::Session<S, B>,
    command: &Command,
) -> Reply {
    session.step(rt, command)
}

impl CheckedSession {
    /// Runs a command, and keeps what it was refused for.
    fn reply_to<R: Threads + Sync>(&mut self, rt: &R, command: &Command) -> Reply {
        let reply = reply(rt, &mut self.session, command);
        let by_store = is_by_store(&reply);
        self.refused.by_store = self.refused.by_store || by_store;
        self.refused.by_memory = self.refused.by_memory
            || is_refused_by_chance(&reply) && !by_store;
        reply
    }

    /// Runs a command, and once more where it was refused by chance.
    fn reply_at_last<R: Threads + Sync>(&mut self, rt: &R, command: &Command) -> Reply {
        let reply = self.reply_to(rt, command);
        if is_refused_by_chance(&reply) {
            self.reply_to(rt, command)
        } else {
            reply
        }
    }

    /// Whether both arrays are read as the tables say, where a read may be asked twice.
    fn are_as_stated<R: Threads + Sync>(&mut self, rt: &R, plan: &Plan) -> bool {
        let square = self.reply_at_last(rt, &plan.square);
        let row = self.reply_at_last(rt, &plan.row);
        !is_refused_by_chance(&square)
            && self.tables.answer(plan.script.read_square, &square)
            && !is_refused_by_chance(&row)
            && self.tables.answer(plan.script.read_row, &row)
    }

    /// Runs a command, which is answered as the tables say. Where it is refused by chance, it has
    /// changed just what it says, and it is run once more, unless the session is to be closed then.
    /// Says whether it is.
    fn step<R: Threads + Sync>(
        &mut self,
        rt: &R,
        plan: &Plan,
        line: Line,
        command: &Command,
    ) -> Result<bool, Stop> {
        let reply = self.reply_to(rt, command);
        expect(self.tables.answer(line, &reply))?;
        if !is_refused_by_chance(&reply) {
            return Ok(false);
        }
        expect(self.are_as_stated(rt, plan))?;
        if plan.stops {
            return Ok(true);
        }
        let again = self.reply_to(rt, command);
        expect(!is_refused_by_chance(&again) && self.tables.answer(line, &again))?;
        Ok(false)
    }

    /// The session that begins where this one is closed, over what it stored.
    fn next(self, alloc: Global) -> Self {
        let CheckedSession {
            session,
            tables,
            refused,
        } = self;
        CheckedSession {
            session: Session::new(alloc, session.close()),
            tables: tables.closed(),
            refused,
        }
    }

    /// Closes the session, whose store has the keys that the tables say. Says what was refused.
    fn end(self, script: Script) -> Result<Chances, Stop> {
        let CheckedSession {
            session,
            tables,
            refused,
        } = self;
        let mut store = session.close().into_inner();
        expect(tables.agree_with(script, &mut store)?)?;
        Ok(refused)
    }
}

/// A session over an empty store that refuses the call of this kind with this number.
fn begin(alloc: Global, kind: CallKind, number: u64) -> CheckedSession {
    let store = RefusingStore::new(MemoryStore::new(alloc), kind, number);
    CheckedSession {
        session: Session::new(alloc, store),
        tables: Tables::new(),
        refused: Chances {
            by_store: false,
            by_memory: false,
        },
    }
}

/// How a script is run.
fn made_plan(alloc: Global, script: Script, stops: bool) -> Result<Plan, Stop> {
    let square = command(alloc, script.read_square.text, script.workers)?;
    let row = command(alloc, script.read_row.text, script.workers)?;
    Ok(Plan {
        script,
        square,
        row,
        stops,
    })
}

/// Runs a line. Says whether the session is to be closed then.
fn run_line<R: AllocGlobal + Threads + Sync>(
    rt: &R,
    checked: &mut CheckedSession,
    plan: &Plan,
    line: Line,
) -> Result<bool, Stop> {
    let command = command(rt.alloc(), line.text, plan.script.workers)?;
    checked.step(rt, plan, line, &command)
}

/// Runs these lines, or those before the session is to be closed.
fn run_lines<R: AllocGlobal + Threads + Sync>(
    rt: &R,
    checked: &mut CheckedSession,
    plan: &Plan,
    lines: &[Line],
) -> Result<(), Stop> {
    for line in lines {
        if run_line(rt, checked, plan, *line)? {
            return Ok(());
        }
    }
    expect(checked.are_as_stated(rt, plan))
}

/// Runs each command, over a store that refuses the call of this kind with this number, and then
/// some in another session over that store. Says what was refused.
fn run_refused<R: AllocGlobal + Threads + Sync>(
    rt: &R,
    plan: &Plan,
    kind: CallKind,
    number: u64,
) -> Result<Chances, Stop> {
    let mut checked = begin(rt.alloc(), kind, number);
    run_lines(rt, &mut checked, plan, plan.script.lines)?;
    let mut checked = checked.next(rt.alloc());
    run_lines(rt, &mut checked, plan, plan.script.lines_after)?;
    checked.end(plan.script)
}

/// Each command, over a store that refuses none: once up to a refusal, and once through to the end.
pub fn run<R: AllocGlobal + Threads + Sync>(rt: &R, script: Script) -> Result<(), Stop> {
    for stops in [true, false] {
        let refused = run_refused(
            rt,
            &made_plan(rt.alloc(), script, stops)?,
            CallKind::Read,
            0,
        )?;
        expect(!refused.by_store)?;
    }
    Ok(())
}

/// More calls than the script makes.
const MANY_CALLS: u64 = 10_000;

/// Each command, with each call of the store of this kind refused in turn. As memory is ample then,
/// no command is refused for want of it: so a refusal of the store that is answered otherwise does
/// not pass for the end.
fn run_each_refused<R: AllocGlobal + Threads + Sync>(
    rt: &R,
    plan: &Plan,
    kind: CallKind,
) -> Result<(), Stop> {
    for number in 1..MANY_CALLS {
        let refused = run_refused(rt, plan, kind, number)?;
        expect(!refused.by_memory)?;
        if !refused.by_store {
            return expect(number > 1);
        }
    }
    Err(Stop::Other)
}

/// Each command, with each reading and each writing call of the store refused in turn: once up to
/// the refusal, and once through to the end.
pub fn run_over_refusals<R: AllocGlobal + Threads + Sync>(
    rt: &R,
    script: Script,
) -> Result<(), Stop> {
    for stops in [true, false] {
        let plan = made_plan(rt.alloc(), script, stops)?;
        run_each_refused(rt, &plan, CallKind::Read)?;
        run_each_refused(rt, &plan, CallKind::Write)?;
    }
    Ok(())
}
