//! Lines of readers that fail or wait, and answers to writers that fail.

use std::cell::Cell;
use std::io::{Error, ErrorKind, Read, Result, Write};
use std::thread::Threads;
use zarr_run::{LinesFault, run_lines};
use zarr_run_samples::new_session;

/// The answers to an input that is read to its end.
fn answers<R: AllocGlobal + Threads + Sync>(rt: &R, input: &[u8]) -> Option<Vec<u8>> {
    let alloc = rt.alloc();
    let (mut session, mut output) = (new_session(alloc), Vec::new(alloc));
    match run_lines(rt, alloc, &mut session, input, &mut output, false) {
        Ok(()) => Some(output),
        Err(_) => None,
    }
}

const TWO_FAULTS: &[u8] = b"{\"fault\":\"line\"}\n{\"fault\":\"line\"}\n";

#[test]
fn the_last_line_needs_no_line_feed(rt: HostRuntime) {
    let answers = answers(&rt, b"\xff\nnull");
    assert!(rt; matches!(&answers, Some(found) if found.as_slice() == TWO_FAULTS));
}

/// Gives a text at some reads, and fails after them or ends. It fails too where a line that it gave
/// is not answered yet.
#[derive(Drop)]
struct Reader<'a> {
    text: &'a [u8],
    left: usize,
    ends: bool,
    given: usize,
    answered: &'a Cell<usize>,
}

impl Read for Reader<'_> {
    fn read(&mut self, buf: &mut [u8]) -> Result<usize> {
        if self.answered.get() < self.given || buf.len() < self.text.len() {
            return Err(Error::from(ErrorKind::TimedOut));
        }
        if self.left == 0 && self.ends {
            return Ok(0);
        }
        if self.left == 0 {
            return Err(Error::from(ErrorKind::BrokenPipe));
        }
        self.left -= 1;
        self.given = self.given.saturating_add(count_lines(self.text));
        buf[..self.text.len()].copy_from_slice(self.text);
        Ok(self.text.len())
    }
}

/// Fails after some calls, and tells the lines that were written and flushed.
#[derive(Drop)]
struct Writer<'a> {
    left: u32,
    written: usize,
    answered: &'a Cell<usize>,
}

impl Writer<'_> {
    fn call(&mut self) -> Result<()> {
        if self.left == 0 {
            return Err(Error::from(ErrorKind::BrokenPipe));
        }
        self.left -= 1;
        Ok(())
    }
}

impl Write for Writer<'_> {
    fn write(&mut self, buf: &[u8]) -> Result<usize> {
        self.call()?;
        self.written = self.written.saturating_add(count_lines(buf));
        Ok(buf.len())
    }

    fn flush(&mut self) -> Result<()> {
        self.call()?;
        self.answered.set(self.written);
        Ok(())
    }
}

fn count_lines(text: &[u8]) -> usize {
    text.iter().filter(|byte| **byte == b'\n').count()
}

/// Runs the lines of a text that is read so many times, then fails or ends, with a writer that
/// fails after some calls. Gives how the run ended, and how many lines were answered.
fn run<R: AllocGlobal + Threads + Sync>(
    rt: &R,
    (text, left, ends): (&[u8], usize, bool),
    calls: u32,
) -> (std::result::Result<(), LinesFault>, usize) {
    let answered = &Cell::new(0usize);
    let reader = Reader {
        text,
        left,
        ends,
        given: 0,
        answered,
    };
    let mut writer = Writer {
        left: calls,
        written: 0,
        answered,
    };
    let alloc = rt.alloc();
    let mut session = new_session(alloc);
    let ran = run_lines(rt, alloc, &mut session, reader, &mut writer, false);
    (ran, answered.get())
}

#[test]
fn a_failing_read_is_a_read_fault(rt: HostRuntime) {
    for left in 0..3usize {
        let (ran, answered) = run(&rt, (b"\n", left, false), 99);
        assert!(rt; matches!(ran, Err(LinesFault::Read)));
        assert!(rt; answered == left, "after {left} reads");
    }
}

/// The first write, the first flush, the second write or the second flush fails.
#[test]
fn a_failing_write_is_a_write_fault(rt: HostRuntime) {
    for calls in 0..4u32 {
        let (ran, _) = run(&rt, (b"\n", 2, false), calls);
        assert!(rt;
            matches!(ran, Err(LinesFault::Write)),
            "after {calls} calls"
        );
    }
}

/// Each read gives two lines and the start of a third one.
#[test]
fn answers_come_before_a_wait(rt: HostRuntime) {
    let (ran, answered) = run(&rt, (b"\n\nx", 3, true), 99);
    assert!(rt; ran.is_ok());
    assert!(rt; answered == 7);
}
