//! The lines of an input, up to limits.
ghost use Rattle.std.specs.Prelude.{◌≡◌, ◌≢◌, ◌+◌, ◌≤◌, ℕ, List, [], ◌++◌, length, take, All, Option, Some, IfOk, IfErr, OnOk, IfSome, IsTrue, false};
ghost use Rattle.std.specs.Io.BufRead.{take_through, strip_last, DropsThrough};
ghost use Rattle.std.specs.Io.KnownBytes.{Consumes, IsAtEnd};
ghost use Rattle.std.specs.Io.Buffered.{reader_remaining};
ghost use Rattle.std.specs.Io.Take.{take_remaining};
ghost use Rattle.zarr_run_lines.specs.Reading.{IsLeft, TakesLine, up_to};

use crate::lines::LinesFault;
use memchr::memchr;
use std::alloc::Global;
use std::io::{BufRead, BufReader, Error, ErrorKind, Read, Take};

/// The most bytes that are read in one call.
const MAX_BYTES: u64 = 4_294_967_296;

/// The most lines that are run in one call.
const MAX_LINES: u64 = 1_048_576;

const BUFFER_BYTES: usize = 65_536;

/// The most buffers that are searched for a line feed as a whole, and not byte by byte.
const MAX_RUNS: u32 = 1_048_576;

/// How much may still be read.
#[derive(Drop)]
pub(crate) struct Limits {
    pub bytes: u64,
    pub lines: u64,
}

impl Limits {
    pub(crate) fn new() -> Self
        ensures bytes { result.bytes ≡ 4294967296 }
        ensures lines { result.lines ≡ 1048576 }
    {
        Limits {
            bytes: MAX_BYTES,
            lines: MAX_LINES,
        }
    }
}

/// A buffer in front of a reader. It takes one byte more than the limit, so that an input that
/// passes it is seen.
pub(crate) fn limited<R: Read + Drop>(
    alloc: Global,
    reader: R,
) -> Result<BufReader<Take<R>>, LinesFault>
    ensures ok { IfOk result (λ buffered. (text : List ℕ) → R.remaining reader ≡ Some text
        → IsLeft (up_to (reader_remaining (take_remaining R.remaining) buffered) 4294967296)
        text) }
    ensures err { IfErr result (λ fault. fault ≡ LinesFault.Memory) }
{
    match BufReader::with_capacity(alloc, BUFFER_BYTES, reader.take(MAX_BYTES + 1)) {
        Ok(buffered) => Ok(buffered),
        Err(_) => Err(LinesFault::Memory),
    }
}

fn read_fault(error: &Error) -> LinesFault {
    match error.kind() {
        ErrorKind::OutOfMemory => LinesFault::Memory,
        _ => LinesFault::Read,
    }
}

/// How many bytes there are before the first line feed.
fn run_len(bytes: &[u8]) -> usize
    ensures bound { result ≤ length bytes.now }
    ensures plain { All (λ x. x ≢ 10) (take result bytes.now) }
{
    match memchr(b'\n', bytes) {
        Some(at) => at,
        None => bytes.len(),
    }
}

/// Appends the buffered bytes before the next line feed. False where the buffer has one, or where
/// no byte is left.
fn append_run<B: BufRead>(reader: &mut B, line: &mut Vec<u8>) -> Result<bool, LinesFault>
    ensures { OnOk result ((run : List ℕ) × (line.new.items ≡ line.old.items ++ run)
        × Consumes (B.remaining reader.old) (B.remaining reader.new) run
        × All (λ x. x ≢ 10) run) }
{
    let available = match reader.fill_buf() {
        Ok(available) => available,
        Err(e) => {
            return match e.kind() {
                ErrorKind::Interrupted => Ok(false),
                _ => Err(read_fault(&e)),
            };
        }
    };
    let end = run_len(available);
    let more = (end > 0) & (end == available.len());
    line.extend_from_slice(&available[..end])?;
    reader.consume(end);
    Ok(more)
}

/// Reads the bytes before the next line feed into an empty line, or some of them.
fn append_runs<B: BufRead>(reader: &mut B, line: &mut Vec<u8>) -> Result<(), LinesFault>
    requires { line.old.items ≡ [] }
    ensures read { OnOk result
        (Consumes (B.remaining reader.old) (B.remaining reader.new) line.new.items) }
    ensures run { OnOk result (All (λ x. x ≢ 10) line.new.items) }
{
    'runs: for _ in 0..MAX_RUNS {
        if !append_run(reader, line)? {
            return Ok(());
        }
    }
    Ok(())
}

/// Reads through the next line feed, or to the end.
fn read_piece<B: BufRead>(reader: &mut B, line: &mut Vec<u8>) -> Result<usize, LinesFault>
    ensures count { IfOk result (λ n. length line.new.items ≡ n) }
    ensures bytes { OnOk result
        (IfSome (B.remaining reader.old) (λ xs. line.new.items ≡ take_through 10 xs)) }
    ensures rest { OnOk result (DropsThrough (B.remaining reader.old) (B.remaining reader.new) 10) }
{
    line.clear();
    append_runs(reader, line)?;
    match reader.read_until(b'\n', line) {
        Ok(_) => Ok(line.len()),
        Err(e) => Err(read_fault(&e)),
    }
}

/// Takes a line feed from the end.
fn strip_feed(line: &mut Vec<u8>)
    ensures { line.new.items ≡ strip_last 10 line.old.items }
{
    if let Some(b'\n') = line.last() {
        let _ = line.pop();
    }
}

/// Reads the next line, without its line feed. The answer is false at the end.
pub(crate) fn next_line<B: BufRead>(
    reader: &mut B,
    limits: &mut Limits,
    line: &mut Vec<u8>,
) -> Result<bool, LinesFault>
    ensures line { IfOk result (λ more. IsTrue more → (rest : List ℕ)
        → IsLeft (up_to (B.remaining reader.old) limits.old.bytes) rest
        → TakesLine (up_to (B.remaining reader.old) limits.old.bytes)
        (up_to (B.remaining reader.new) limits.new.bytes) line.new.items rest) }
    ensures lines { IfOk result (λ more. IsTrue more → limits.new.lines + 1 ≡ limits.old.lines) }
    ensures end { IfOk result (λ more. more ≡ false → (rest : List ℕ)
        → IsLeft (up_to (B.remaining reader.old) limits.old.bytes) rest → rest ≡ []) }
{
    let count = read_piece(reader, line)?;
    if count == 0 {
        return Ok(false);
    }
    if count as u64 > limits.bytes || limits.lines == 0 {
        return Err(LinesFault::Read);
    }
    limits.bytes -= count as u64;
    limits.lines -= 1;
    strip_feed(line);
    Ok(true)
}
