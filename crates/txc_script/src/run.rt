//! Runs of scripts.
ghost use Rattle.std.specs.Prelude.{◌≡◌, ◌≢◌, ℕ, ◌+◌, ◌^◌, ◌<◌, ◌≤◌, List, None, Err, ◌++◌, length};
ghost use Rattle.txc_script.specs.Reads.{IsOver};
ghost use Rattle.txc_script.specs.Runs.{ScriptHasRun};
ghost use Rattle.txc_script.specs.Progress.{progress_of, EndsFlushed, EndsWith, HasAnsweredLines, TurnsTo};

use crate::fault::{RunFault, Status};
use crate::kind::Script;
use crate::reads::Reads;
use crate::running::{Flow, Running};
use std::alloc::Global;
use std::io::{Read, Write};

/// The number of bytes of a read.
const PIECE_LEN: usize = 16_384;

/// Executes the lines that end in the bytes of a read, and writes the replies.
fn turn<K: Script, W: Write>(
    alloc: Global,
    kind: &K,
    state: &mut K::State,
    running: &mut Running<K::Fault>,
    bytes: &[u8],
    writer: &mut W,
) -> Result<Flow<K::Fault>, RunFault>
    requires { running.old.lines + length bytes.now < 2 ^ 64 }
    ensures counted { running.new.lines ≤ running.old.lines + length bytes.now }
    ensures turned { (start : K.State) (read written : List ℕ)
        → HasAnsweredLines (K.kind kind.now) start read written (progress_of state.old running.old)
        → TurnsTo (K.kind kind.now) start (read ++ bytes.now) written (progress_of state.new running.new)
        (W.contents writer.old) (W.contents writer.new) result }
    ensures refused { result ≢ Err RunFault.Read }
{
    let answered = running.answer_lines(alloc, kind, state, bytes);
    match running.write_out(writer) {
        Ok(()) => match answered {
            Ok(flow) => Ok(flow),
            Err(_) => Err(RunFault::Memory),
        },
        Err(_) => Err(RunFault::Write),
    }
}

/// Executes the last line, does the work after all lines, and writes the replies.
fn finish<K: Script, W: Write>(
    alloc: Global,
    kind: &K,
    state: &mut K::State,
    running: &mut Running<K::Fault>,
    writer: &mut W,
) -> Result<Status<K::Fault>, RunFault>
    requires { running.old.lines + 1 < 2 ^ 64 }
    ensures ended { (start : K.State) (read written : List ℕ)
        → HasAnsweredLines (K.kind kind.now) start read written (progress_of state.old running.old)
        → EndsWith (K.kind kind.now) start read (Unit {0}) written
        (W.contents writer.old) (W.contents writer.new) result state.new }
    ensures refused { result ≢ Err RunFault.Read }
{
    let answered = running.finish(alloc, kind, state);
    match running.write_out(writer) {
        Ok(()) => match answered {
            Ok(end) => Ok(running.status(end)),
            Err(_) => Err(RunFault::Memory),
        },
        Err(_) => Err(RunFault::Write),
    }
}

/// Executes the lines of a script. It fails as a read fault only if no read is left or the reader failed.
fn answer_script<K: Script, R: Read, W: Write>(
    alloc: Global,
    kind: &K,
    state: &mut K::State,
    reader: &mut R,
    writer: &mut W,
    reads: &mut Reads,
) -> Result<Status<K::Fault>, RunFault>
    requires { reads.old ≡ record { left = 1048576; failure = None } }
    ensures after { ScriptHasRun (K.kind kind.now) state.old (R.remaining reader.old) (R.remaining reader.new)
        (W.contents writer.old) (W.contents writer.new) result state.new }
    ensures refused { result ≡ Err RunFault.Read → IsOver reads.new }
{
    let mut running = match Running::new(alloc) {
        Ok(running) => running,
        Err(_) => return Err(RunFault::Memory),
    };
    let mut piece = [0u8; PIECE_LEN];
    'reads: loop {
        let n = reads.read(reader, &mut piece)?;
        if n == 0 {
            return finish(alloc, kind, state, &mut running, writer);
        }
        match turn(alloc, kind, state, &mut running, &piece[..n], writer)? {
            Flow::GoesOn => {}
            Flow::Stopped(line) => return Ok(Status::Malformed(line)),
        }
    }
}

/// Flushes the writer at the end of a run. If the run failed, that error is reported.
fn flush<F: Drop, W: Write>(
    writer: &mut W,
    ended: Result<Status<F>, RunFault>,
) -> Result<Status<F>, RunFault>
    ensures { EndsFlushed (W.contents writer.old) (W.contents writer.new) ended result }
{
    let flushed = writer.flush();
    let status = ended?;
    match flushed {
        Ok(()) => Ok(status),
        Err(_) => Err(RunFault::Write),
    }
}

/// Reads a script of a kind, and writes the replies to its lines. The status has the fault of a malformed line.
/// It reads the reader at most [`crate::MAX_READS`] times, where an interrupted read counts and is repeated; if
/// it has not reached the end by then, that is a read fault. It flushes the writer at the end.
pub fn run_script<K: Script, R: Read, W: Write>(
    alloc: Global,
    kind: &K,
    state: &mut K::State,
    reader: &mut R,
    writer: &mut W,
) -> Result<Status<K::Fault>, RunFault>
    ensures { ScriptHasRun (K.kind kind.now) state.old (R.remaining reader.old) (R.remaining reader.new)
        (W.contents writer.old) (W.contents writer.new) result state.new }
{
    let mut reads = Reads::new();
    let ended = answer_script(alloc, kind, state, reader, writer, &mut reads);
    flush(writer, ended)
}
