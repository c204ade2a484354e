//! Runs of a batch's scripts.
ghost use Rattle.std.specs.Prelude.{◌≡◌};
ghost use Rattle.txc_script_batch.specs.BatchRuns.{status_of, EndsInJobs, HasRunBatch, HasRunFrom};
ghost use Rattle.txc_script_batch.specs.WorkerFunctions.{numbers_in, IsCrew};

use crate::batch::Batch;
use crate::outcomes::push_batch;
use crate::plain_database::PlainDatabase;
use crate::player::BatchScript;
use crate::running::run_jobs;
use std::alloc::Global;
use std::io::{Read, Write};
use std::marker::PhantomData;
use std::sync::Wait;
use std::thread::Threads;
use txc_app::App;
use txc_call_registry::{Cacheable, Registry};
use txc_script::{RunFault, Status, run_script, write_text};
use txc_script_lines::OwnFault;
use txc_script_settings::Settings;

/// Returns the status of a run without a malformed line.
fn status_of(is_refused: bool) -> Status<OwnFault>
    ensures { result ≡ status_of is_refused }
{
    if is_refused {
        Status::Refused
    } else {
        Status::Done
    }
}

/// Runs the queued jobs, and writes their results. `is_refused` is whether a line was refused.
fn end_in_jobs<A, C, W, H>(
    rt: &H,
    alloc: Global,
    batch: Batch<A, C>,
    is_refused: bool,
    writer: &mut W,
) -> Result<Status<OwnFault>, RunFault>
where
    A: App + Send + Sync,
    C: Cacheable + Send,
    W: Write,
    H: Threads + Wait + Sync,
    ensures { EndsInJobs A.next batch is_refused (W.contents writer.old) (W.contents writer.new) result }
{
    let results = run_jobs(rt, alloc, batch);
    let mut text = Vec::new(alloc);
    let Ok(is_batch_refused) = push_batch(alloc, &mut text, &results) else {
        return Err(RunFault::Memory);
    };
    write_text(writer, &text)?;
    match writer.flush() {
        Ok(()) => Ok(status_of(is_refused || is_batch_refused)),
        Err(_) => Err(RunFault::Write),
    }
}

/// Runs the lines of a script over a new batch, and then its jobs.
fn run_lines<A, C, R, W, H>(
    rt: &H,
    alloc: Global,
    mut batch: Batch<A, C>,
    reader: &mut R,
    writer: &mut W,
) -> Result<Status<OwnFault>, RunFault>
where
    A: App + Send + Sync,
    C: Cacheable + Send,
    R: Read,
    W: Write,
    H: Threads + Wait + Sync,
    ensures { HasRunFrom A.next batch
        (R.remaining reader.old) (R.remaining reader.new) (W.contents writer.old) (W.contents writer.new) result }
{
    let script: BatchScript<A, C> = BatchScript(PhantomData);
    let lines_ended = run_script(alloc, &script, &mut batch, reader, writer);
    let BatchScript(_) = script;
    match lines_ended {
        Ok(Status::Done) => end_in_jobs(rt, alloc, batch, false, writer),
        Ok(Status::Refused) => end_in_jobs(rt, alloc, batch, true, writer),
        Ok(Status::Malformed(line)) => Ok(Status::Malformed(line)),
        Err(fault) => Err(fault),
    }
}

/// Reads a script, and writes the replies to its changes and pins, which are made in a new database and
/// pincushion by the settings. After all lines, if none was malformed, its jobs run over these and over new
/// nodes, each once, by workers on threads of their own, one for each registry. Then it writes a line for each
/// job, in the order of the jobs. The status has the fault of a malformed line.
///
/// It reads the reader at most [`txc_script::MAX_READS`] times, where an interrupted read counts and is
/// repeated; if it has not reached the end by then, that is a read fault. It flushes the writer before the jobs
/// run and at the end.
pub fn run_batch_script<A, C, R, W, H>(
    rt: &H,
    alloc: Global,
    settings: Settings,
    registries: Vec<Registry<A, C>>,
    reader: &mut R,
    writer: &mut W,
) -> Result<Status<OwnFault>, RunFault>
where
    A: App + Send + Sync,
    C: Cacheable + Send,
    R: Read,
    W: Write,
    H: Threads + Wait + Sync,
    requires { IsCrew settings.workers registries.items }
    ensures { HasRunBatch A.next settings (numbers_in registries.items)
        (R.remaining reader.old) (R.remaining reader.new) (W.contents writer.old) (W.contents writer.new) result }
{
    let Ok(source) = PlainDatabase::new(alloc, settings.row_cap) else {
        return Err(RunFault::Memory);
    };
    let batch = Batch::new(alloc, settings, source, registries);
    run_lines(rt, alloc, batch, reader, writer)
}
