//! Runs of scripts of every kind.
ghost use Rattle.std.specs.Prelude.{◌≡◌};
ghost use Rattle.txc_script_settings.specs.declared.script.Script.{Script};
ghost use Rattle.txcache_functions.specs.Program.{program};
ghost use Rattle.txc_script_batch.specs.BatchRuns.{HasRunBatch};
ghost use Rattle.txc_script_batch.specs.WorkerFunctions.{numbers_in, IsCrew};
ghost use Rattle.txcache_run.specs.Modes.{HasRunBy};

use crate::registries::Registries;
use std::alloc::Global;
use std::io::{Read, Write};
use std::sync::Wait;
use std::thread::Threads;
use txc_call_registry::Registry;
use txc_script::{RunFault, Status};
use txc_script_batch::run_batch_script;
use txc_script_lines::OwnFault;
use txc_script_settings::{Script, Settings};
use txc_script_world::{run_world, world_settings};
use txc_world::World;
use txcache_functions::{Object, Program};

/// The number of actors of a world.
pub const ACTORS: usize = 8;

/// Runs a world's script in a new world, with an actor for each registry.
fn run_in_world<R: Read, W: Write>(
    alloc: Global,
    settings: Settings,
    reader: &mut R,
    writer: &mut W,
) -> Result<Status<OwnFault>, RunFault>
    ensures { HasRunBy Script.World settings
        (R.remaining reader.old) (R.remaining reader.new) (W.contents writer.old) (W.contents writer.new) result }
{
    let Ok(staff) = Registries::new(alloc, settings.permits, ACTORS) else {
        return Err(RunFault::Memory);
    };
    let registries = staff.into_registries();
    match World::new(alloc, world_settings(settings), registries) {
        Ok(mut world) => run_world(alloc, &mut world, reader, writer),
        Err(_) => Err(RunFault::Memory),
    }
}

/// Runs a batch's script by these workers.
fn run_by<R: Read, W: Write, H: Threads + Wait + Sync>(
    rt: &H,
    alloc: Global,
    settings: Settings,
    workers: Vec<Registry<Program, Object>>,
    reader: &mut R,
    writer: &mut W,
) -> Result<Status<OwnFault>, RunFault>
    requires { IsCrew settings.workers workers.items }
    ensures { HasRunBatch program settings (numbers_in workers.items)
        (R.remaining reader.old) (R.remaining reader.new) (W.contents writer.old) (W.contents writer.new) result }
{
    run_batch_script(rt, alloc, settings, workers, reader, writer)
}

/// Runs a batch's script by as many workers as the settings have.
fn run_by_workers<R: Read, W: Write, H: Threads + Wait + Sync>(
    rt: &H,
    alloc: Global,
    settings: Settings,
    reader: &mut R,
    writer: &mut W,
) -> Result<Status<OwnFault>, RunFault>
    ensures { HasRunBy Script.Batch settings
        (R.remaining reader.old) (R.remaining reader.new) (W.contents writer.old) (W.contents writer.new) result }
{
    let Ok(staff) = Registries::new(alloc, settings.permits, settings.workers) else {
        return Err(RunFault::Memory);
    };
    let workers = staff.into_registries();
    run_by(rt, alloc, settings, workers, reader, writer)
}

/// Reads a script of this kind, and writes the replies to its lines, by the settings and with the program's
/// functions. The status has the fault of a malformed line. It reads the reader at most
/// [`txc_script::MAX_READS`] times, where an interrupted read counts and is repeated; if it has not reached the
/// end by then, that is a read fault. It flushes the writer at the end, unless it had no memory to begin: then
/// it has read nothing.
pub fn run<R: Read, W: Write, H: Threads + Wait + Sync>(
    rt: &H,
    alloc: Global,
    script: Script,
    settings: Settings,
    reader: &mut R,
    writer: &mut W,
) -> Result<Status<OwnFault>, RunFault>
    ensures { HasRunBy script settings
        (R.remaining reader.old) (R.remaining reader.new) (W.contents writer.old) (W.contents writer.new) result }
{
    match script {
        Script::Node(mode) => txc_script_node::run(alloc, mode, settings, reader, writer),
        Script::World => run_in_world(alloc, settings, reader, writer),
        Script::Batch => run_by_workers(rt, alloc, settings, reader, writer),
    }
}
