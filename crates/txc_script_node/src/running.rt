//! Runs of a node's scripts.
ghost use Rattle.txc_node.specs.Cache.{Cache, empty_cache};
ghost use Rattle.std.specs.Prelude.{◌≡◌, [], IfOk};
ghost use Rattle.txc_script.specs.Runs.{ScriptHasRun};
ghost use Rattle.txc_script_node.specs.ReportProgress.{HasReport};
ghost use Rattle.txc_script_node.specs.NodeScripts.{node_script};

use crate::node::{Counted, Counting, Replying};
use crate::report::Report;
use std::alloc::{AllocError, Global};
use std::io::{Read, Write};
use std::marker::PhantomData;
use txc_node::NodeCore;
use txc_script::{RunFault, Status, run_script};
use txc_script_settings::{Mode, Settings};

/// Runs a script whose replies are written.
fn run_replying<F: Drop, R: Read, W: Write>(
    alloc: Global,
    settings: Settings,
    reader: &mut R,
    writer: &mut W,
) -> Result<Status<F>, RunFault>
    ensures { (left : Cache) × ScriptHasRun (node_script Mode.Node) (empty_cache settings.capacity settings.recent)
        (R.remaining reader.old) (R.remaining reader.new)
        (W.contents writer.old) (W.contents writer.new) result left }
{
    match NodeCore::new(alloc, settings.capacity, settings.recent) {
        Ok(mut node) => run_script(alloc, &Replying(PhantomData), &mut node, reader, writer),
        Err(_) => Err(RunFault::Memory),
    }
}

/// Makes a new node, and a report of no replies.
fn new_counted(alloc: Global, settings: Settings) -> Result<Counted, AllocError>
    ensures node { IfOk result (λ s. s.node ≡ empty_cache settings.capacity settings.recent) }
    ensures report { IfOk result (λ s. HasReport [] s.report) }
{
    let node = NodeCore::new(alloc, settings.capacity, settings.recent)?;
    let report = Report::new(alloc)?;
    Ok(Counted { node, report })
}

/// Runs a script whose replies are counted.
fn run_counting<F: Drop, R: Read, W: Write>(
    alloc: Global,
    settings: Settings,
    reader: &mut R,
    writer: &mut W,
) -> Result<Status<F>, RunFault>
    ensures { (left : Cache)
        × ScriptHasRun (node_script Mode.Report) (empty_cache settings.capacity settings.recent)
        (R.remaining reader.old) (R.remaining reader.new)
        (W.contents writer.old) (W.contents writer.new) result left }
{
    match new_counted(alloc, settings) {
        Ok(mut counted) => run_script(alloc, &Counting(PhantomData), &mut counted, reader, writer),
        Err(_) => Err(RunFault::Memory),
    }
}

/// Reads a script, and writes the replies to its lines or a report of them, by the mode. The status has the
/// fault of a malformed line. It reads the reader at most [`crate::MAX_READS`] times, where an interrupted read
/// counts and is repeated; if it has not reached the end by then, that is a read fault. It flushes the writer
/// at the end, unless memory for the node cannot be allocated: then it has read nothing.
pub fn run<F: Drop, R: Read, W: Write>(
    alloc: Global,
    mode: Mode,
    settings: Settings,
    reader: &mut R,
    writer: &mut W,
) -> Result<Status<F>, RunFault>
    ensures { (left : Cache) × ScriptHasRun (node_script mode) (empty_cache settings.capacity settings.recent)
        (R.remaining reader.old) (R.remaining reader.new)
        (W.contents writer.old) (W.contents writer.new) result left }
{
    match mode {
        Mode::Node => run_replying(alloc, settings, reader, writer),
        Mode::Report => run_counting(alloc, settings, reader, writer),
    }
}
