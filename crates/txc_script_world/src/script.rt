//! Runs of a world's scripts.
ghost use Rattle.std.specs.Prelude.{◌≡◌, All};
ghost use Rattle.txc_world.specs.Observation.{idle};
ghost use Rattle.txc_script_world.specs.WorldRuns.{world_settings, HasPlayed};

use crate::player::WorldScript;
use crate::playing::give_all_up;
use std::alloc::Global;
use std::io::{Read, Write};
use std::marker::PhantomData;
use txc_app::App;
use txc_call_registry::Cacheable;
use txc_script::{RunFault, Status, run_script};
use txc_script_lines::OwnFault;
use txc_script_settings::Settings;
use txc_world::{World, WorldSettings};

/// Returns the settings of a run's world.
pub fn world_settings(settings: Settings) -> WorldSettings
    ensures { result ≡ world_settings settings }
{
    WorldSettings {
        capacity: settings.capacity,
        nodes: settings.nodes,
        recent: settings.recent,
        renew_after: settings.renew_after,
        row_cap: settings.row_cap,
    }
}

/// Reads a script, and writes the replies to its lines: the keeper and the actors of the world, by their
/// numbers, make steps. The status has the fault of a malformed line. However the run ends, each actor then
/// aborts its open transaction. It reads the reader at most [`txc_script::MAX_READS`] times, where an
/// interrupted read counts and is repeated; if it has not reached the end by then, that is a read fault. It
/// flushes the writer at the end.
pub fn run_world<A: App, C: Cacheable, R: Read, W: Write>(
    alloc: Global,
    world: &mut World<A, C>,
    reader: &mut R,
    writer: &mut W,
) -> Result<Status<OwnFault>, RunFault>
    ensures after { HasPlayed A.next world.old (R.remaining reader.old) (R.remaining reader.new)
        (W.contents writer.old) (W.contents writer.new) result world.new }
    ensures closed { All (λ observed. observed ≡ idle) world.new.told.actors }
{
    let script: WorldScript<A, C> = WorldScript(PhantomData);
    let ended = run_script(alloc, &script, world, reader, writer);
    let WorldScript(_) = script;
    give_all_up(alloc, world);
    ended
}
