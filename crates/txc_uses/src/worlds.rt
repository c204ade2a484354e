//! A world, step by step.
ghost use Rattle.std.specs.Prelude.{◌<◌, IfOk};

use anyhow::Result;
use std::alloc::Global;
use txc_call_permits::PermitPool;
use txc_world::{ActorStep, KeeperStep, Step, World, WorldSettings};
use txcache_functions::{Object, Program, registries};

const SETTINGS: WorldSettings = WorldSettings {
    capacity: 64,
    nodes: 1,
    recent: 16,
    renew_after: 5000,
    row_cap: 64,
};

/// Makes a new world of two actors.
fn world(alloc: Global) -> Result<World<Program, Object>>
    ensures { IfOk result (λ world. 0 < world.told.settings.nodes) }
{
    let mut pool = PermitPool::new(alloc, 4)?;
    let actors = registries(alloc, &mut pool, 2)?;
    Ok(World::new(alloc, SETTINGS, actors)?)
}

/// Reads the state of a new world.
pub fn shown(alloc: Global) -> Result<usize> {
    let world = world(alloc)?;
    world.is_true();
    let passes = world.node(0).passes();
    let actors = world.actor_count();
    let events = match world.counts(0) {
        Ok(counts) => counts.events() as usize,
        Err(_) => 0,
    };
    Ok(passes.max(actors).max(events))
}

/// Makes steps of an actor and of the keeper.
pub fn steps(alloc: Global) -> Result<usize> {
    let mut world = world(alloc)?;
    let _reply = world.step(alloc, &Step::Actor(0, ActorStep::BeginRw));
    let replies = world.run(alloc, &[Step::Keeper(KeeperStep::Vacuum)])?;
    let is_reading = world.pins(0).is_ok();
    let (database, _) = world.into_parts();
    let room = database.front()?.room();
    Ok(room.max(replies.len()).max(usize::from(is_reading)))
}
