//! The steps that a line of a world's script stands for.
ghost use Rattle.std.specs.Prelude.{◌≡◌, map, All, IfOk, OnErr};
ghost use Rattle.txc_script_world.specs.TaskSteps.{DoesCounts, DoesPins, HasGivenUp, IsTaken, TaskHasBegun, TaskIsDone};
ghost use Rattle.txc_world.specs.Observation.{idle};
ghost use Rattle.txc_script_world.specs.TaskParts.{HasEndedTxn, HasUnpinned, IsCutShort};

use crate::outcome::{ending_of, is_added, is_unpinned, leaves_hold, stamp_in, taken_out, tidied};
use crate::printed::Printed;
use crate::task::Task;
use std::alloc::{AllocError, Global};
use txc_app::App;
use txc_call_registry::Cacheable;
use txc_cushion::Pin;
use txc_script::{FunctionLine, FunctionNumber};
use txc_stamp::Stamp;
use txc_world::{ActorStep, KeeperStep, Reply, Step, World};

/// Makes one step.
fn take<A: App, C: Cacheable>(alloc: Global, world: &mut World<A, C>, step: Step) -> Reply
    ensures { IsTaken A.next world.old step result world.new }
{
    world.step(alloc, &step)
}

/// Lets the keeper pin the present and add the pin, which no transaction uses. If it is not added, its hold is
/// removed.
fn pin_present<A: App, C: Cacheable>(alloc: Global, world: &mut World<A, C>, now: u64) -> Reply
    ensures { TaskIsDone A.next world.old (Task.Pin now) (Printed.Replied result) world.new }
{
    let pinned = take(alloc, world, Step::Keeper(KeeperStep::Pin(now)));
    let Some(stamp) = stamp_in(&pinned) else {
        return pinned;
    };
    let added = take(alloc, world, Step::Keeper(KeeperStep::Add(stamp)));
    if is_added(&added) {
        let _ = take(alloc, world, Step::Keeper(KeeperStep::GiveBack(stamp)));
        return pinned;
    }
    let _ = take(alloc, world, Step::Keeper(KeeperStep::Unpin(stamp)));
    added
}

/// Lets the actor make requests until its call has ended.
fn finish_call<A: App, C: Cacheable>(
    alloc: Global,
    world: &mut World<A, C>,
    actor: usize,
) -> Result<Printed, AllocError>
    ensures after { IfOk result (λ printed.
        TaskIsDone A.next world.old (Task.Finish actor) printed world.new) }
    ensures broke { OnErr result (TaskHasBegun A.next world.old (Task.Finish actor) world.new) }
{
    for _ in 0..u64::MAX {
        let reply = take(alloc, world, Step::Actor(actor, ActorStep::Request));
        if let Some(printed) = ending_of(reply) {
            return Ok(printed);
        }
    }
    Err(AllocError) // no call makes so many requests
}

/// Lets the actor end its transaction by this act, and remove the hold that is left.
fn end_txn<A: App, C: Cacheable>(
    alloc: Global,
    world: &mut World<A, C>,
    actor: usize,
    act: ActorStep,
) -> Reply
    ensures { HasEndedTxn A.next world.old actor act result world.new }
{
    let reply = take(alloc, world, Step::Actor(actor, act));
    if leaves_hold(&reply) {
        let _ = take(alloc, world, Step::Actor(actor, ActorStep::Request));
        return reply;
    }
    reply
}

/// Lets the keeper remove the holds of these stamps, and then drop the versions that no hold needs.
fn unpin_all<A: App, C: Cacheable>(
    alloc: Global,
    world: &mut World<A, C>,
    stamps: &[Stamp],
    count: usize,
) -> Printed
    ensures { HasUnpinned A.next world.old stamps.now count result world.new }
{
    let Some((stamp, others)) = stamps.split_first() else {
        let reply = take(alloc, world, Step::Keeper(KeeperStep::Vacuum));
        return tidied(count, reply);
    };
    let reply = take(alloc, world, Step::Keeper(KeeperStep::Unpin(*stamp)));
    if is_unpinned(&reply) {
        return unpin_all(alloc, world, others, count);
    }
    Printed::Replied(reply)
}

/// Lets the keeper remove the old pins and their holds, and drop the versions that no hold needs.
fn tidy_up<A: App, C: Cacheable>(
    alloc: Global,
    world: &mut World<A, C>,
    now: u64,
    age: u64,
) -> Printed
    ensures { TaskIsDone A.next world.old (Task.Tidy now age) result world.new }
{
    let reply = take(alloc, world, Step::Keeper(KeeperStep::Retire { now, age }));
    match taken_out(reply) {
        Ok(stamps) => unpin_all(alloc, world, stamps.as_slice(), stamps.len()),
        Err(reply) => Printed::Replied(reply),
    }
}

/// Returns the stamps of the pins.
fn stamps_of(alloc: Global, pins: &[Pin]) -> Result<Vec<Stamp>, AllocError>
    ensures { IfOk result (λ stamps. stamps.items ≡ map (λ p. p.stamp) pins.now) }
{
    pins.iter().map(|pin| pin.stamp).collect(alloc)
}

/// Returns the stamps at which the actor's transaction may be serialised.
fn members_of<A: App, C: Cacheable>(
    alloc: Global,
    world: &World<A, C>,
    actor: usize,
) -> Result<Printed, AllocError>
    ensures { IfOk result (λ printed. DoesPins A.next world.now actor printed) }
{
    match world.pins(actor) {
        Ok(members) => {
            let stamps = stamps_of(alloc, members.pins)?;
            Ok(Printed::Members(members.has_present, stamps))
        }
        Err(refusal) => Ok(Printed::Replied(Reply::Refused(refusal))),
    }
}

/// Returns the counts of a function at a node.
fn counts_at<A: App, C: Cacheable>(
    world: &World<A, C>,
    node: usize,
    function: FunctionNumber,
) -> Printed
    ensures { DoesCounts world.now node function result }
{
    let number = function.number();
    match world.counts(node) {
        Ok(counts) => Printed::Counted(FunctionLine {
            function: number,
            counts: counts.of(number),
        }),
        Err(refusal) => Printed::Replied(Reply::Refused(refusal)),
    }
}

/// Makes the steps of a line, and returns its output.
pub fn play<A: App, C: Cacheable>(
    alloc: Global,
    world: &mut World<A, C>,
    task: Task,
) -> Result<Printed, AllocError>
    ensures after { IfOk result (λ printed. TaskIsDone A.next world.old task printed world.new) }
    ensures broke { OnErr result (IsCutShort A.next world.old task world.new) }
{
    match task {
        Task::One(step) => Ok(Printed::Replied(take(alloc, world, step))),
        Task::Pin(now) => Ok(Printed::Replied(pin_present(alloc, world, now))),
        Task::Finish(actor) => finish_call(alloc, world, actor),
        Task::Pins(actor) => members_of(alloc, world, actor),
        Task::Commit(actor) => Ok(Printed::Replied(end_txn(
            alloc,
            world,
            actor,
            ActorStep::Commit,
        ))),
        Task::Abort(actor) => Ok(Printed::Replied(end_txn(alloc, world, actor, ActorStep::Abort))),
        Task::Tidy { now, age } => Ok(tidy_up(alloc, world, now, age)),
        Task::Counts { node, function } => Ok(counts_at(world, node, function)),
    }
}

/// Lets each actor abort its open transaction, in the order of their numbers, and remove the hold that is left.
/// Steps of an idle actor fail, and change nothing.
pub fn give_all_up<A: App, C: Cacheable>(alloc: Global, world: &mut World<A, C>)
    ensures given_up { HasGivenUp A.next world.old world.new }
    ensures closed { All (λ observed. observed ≡ idle) world.new.told.actors }
{
    for actor in 0..world.actor_count() {
        let _ = take(alloc, world, Step::Actor(actor, ActorStep::Abort));
        let _ = take(alloc, world, Step::Actor(actor, ActorStep::Request));
    }
}
