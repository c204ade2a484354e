//! The steps of an actor, each kind by itself.
ghost use Rattle.std.specs.Prelude.{◌≡◌, ℕ, ◌≤◌, ◌<◌, All, IfNone, IfSome, None, Some, length, vec_len};
ghost use Rattle.txc_call_registry.specs.Objects.{AllIdle};
ghost use Rattle.txc_app.specs.Eval.{Next};
ghost use Rattle.txc_txn.specs.TxnCore.{open_call, recorded_after, CoreAsks, IsTurn};
ghost use Rattle.txc_txn_ports.specs.PortRequests.{AddsSuch};
ghost use Rattle.txc_txn_ports.specs.Turns.{IsAsk};
ghost use Rattle.txc_world.specs.ActorStep.{ActsAt, ActsThere, IsActed};
ghost use Rattle.txc_world.specs.Actors.{counted, holds_any, AddsPart, DropsNone, HasAsked, IsActor, IsActorThere, IsNoted, IsOpenTxn};
ghost use Rattle.txc_world.specs.StepEffects.{ActTransition, ReadingTransition, RestingTransition};
ghost use Rattle.txc_world.specs.ActorValues.{actor_value, opened, reading_value, reads};
ghost use Rattle.txc_world.specs.Holdings.{account_of_core, HasLost, TakesOnlyItsOwn};
ghost use Rattle.txc_world.specs.LostSnapshot.{IfDidLose, IfTurnLost};
ghost use Rattle.txc_world.specs.Parts.{IsPartOf};
ghost use Rattle.txc_world.specs.Ports.{whole_of, KeepsRow};
ghost use Rattle.txc_world.specs.Observation.{did_in};

use crate::actor::{Actor, OpenCall, OpenTxn};
use crate::port_outcome::{PortOutcome, told};
use crate::ports::Ports;
use crate::reply::{Refusal, Reply};
use crate::step::ActorStep;
use crate::writing::{act_writing, begin_rw};
use std::alloc::Global;
use txc_app::App;
use txc_call_registry::{Cacheable, Registry};
use txc_cushion::Pin;
use txc_node::Value;
use txc_stamp::Reach;
use txc_tags::Key;
use txc_txn::{RunningTxn, TxnCore};
use txc_txn_ports::{Bounds, PortRequest, Turn, TxnError};

// Begins a transaction with the pins that are issued for it. If memory cannot be allocated, they are returned,
// and nothing is open.
fn begin_ro<A: App, C: Cacheable>(
    alloc: Global,
    ports: &mut Ports<A>,
    renew_after: u64,
    registry: Registry<A, C>,
    bounds: Bounds,
) -> (Actor<A, C>, Reply)
    requires idle { AllIdle registry }
    requires nodes { 1 ≤ length ports.old.nodes }
    ensures acted { IsActed A.next (ActorStep.BeginRo bounds) ports.old ports.new (Actor.Idle registry) result.0 result.1 }
    ensures transition { RestingTransition renew_after (ActorStep.BeginRo bounds) ports.old ports.new registry
        (actor_value result.0) result.1 }
{
    ports.count_right();
    let nodes = ports.len();
    let Ok(pins) = ports.fresh(alloc, bounds.now, bounds.staleness, bounds.at_least) else {
        return (Actor::Idle(registry), Reply::Refused(Refusal::Memory));
    };
    match TxnCore::begin(alloc, nodes, renew_after, bounds, pins) {
        Ok(core) => {
            let txn = RunningTxn::new(core, registry);
            (Actor::Reading(OpenTxn { txn, call: None }), Reply::Begun)
        }
        Err(pins) => {
            ports.give_back_pins(&pins);
            (Actor::Idle(registry), Reply::Refused(Refusal::Memory))
        }
    }
}

// Starts a call. It makes no request yet, and is open even if it has ended at once.
fn start<A: App, C: Cacheable>(
    alloc: Global,
    whole: &Ports<A>,
    current: &mut OpenTxn<A, C>,
    key: &Key,
) -> Reply
    requires fits { IsOpenTxn (whole_of whole.now) (length whole.now.nodes) current.old }
    ensures acted { IsActed A.next (ActorStep.Start key.now) whole.now whole.now
        (Actor.Reading current.old) (Actor.Reading current.new) result }
    ensures transition { (next : Next) (pass : ℕ) → ReadingTransition next pass (ActorStep.Start key.now) whole.now whole.now
        (reading_value current.old) (reads (reading_value current.new)) result }
{
    if current.call.is_some() {
        return Reply::Refused(Refusal::MidCall);
    }
    let turn = current.txn.start(alloc, key.copy());
    current.call = Some(OpenCall {
        key: key.copy(),
        turn,
    });
    Reply::Started
}

// Returns the port's action, with a hit in whose reach no member is as a miss.
fn counted(did: PortOutcome, members: &[Pin]) -> PortOutcome
    ensures { result ≡ counted members.now did }
{
    match did {
        PortOutcome::Hit(reach) if !holds_any(reach, members) => PortOutcome::Miss,
        did => did,
    }
}

// Returns `true` if the reach holds one of the members.
fn holds_any(reach: Reach, members: &[Pin]) -> bool
    ensures { result ≡ holds_any reach members.now }
{
    members.iter().any(|pin| reach.holds(pin.stamp))
}

// Makes the request at the port, and continues with the reply.
fn go_on<A: App, C: Cacheable>(
    alloc: Global,
    ports: &mut Ports<A>,
    pass: usize,
    txn: &mut RunningTxn<A, C>,
    request: PortRequest,
) -> (PortOutcome, Turn<PortRequest, Value>)
    requires own { pass < ports.old.actors }
    requires asks { CoreAsks txn.old.core request }
    requires seen { IsPartOf (whole_of ports.old) txn.old.core.seen }
    requires nodes { txn.old.core.nodes ≡ length ports.old.nodes }
    requires adds { AddsSuch (IsPartOf (whole_of ports.old)) request }
    requires drops { DropsNone txn.old.core }
    ensures asks { HasAsked A.next pass request ports.old ports.new txn.old txn.new result.0 result.1 }
    ensures turn { IsTurn txn.new.core result.1 }
    ensures goes_on { IsAsk result.1 → open_call txn.new.core ≡ open_call txn.old.core }
    ensures recorded { txn.new.core.recorded
        ≡ recorded_after txn.old.core.recorded result.1 (open_call txn.old.core) }
    ensures bounds { txn.new.core.bounds ≡ txn.old.core.bounds }
    ensures seen { IsPartOf (whole_of ports.new) txn.new.core.seen }
    ensures nodes { txn.new.core.nodes ≡ length ports.new.nodes }
    ensures adds { AddsPart (whole_of ports.new) result.1 }
    ensures history { ports.new.database.history
        ≡ did_in result.0 txn.old.core.bounds.now ports.old.database.history }
    ensures keeps { KeepsRow ports.old ports.new }
    ensures spare { ports.new.spare ≡ ports.old.spare }
    ensures own_only { TakesOnlyItsOwn ports.old ports.new (account_of_core txn.old.core) (account_of_core txn.new.core) }
    ensures drops { DropsNone txn.new.core }
    ensures loss { IfDidLose result.0 (HasLost ports.old (account_of_core txn.old.core)) }
    ensures lost { IfTurnLost result.1 (HasLost ports.old (account_of_core txn.old.core)) }
{
    txn.is_kept();
    let reply = ports.ask(alloc, pass, txn.core().seen(), request);
    let (did, reply) = told(alloc, reply);
    let did = counted(did, txn.core().members());
    let turn = txn.next(alloc, reply);
    (did, turn)
}

/// Returns the state of the call after this turn: still open, or ended with a result.
pub(crate) fn note<R>(
    key: Key,
    turn: Turn<R, Value>,
) -> (Option<OpenCall<R>>, Option<Result<Value, TxnError>>)
    ensures { IsNoted (opened key) turn result.0 result.1 }
{
    match turn {
        Turn::Ask(request) => {
            let turn = Turn::Ask(request);
            (Some(OpenCall { key, turn }), None)
        }
        Turn::Ended(result) => (None, Some(result)),
    }
}

// Makes the next request of the open call. If the call ended before any request, its first request reports
// that.
fn request_call<A: App, C: Cacheable>(
    alloc: Global,
    ports: &mut Ports<A>,
    pass: usize,
    current: &mut OpenTxn<A, C>,
) -> Reply
    requires own { pass < ports.old.actors }
    requires fits { IsOpenTxn (whole_of ports.old) (length ports.old.nodes) current.old }
    ensures acted { IsActed A.next ActorStep.Request ports.old ports.new
        (Actor.Reading current.old) (Actor.Reading current.new) result }
    ensures transition { ReadingTransition A.next pass ActorStep.Request ports.old ports.new
        (reading_value current.old) (reads (reading_value current.new)) result }
{
    let Some(OpenCall { key, turn }) = current.call.take() else {
        return Reply::Refused(Refusal::NoRequest);
    };
    match turn {
        Turn::Ask(request) => {
            let (did, turn) = go_on(alloc, ports, pass, &mut current.txn, request);
            let (call, end) = note(key, turn);
            current.call = call;
            Reply::Asked(did, end)
        }
        Turn::Ended(result) => Reply::Ended(result),
    }
}

// Ends the transaction with its receipt, and returns its pins.
fn commit<A: App, C: Cacheable>(
    ports: &mut Ports<A>,
    current: OpenTxn<A, C>,
) -> (Actor<A, C>, Reply)
    requires fits { IsOpenTxn (whole_of ports.old) (length ports.old.nodes) current }
    requires no_call { current.call ≡ None }
    ensures acted { IsActed A.next ActorStep.Commit ports.old ports.new (Actor.Reading current) result.0 result.1 }
    ensures transition { (next : Next) (pass : ℕ) → ReadingTransition next pass ActorStep.Commit ports.old ports.new
        (reading_value current) (actor_value result.0) result.1 }
{
    let OpenTxn { txn, call: _ } = current;
    let (receipt, pins, registry) = txn.finish();
    let _ = ports.give_back(&pins);
    (Actor::Idle(registry), Reply::Receipt(receipt.pin))
}

// Aborts the transaction, also in the middle of a call, and returns its pins.
fn abort<A: App, C: Cacheable>(ports: &mut Ports<A>, current: OpenTxn<A, C>) -> (Actor<A, C>, Reply)
    ensures acted { IsActed A.next ActorStep.Abort ports.old ports.new (Actor.Reading current) result.0 result.1 }
    ensures transition { (next : Next) (pass : ℕ) → ReadingTransition next pass ActorStep.Abort ports.old ports.new
        (reading_value current) (actor_value result.0) result.1 }
{
    let (left, registry) = current.txn.cancel();
    let _ = ports.give_back(&left.give_back);
    match left.unpin {
        Some(stamp) => (Actor::Leaving(registry, stamp), Reply::Aborted(Some(stamp))),
        None => (Actor::Idle(registry), Reply::Aborted(None)),
    }
}

// Makes a step of an actor with an open read-only transaction.
fn act_open<A: App, C: Cacheable>(
    alloc: Global,
    ports: &mut Ports<A>,
    pass: usize,
    current: OpenTxn<A, C>,
    act: &ActorStep,
) -> (Actor<A, C>, Reply)
    requires own { pass < ports.old.actors }
    requires fits { IsOpenTxn (whole_of ports.old) (length ports.old.nodes) current }
    ensures acted { IsActed A.next act.now ports.old ports.new (Actor.Reading current) result.0 result.1 }
    ensures transition { ReadingTransition A.next pass act.now ports.old ports.new (reading_value current)
        (actor_value result.0) result.1 }
{
    match act {
        ActorStep::BeginRo(_) | ActorStep::BeginRw => (
            Actor::Reading(current),
            Reply::Refused(Refusal::AlreadyOpen),
        ),
        ActorStep::Ask(_) | ActorStep::Write(_) => (
            Actor::Reading(current),
            Reply::Refused(Refusal::NotOpen),
        ),
        ActorStep::Request => {
            let mut current = current;
            let reply = request_call(alloc, ports, pass, &mut current);
            (Actor::Reading(current), reply)
        }
        ActorStep::Start(key) => {
            let mut current = current;
            let reply = start(alloc, ports, &mut current, key);
            (Actor::Reading(current), reply)
        }
        ActorStep::Abort => abort(ports, current),
        ActorStep::Commit if current.call.is_some() => {
            (Actor::Reading(current), Reply::Refused(Refusal::MidCall))
        }
        ActorStep::Commit => commit(ports, current),
    }
}

// Makes one step of an actor.
fn act_whole<A: App, C: Cacheable>(
    alloc: Global,
    ports: &mut Ports<A>,
    renew_after: u64,
    pass: usize,
    actor: Actor<A, C>,
    act: &ActorStep,
) -> (Actor<A, C>, Reply)
    requires own { pass < ports.old.actors }
    requires nodes { 1 ≤ length ports.old.nodes }
    requires fits { IsActor A.next (whole_of ports.old) (length ports.old.nodes) actor }
    ensures acted { IsActed A.next act.now ports.old ports.new actor result.0 result.1 }
    ensures transition { ActTransition A.next renew_after pass act.now ports.old ports.new (actor_value actor)
        (actor_value result.0) result.1 }
{
    match actor {
        Actor::Idle(registry) => match act {
            ActorStep::BeginRo(bounds) => begin_ro(alloc, ports, renew_after, registry, *bounds),
            ActorStep::BeginRw => begin_rw(alloc, ports, registry),
            _ => (Actor::Idle(registry), Reply::Refused(Refusal::NotOpen)),
        },
        Actor::Reading(current) => act_open(alloc, ports, pass, current, act),
        Actor::Writing(current) => act_writing(alloc, ports, current, act),
        Actor::Leaving(registry, stamp) => match act {
            // It removes the hold that is left, and has nothing open then.
            ActorStep::Request => {
                ports.count_right();
                match ports.unpin(stamp) {
                    Ok(()) => (
                        Actor::Idle(registry),
                        Reply::Asked(PortOutcome::Unpinned, None),
                    ),
                    Err(error) => (
                        Actor::Idle(registry),
                        Reply::Asked(PortOutcome::Refused(error), None),
                    ),
                }
            }
            ActorStep::BeginRo(_) | ActorStep::BeginRw => (
                Actor::Leaving(registry, stamp),
                Reply::Refused(Refusal::AlreadyOpen),
            ),
            _ => (
                Actor::Leaving(registry, stamp),
                Reply::Refused(Refusal::NotOpen),
            ),
        },
    }
}

// A call starts or continues in place, since an actor is large to move. Any other act returns no reply here.
fn call_there<A: App, C: Cacheable>(
    alloc: Global,
    ports: &mut Ports<A>,
    number: usize,
    slot: &mut Option<Actor<A, C>>,
    act: &ActorStep,
) -> Option<Reply>
    requires own { number < ports.old.actors }
    requires fits { IsActorThere A.next (whole_of ports.old) (length ports.old.nodes) slot.old }
    ensures acts { (renew_after : ℕ) → IfSome result (ActsThere A.next renew_after number act.now ports.old ports.new slot.old slot.new) }
    ensures unchanged { IfNone result ((ports.new ≡ ports.old) × (slot.new ≡ slot.old)) }
{
    match slot {
        Some(Actor::Reading(current)) => match act {
            ActorStep::Request => Some(request_call(alloc, ports, number, current)),
            ActorStep::Start(key) => Some(start(alloc, ports, current, key)),
            _ => None,
        },
        _ => None,
    }
}

/// Makes one step of the actor of a number. The actor is taken out of its place for an act that is not done
/// there, and put back.
pub(crate) fn act_at<A: App, C: Cacheable>(
    alloc: Global,
    ports: &mut Ports<A>,
    renew_after: u64,
    number: usize,
    actors: &mut Vec<Option<Actor<A, C>>>,
    act: &ActorStep,
) -> Reply
    requires own { number < ports.old.actors }
    requires nodes { 1 ≤ length ports.old.nodes }
    requires number { number < vec_len actors.old }
    requires fits { All (IsActorThere A.next (whole_of ports.old) (length ports.old.nodes)) actors.old.items }
    ensures { ActsAt A.next renew_after number act.now ports.old ports.new actors.old.items actors.new.items result }
{
    let slot = &mut actors[number];
    if let Some(reply) = call_there(alloc, ports, number, slot, act) {
        return reply;
    }
    let Some(actor) = slot.take() else {
        unreachable!();
    };
    let (actor, reply) = act_whole(alloc, ports, renew_after, number, actor, act);
    *slot = Some(actor);
    reply
}
