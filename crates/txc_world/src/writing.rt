//! The steps of an actor with a read-write transaction, each kind by itself.
ghost use Rattle.std.specs.Prelude.{◌≡◌, ℕ, ◌++◌, ◌∷◌, ◌<◌, [], IfErr, None, OnErr, OnOk, length};
ghost use Rattle.txc_rows.specs.declared.query.Change.{Change};
ghost use Rattle.txc_app.specs.Eval.{Next};
ghost use Rattle.txc_call_registry.specs.Objects.{AllIdle, Objects};
ghost use Rattle.txc_txn_rw.specs.declared.rw_core.TheConstants.{MAX_CHANGES};
ghost use Rattle.txc_txn_rw.specs.RwCore.{answers_after, IsRw, IsRwIdle, IsRwTurn, IsWriteRefused, RwHolds};
ghost use Rattle.txc_txn_ports.specs.Turns.{IsAsk};
ghost use Rattle.txc_world.specs.ActorStep.{IsActed};
ghost use Rattle.txc_world.specs.Actors.{IsOpenRw};
ghost use Rattle.txc_world.specs.Holdings.{HasLost};
ghost use Rattle.txc_world.specs.LostSnapshot.{IfDidLose, IfResultLost};
ghost use Rattle.txc_world.specs.StepEffects.{RestingTransition, WritingTransition};
ghost use Rattle.txc_world.specs.ActorValues.{actor_value, writing_value};
ghost use Rattle.txc_world.specs.WriterStep.{with_rows, FindTransitionRw, HasAskedRw, IsRead};

use crate::acting::note;
use crate::actor::{Actor, OpenCall, OpenRw};
use crate::port_outcome::{PortOutcome, answer_told};
use crate::ports::Ports;
use crate::reply::{Refusal, Reply};
use crate::step::ActorStep;
use std::alloc::Global;
use txc_app::App;
use txc_call_registry::{Cacheable, Registry};
use txc_node::Value;
use txc_rows::{Change, Query, Row};
use txc_tags::Key;
use txc_txn_ports::{Turn, TxnError};
use txc_txn_rw::{MAX_CHANGES, RwCore};

/// Begins a transaction at the newest stamp, which is held. If that fails, nothing is open.
pub(crate) fn begin_rw<A: App, C: Cacheable>(
    alloc: Global,
    ports: &mut Ports<A>,
    registry: Registry<A, C>,
) -> (Actor<A, C>, Reply)
    requires { AllIdle registry }
    ensures acted { IsActed A.next ActorStep.BeginRw ports.old ports.new (Actor.Idle registry) result.0 result.1 }
    ensures transition { (renew_after : ℕ) → RestingTransition renew_after ActorStep.BeginRw ports.old ports.new registry
        (actor_value result.0) result.1 }
{
    match ports.hold(alloc) {
        Ok(base) => {
            let core = RwCore::begin(alloc, base);
            let current = OpenRw {
                core,
                registry,
                call: None,
            };
            (Actor::Writing(current), Reply::Based(base))
        }
        Err(refusal) => (
            Actor::Idle(registry),
            Reply::Refused(Refusal::Database(refusal)),
        ),
    }
}

// Starts a call. It makes no request yet, and is open even if it has ended at once.
fn start<A: App, C: Cacheable>(
    alloc: Global,
    whole: &Ports<A>,
    current: OpenRw<A, C>,
    key: &Key,
) -> (Actor<A, C>, Reply)
    requires fits { IsOpenRw A.next whole.now.database.history current }
    requires no_call { current.call ≡ None }
    ensures acted { IsActed A.next (ActorStep.Start key.now) whole.now whole.now (Actor.Writing current) result.0 result.1 }
    ensures transition { WritingTransition A.next (ActorStep.Start key.now) whole.now whole.now (writing_value current)
        (actor_value result.0) result.1 }
{
    let mut current = current;
    let turn = current.core.start(alloc, &mut current.registry, key.copy());
    current.call = Some(OpenCall {
        key: key.copy(),
        turn,
    });
    (Actor::Writing(current), Reply::Started)
}

// Makes the query of the open call at the base, and continues with the answer.
fn go_on<A: App, C: Cacheable>(
    alloc: Global,
    ports: &mut Ports<A>,
    core: &mut RwCore,
    registry: &mut Registry<A, C>,
    query: &Query,
) -> (PortOutcome, Turn<Query, Value>)
    requires fits { IsRw A.next registry.old core.old }
    requires holds { RwHolds A.next ports.old.database.history registry.old core.old }
    requires asks { IsRwTurn core.old (Turn.Ask query.now) }
    ensures same_ports { ports.new ≡ ports.old }
    ensures fits { IsRw A.next registry.new core.new }
    ensures holds { RwHolds A.next ports.old.database.history registry.new core.new }
    ensures turn { IsRwTurn core.new result.1 }
    ensures goes_on { IsAsk result.1 → core.new.call.top ≡ core.old.call.top }
    ensures answers { core.new.answers ≡ answers_after core.old.answers core.old.call.top result.1 }
    ensures base { core.new.base ≡ core.old.base }
    ensures changes { core.new.changes ≡ core.old.changes }
    ensures asks { HasAskedRw A.next query.now ports.old core.old core.new registry.old registry.new
        result.0 result.1 }
    ensures loss { IfDidLose result.0 (HasLost ports.old (record { taken = []; own = core.old.base ∷ [] })) }
{
    ports.count_right();
    let base = core.base();
    let (did, found) = answer_told(alloc, ports.answer(alloc, query, base));
    let turn = core.reply(alloc, registry, found);
    (did, turn)
}

// Ends the call with this result before any request.
fn end_call<A: App, C: Cacheable>(
    core: RwCore,
    registry: Registry<A, C>,
    ended: Result<Value, TxnError>,
) -> (Actor<A, C>, Reply)
    ensures actor { result.0
        ≡ Actor.Writing (record { core = core; registry = registry; call = None }) }
    ensures reply { result.1 ≡ Reply.Ended ended }
{
    let current = OpenRw {
        core,
        registry,
        call: None,
    };
    (Actor::Writing(current), Reply::Ended(ended))
}

// Makes the next request of the open call. If the call ended before any request, its first request reports
// that.
fn request<A: App, C: Cacheable>(
    alloc: Global,
    ports: &mut Ports<A>,
    current: OpenRw<A, C>,
) -> (Actor<A, C>, Reply)
    requires { IsOpenRw A.next ports.old.database.history current }
    ensures acted { IsActed A.next ActorStep.Request ports.old ports.new (Actor.Writing current) result.0 result.1 }
    ensures transition { WritingTransition A.next ActorStep.Request ports.old ports.new (writing_value current)
        (actor_value result.0) result.1 }
{
    let OpenRw {
        mut core,
        mut registry,
        call,
    } = current;
    let Some(OpenCall { key, turn }) = call else {
        let call = None;
        let current = OpenRw {
            core,
            registry,
            call,
        };
        return (Actor::Writing(current), Reply::Refused(Refusal::NoRequest));
    };
    match turn {
        Turn::Ask(query) => {
            let (did, turn) = go_on(alloc, ports, &mut core, &mut registry, &query);
            let (call, end) = note(key, turn);
            let current = OpenRw {
                core,
                registry,
                call,
            };
            (Actor::Writing(current), Reply::Asked(did, end))
        }
        Turn::Ended(result) => end_call(core, registry, result),
    }
}

// Makes a query of the transaction itself at the base, and takes the answer.
fn find<A: App>(
    alloc: Global,
    ports: &mut Ports<A>,
    core: &mut RwCore,
    query: &Query,
) -> Result<Vec<Row>, TxnError>
    requires { IsRwIdle core.old }
    ensures same_ports { ports.new ≡ ports.old }
    ensures holds { (next : Next) (objects : Objects) → RwHolds next ports.old.database.history objects core.old
        → RwHolds next ports.old.database.history objects core.new }
    ensures transition { FindTransitionRw query.now core.old.base ports.old result }
    ensures answers { core.new.answers ≡ with_rows query.now core.old.answers result }
    ensures read { IsRead query.now core.old.queried core.new.queried result }
    ensures same { core.new ≡ record core.old { queried = core.new.queried; answers = core.new.answers } }
    ensures loss { IfResultLost result (HasLost ports.old (record { taken = []; own = core.old.base ∷ [] })) }
{
    ports.count_right();
    core.ask(alloc, query)?;
    let base = core.base();
    let found = ports.answer(alloc, query, base);
    core.answer(alloc, found)
}

// Makes the query at the base.
fn ask<A: App, C: Cacheable>(
    alloc: Global,
    ports: &mut Ports<A>,
    current: OpenRw<A, C>,
    query: &Query,
) -> (Actor<A, C>, Reply)
    requires fits { IsOpenRw A.next ports.old.database.history current }
    requires no_call { current.call ≡ None }
    ensures acted { IsActed A.next (ActorStep.Ask query.now) ports.old ports.new (Actor.Writing current) result.0 result.1 }
    ensures transition { WritingTransition A.next (ActorStep.Ask query.now) ports.old ports.new (writing_value current)
        (actor_value result.0) result.1 }
{
    let mut current = current;
    match find(alloc, ports, &mut current.core, query) {
        Ok(rows) => (Actor::Writing(current), Reply::Answered(rows)),
        Err(error) => (
            Actor::Writing(current),
            Reply::Refused(Refusal::Transaction(error)),
        ),
    }
}

// Buffers a copy of the change.
fn keep_change(alloc: Global, core: &mut RwCore, change: &Change) -> Result<(), TxnError>
    ensures after { OnOk result (core.new
        ≡ record core.old { changes = core.old.changes ++ change.now ∷ [] }) }
    ensures only_if { OnOk result (length core.old.changes < MAX_CHANGES) }
    ensures refused { IfErr result (IsWriteRefused (length core.old.changes)) }
    ensures unchanged { OnErr result (core.new ≡ core.old) }
{
    if core.changes().len() >= MAX_CHANGES {
        return Err(TxnError::BufferFull);
    }
    let copy = change.copy(alloc)?;
    core.write(copy)
}

// Buffers a change until the transaction commits.
fn write<A: App, C: Cacheable>(
    alloc: Global,
    whole: &Ports<A>,
    current: OpenRw<A, C>,
    change: &Change,
) -> (Actor<A, C>, Reply)
    requires fits { IsOpenRw A.next whole.now.database.history current }
    requires no_call { current.call ≡ None }
    ensures acted { IsActed A.next (ActorStep.Write change.now) whole.now whole.now (Actor.Writing current) result.0 result.1 }
    ensures transition { WritingTransition A.next (ActorStep.Write change.now) whole.now whole.now (writing_value current)
        (actor_value result.0) result.1 }
{
    let mut current = current;
    match keep_change(alloc, &mut current.core, change) {
        Ok(()) => (Actor::Writing(current), Reply::Kept),
        Err(error) => (
            Actor::Writing(current),
            Reply::Refused(Refusal::Transaction(error)),
        ),
    }
}

// Commits the changes if nothing that was read has changed. An error leaves the transaction open, as it was.
fn commit<A: App, C: Cacheable>(
    alloc: Global,
    ports: &mut Ports<A>,
    current: OpenRw<A, C>,
) -> (Actor<A, C>, Reply)
    requires fits { IsOpenRw A.next ports.old.database.history current }
    requires no_call { current.call ≡ None }
    ensures acted { IsActed A.next ActorStep.Commit ports.old ports.new (Actor.Writing current) result.0 result.1 }
    ensures transition { WritingTransition A.next ActorStep.Commit ports.old ports.new (writing_value current)
        (actor_value result.0) result.1 }
{
    ports.count_right();
    let mut current = current;
    let base = current.core.base();
    let read = current.core.tags();
    let changes = current.core.changes();
    match ports.commit(alloc, base, read, changes) {
        Ok(stamp) => {
            let _unpin = current.core.cancel(&mut current.registry);
            (Actor::Leaving(current.registry, base), Reply::At(stamp))
        }
        Err(refusal) => (
            Actor::Writing(current),
            Reply::Refused(Refusal::Database(refusal)),
        ),
    }
}

// Aborts the transaction, also in the middle of a call.
fn abort<A: App, C: Cacheable>(whole: &Ports<A>, current: OpenRw<A, C>) -> (Actor<A, C>, Reply)
    requires { IsOpenRw A.next whole.now.database.history current }
    ensures acted { IsActed A.next ActorStep.Abort whole.now whole.now (Actor.Writing current) result.0 result.1 }
    ensures transition { WritingTransition A.next ActorStep.Abort whole.now whole.now (writing_value current)
        (actor_value result.0) result.1 }
{
    let mut current = current;
    let base = current.core.base();
    let _unpin = current.core.cancel(&mut current.registry);
    (
        Actor::Leaving(current.registry, base),
        Reply::Aborted(Some(base)),
    )
}

/// Makes a step of an actor with an open read-write transaction.
pub(crate) fn act_writing<A: App, C: Cacheable>(
    alloc: Global,
    ports: &mut Ports<A>,
    current: OpenRw<A, C>,
    act: &ActorStep,
) -> (Actor<A, C>, Reply)
    requires { IsOpenRw A.next ports.old.database.history current }
    ensures acted { IsActed A.next act.now ports.old ports.new (Actor.Writing current) result.0 result.1 }
    ensures transition { WritingTransition A.next act.now ports.old ports.new (writing_value current)
        (actor_value result.0) result.1 }
{
    match act {
        ActorStep::BeginRo(_) | ActorStep::BeginRw => (
            Actor::Writing(current),
            Reply::Refused(Refusal::AlreadyOpen),
        ),
        ActorStep::Request => request(alloc, ports, current),
        ActorStep::Abort => abort(ports, current),
        ActorStep::Start(_) | ActorStep::Ask(_) | ActorStep::Write(_) | ActorStep::Commit
            if current.call.is_some() => {
            (Actor::Writing(current), Reply::Refused(Refusal::MidCall))
        }
        ActorStep::Start(key) => start(alloc, ports, current, key),
        ActorStep::Ask(query) => ask(alloc, ports, current, query),
        ActorStep::Write(change) => write(alloc, ports, current, change),
        ActorStep::Commit => commit(alloc, ports, current),
    }
}
