//! The acts of a read-write transaction: its calls use no node, and each query reads at its base.
ghost use Rattle.std.specs.Prelude.{◌≡◌, ◌≤◌, ◌++◌, ◌∷◌, [], List, IfErr, IfOk, None, OnErr, OnOk, Some, false};
ghost use Rattle.txc_tags.specs.Keys.{Call};
ghost use Rattle.txc_tags.specs.declared.key.TheConstants.{LAST_FUNCTION};
ghost use Rattle.txc_db.specs.Calls.{IsQueryRefused};
ghost use Rattle.txc_db.specs.History.{History, state_at};
ghost use Rattle.txc_rows.specs.States.{answer};
ghost use Rattle.txc_rows.specs.declared.query.Query.{Query};
ghost use Rattle.txc_app.specs.AnswersSoFar.{IsRight};
ghost use Rattle.txc_app.specs.Eval.{Next};
ghost use Rattle.txc_app.specs.declared.ask.Ask.TheVariants as asks;
ghost use Rattle.txc_call.specs.Frames.{answers_in};
ghost use Rattle.txc_call.specs.CallSteps.{is_done, NeedsFunction};
ghost use Rattle.txc_call.specs.declared.frame.Frame.{Frame};
ghost use Rattle.txc_call.specs.declared.need.HeldAnswer.{HeldAnswer};
ghost use Rattle.txc_call.specs.declared.need.Need.{Need};
ghost use Rattle.txc_call_registry.specs.Objects.{numbers_of, Objects};
ghost use Rattle.txc_txn_rw.specs.ByHand.{IsRwByHand, IsRwHandTurn, RwObjectsLeft};
ghost use Rattle.txc_txn_rw.specs.RwCore.{IsFoundAt, RwHolds};
ghost use Rattle.txc_txn_rw.specs.Transitions.{IsQueryLeft};
ghost use Rattle.txc_txn_rw.specs.declared.given.Given.{Given};
ghost use Rattle.txc_caller.specs.ComputedFunctions.{top_call, AsksNext, HaveAllFunctions, IsNextStep, IsToldAfterAsk, ObjectsFollow};
ghost use Rattle.txc_caller.specs.CallerWrite.{base_states_in, queried_for, HasLed, IsActRefused, IsHeard, IsOwnReadRefused, IsStepAfter, IsWritingStep};

use crate::ports::Ports;
use crate::step::{CallerError, Step, ended};
use std::alloc::Global;
use txc_app::{App, Ask};
use txc_call_ghosts::GhostObjects;
use txc_db::DbError;
use txc_node::Value;
use txc_rows::{Query, Row};
use txc_stamp::Stamp;
use txc_txn_ports::{Turn, TxnError};
use txc_txn_rw::RwCore;
use txc_validity::Found;

// Leaves the objects as they are, unless the call ended without a value: then all become idle.
fn settle(turn: &Option<Turn<Query, Value>>, told: &mut GhostObjects)
    ensures left { RwObjectsLeft told.old.objects turn.now told.new.objects }
    ensures functions { numbers_of told.new.objects ≡ numbers_of told.old.objects }
{
    if let Some(Turn::Ended(Err(_))) = turn {
        *told = told.idled();
    }
}

// Returns the rows of the query at the stamp, with its tag.
fn find<A: App>(
    alloc: Global,
    ports: &mut Ports<A>,
    query: &Query,
    base: Stamp,
) -> Result<Found, DbError>
    ensures same { ports.new ≡ ports.old }
    ensures answer { IfOk result (IsFoundAt ports.old.database.history base query.now) }
    ensures refused { IfErr result (IsQueryRefused ports.old.database query.now base) }
{
    ports.query(alloc, query, base)
}

/// Reads the rows of a query of the transaction itself, at its base. The query counts as read.
pub(crate) fn read<A: App>(
    alloc: Global,
    ports: &mut Ports<A>,
    core: &mut RwCore,
    query: Query,
) -> Result<Vec<Row>, TxnError>
    requires none { core.old.reading ≡ None }
    ensures answer { IfOk result (λ rows.
        rows.items ≡ answer query (state_at ports.old.database.history core.old.base)) }
    ensures after { IfOk result (λ rows. core.new ≡ record core.old {
      queried = core.old.queried ++ query ∷ [];
      answers = core.old.answers ++ Given.Rows query rows.items ∷ [];
    }) }
    ensures refused { IfErr result (IsOwnReadRefused ports.old.database core.old.base query) }
    ensures left { IfErr result (IsQueryLeft core.old query core.new) }
    ensures holds { (next : Next) (objects : Objects) → RwHolds next ports.old.database.history objects core.old
        → RwHolds next ports.old.database.history objects core.new }
    ensures call { core.new.call ≡ core.old.call }
    ensures rests { core.new.reading ≡ None }
    ensures ports { ports.new ≡ ports.old }
{
    core.ask(alloc, &query)?;
    let found = find(alloc, ports, &query, core.base());
    core.answer(alloc, found)
}

// Makes the query at the database, if the turn is one, and continues with the reply.
fn lead<A: App>(
    alloc: Global,
    ports: &mut Ports<A>,
    core: &mut RwCore,
    turn: Option<Turn<Query, Value>>,
) -> Option<Turn<Query, Value>>
    requires turn { IsRwHandTurn core.old turn }
    requires fits { (query : Query) → turn ≡ Some (Turn.Ask query)
        → (next : Next) × (objects : Objects) × IsRwByHand next objects core.old }
    ensures fits { (next : Next) (objects after : Objects)
        → ((mid : Objects) → RwObjectsLeft objects turn mid → IsRwByHand next mid core.old)
        → RwObjectsLeft objects result after → IsRwByHand next after core.new }
    ensures holds { (next : Next) (objects after : Objects)
        → ((mid : Objects) → RwObjectsLeft objects turn mid → IsRwByHand next mid core.old)
        → ((mid : Objects) → RwObjectsLeft objects turn mid → RwHolds next ports.old.database.history mid core.old)
        → RwObjectsLeft objects result after → RwHolds next ports.old.database.history after core.new }
    ensures turn { IsRwHandTurn core.new result }
    ensures heard { IsHeard result }
    ensures led { HasLed ports.old.database core.old turn core.new result }
    ensures same { ports.new ≡ ports.old }
{
    match turn {
        Some(Turn::Ask(query)) => {
            let found = find(alloc, ports, &query, core.base());
            core.hear(found)
        }
        Some(Turn::Ended(outcome)) => Some(Turn::Ended(outcome)),
        None => None,
    }
}

// Returns the caller's next step for a call that needs a function. A held answer is correct at the base.
fn next_step(core: &RwCore) -> Step
    requires { NeedsFunction core.now.call.need }
    ensures step { IsNextStep core.now.call result }
    ensures right { (next : Next) (objects : Objects) (L : History) (x : HeldAnswer) (frame : Frame)
        (outer : List Frame) → IsRwByHand next objects core.now → RwHolds next L objects core.now
        → core.now.call.need ≡ Some (Need.Resume x) → core.now.call.frames ≡ frame ∷ outer
        → IsRight next frame.key.function (state_at L core.now.base)
        (next.says frame.key.function frame.key.args (answers_in objects frame.key.function)) x.answer }
{
    match core.held_answer() {
        Some(_) => Step::Answered,
        None => Step::Compute,
    }
}

// Returns the caller's next step after a turn that makes no query.
fn step_after(core: &RwCore, turn: Option<Turn<Query, Value>>) -> Result<Step, CallerError>
    requires turn { IsRwHandTurn core.now turn }
    requires heard { IsHeard turn }
    ensures step { IsStepAfter core.now.call turn result }
    ensures right { (next : Next) (objects : Objects) (L : History) (x : HeldAnswer) (frame : Frame)
        (outer : List Frame) → IsRwByHand next objects core.now → RwHolds next L objects core.now
        → core.now.call.need ≡ Some (Need.Resume x) → core.now.call.frames ≡ frame ∷ outer
        → IsRight next frame.key.function (state_at L core.now.base)
        (next.says frame.key.function frame.key.args (answers_in objects frame.key.function)) x.answer }
{
    match turn {
        None => Ok(next_step(core)),
        Some(Turn::Ended(outcome)) => ended(outcome),
        Some(Turn::Ask(_)) => unreachable!(),
    }
}

/// Takes the step of the function that must begin or continue. A query is made at once.
pub(crate) fn act<A: App>(
    alloc: Global,
    ports: &mut Ports<A>,
    core: &mut RwCore,
    told: &mut GhostObjects,
    ask: Ask,
) -> Result<Step, CallerError>
    requires fits { IsRwByHand A.next told.old.objects core.old }
    requires holds { RwHolds A.next ports.old.database.history told.old.objects core.old }
    requires functions { HaveAllFunctions told.old.objects }
    requires runs { NeedsFunction core.old.call.need }
    requires none { core.old.reading ≡ None }
    requires asks { AsksNext A.next told.old.objects core.old.call ask }
    requires there { (k : Call) → ask ≡ asks.Call k → k.function ≤ LAST_FUNCTION }
    ensures fits { IsRwByHand A.next told.new.objects core.new }
    ensures holds { RwHolds A.next ports.new.database.history told.new.objects core.new }
    ensures functions { numbers_of told.new.objects ≡ numbers_of told.old.objects }
    ensures rests { core.new.reading ≡ None }
    ensures step { (k : Call) → top_call core.old.call ≡ Some k → IsWritingStep core.old core.new k result }
    ensures told { IsToldAfterAsk A.next (base_states_in ports.old.database.history core.old) core.old.call ask
        core.new.call result }
    ensures objects { ObjectsFollow told.old.objects core.old.call ask told.new.objects result }
    ensures queried { OnOk result (core.new.queried ≡ core.old.queried ++ queried_for ask) }
    ensures unqueried { OnErr result (core.new.queried ≡ core.old.queried) }
    ensures undone { is_done ask ≡ false → core.new.answers ≡ core.old.answers }
    ensures refused { IfErr result (IsActRefused A.next.limits ports.old.database core.old told.old.objects ask) }
    ensures same { core.new ≡ record core.old {
      queried = core.new.queried;
      answers = core.new.answers;
      call = core.new.call;
    } }
    ensures ports { ports.new ≡ ports.old }
{
    let after = told.ran(core.machine(), &ask);
    let limits = A::limits();
    let first = core.ran(limits, alloc, ask);
    let last = lead(alloc, ports, core, first);
    *told = after;
    settle(&last, told);
    step_after(core, last)
}
