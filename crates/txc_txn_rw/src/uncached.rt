//! Calls that use no node.
ghost use Rattle.std.specs.Prelude.{◌≡◌, ℕ, [], IfOk, IsSome, MatchOption, None, OnErr, OnOk, Some};
ghost use Rattle.txc_rows.specs.States.{State};
ghost use Rattle.txc_db.specs.History.{History};
ghost use Rattle.txc_app.specs.Eval.{Next};
ghost use Rattle.txc_call_registry.specs.Objects.{numbers_of, Objects};
ghost use Rattle.txc_call.specs.declared.need.Need.{Need};
ghost use Rattle.txc_call.specs.CallMachine.{turn_after, CallHolds, InCall, IsAtRest, IsCalling};
ghost use Rattle.txc_call.specs.Needs.{reply_reach, ReplyFits};
ghost use Rattle.txc_call.specs.CallSteps.{NeedsFunction};
ghost use Rattle.txc_txn_rw.specs.ByHand.{without_node};
ghost use Rattle.txc_txn_rw.specs.RwCore.{needs_no_node, HasCounted, NeedsOnly};
ghost use Rattle.txc_txn_rw.specs.Transitions.{standing_of, IsLedTo};

use std::alloc::Global;
use txc_app::App;
use txc_call::{CallError, CallMachine, Need, Reply};
use txc_call_registry::{Cacheable, Registry};
use txc_rows::Query;

// Returns the reply of a cache that has nothing and stores nothing, or `None` if the call needs no node.
fn reply_of_no_cache(machine: &CallMachine) -> Option<Reply>
    requires { IsSome machine.now.need }
    ensures { MatchOption result (needs_no_node machine.now.need)
        (λ reply. (need : Need) × (machine.now.need ≡ Some need) × ReplyFits need reply
        × (reply_reach reply ≡ None)) }
{
    match machine.need() {
        Some(Need::Lookup(_)) => Some(Reply::Miss),
        Some(Need::Insert(_)) => Some(Reply::Inserted),
        _ => None,
    }
}

// Gives the call the reply of a cache that has nothing and stores nothing, if it needs a node. No function
// continues yet.
pub(crate) fn pass_nodes(machine: &mut CallMachine)
    requires { IsSome machine.old.need }
    ensures after { machine.new
        ≡ record machine.old { need = without_node machine.old.frames machine.old.need } }
    ensures fits { (next : Next) (objects : Objects) → IsCalling next objects machine.old
        → IsCalling next objects machine.new }
    ensures holds { (next : Next) (objects : Objects) (L : History) → IsCalling next objects machine.old
        → CallHolds next L objects machine.old → CallHolds next L objects machine.new }
    ensures within { (t : ℕ) → InCall t machine.old → InCall t machine.new }
    ensures no_node { needs_no_node machine.new.need }
    ensures some { IsSome machine.new.need }
{
    if let Some(reply) = reply_of_no_cache(machine) {
        machine.take(reply);
    }
}

// Returns the query that the call needs, or `None` if it is done.
fn needed(machine: &CallMachine) -> Option<Query>
    requires some { IsSome machine.now.need }
    requires settled { ¬ (NeedsFunction machine.now.need) }
    requires no_node { needs_no_node machine.now.need }
    ensures { NeedsOnly result machine.now.need }
{
    match machine.need() {
        Some(Need::Query(query)) => Some(*query),
        _ => None,
    }
}

// Answers every lookup with a miss and skips every insertion, until the call needs a query, which it returns,
// or is done.
pub(crate) fn go_on_uncached<A: App, C: Cacheable>(
    machine: &mut CallMachine,
    registry: &mut Registry<A, C>,
    alloc: Global,
) -> Result<Option<Query>, CallError>
    requires fits { IsCalling A.next registry.old machine.old }
    requires some { IsSome machine.old.need }
    requires settled { ¬ (NeedsFunction machine.old.need) }
    requires at_one { InCall 1 machine.old }
    ensures fits { IsCalling A.next registry.new machine.new }
    ensures needs { IfOk result (λ query. NeedsOnly query machine.new.need) }
    ensures rest { OnErr result ((machine.new.need ≡ None) × IsAtRest registry.new machine.new) }
    ensures at_one { OnOk result (InCall 1 machine.new) }
    ensures holds { OnOk result ((L : History) → CallHolds A.next L registry.old machine.old
        → CallHolds A.next L registry.new machine.new) }
    ensures counted { OnOk result (HasCounted machine.old machine.new) }
    ensures led { (s : State) → IsLedTo A.next s (standing_of machine.old registry.old) []
        (turn_after result machine.new registry.new) }
    ensures functions { numbers_of registry.new ≡ numbers_of registry.old }
    ensures same_top { machine.new.top ≡ machine.old.top }
{
    while let Some(reply) = reply_of_no_cache(machine) {
        machine.reply(registry, alloc, reply)?;
        machine.is_within_budget();
    }
    Ok(needed(machine))
}
