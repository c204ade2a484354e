//! The requests of an act: they are made until a function must begin or continue, or the call has ended.
ghost use Rattle.std.specs.Prelude.{◌≡◌, ◌≢◌, true, None, Some};
ghost use Rattle.txc_tags.specs.Keys.{Call};
ghost use Rattle.txc_call.specs.declared.need.Need.{Need};
ghost use Rattle.txc_caller.specs.NodeLookup.{HasMissed, IsComputedOnMiss, IsLookedUp};
ghost use Rattle.txc_caller.specs.Ports.{is_of_pin, HasAskedPorts, HasGrownDatabase};
ghost use Rattle.txc_caller.specs.CallerTxn.{IsLent};
ghost use Rattle.txc_caller.specs.ActRequests.{pins_to_come, turn_error, HasMadeRequest, HasPassed, HasServed, IsGoing, IsRightReplyTo, TransitionBy, TurnTransition};
ghost use Rattle.txc_caller.specs.CallerAct.{step_error};

use crate::call_ports::CallPorts;
use crate::lent_txn::LentTxn;
use crate::step::{CallerError, Step, ended};
use std::alloc::Global;
use txc_app::App;
use txc_node::Value;
use txc_txn_ports::{PortReply, PortRequest, Turn};

/// The next step of a transaction: a turn, or `None` if a function must begin or continue first.
pub(crate) type HandTurn = Option<Turn<PortRequest, Value>>;

// Returns `true` if the request is about the pin of the present.
fn is_of_pin(request: &PortRequest) -> bool
    ensures { result ≡ is_of_pin request.now }
{
    match request {
        PortRequest::Pin { .. } => true,
        PortRequest::AddPin(_) => true,
        PortRequest::Unpin(_) => true,
        PortRequest::Lookup { .. } => false,
        PortRequest::Query { .. } => false,
        PortRequest::Insert { .. } => false,
    }
}

// Makes the request, and returns the reply.
fn asked<A: App, P: CallPorts<A>>(
    alloc: Global,
    ports: &mut P,
    txn: &LentTxn<A>,
    request: PortRequest,
) -> PortReply
    requires { IsGoing (P.ports ports.old).database.events txn.now.core (Some (Turn.Ask request)) }
    ensures asked { HasAskedPorts A.next txn.now.core.seen request (P.ports ports.old) (P.ports ports.new) result }
    ensures lent { IsLent A.next txn.now }
    ensures right { IsRightReplyTo A.next txn.now result }
    ensures looked_up { IsLookedUp txn.now.core (P.ports ports.old).node (P.ports ports.new).node result }
    ensures node { is_of_pin request ≡ true → (P.ports ports.new).node ≡ (P.ports ports.old).node }
    ensures grown { HasGrownDatabase (P.ports ports.old).database (P.ports ports.new).database }
{
    txn.is_lent();
    ports.ask(alloc, txn.core().seen(), request)
}

// Makes a request about the pin of the present, if the turn is one, and continues. Any other turn stays.
fn pass_pin<A: App, P: CallPorts<A>>(
    alloc: Global,
    ports: &mut P,
    txn: &mut LentTxn<A>,
    turn: HandTurn,
) -> HandTurn
    requires { IsGoing (P.ports ports.old).database.events txn.old.core turn }
    ensures passed { HasPassed (P.ports ports.old).database.events txn.old turn txn.new result }
    ensures transition { TransitionBy txn.old.core (P.ports ports.old) turn txn.new.core (P.ports ports.new) result }
    ensures node { (P.ports ports.new).node ≡ (P.ports ports.old).node }
    ensures grown { HasGrownDatabase (P.ports ports.old).database (P.ports ports.new).database }
{
    match turn {
        Some(Turn::Ask(request)) => {
            if !is_of_pin(&request) {
                return Some(Turn::Ask(request));
            }
            let reply = asked(alloc, ports, txn, request);
            txn.hear(alloc, reply)
        }
        Some(Turn::Ended(outcome)) => Some(Turn::Ended(outcome)),
        None => None,
    }
}

// Makes the requests about the pin of the present, if the turn is one: a pin, its addition, and, if that fails,
// the removal of its hold. No other request about it follows.
fn pass_pins<A: App, P: CallPorts<A>>(
    alloc: Global,
    ports: &mut P,
    txn: &mut LentTxn<A>,
    turn: HandTurn,
) -> HandTurn
    requires { IsGoing (P.ports ports.old).database.events txn.old.core turn }
    ensures passed { HasPassed (P.ports ports.old).database.events txn.old turn txn.new result }
    ensures transition { TransitionBy txn.old.core (P.ports ports.old) turn txn.new.core (P.ports ports.new) result }
    ensures last { pins_to_come result ≡ 0 }
    ensures node { (P.ports ports.new).node ≡ (P.ports ports.old).node }
    ensures grown { HasGrownDatabase (P.ports ports.old).database (P.ports ports.new).database }
{
    let first = pass_pin(alloc, ports, txn, turn);
    let second = pass_pin(alloc, ports, txn, first);
    pass_pin(alloc, ports, txn, second)
}

// Makes the request, if the turn is one, and continues. Any other turn stays. No further request follows.
fn pass_last<A: App, P: CallPorts<A>>(
    alloc: Global,
    ports: &mut P,
    txn: &mut LentTxn<A>,
    turn: HandTurn,
) -> HandTurn
    requires going { IsGoing (P.ports ports.old).database.events txn.old.core turn }
    requires last { pins_to_come turn ≡ 0 }
    requires looked_up { (k : Call) → turn ≡ None → txn.old.core.call.need ≢ Some (Need.Begin k) }
    ensures made { HasMadeRequest txn.old turn txn.new result }
    ensures transition { TurnTransition txn.old.core (P.ports ports.old) turn (P.ports ports.new) txn.new.core.taken
        (turn_error result) }
    ensures missed { (k : Call) → result ≡ None → txn.new.core.call.need ≡ Some (Need.Begin k)
        → HasMissed txn.new.core.pins.members k (P.ports ports.old).node (P.ports ports.new).node }
    ensures grown { HasGrownDatabase (P.ports ports.old).database (P.ports ports.new).database }
{
    match turn {
        Some(Turn::Ask(request)) => {
            let reply = asked(alloc, ports, txn, request);
            txn.hear(alloc, reply)
        }
        Some(Turn::Ended(outcome)) => Some(Turn::Ended(outcome)),
        None => None,
    }
}

/// Makes the requests of an act: first those of a pin of the present, if it needs one, and then at most one
/// more.
pub(crate) fn serve<A: App, P: CallPorts<A>>(
    alloc: Global,
    ports: &mut P,
    txn: &mut LentTxn<A>,
    turn: HandTurn,
) -> Result<Step, CallerError>
    requires going { IsGoing (P.ports ports.old).database.events txn.old.core turn }
    requires looked_up { (k : Call) → turn ≡ None → txn.old.core.call.need ≢ Some (Need.Begin k) }
    ensures served { HasServed txn.old turn txn.new result }
    ensures transition { TurnTransition txn.old.core (P.ports ports.old) turn (P.ports ports.new) txn.new.core.taken
        (step_error result) }
    ensures on_miss { IsComputedOnMiss txn.new.core (P.ports ports.old).node (P.ports ports.new).node result }
    ensures grown { HasGrownDatabase (P.ports ports.old).database (P.ports ports.new).database }
{
    let pinned = pass_pins(alloc, ports, txn, turn);
    let last = pass_last(alloc, ports, txn, pinned);
    match last {
        None => Ok(Step::next(txn.core().machine())),
        Some(Turn::Ended(outcome)) => ended(outcome),
        Some(Turn::Ask(_)) => unreachable!(),
    }
}
