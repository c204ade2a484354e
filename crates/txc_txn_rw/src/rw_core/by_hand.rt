//! The steps of a core whose caller runs the functions of its calls.
ghost use Rattle.std.specs.Prelude.{◌≡◌, ◌≢◌, ◌≤◌, ◌∷◌, List, IfOk, IsSome, MatchOption, None, Ok, Some};
ghost use Rattle.txc_rows.specs.declared.query.Query.{Query};
ghost use Rattle.txc_validity.specs.declared.answer.Found.{Found};
ghost use Rattle.txc_db.specs.declared.error.DbError.{DbError};
ghost use Rattle.txc_db.specs.History.{History, state_at};
ghost use Rattle.txc_node.specs.declared.value.TheConstants.{MOST_VALUE_LEN};
ghost use Rattle.txc_app.specs.declared.app.TheConstants.{MOST_ASKS};
ghost use Rattle.txc_app.specs.AnswersSoFar.{IsRight};
ghost use Rattle.txc_app.specs.declared.ask.Ask.{Ask};
ghost use Rattle.txc_app.specs.Eval.{Next};
ghost use Rattle.txc_call_registry.specs.Objects.{AllIdle, Objects};
ghost use Rattle.txc_call.specs.declared.frame.Frame.{Frame};
ghost use Rattle.txc_call.specs.declared.need.HeldAnswer.{HeldAnswer};
ghost use Rattle.txc_call.specs.declared.need.Need.{Need};
ghost use Rattle.txc_call.specs.CallMachine.{started, InCall, IsCalling};
ghost use Rattle.txc_call.specs.Frames.{answers_in};
ghost use Rattle.txc_call.specs.CallSteps.{due_ask, objects_after, with_resumed, FunctionExists, NeedsFunction};
ghost use Rattle.txc_txn_ports.specs.Turns.{IsAsk};

use crate::reading::Reading;
use crate::rw_core::RwCore;
use crate::rw_core::replies::at_one;
use crate::uncached::pass_nodes;
use std::alloc::Global;
use std::mem;
use txc_app::{Answer, Ask, Limits};
use txc_call::{CallMachine, Need, Reply};
use txc_db::DbError;
use txc_node::Value;
use txc_rows::Query;
use txc_tags::Key;
use txc_txn_ports::{PortRequest, Turn, TxnError};
use txc_validity::Found;

impl RwCore {
    ghost use Rattle.txc_txn_rw.specs.RwCore.{IsRightReply, IsRwIdle, IsRwTurn, RwHolds};
    ghost use Rattle.txc_txn_rw.specs.ByHand.{answers_by_hand, given_up_call, HasRwAsked, IsRwByHand, IsRwHandTurn};
    ghost use Rattle.txc_txn_rw.specs.ByHand.{IsRwUnended, RwHandTransition, RwHearTransition, RwObjectsLeft};
    ghost use Rattle.txc_txn_rw.specs.Transitions.{standing_of, RwStandingTransition};

    // Requests the query that the call needs.
    fn query_by_hand(&mut self, alloc: Global, query: Query) -> Turn<Query, Value>
        requires need { self.old.call.need ≡ Some (Need.Query query) }
        requires none { self.old.reading ≡ None }
        ensures fits { (next : Next) (objects after : Objects) → RwObjectsLeft objects (Some result) after
            → IsCalling next objects self.old.call → InCall 1 self.old.call → IsRwByHand next after self.new }
        ensures holds { (next : Next) (objects after : Objects) (L : History)
            → RwObjectsLeft objects (Some result) after → RwHolds next L objects self.old
            → RwHolds next L after self.new }
        ensures turn { IsRwTurn self.new result }
        ensures no_value { self.old.answers ≡ answers_by_hand self.old.answers self.old.call.top (Some result) }
        ensures after { IsAsk result → self.new ≡ record self.old { reading = Some query } }
        ensures transition { (objects : Objects)
            → RwStandingTransition (standing_of self.old.call objects) self.new objects result }
        ensures same { self.new ≡ record self.old { call = self.new.call; reading = self.new.reading } }
    {
        let Ok(()) = self.ask(alloc, &query) else {
            self.machine.give_up();
            return Turn::Ended(Err(TxnError::Memory));
        };
        Turn::Ask(query)
    }

    // Requests the query that the call needs, or ends the call with its value. Returns `None` if it needs a
    // function. It uses no node.
    fn asks_by_hand(&mut self, alloc: Global) -> Option<Turn<Query, Value>>
        requires some { IsSome self.old.call.need }
        requires none { self.old.reading ≡ None }
        ensures fits { (next : Next) (objects after : Objects) → RwObjectsLeft objects result after
            → IsCalling next objects self.old.call → InCall 1 self.old.call → IsRwByHand next after self.new }
        ensures holds { (next : Next) (objects after : Objects) (L : History) → RwObjectsLeft objects result after
            → IsCalling next objects self.old.call → InCall 1 self.old.call → RwHolds next L objects self.old
            → RwHolds next L after self.new }
        ensures turn { IsRwHandTurn self.new result }
        ensures answers { (next : Next) (objects : Objects) → IsCalling next objects self.old.call
            → self.new.answers ≡ answers_by_hand self.old.answers self.old.call.top result }
        ensures goes_on { IsRwUnended result → self.new.call.top ≡ self.old.call.top }
        ensures transition { (objects : Objects) → RwHandTransition (standing_of self.old.call objects) self.new result }
        ensures same { self.new ≡ record self.old {
          answers = self.new.answers;
          call = self.new.call;
          reading = self.new.reading;
        } }
    {
        pass_nodes(&mut self.machine);
        match self.machine.need() {
            Some(Need::Query(query)) => {
                let query = *query;
                Some(self.query_by_hand(alloc, query))
            }
            Some(Need::Value(_)) => Some(Turn::Ended(self.keep_value(alloc))),
            _ => None,
        }
    }

    /// Starts a call, for a caller that runs functions itself and has each of them. The call's function must
    /// begin next.
    pub fn start_by_hand(&mut self, key: Key)
        requires fits { (next : Next) × (objects : Objects) × IsRwByHand next objects self.old }
        requires idle { IsRwIdle self.old }
        ensures fits { (next : Next) (objects : Objects) → FunctionExists objects (Ask.Call key)
            → IsRwByHand next objects self.old → IsRwByHand next objects self.new }
        ensures holds { (next : Next) (objects : Objects) (L : History) → RwHolds next L objects self.old
            → RwHolds next L objects self.new }
        ensures after { self.new
            ≡ record self.old { call = record (started key) { need = Some (Need.Begin key) } } }
    {
        self.machine.start_by_hand(key);
        self.machine.take(Reply::Miss);
    }

    /// Continues with the database's answer to the query of its call, as [`RwCore::reply`] does, but runs no
    /// function. Returns `None` if the innermost function must continue with the rows: then [`RwCore::ran`]
    /// takes that function's step.
    pub fn hear(&mut self, reply: Result<Found, DbError>) -> Option<Turn<Query, Value>>
        requires fits { (next : Next) × (objects : Objects) × IsRwByHand next objects self.old }
        requires asks { (query : Query) × IsRwTurn self.old (Turn.Ask query) }
        ensures fits { (next : Next) (objects after : Objects) → RwObjectsLeft objects result after
            → IsRwByHand next objects self.old → IsRwByHand next after self.new }
        ensures holds { (next : Next) (objects after : Objects) (L : History) → RwObjectsLeft objects result after
            → IsRightReply L self.old reply → IsRwByHand next objects self.old → RwHolds next L objects self.old
            → RwHolds next L after self.new }
        ensures turn { IsRwHandTurn self.new result }
        ensures transition { (query : Query) → self.old.reading ≡ Some query
            → RwHearTransition self.old query reply self.new result }
    {
        let Some(Reading { query, tags }) = mem::replace(&mut self.reading, None) else {
            unreachable!()
        };
        let found = match reply {
            Ok(found) => found,
            Err(error) => {
                self.machine.give_up();
                return Some(Turn::Ended(Err(error.into())));
            }
        };
        self.tags = tags;
        self.queried.push_reserved(query);
        self.machine.take(Reply::Found(at_one(found)));
        None
    }

    /// Takes the step of the function that the call needs, within the limits of the function's application.
    /// Returns `None` if another function must begin or continue first.
    pub fn ran(&mut self, limits: Limits, alloc: Global, ask: Ask) -> Option<Turn<Query, Value>>
        requires most_value { limits.value ≤ MOST_VALUE_LEN }
        requires most_asks { limits.asks ≤ MOST_ASKS }
        requires runs { NeedsFunction self.old.call.need }
        requires none { self.old.reading ≡ None }
        requires asks { (next : Next) × (objects : Objects) × (need : Need) × (next.limits ≡ limits)
            × (self.old.call.need ≡ Some need)
            × (due_ask next objects self.old.call.frames need ≡ Some ask)
            × FunctionExists (with_resumed objects self.old.call.frames need) ask
            × IsRwByHand next objects self.old }
        ensures fits { (next : Next) (objects after : Objects) (need : Need) → next.limits ≡ limits
            → self.old.call.need ≡ Some need
            → due_ask next objects self.old.call.frames need ≡ Some ask
            → FunctionExists (with_resumed objects self.old.call.frames need) ask
            → RwObjectsLeft (objects_after objects self.old.call.frames need ask) result after
            → IsRwByHand next objects self.old → IsRwByHand next after self.new }
        ensures holds { (next : Next) (objects after : Objects) (L : History) (need : Need)
            → next.limits ≡ limits → self.old.call.need ≡ Some need
            → due_ask next objects self.old.call.frames need ≡ Some ask
            → FunctionExists (with_resumed objects self.old.call.frames need) ask
            → RwObjectsLeft (objects_after objects self.old.call.frames need ask) result after
            → IsRwByHand next objects self.old → RwHolds next L objects self.old
            → RwHolds next L after self.new }
        ensures asked { HasRwAsked limits self.old ask self.new result }
    {
        match self.machine.ran(limits, alloc, ask) {
            Ok(()) => self.asks_by_hand(alloc),
            Err(error) => Some(Turn::Ended(Err(error.into()))),
        }
    }

    /// Cancels the open call, if there is one. The transaction stays open, with its results and changes. Does
    /// not allocate.
    pub fn give_up_by_hand(&mut self)
        ensures fits { (next : Next) (objects after : Objects) → AllIdle after
            → IsRwByHand next objects self.old → IsRwByHand next after self.new }
        ensures holds { (next : Next) (objects after : Objects) (L : History) → RwHolds next L objects self.old
            → RwHolds next L after self.new }
        ensures after { self.new ≡ record self.old { call = given_up_call self.old.call; reading = None } }
    {
        self.machine.give_up();
        self.reading = None;
    }

    /// Cancels the transaction, also in the middle of a call. The returned request removes the hold of its
    /// base.
    pub fn cancel_by_hand(self) -> PortRequest
        ensures { result ≡ PortRequest.Unpin self.base }
    {
        PortRequest::Unpin(self.base)
    }

    /// Returns the answer with which the innermost function must continue, or `None` if no function must. At
    /// the base it is the correct answer to that function's request.
    pub fn held_answer(&self) -> Option<&Answer>
        ensures answer { MatchOption result
            ((x : HeldAnswer) → self.now.call.need ≢ Some (Need.Resume x))
            (λ answer. (x : HeldAnswer) × (self.now.call.need ≡ Some (Need.Resume x)) × (answer.now ≡ x.answer)) }
        ensures right { (next : Next) (objects : Objects) (L : History) (x : HeldAnswer) (frame : Frame)
            (outer : List Frame) → IsRwByHand next objects self.now → RwHolds next L objects self.now
            → self.now.call.need ≡ Some (Need.Resume x) → self.now.call.frames ≡ frame ∷ outer
            → IsRight next frame.key.function (state_at L self.now.base)
            (next.says frame.key.function frame.key.args (answers_in objects frame.key.function)) x.answer }
    {
        match self.machine.need() {
            Some(Need::Resume(held)) => Some(&held.answer),
            _ => None,
        }
    }

    /// Returns its machine of calls.
    pub fn machine(&self) -> &CallMachine
        ensures { result.now ≡ self.now.call }
    {
        &self.machine
    }
}
