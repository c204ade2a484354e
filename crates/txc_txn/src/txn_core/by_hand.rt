//! The steps of a core whose caller runs the functions of its calls.
ghost use Rattle.std.specs.Prelude.{◌≡◌, ◌≢◌, ◌≤◌, ◌∷◌, [], List, true, false, All, MatchOption, IfSome, IsSome, None, Some, Err};
ghost use Rattle.std.specs.Option.{ForSome};
ghost use mathlib.Core.List.{IsPrefix};
ghost use Rattle.txc_rows.specs.declared.query.Query.{Query};
ghost use Rattle.txc_tags.specs.Keys.{Call};
ghost use Rattle.txc_node.specs.declared.entry.Entry.{Entry};
ghost use Rattle.txc_db.specs.History.{History, state_at};
ghost use Rattle.txc_pinset.specs.Members.{choice_of};
ghost use Rattle.txc_node.specs.declared.value.TheConstants.{MOST_VALUE_LEN};
ghost use Rattle.txc_app.specs.declared.app.TheConstants.{MOST_ASKS};
ghost use Rattle.txc_app.specs.AnswersSoFar.{IsRight};
ghost use Rattle.txc_app.specs.declared.ask.Ask.{Ask};
ghost use Rattle.txc_app.specs.Eval.{Next};
ghost use Rattle.txc_call_registry.specs.Objects.{AllIdle, Objects};
ghost use Rattle.txc_call.specs.declared.frame.Frame.{Frame};
ghost use Rattle.txc_call.specs.declared.need.HeldAnswer.{HeldAnswer};
ghost use Rattle.txc_call.specs.declared.need.Need.{Need};
ghost use Rattle.txc_call.specs.Frames.{answers_in};
ghost use Rattle.txc_call.specs.Needs.{reply_reach, ReplyFits, ReplyHolds};
ghost use Rattle.txc_call.specs.Reaches.{InReach};
ghost use Rattle.txc_call.specs.CallMachine.{started};
ghost use Rattle.txc_call.specs.CallSteps.{due_ask, objects_after, with_resumed, FunctionExists, NeedsFunction};
ghost use Rattle.txc_txn_ports.specs.Fronts.{front_of_reply};

use crate::pinning::{PinStep, Pinning};
use crate::receipt::Unfinished;
use crate::txn_core::TxnCore;
use std::alloc::Global;
use txc_app::{Answer, Ask, Limits};
use txc_call::{CallMachine, Need, Reply};
use txc_db::DbError;
use txc_node::Value;
use txc_pinset::Choice;
use txc_stamp::Stamp;
use txc_tags::Key;
use txc_txn_ports::{PortReply, PortRequest, Turn, TxnError};

impl TxnCore {
    ghost use Rattle.txc_txn.specs.TxnCore.{first_call, left_pin, open_call, value_of, CoreHolds, IsAnswered};
    ghost use Rattle.txc_txn.specs.TxnCore.{IsCore, IsIdle, IsNoAdding, IsNoValue, IsRightPortReply, IsTurn, WaitsForPin};
    ghost use Rattle.txc_txn_ports.specs.Turns.{IsAsk, PortTurn};
    ghost use Rattle.txc_txn.specs.RunningTxn.{txn_value, HasBegunCall};
    ghost use Rattle.txc_txn.specs.Transitions.{AsksPin, BeginTransition, IsBeyond};
    ghost use Rattle.txc_txn.specs.ByHand.{standing_of, recorded_by_hand, FirstExists, HandTransition, HasAskedByHand, HasGoneOnByHand};
    ghost use Rattle.txc_txn.specs.ByHand.{IsHandTurn, IsUnended, ObjectsLeft, TakeTransition};

    // Cancels the open call.
    pub(crate) fn drop_call(&mut self, error: TxnError) -> Turn<PortRequest, Value>
        ensures fits { (next : Next) (objects after : Objects) → AllIdle after
            → IsCore next objects (value_of self.old) → IsCore next after (value_of self.new) }
        ensures holds { (next : Next) (objects after : Objects) (L : History)
            → CoreHolds next L objects (value_of self.old) → CoreHolds next L after (value_of self.new) }
        ensures idle { IsIdle (value_of self.new) }
        ensures answer { result ≡ Turn.Ended (Err error) }
        ensures same { value_of self.new
            ≡ record (value_of self.old) { call = self.new.machine; pinning = None } }
    {
        self.machine.give_up();
        self.pinning = None;
        Turn::Ended(Err(error))
    }

    // Requests a pin of the present, after which a call begins or the open one continues.
    fn pin_by_hand(&mut self, first: Option<Key>) -> Turn<PortRequest, Value>
        requires none { self.old.pinning ≡ None }
        requires due { choice_of self.old.bounds.now self.old.renew_after self.old.pins ≡ Choice.Present }
        requires waits { WaitsForPin first self.old.machine.need self.old.pins.members }
        ensures fits { (next : Next) (objects after : Objects) → ObjectsLeft objects (Some result) after
            → IsCore next objects (value_of self.old) → IsCore next after (value_of self.new) }
        ensures holds { (next : Next) (objects after : Objects) (L : History)
            → ObjectsLeft objects (Some result) after → CoreHolds next L objects (value_of self.old)
            → CoreHolds next L after (value_of self.new) }
        ensures turn { IsTurn (value_of self.new) result }
        ensures no_value { IsNoValue result }
        ensures no_add { IsNoAdding result }
        ensures left { left_pin (value_of self.new).pinning ≡ None }
        ensures begins { (k : Call) → first ≡ Some k → IsAsk result → open_call (value_of self.new) ≡ Some k }
        ensures goes_on { first ≡ None → IsAsk result
            → open_call (value_of self.new) ≡ Some self.old.machine.top }
        ensures same_call { IsAsk result → self.new.machine ≡ self.old.machine }
        ensures asks { self.old.pins.members ≡ [] → IsAsk result }
        ensures pins { IsAsk result → AsksPin result }
        ensures waits { IsAsk result
            → self.new.pinning ≡ Some (record { step = PinStep.Asked; first = first }) }
        ensures refused { ¬ (IsAsk result) → IsBeyond (value_of self.new)
            × (result ≡ Turn.Ended (Err (TxnError.Database DbError.Full))) }
        ensures same { value_of self.new
            ≡ record (value_of self.old) { call = self.new.machine; pinning = self.new.pinning } }
    {
        let Some(at_least) = self.least_present() else {
            return self.drop_call(TxnError::Database(DbError::Full));
        };
        self.pinning = Some(Pinning {
            step: PinStep::Asked,
            first,
        });
        Turn::Ask(PortRequest::Pin {
            now: self.bounds.now,
            at_least,
        })
    }

    // Makes the request that the call needs, or ends the call with its value. Returns `None` if it needs a
    // function.
    pub(crate) fn asks(&mut self, alloc: Global) -> Option<Turn<PortRequest, Value>>
        requires fits { (next : Next) × (objects : Objects) × IsCore next objects (value_of self.old) }
        requires none { self.old.pinning ≡ None }
        requires calling { IsSome self.old.machine.need }
        ensures fits { (next : Next) (objects after : Objects) → ObjectsLeft objects result after
            → IsCore next objects (value_of self.old) → IsCore next after (value_of self.new) }
        ensures holds { (next : Next) (objects after : Objects) (L : History) → ObjectsLeft objects result after
            → IsCore next objects (value_of self.old) → CoreHolds next L objects (value_of self.old)
            → CoreHolds next L after (value_of self.new) }
        ensures turn { IsHandTurn (value_of self.new) result }
        ensures no_add { IfSome result IsNoAdding }
        ensures left { left_pin (value_of self.new).pinning ≡ None }
        ensures recorded { self.new.recorded.items
            ≡ recorded_by_hand self.old.recorded.items result (Some self.old.machine.top) }
        ensures goes_on { IsUnended result → open_call (value_of self.new) ≡ Some self.old.machine.top }
        ensures transition { (objects : Objects) → HandTransition (standing_of self.old.machine objects)
            (value_of self.new) result }
        ensures rests { ((k : Call) → self.old.machine.need ≢ Some (Need.Lookup k))
            → ((q : Query) → self.old.machine.need ≢ Some (Need.Query q))
            → ((e : Entry) → self.old.machine.need ≢ Some (Need.Insert e)) → IfSome result (λ turn. ¬ (IsAsk turn)) }
        ensures query { (query : Query) → self.old.machine.need ≡ Some (Need.Query query)
            → self.old.pins.has_present ≡ false → (turn : PortTurn) × (result ≡ Some turn) × IsAsk turn
            × (self.new.machine ≡ self.old.machine) × (self.new.pinning ≡ None) }
        ensures same { value_of self.new ≡ record (value_of self.old) {
          recorded = self.new.recorded.items;
          call = self.new.machine;
          pinning = self.new.pinning;
        } }
    {
        match self.machine.need() {
            Some(Need::Begin(_)) => None,
            Some(Need::Resume(_)) => None,
            Some(Need::Lookup(key)) => {
                let Some((lo, hi)) = self.pins.bounds() else {
                    unreachable!()
                };
                Some(Turn::Ask(PortRequest::Lookup {
                    node: key.node_of(self.nodes),
                    key: key.copy(),
                    lo,
                    hi,
                }))
            }
            Some(Need::Query(query)) => {
                let query = *query;
                match self.pins.choose(self.bounds.now, self.renew_after) {
                    Choice::Present => Some(self.pin_by_hand(None)),
                    Choice::At(stamp) => Some(Turn::Ask(PortRequest::Query { query, stamp })),
                }
            }
            Some(Need::Insert(entry)) => match entry.copy(alloc) {
                Ok(entry) => Some(Turn::Ask(PortRequest::Insert {
                    node: entry.key.node_of(self.nodes),
                    entry,
                })),
                Err(_) => Some(self.drop_call(TxnError::Memory)),
            },
            Some(Need::Value(_)) => Some(self.record(alloc)),
            None => unreachable!(),
        }
    }

    // Begins the call with its lookup.
    pub(crate) fn begin_by_hand(&mut self, key: Key) -> Turn<PortRequest, Value>
        requires fits { (next : Next) × (objects : Objects) × IsCore next objects (value_of self.old) }
        requires none { self.old.pinning ≡ None }
        requires idle { self.old.machine.need ≡ None }
        requires member { self.old.pins.members ≢ [] }
        ensures fits { (next : Next) (objects : Objects) → FunctionExists objects (Ask.Call key)
            → IsCore next objects (value_of self.old) → IsCore next objects (value_of self.new) }
        ensures holds { (next : Next) (objects : Objects) (L : History) → CoreHolds next L objects (value_of self.old)
            → CoreHolds next L objects (value_of self.new) }
        ensures turn { IsTurn (value_of self.new) result }
        ensures asks { IsAsk result }
        ensures no_add { IsNoAdding result }
        ensures begins { open_call (value_of self.new) ≡ Some key }
        ensures transition { (objects : Objects) → FunctionExists objects (Ask.Call key)
            → BeginTransition (value_of self.old) objects key (value_of self.new) objects result }
        ensures same { value_of self.new
            ≡ record (value_of self.old) { call = started key; pinning = None } }
    {
        let Some((lo, hi)) = self.pins.bounds() else {
            unreachable!()
        };
        let request = PortRequest::Lookup {
            node: key.node_of(self.nodes),
            key: key.copy(),
            lo,
            hi,
        };
        self.machine.start_by_hand(key);
        Turn::Ask(request)
    }

    /// Begins a call as [`TxnCore::start`] does, for a caller that runs functions itself and has each of them.
    pub fn start_by_hand(&mut self, key: Key) -> Turn<PortRequest, Value>
        requires fits { (next : Next) × (objects : Objects) × IsCore next objects (value_of self.old) }
        requires idle { IsIdle (value_of self.old) }
        ensures fits { (next : Next) (objects : Objects) → FunctionExists objects (Ask.Call key)
            → IsCore next objects (value_of self.old) → IsCore next objects (value_of self.new) }
        ensures holds { (next : Next) (objects : Objects) (L : History) → CoreHolds next L objects (value_of self.old)
            → CoreHolds next L objects (value_of self.new) }
        ensures asks { IsAsk result }
        ensures begun { (objects : Objects) → FunctionExists objects (Ask.Call key)
            → HasBegunCall (txn_value (value_of self.old) objects) key (txn_value (value_of self.new) objects) result }
    {
        if self.pins.members().is_empty() {
            return self.pin_by_hand(Some(key));
        }
        self.begin_by_hand(key)
    }

    // Takes a reply in whose reach every member is. No function continues yet.
    pub(crate) fn take(&mut self, alloc: Global, reply: Reply) -> Option<Turn<PortRequest, Value>>
        requires none { self.old.pinning ≡ None }
        requires reply { (need : Need) × (self.old.machine.need ≡ Some need) × ReplyFits need reply }
        requires within { All (λ m. InReach m.stamp (reply_reach reply)) self.old.pins.members }
        requires present { self.old.pins.has_present ≡ true → reply_reach reply ≡ None }
        requires fits { (next : Next) × (objects : Objects) × IsCore next objects (value_of self.old) }
        ensures fits { (next : Next) (objects after : Objects) → ObjectsLeft objects result after
            → IsCore next objects (value_of self.old) → IsCore next after (value_of self.new) }
        ensures holds { (next : Next) (objects after : Objects) (L : History) → ObjectsLeft objects result after
            → ((need : Need) → self.old.machine.need ≡ Some need → ReplyHolds next L need reply)
            → IsCore next objects (value_of self.old) → CoreHolds next L objects (value_of self.old)
            → CoreHolds next L after (value_of self.new) }
        ensures turn { IsHandTurn (value_of self.new) result }
        ensures no_add { IfSome result IsNoAdding }
        ensures left { left_pin (value_of self.new).pinning ≡ None }
        ensures recorded { self.new.recorded.items
            ≡ recorded_by_hand self.old.recorded.items result (Some self.old.machine.top) }
        ensures goes_on { IsUnended result → open_call (value_of self.new) ≡ Some self.old.machine.top }
        ensures rests { IfSome result (λ turn. ¬ (IsAsk turn)) }
        ensures transition { (need : Need) → self.old.machine.need ≡ Some need
            → TakeTransition (value_of self.old) need reply (value_of self.new) result }
        ensures same { value_of self.new ≡ record (value_of self.old) {
          recorded = self.new.recorded.items;
          call = self.new.machine;
          pinning = self.new.pinning;
        } }
    {
        self.machine.take(reply);
        self.asks(alloc)
    }

    /// Continues with the reply to its request, as [`TxnCore::next`] does, but runs no function. Returns `None`
    /// if a function must begin or continue first: then [`TxnCore::ran`] takes that function's step.
    pub fn hear(&mut self, alloc: Global, reply: PortReply) -> Option<Turn<PortRequest, Value>>
        requires fits { (next : Next) × (objects : Objects) × IsCore next objects (value_of self.old) }
        requires reply { IsAnswered (value_of self.old) reply }
        requires row { ForSome (front_of_reply reply) (λ front. front.events ≡ (value_of self.old).seen.events) }
        ensures fits { (next : Next) (objects after : Objects)
            → FirstExists objects (first_call (value_of self.old).pinning) → ObjectsLeft objects result after
            → IsCore next objects (value_of self.old) → IsCore next after (value_of self.new) }
        ensures holds { (next : Next) (objects after : Objects) (L M : History) → IsPrefix L M
            → ObjectsLeft objects result after → IsRightPortReply next M (value_of self.old).call.need reply
            → IsCore next objects (value_of self.old) → CoreHolds next L objects (value_of self.old)
            → CoreHolds next M after (value_of self.new) }
        ensures gone_on { HasGoneOnByHand (value_of self.old) reply (value_of self.new) result }
    {
        self.see(&reply);
        self.heard(alloc, reply)
    }

    /// Takes the step of the function that the call needs, within the limits of the function's application.
    /// Returns `None` if another function must begin or continue first.
    pub fn ran(
        &mut self,
        limits: Limits,
        alloc: Global,
        ask: Ask,
    ) -> Option<Turn<PortRequest, Value>>
        requires most_value { limits.value ≤ MOST_VALUE_LEN }
        requires most_asks { limits.asks ≤ MOST_ASKS }
        requires runs { NeedsFunction self.old.machine.need }
        requires none { self.old.pinning ≡ None }
        requires asks { (next : Next) × (objects : Objects) × (need : Need) × (next.limits ≡ limits)
            × (self.old.machine.need ≡ Some need)
            × (due_ask next objects self.old.machine.frames need ≡ Some ask)
            × FunctionExists (with_resumed objects self.old.machine.frames need) ask
            × IsCore next objects (value_of self.old) }
        ensures fits { (next : Next) (objects after : Objects) (need : Need) → next.limits ≡ limits
            → self.old.machine.need ≡ Some need
            → due_ask next objects self.old.machine.frames need ≡ Some ask
            → FunctionExists (with_resumed objects self.old.machine.frames need) ask
            → ObjectsLeft (objects_after objects self.old.machine.frames need ask) result after
            → IsCore next objects (value_of self.old) → IsCore next after (value_of self.new) }
        ensures holds { (next : Next) (objects after : Objects) (L : History) (need : Need)
            → next.limits ≡ limits → self.old.machine.need ≡ Some need
            → due_ask next objects self.old.machine.frames need ≡ Some ask
            → FunctionExists (with_resumed objects self.old.machine.frames need) ask
            → ObjectsLeft (objects_after objects self.old.machine.frames need ask) result after
            → IsCore next objects (value_of self.old)
            → CoreHolds next L objects (value_of self.old) → CoreHolds next L after (value_of self.new) }
        ensures asked { HasAskedByHand limits (value_of self.old) ask (value_of self.new) result }
    {
        match self.machine.ran(limits, alloc, ask) {
            Ok(()) => self.asks(alloc),
            Err(error) => Some(Turn::Ended(Err(error.into()))),
        }
    }

    /// Cancels the open call, if there is one, and returns a stamp that was pinned and not added: its hold must
    /// be removed. The transaction stays open, with its results. Does not allocate.
    pub fn give_up_by_hand(&mut self) -> Option<Stamp>
        ensures fits { (next : Next) (objects after : Objects) → AllIdle after
            → IsCore next objects (value_of self.old) → IsCore next after (value_of self.new) }
        ensures holds { (next : Next) (objects after : Objects) (L : History)
            → CoreHolds next L objects (value_of self.old) → CoreHolds next L after (value_of self.new) }
        ensures unpin { result ≡ left_pin (value_of self.old).pinning }
        ensures idle { IsIdle (value_of self.new) }
        ensures same { value_of self.new
            ≡ record (value_of self.old) { call = self.new.machine; pinning = None } }
    {
        let unpin = match &self.pinning {
            Some(pinning) => pinning.left(),
            None => None,
        };
        self.drop_call(TxnError::Memory);
        unpin
    }

    /// Cancels the transaction, also in the middle of a call, and returns the remaining work. Does not
    /// allocate.
    pub fn cancel_by_hand(self) -> Unfinished
        ensures give_back { result.give_back.items ≡ (value_of self).taken }
        ensures unpin { result.unpin ≡ left_pin (value_of self).pinning }
    {
        let unpin = match &self.pinning {
            Some(pinning) => pinning.left(),
            None => None,
        };
        Unfinished {
            give_back: self.taken,
            unpin,
        }
    }

    /// Returns the answer with which the innermost function must continue, or `None` if no function must. At
    /// every member it is the correct answer to that function's request.
    pub fn held_answer(&self) -> Option<&Answer>
        ensures answer { MatchOption result
            ((x : HeldAnswer) → self.now.machine.need ≢ Some (Need.Resume x))
            (λ answer. (x : HeldAnswer) × (self.now.machine.need ≡ Some (Need.Resume x)) × (answer.now ≡ x.answer)) }
        ensures right { (next : Next) (objects : Objects) (L : History) (x : HeldAnswer) (frame : Frame)
            (outer : List Frame) → CoreHolds next L objects (value_of self.now)
            → self.now.machine.need ≡ Some (Need.Resume x) → self.now.machine.frames ≡ frame ∷ outer
            → All (λ p. IsRight next frame.key.function (state_at L p.stamp)
            (next.says frame.key.function frame.key.args (answers_in objects frame.key.function)) x.answer)
            self.now.pins.members }
    {
        match self.machine.need() {
            Some(Need::Resume(held)) => Some(&held.answer),
            _ => None,
        }
    }

    /// Returns its machine of calls.
    pub fn machine(&self) -> &CallMachine
        ensures { result.now ≡ self.now.machine }
    {
        &self.machine
    }
}
