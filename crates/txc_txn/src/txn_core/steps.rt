//! The steps of a core between two requests.
ghost use Rattle.std.specs.Prelude.{◌≡◌, ◌≢◌, ◌<◌, ◌++◌, ◌∷◌, [], ◌↔◌, All, IsErr, IsSome, OnOk, MatchOption};
ghost use Rattle.std.specs.Prelude.{None, Some, Err, true, false, vec_len, vec_capacity};
ghost use Rattle.txc_stamp.specs.declared.stamp.TheConstants.{MOST_STAMP};
ghost use Rattle.txc_tags.specs.Keys.{Call};
ghost use Rattle.txc_rows.specs.declared.query.Query.{Query};
ghost use Rattle.txc_db.specs.History.{History};
ghost use Rattle.txc_cushion.specs.Pin.{pin_of};
ghost use Rattle.txc_pinset.specs.Members.{choice_of, kept, with_present};
ghost use Rattle.txc_call.specs.declared.need.Need.{Need};
ghost use Rattle.txc_call.specs.declared.need.Outcome.{Outcome};
ghost use Rattle.txc_call.specs.Needs.{reply_reach, ReplyFits, ReplyHolds};
ghost use Rattle.txc_call.specs.Reaches.{InReach};
ghost use Rattle.txc_call.specs.CallSteps.{NeedsFunction};
ghost use Rattle.txc_app.specs.Eval.{Next};
ghost use Rattle.txc_call_registry.specs.Objects.{numbers_of, Objects};
ghost use Rattle.txc_txn_ports.specs.Answers.{IsFresh};

use crate::pinning::{PinStep, Pinning};
use crate::txn_core::TxnCore;
use std::alloc::Global;
use txc_app::App;
use txc_call::{Need, Outcome, Reply};
use txc_call_registry::{Cacheable, Registry};
use txc_cushion::pin_of;
use txc_db::{DbError, Pinned};
use txc_node::Value;
use txc_pinset::{Choice, WouldEmpty};
use txc_stamp::{Reach, Stamp};
use txc_tags::Key;
use txc_txn_ports::{PortRequest, Recorded, Turn, TxnError};

impl TxnCore {
    ghost use Rattle.txc_txn.specs.TxnCore.{least_present, open_call, recorded_after, value_of, CoreHolds};
    ghost use Rattle.txc_txn.specs.TxnCore.{IsCore, IsIdle, IsNarrowed, IsNoValue};
    ghost use Rattle.txc_txn.specs.RunningTxn.{HasTurned};
    ghost use Rattle.txc_txn_ports.specs.Turns.{IsAsk};
    ghost use Rattle.txc_txn.specs.TxnCore.{WaitsForPin};
    ghost use Rattle.txc_txn.specs.Transitions.{AsksLookup, AsksPin, BeginTransition, CallTransition, IsBeyond, NeedTransition, StandsStill};

    // Returns the least stamp that a pin of the present may have, or `None` if that is beyond the last stamp.
    pub(crate) fn least_present(&self) -> Option<Stamp>
        ensures answer { MatchOption result (MOST_STAMP < least_present self.now.bounds self.now.pins.members)
            (λ stamp. stamp ≡ least_present self.now.bounds self.now.pins.members) }
        ensures first { self.now.pins.members ≡ [] → IsSome result }
    {
        match self.pins.members().first() {
            None => Some(self.bounds.at_least),
            Some(newest) => {
                let next = newest.stamp.next()?;
                Some(next.max(self.bounds.at_least))
            }
        }
    }

    // Cancels the open call.
    pub(crate) fn give_up<A: App, C: Cacheable>(
        &mut self,
        registry: &mut Registry<A, C>,
        error: TxnError,
    ) -> Turn<PortRequest, Value>
        requires { IsCore A.next registry.old (value_of self.old) }
        ensures fits { IsCore A.next registry.new (value_of self.new) }
        ensures holds { (L : History) → CoreHolds A.next L registry.old (value_of self.old)
            → CoreHolds A.next L registry.new (value_of self.new) }
        ensures idle { IsIdle (value_of self.new) }
        ensures answer { result ≡ Turn.Ended (Err error) }
        ensures functions { numbers_of registry.new ≡ numbers_of registry.old }
        ensures same { value_of self.new
            ≡ record (value_of self.old) { call = self.new.machine; pinning = None } }
    {
        self.machine.cancel(registry);
        self.pinning = None;
        Turn::Ended(Err(error))
    }

    // Requests a pin of the present, after which a call begins or the open one continues.
    pub(crate) fn ask_pin<A: App, C: Cacheable>(
        &mut self,
        registry: &mut Registry<A, C>,
        first: Option<Key>,
    ) -> Turn<PortRequest, Value>
        requires fits { IsCore A.next registry.old (value_of self.old) }
        requires none { self.old.pinning ≡ None }
        requires due { choice_of self.old.bounds.now self.old.renew_after self.old.pins ≡ Choice.Present }
        requires waits { WaitsForPin first self.old.machine.need self.old.pins.members }
        ensures turned { HasTurned A.next registry.old (value_of self.new) registry.new result }
        ensures holds { (L : History) → CoreHolds A.next L registry.old (value_of self.old)
            → CoreHolds A.next L registry.new (value_of self.new) }
        ensures no_value { IsNoValue result }
        ensures begins { (k : Call) → first ≡ Some k → IsAsk result → open_call (value_of self.new) ≡ Some k }
        ensures goes_on { first ≡ None → IsAsk result
            → open_call (value_of self.new) ≡ Some self.old.machine.top }
        ensures same_call { IsAsk result → self.new.machine ≡ self.old.machine }
        ensures same_objects { IsAsk result → registry.new ≡ registry.old }
        ensures asks { self.old.pins.members ≡ [] → IsAsk result }
        ensures pins { IsAsk result → AsksPin result }
        ensures waits { IsAsk result
            → self.new.pinning ≡ Some (record { step = PinStep.Asked; first = first }) }
        ensures refused { ¬ (IsAsk result) → IsBeyond (value_of self.new)
            × (result ≡ Turn.Ended (Err (TxnError.Database DbError.Full))) }
        ensures same { value_of self.new
            ≡ record (value_of self.old) { call = self.new.machine; pinning = self.new.pinning } }
    {
        let Some(at_least) = self.least_present() else {
            return self.give_up(registry, TxnError::Database(DbError::Full));
        };
        self.pinning = Some(Pinning {
            step: PinStep::Asked,
            first,
        });
        Turn::Ask(PortRequest::Pin {
            now: self.bounds.now,
            at_least,
        })
    }

    // Records the value of the call, which is done, and returns a copy of it.
    pub(crate) fn record(&mut self, alloc: Global) -> Turn<PortRequest, Value>
        requires { (o : Outcome) × (self.old.machine.need ≡ Some (Need.Value o)) }
        ensures fits { (next : Next) (objects : Objects) → self.old.pinning ≡ None
            → IsCore next objects (value_of self.old)
            → IsCore next objects (value_of self.new) }
        ensures holds { (next : Next) (objects : Objects) (L : History)
            → CoreHolds next L objects (value_of self.old)
            → CoreHolds next L objects (value_of self.new) }
        ensures need { self.new.machine.need ≡ None }
        ensures ended { ¬ (IsAsk result) }
        ensures transition { (objects objects' : Objects)
            → NeedTransition (value_of self.old) objects (value_of self.new) objects' result }
        ensures recorded { (next : Next) (objects : Objects) → IsCore next objects (value_of self.old)
            → self.new.recorded.items
            ≡ recorded_after self.old.recorded.items result (Some self.old.machine.top) }
        ensures same { value_of self.new ≡ record (value_of self.old) {
          recorded = self.new.recorded.items;
          call = record self.old.machine { need = None };
        } }
    {
        let Some(outcome) = self.machine.finish() else {
            unreachable!()
        };
        let Outcome {
            key,
            value,
            reach: _,
            tags: _,
        } = outcome;
        let Ok(copy) = value.copy(alloc) else {
            return Turn::Ended(Err(TxnError::Memory));
        };
        let Ok(()) = self.recorded.push(Recorded { key, value }) else {
            return Turn::Ended(Err(TxnError::Memory));
        };
        Turn::Ended(Ok(copy))
    }

    // Makes the request that the call needs, or ends the call with its value.
    pub(crate) fn request<A: App, C: Cacheable>(
        &mut self,
        alloc: Global,
        registry: &mut Registry<A, C>,
    ) -> Turn<PortRequest, Value>
        requires fits { IsCore A.next registry.old (value_of self.old) }
        requires none { self.old.pinning ≡ None }
        requires calling { IsSome self.old.machine.need }
        requires settled { ¬ (NeedsFunction self.old.machine.need) }
        ensures turned { HasTurned A.next registry.old (value_of self.new) registry.new result }
        ensures holds { (L : History) → CoreHolds A.next L registry.old (value_of self.old)
            → CoreHolds A.next L registry.new (value_of self.new) }
        ensures recorded { self.new.recorded.items
            ≡ recorded_after self.old.recorded.items result (Some self.old.machine.top) }
        ensures goes_on { IsAsk result → open_call (value_of self.new) ≡ Some self.old.machine.top }
        ensures no_value { (k : Call) → self.old.machine.need ≡ Some (Need.Lookup k) → IsNoValue result }
        ensures transition { NeedTransition (value_of self.old) registry.old (value_of self.new) registry.new result }
        ensures lookup { (k : Call) → self.old.machine.need ≡ Some (Need.Lookup k)
            → StandsStill (value_of self.old) registry.old (value_of self.new) registry.new
            × AsksLookup k result }
        ensures query { (query : Query) → self.old.machine.need ≡ Some (Need.Query query)
            → self.old.pins.has_present ≡ false
            → StandsStill (value_of self.old) registry.old (value_of self.new) registry.new × IsAsk result }
        ensures same { value_of self.new ≡ record (value_of self.old) {
          recorded = self.new.recorded.items;
          call = self.new.machine;
          pinning = self.new.pinning;
        } }
    {
        match self.machine.need() {
            Some(Need::Lookup(key)) => {
                let Some((lo, hi)) = self.pins.bounds() else {
                    unreachable!()
                };
                Turn::Ask(PortRequest::Lookup {
                    node: key.node_of(self.nodes),
                    key: key.copy(),
                    lo,
                    hi,
                })
            }
            Some(Need::Query(query)) => {
                let query = *query;
                match self.pins.choose(self.bounds.now, self.renew_after) {
                    Choice::Present => self.ask_pin(registry, None),
                    Choice::At(stamp) => Turn::Ask(PortRequest::Query { query, stamp }),
                }
            }
            Some(Need::Insert(entry)) => match entry.copy(alloc) {
                Ok(entry) => Turn::Ask(PortRequest::Insert {
                    node: entry.key.node_of(self.nodes),
                    entry,
                }),
                Err(_) => self.give_up(registry, TxnError::Memory),
            },
            Some(Need::Value(_)) => self.record(alloc),
            Some(Need::Begin(_)) => unreachable!(),
            Some(Need::Resume(_)) => unreachable!(),
            None => unreachable!(),
        }
    }

    // Begins the call.
    pub(crate) fn start_call<A: App, C: Cacheable>(
        &mut self,
        alloc: Global,
        registry: &mut Registry<A, C>,
        key: Key,
    ) -> Turn<PortRequest, Value>
        requires fits { IsCore A.next registry.old (value_of self.old) }
        requires none { self.old.pinning ≡ None }
        requires idle { self.old.machine.need ≡ None }
        requires member { self.old.pins.members ≢ [] }
        ensures turned { HasTurned A.next registry.old (value_of self.new) registry.new result }
        ensures holds { (L : History) → CoreHolds A.next L registry.old (value_of self.old)
            → CoreHolds A.next L registry.new (value_of self.new) }
        ensures no_value { IsNoValue result }
        ensures begins { IsAsk result → open_call (value_of self.new) ≡ Some key }
        ensures transition { BeginTransition (value_of self.old) registry.old key
            (value_of self.new) registry.new result }
        ensures same { value_of self.new
            ≡ record (value_of self.old) { call = self.new.machine; pinning = self.new.pinning } }
    {
        match self.machine.start(registry, key) {
            Ok(()) => self.request(alloc, registry),
            Err(error) => Turn::Ended(Err(error.into())),
        }
    }

    // Continues the call with a reply in whose reach every member is.
    pub(crate) fn go_on<A: App, C: Cacheable>(
        &mut self,
        alloc: Global,
        registry: &mut Registry<A, C>,
        reply: Reply,
    ) -> Turn<PortRequest, Value>
        requires fits { IsCore A.next registry.old (value_of self.old) }
        requires none { self.old.pinning ≡ None }
        requires reply { (need : Need) × (self.old.machine.need ≡ Some need) × ReplyFits need reply }
        requires within { All (λ m. InReach m.stamp (reply_reach reply)) self.old.pins.members }
        requires present { self.old.pins.has_present ≡ true → reply_reach reply ≡ None }
        ensures turned { HasTurned A.next registry.old (value_of self.new) registry.new result }
        ensures holds { (L : History) → ((need : Need) → self.old.machine.need ≡ Some need
            → ReplyHolds A.next L need reply)
            → CoreHolds A.next L registry.old (value_of self.old)
            → CoreHolds A.next L registry.new (value_of self.new) }
        ensures recorded { self.new.recorded.items
            ≡ recorded_after self.old.recorded.items result (Some self.old.machine.top) }
        ensures goes_on { IsAsk result → open_call (value_of self.new) ≡ Some self.old.machine.top }
        ensures transition { (need : Need) → self.old.machine.need ≡ Some need
            → CallTransition A.next (value_of self.old) registry.old need reply
            (value_of self.new) registry.new result }
        ensures same { value_of self.new ≡ record (value_of self.old) {
          recorded = self.new.recorded.items;
          call = self.new.machine;
          pinning = self.new.pinning;
        } }
    {
        match self.machine.reply(registry, alloc, reply) {
            Ok(()) => self.request(alloc, registry),
            Err(error) => Turn::Ended(Err(error.into())),
        }
    }

    // Narrows the pin set by a reach, if that holds a member.
    pub(crate) fn narrow(&mut self, reach: Reach) -> Result<(), WouldEmpty>
        requires { self.old.pinning ≡ None }
        ensures fits { (next : Next) (objects : Objects) → IsCore next objects (value_of self.old)
            → IsCore next objects (value_of self.new) }
        ensures holds { (next : Next) (objects : Objects) (L : History)
            → CoreHolds next L objects (value_of self.old)
            → CoreHolds next L objects (value_of self.new) }
        ensures pins { IsNarrowed reach self.old.pins self.new.pins }
        ensures refused { IsErr result ↔ (kept reach self.old.pins.members ≡ []) }
        ensures within { OnOk result (All (λ m. InReach m.stamp (Some reach)) self.new.pins.members) }
        ensures no_present { OnOk result (self.new.pins.has_present ≡ false) }
        ensures same { value_of self.new ≡ record (value_of self.old) { pins = self.new.pins } }
    {
        self.pins.narrow(reach)?;
        Ok(())
    }

    // Replaces the present by the pin that was added.
    pub(crate) fn join_pin(&mut self, pinned: &Pinned)
        requires present { self.old.pins.has_present ≡ true }
        requires newer { All (λ m. m.stamp < pinned.now.stamp) self.old.pins.members }
        ensures fits { (next : Next) (objects : Objects) → self.old.pinning ≡ None
            → IsCore next objects (value_of self.old)
            → IsCore next objects (value_of self.new) }
        ensures holds { (next : Next) (objects : Objects) (L : History)
            → IsFresh L self.old.bounds (pin_of pinned.now)
            → CoreHolds next L objects (value_of self.old) → CoreHolds next L objects (value_of self.new) }
        ensures same { value_of self.new ≡ record (value_of self.old) {
          pins = with_present (pin_of pinned.now) self.old.pins;
          taken = self.old.taken.items ++ pinned.now.stamp ∷ [];
        } }
    {
        self.pins.take_present(pinned);
        self.taken.push_reserved(pinned.stamp);
    }
}
