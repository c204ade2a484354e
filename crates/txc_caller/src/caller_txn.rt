//! A caller's read-only transaction.
ghost use Rattle.std.specs.Prelude.{◌≡◌, ◌≤◌, ◌↔◌, ◌∷◌, [], List, Err, IfErr, IfOk, IsOk, IsSome, IsTrue, MatchOption, None, OnErr, OnOk, Some};
ghost use Rattle.txc_tags.specs.Keys.{Call};
ghost use Rattle.txc_tags.specs.declared.key.TheConstants.{LAST_FUNCTION};
ghost use Rattle.txc_call_registry.specs.Objects.{AllIdle};
ghost use Rattle.txc_txn.specs.TxnCore.{receipt_pin, Explains, IsIdle};
ghost use Rattle.txc_txn.specs.RunningTxn.{IsTxn};
ghost use Rattle.txc_txn.specs.Sessions.{IsAtLeast};
ghost use Rattle.txc_caller.specs.CallerAct.{step_error, CallerActTransition};
ghost use Rattle.txc_caller.specs.NodeLookup.{IsComputedOnMiss};
ghost use Rattle.txc_caller.specs.Ports.{HasGrownDatabase};
ghost use Rattle.txc_caller.specs.CallerTxn.{open_states, read_stamp, HasEndedReading, IsOf, IsReadingStep, KeepsCaller, KeepsTxn};
ghost use Rattle.txc_caller.specs.ComputedFunctions.{computed_calls, told_answer, top_call, top_or, AsksNext, IsToldAfterAsk, ObjectsFollow};
ghost use Rattle.txc_caller.specs.declared.step.CallerError.TheVariants.{NoFunction};

use crate::caller::Caller;
use crate::lent_txn::LentTxn;
use crate::serving::serve;
use crate::step::{CallerError, Step};
use std::alloc::Global;
use std::marker::Model;
use txc_app::{Answer, App, Ask, Bytes};
use txc_cushion::Pin;
use txc_pinset::Choice;
use txc_rows::Query;
use txc_stamp::Stamp;
use txc_tags::Key;
use txc_txn::Receipt;
use txc_txn_ports::Recorded;

/// A read-only transaction whose functions its caller computes. Let `A.next` be any functions that make the
/// requests and return the values that the caller reports: the receipt explains each result by them.
///
/// It is a value of its own: each act is lent the caller, the same one that it began with. Whatever else that
/// caller does between two acts, its results stay. [`CallerTxn::commit`] or [`CallerTxn::abort`] ends it and
/// returns its pins; if it is dropped, the pins stay in use.
pub struct CallerTxn<A: App> {
    pub(crate) txn: LentTxn<A>,
}

// Not derived, since a derived one would be proved again in each crate above.
impl<A: App> Drop for CallerTxn<A> {
    fn drop(self) {
        let CallerTxn { txn: _ } = self;
    }
}

impl<A: App> Model for CallerTxn<A> {
    ghost use Rattle.txc_txn.specs.RunningTxn.{TxnValue};
    ghost use Rattle.txc_caller.specs.CallerTxn.{IsCallerTxn};

    ghost Value = { TxnValue };

    ghost view = { λ t. t.txn };

    ghost invariant = { λ t. IsCallerTxn A.next t.txn };
}

impl<A: App> CallerTxn<A> {
    ghost use Rattle.txc_app.specs.declared.ask.Ask.TheVariants as asks;

    // Makes a step of the function being computed.
    fn act(&mut self, alloc: Global, caller: &mut Caller<A>, ask: Ask) -> Result<Step, CallerError>
        requires row { IsOf caller.old self.old }
        requires asks { AsksNext A.next self.old.objects self.old.core.call ask }
        requires there { (k : Call) → ask ≡ asks.Call k → k.function ≤ LAST_FUNCTION }
        ensures none { top_call self.old.core.call ≡ None
            → (result ≡ Err NoFunction) × (self.new ≡ self.old) × (caller.new ≡ caller.old) }
        ensures step { (k : Call) → top_call self.old.core.call ≡ Some k
            → IsReadingStep self.old.core self.new.core k result }
        ensures told { IsToldAfterAsk A.next (open_states self.new.core) self.old.core.call ask self.new.core.call result }
        ensures objects { ObjectsFollow self.old.objects self.old.core.call ask self.new.objects result }
        ensures on_miss { IsComputedOnMiss self.new.core caller.old.ports.node caller.new.ports.node result }
        ensures transition { CallerActTransition A.next.limits caller.old.ports self.old ask caller.new.ports self.new.core.taken
            (step_error result) }
        ensures keeps { KeepsTxn self.old self.new }
        ensures valid { IsTxn A.next self.new }
        ensures caller { KeepsCaller caller.old caller.new }
        ensures grown { HasGrownDatabase caller.old.ports.database caller.new.ports.database }
    {
        if !self.is_computing() {
            self.txn.is_lent();
            return Err(CallerError::NoFunction);
        }
        let turn = self.txn.ran(alloc, ask);
        self.txn.is_lent();
        let step = serve(alloc, &mut caller.ports, &mut self.txn, turn);
        self.txn.is_lent();
        step
    }

    /// Requests the value of a call: the outermost one if no function is being computed, otherwise for the
    /// function being computed.
    ///
    /// With [`Step::Compute`] the caller must compute the function of this call next. With [`Step::Answered`]
    /// the requesting function has its value, by [`CallerTxn::answer`].
    pub fn call(
        &mut self,
        alloc: Global,
        caller: &mut Caller<A>,
        key: Key,
    ) -> Result<Step, CallerError>
        requires row { IsOf caller.old self.old }
        requires asks { AsksNext A.next self.old.objects self.old.core.call (asks.Call key) }
        ensures step { IsReadingStep self.old.core self.new.core (top_or self.old.core.call key) result }
        ensures told { IsToldAfterAsk A.next (open_states self.new.core) self.old.core.call (asks.Call key)
            self.new.core.call result }
        ensures objects { ObjectsFollow self.old.objects self.old.core.call (asks.Call key) self.new.objects result }
        ensures on_miss { IsComputedOnMiss self.new.core caller.old.ports.node caller.new.ports.node result }
        ensures transition { CallerActTransition A.next.limits caller.old.ports self.old (asks.Call key) caller.new.ports self.new.core.taken
            (step_error result) }
        ensures keeps { KeepsTxn self.old self.new }
        ensures valid { IsTxn A.next self.new }
        ensures caller { KeepsCaller caller.old caller.new }
        ensures grown { HasGrownDatabase caller.old.ports.database caller.new.ports.database }
    {
        let _function = key.function();
        if self.is_computing() {
            return self.act(alloc, caller, Ask::Call(key));
        }
        let turn = self.txn.start(key);
        let step = serve(alloc, &mut caller.ports, &mut self.txn, Some(turn));
        self.txn.is_lent();
        step
    }

    /// Requests the rows of a query for the function being computed. Fails if no function is.
    pub fn query(
        &mut self,
        alloc: Global,
        caller: &mut Caller<A>,
        query: Query,
    ) -> Result<Step, CallerError>
        requires row { IsOf caller.old self.old }
        requires asks { AsksNext A.next self.old.objects self.old.core.call (asks.Query query) }
        ensures none { top_call self.old.core.call ≡ None
            → (result ≡ Err NoFunction) × (self.new ≡ self.old) × (caller.new ≡ caller.old) }
        ensures step { (k : Call) → top_call self.old.core.call ≡ Some k
            → IsReadingStep self.old.core self.new.core k result }
        ensures told { IsToldAfterAsk A.next (open_states self.new.core) self.old.core.call (asks.Query query)
            self.new.core.call result }
        ensures objects { ObjectsFollow self.old.objects self.old.core.call (asks.Query query) self.new.objects result }
        ensures on_miss { IsComputedOnMiss self.new.core caller.old.ports.node caller.new.ports.node result }
        ensures transition { CallerActTransition A.next.limits caller.old.ports self.old (asks.Query query) caller.new.ports self.new.core.taken
            (step_error result) }
        ensures keeps { KeepsTxn self.old self.new }
        ensures valid { IsTxn A.next self.new }
        ensures caller { KeepsCaller caller.old caller.new }
        ensures grown { HasGrownDatabase caller.old.ports.database caller.new.ports.database }
    {
        self.act(alloc, caller, Ask::Query(query))
    }

    /// Ends the function being computed with this value. The node stores it under its call, with the reach and
    /// the tags of its answers, if it depends on a row.
    ///
    /// With [`Step::Answered`] the function around it is computed next, and has this value as its answer. Fails
    /// if no function is being computed.
    pub fn finish(
        &mut self,
        alloc: Global,
        caller: &mut Caller<A>,
        bytes: Vec<u8>,
    ) -> Result<Step, CallerError>
        requires row { IsOf caller.old self.old }
        requires asks { AsksNext A.next self.old.objects self.old.core.call (asks.Done bytes.items) }
        ensures none { top_call self.old.core.call ≡ None
            → (result ≡ Err NoFunction) × (self.new ≡ self.old) × (caller.new ≡ caller.old) }
        ensures step { (k : Call) → top_call self.old.core.call ≡ Some k
            → IsReadingStep self.old.core self.new.core k result }
        ensures told { IsToldAfterAsk A.next (open_states self.new.core) self.old.core.call (asks.Done bytes.items)
            self.new.core.call result }
        ensures objects { ObjectsFollow self.old.objects self.old.core.call (asks.Done bytes.items)
            self.new.objects result }
        ensures on_miss { IsComputedOnMiss self.new.core caller.old.ports.node caller.new.ports.node result }
        ensures transition { CallerActTransition A.next.limits caller.old.ports self.old (asks.Done bytes.items) caller.new.ports self.new.core.taken
            (step_error result) }
        ensures keeps { KeepsTxn self.old self.new }
        ensures valid { IsTxn A.next self.new }
        ensures caller { KeepsCaller caller.old caller.new }
        ensures grown { HasGrownDatabase caller.old.ports.database caller.new.ports.database }
    {
        self.act(alloc, caller, Ask::Done(Bytes::new(bytes)))
    }

    /// Cancels the whole open call, if there is one, and returns `true` if there was. The transaction stays
    /// open, with its results as before. It uses no port, so it is lent no caller.
    pub fn give_up(&mut self) -> bool
        ensures answer { IsTrue result ↔ IsSome (top_call self.old.core.call) }
        ensures idle { IsIdle self.new.core }
        ensures same { self.new.core ≡ record self.old.core { call = self.new.core.call } }
        ensures objects { AllIdle self.new.objects }
        ensures keeps { KeepsTxn self.old self.new }
        ensures valid { IsTxn A.next self.new }
    {
        let was_open = self.is_computing();
        self.txn.give_up();
        self.txn.is_lent();
        was_open
    }

    /// Returns `true` if a function is being computed, that is, if a call is open.
    pub fn is_computing(&self) -> bool
        ensures { IsTrue result ↔ IsSome (top_call self.now.core.call) }
    {
        self.txn.core().machine().need().is_some()
    }

    /// Returns the call whose function is being computed, or `None` if no call is open.
    pub fn computed(&self) -> Option<&Key>
        ensures { MatchOption result (computed_calls self.now.core.call ≡ [])
            (λ key. (around : List Call) × (computed_calls self.now.core.call ≡ key.now ∷ around)) }
    {
        self.txn.core().machine().computing()
    }

    /// Returns the answer with which the function being computed continues, or `None` if it must begin, or if
    /// no call is open.
    pub fn answer(&self) -> Option<&Answer>
        ensures { MatchOption result (told_answer self.now.core.call ≡ None)
            (λ answer. told_answer self.now.core.call ≡ Some answer.now) }
    {
        self.txn.core().held_answer()
    }

    /// Returns the pins at whose stamps every result is correct, the newest first.
    pub fn members(&self) -> &[Pin]
        ensures { result.now ≡ self.now.core.pins.members }
    {
        self.txn.core().members()
    }

    /// Returns `true` if the present can still be pinned for it.
    pub fn has_present(&self) -> bool
        ensures { result ≡ self.now.core.pins.has_present }
    {
        self.txn.core().has_present()
    }

    /// Returns the stamp of the state that its next query reads, or `None` if that query pins the present
    /// first.
    pub fn read_stamp(&self) -> Option<Stamp>
        ensures { result ≡ read_stamp self.now.core }
    {
        match self.txn.core().choice() {
            Choice::At(stamp) => Some(stamp),
            Choice::Present => None,
        }
    }

    /// Returns the completed calls, with their values, in order.
    pub fn answers(&self) -> &[Recorded]
        ensures { result.now ≡ self.now.core.recorded }
    {
        self.txn.core().answers()
    }

    /// Ends the transaction, and returns its receipt. If the receipt has a pin, its stamp is at least that of
    /// the bounds. Fails in the middle of a call, and returns the transaction as it was. Does not allocate.
    pub fn commit(self, caller: &mut Caller<A>) -> Result<Receipt, CallerTxn<A>>
        requires row { IsOf caller.old self }
        ensures answers { IfOk result (λ it. it.answers.items ≡ self.core.recorded) }
        ensures pin { IfOk result (λ it. it.pin ≡ receipt_pin self.core.recorded self.core.pins.members) }
        ensures explained { IfOk result (λ it. Explains A.next it.seen.history self.core.bounds it.pin
            it.answers.items) }
        ensures not_before { IfOk result (λ it. IsAtLeast self.core.bounds.at_least it.pin) }
        ensures seen { IfOk result (λ it. it.seen ≡ self.core.seen) }
        ensures row { IfOk result (λ it. it.seen.events ≡ caller.new.ports.database.events) }
        ensures ended { OnOk result (HasEndedReading self caller.old caller.new) }
        ensures only_if { IsOk result → top_call self.core.call ≡ None }
        ensures handed_back { IfErr result (λ it. (it ≡ self) × IsSome (top_call self.core.call)) }
        ensures unchanged { OnErr result (caller.new ≡ caller.old) }
        ensures caller { KeepsCaller caller.old caller.new }
        ensures grown { HasGrownDatabase caller.old.ports.database caller.new.ports.database }
    {
        if self.is_computing() {
            return Err(self);
        }
        let CallerTxn { txn } = self;
        let (receipt, pins) = txn.finish();
        caller.ports.give_back(&pins);
        Ok(receipt)
    }

    /// Aborts the transaction, also in the middle of a call. Does not allocate.
    pub fn abort(self, caller: &mut Caller<A>)
        requires row { IsOf caller.old self }
        ensures ended { HasEndedReading self caller.old caller.new }
        ensures caller { KeepsCaller caller.old caller.new }
        ensures grown { HasGrownDatabase caller.old.ports.database caller.new.ports.database }
    {
        let CallerTxn { txn } = self;
        let left = txn.cancel();
        caller.ports.give_back(&left.give_back);
    }
}
