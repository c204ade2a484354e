//! A read-only transaction whose caller runs the functions of its calls: one request or one step after another.
ghost use Rattle.std.specs.Prelude.{◌≡◌, ◌≤◌, None, Some};
ghost use Rattle.std.specs.Option.{ForSome};
ghost use Rattle.txc_app.specs.Eval.{Next};
ghost use Rattle.txc_tags.specs.declared.key.TheConstants.{LAST_FUNCTION};
ghost use Rattle.txc_call.specs.CallSteps.{NeedsFunction};
ghost use Rattle.txc_txn_ports.specs.Fronts.{front_of_reply};
ghost use Rattle.txc_txn.specs.ByHand.{ObjectsLeft};
ghost use Rattle.txc_tags.specs.Keys.{Call};
ghost use Rattle.txc_app.specs.declared.ask.Ask.TheVariants as asks;
ghost use Rattle.txc_call_registry.specs.Objects.{numbers_of, AllIdle, Objects};
ghost use Rattle.txc_call_ghosts.specs.Steps.{objects_after_ask};
ghost use Rattle.txc_caller.specs.ComputedFunctions.{AsksNext};

use std::alloc::Global;
use std::marker::{Model, PhantomData};
use txc_app::{App, Ask};
use txc_call_ghosts::GhostObjects;
use txc_node::Value;
use txc_stamp::Stamp;
use txc_tags::Key;
use txc_txn::{Receipt, TxnCore, Unfinished};
use txc_txn_ports::{PortReply, PortRequest, Turn};

/// A core, with the ghost objects of its functions. Its pin set is correct in the history that it has seen.
pub(crate) struct LentTxn<A: App> {
    core: TxnCore,
    told: GhostObjects,
    of: PhantomData<A>,
}

// Not derived, since a derived one would be proved again in each crate above.
impl<A: App> Drop for LentTxn<A> {
    fn drop(self) {
        let LentTxn {
            core: _,
            told: _,
            of: _,
        } = self;
    }
}

impl<A: App> Model for LentTxn<A> {
    ghost use Rattle.txc_txn.specs.TxnCore.{value_of};
    ghost use Rattle.txc_txn.specs.RunningTxn.{txn_value, TxnValue};
    ghost use Rattle.txc_caller.specs.CallerTxn.{IsLent};

    ghost Value = { TxnValue };

    ghost view = { λ t. txn_value (value_of t.core) t.told.objects };

    ghost invariant = { λ t. IsLent A.next (txn_value (value_of t.core) t.told.objects) };
}

// Leaves the objects as they are, unless the call ended without a value: then all become idle.
fn settle(turn: &Option<Turn<PortRequest, Value>>, told: &mut GhostObjects)
    ensures left { ObjectsLeft told.old.objects turn.now told.new.objects }
    ensures functions { numbers_of told.new.objects ≡ numbers_of told.old.objects }
{
    if let Some(Turn::Ended(Err(_))) = turn {
        *told = told.idled();
    }
}

impl<A: App> LentTxn<A> {
    ghost use Rattle.txc_txn.specs.ByHand.{HasAskedByHand, HasGoneOnByHand};
    ghost use Rattle.txc_txn.specs.TxnCore.{left_pin, receipt_pin, value_of, CoreHolds, Explains, IsAnswered, IsCore, IsIdle};
    ghost use Rattle.txc_txn.specs.RunningTxn.{HasBegunCall, IsShownRight};
    ghost use Rattle.txc_caller.specs.CallerTxn.{IsLent};

    /// Returns a transaction that has begun with this core.
    pub(crate) fn new(core: TxnCore) -> LentTxn<A>
        requires fits { (next : Next) (objects : Objects) → AllIdle objects → IsCore next objects (value_of core) }
        requires holds { (next : Next) (objects : Objects)
            → CoreHolds next (value_of core).seen.history objects (value_of core) }
        requires idle { IsIdle (value_of core) }
        requires nodes { (value_of core).nodes ≡ 1 }
        ensures core { result.core ≡ value_of core }
        ensures idle { AllIdle result.objects }
        ensures lent { IsLent A.next result }
    {
        LentTxn {
            core,
            told: GhostObjects::new(),
            of: PhantomData,
        }
    }

    /// Returns its core.
    pub(crate) fn core(&self) -> &TxnCore
        ensures { value_of result.now ≡ self.now.core }
    {
        &self.core
    }

    /// Every such transaction is correct. This is a lemma: it does nothing when it runs.
    pub(crate) fn is_lent(&self)
        ensures { IsLent A.next self.now }
    {
        let _core = &self.core;
    }

    /// Begins a call, and returns its first request, its value or its error.
    pub(crate) fn start(&mut self, key: Key) -> Turn<PortRequest, Value>
        requires { IsIdle self.old.core }
        ensures begun { HasBegunCall self.old key self.new result }
        ensures objects { ObjectsLeft self.old.objects (Some result) self.new.objects }
    {
        let _function = key.function();
        self.core.start_by_hand(key)
    }

    /// Continues with the reply to the last request. The reply must be correct in the history that it shows.
    pub(crate) fn hear(
        &mut self,
        alloc: Global,
        reply: PortReply,
    ) -> Option<Turn<PortRequest, Value>>
        requires reply { IsAnswered self.old.core reply }
        requires row { ForSome (front_of_reply reply) (λ front. front.events ≡ self.old.core.seen.events) }
        requires right { IsShownRight A.next self.old reply }
        ensures gone_on { HasGoneOnByHand self.old.core reply self.new.core result }
        ensures objects { ObjectsLeft self.old.objects result self.new.objects }
        ensures functions { numbers_of self.new.objects ≡ numbers_of self.old.objects }
    {
        let turn = self.core.hear(alloc, reply);
        settle(&turn, &mut self.told);
        turn
    }

    /// Takes the step of the function that must begin or continue.
    pub(crate) fn ran(&mut self, alloc: Global, ask: Ask) -> Option<Turn<PortRequest, Value>>
        requires runs { NeedsFunction self.old.core.call.need }
        requires none { self.old.core.pinning ≡ None }
        requires asks { AsksNext A.next self.old.objects self.old.core.call ask }
        requires there { (k : Call) → ask ≡ asks.Call k → k.function ≤ LAST_FUNCTION }
        ensures asked { HasAskedByHand A.next.limits self.old.core ask self.new.core result }
        ensures objects { ObjectsLeft (objects_after_ask self.old.objects self.old.core.call ask) result
            self.new.objects }
        ensures functions { numbers_of self.new.objects ≡ numbers_of self.old.objects }
    {
        let after = self.told.ran(self.core.machine(), &ask);
        let limits = A::limits();
        let turn = self.core.ran(limits, alloc, ask);
        self.told = after;
        settle(&turn, &mut self.told);
        turn
    }

    /// Cancels the open call, if there is one. No pin is being made.
    pub(crate) fn give_up(&mut self)
        requires { self.old.core.pinning ≡ None }
        ensures idle { IsIdle self.new.core }
        ensures objects { AllIdle self.new.objects }
        ensures functions { numbers_of self.new.objects ≡ numbers_of self.old.objects }
        ensures same { self.new.core ≡ record self.old.core { call = self.new.core.call } }
    {
        let _none = self.core.give_up_by_hand();
        self.told = self.told.idled();
    }

    /// Ends the transaction, and returns its receipt, and the stamps of the pins that must be returned. Does
    /// not allocate.
    pub(crate) fn finish(self) -> (Receipt, Vec<Stamp>)
        requires { IsIdle self.core }
        ensures answers { result.0.answers.items ≡ self.core.recorded }
        ensures pin { result.0.pin ≡ receipt_pin self.core.recorded self.core.pins.members }
        ensures explained { Explains A.next result.0.seen.history self.core.bounds result.0.pin
            result.0.answers.items }
        ensures seen { result.0.seen ≡ self.core.seen }
        ensures give_back { result.1.items ≡ self.core.taken }
    {
        let LentTxn {
            core,
            told: _,
            of: _,
        } = self;
        core.finish()
    }

    /// Cancels the transaction, also in the middle of a call, and returns the remaining work. Does not
    /// allocate.
    pub(crate) fn cancel(self) -> Unfinished
        ensures give_back { result.give_back.items ≡ self.core.taken }
        ensures unpin { result.unpin ≡ left_pin self.core.pinning }
    {
        let LentTxn {
            core,
            told: _,
            of: _,
        } = self;
        core.cancel_by_hand()
    }
}
