//! A core with the registry of its functions, whose pin set stays correct.
ghost use Rattle.std.specs.Prelude.{◌≡◌, None, Some};
ghost use Rattle.std.specs.Option.{ForSome};
ghost use Rattle.txc_call_registry.specs.Objects.{numbers_of, AllIdle};
ghost use Rattle.txc_txn_ports.specs.Fronts.{front_of_reply};

use crate::receipt::{Receipt, Unfinished};
use crate::txn_core::TxnCore;
use std::alloc::Global;
use std::marker::Model;
use txc_app::App;
use txc_call_registry::{Cacheable, Registry};
use txc_node::Value;
use txc_stamp::Stamp;
use txc_tags::Key;
use txc_txn_ports::{PortReply, PortRequest, Turn, TxnError};

/// A read-only transaction with the registry of its functions. Its pin set is correct in the history that it
/// has seen.
pub struct RunningTxn<A: App, C: Cacheable> {
    core: TxnCore,
    registry: Registry<A, C>,
}

// Not derived, since a derived one would be proved again in each crate above.
impl<A: App, C: Cacheable> Drop for RunningTxn<A, C> {
    fn drop(self) {
        let RunningTxn {
            core: _,
            registry: _,
        } = self;
    }
}

impl<A: App, C: Cacheable> Model for RunningTxn<A, C> {
    ghost use Rattle.txc_txn.specs.TxnCore.{value_of};
    ghost use Rattle.txc_txn.specs.RunningTxn.{TxnValue, IsTxn};

    ghost Value = { TxnValue };

    ghost view = { λ t. record { core = value_of t.core; objects = t.registry } };

    ghost invariant = { λ t. IsTxn A.next (record { core = value_of t.core; objects = t.registry }) };
}

impl<A: App, C: Cacheable> RunningTxn<A, C> {
    ghost use Rattle.txc_txn.specs.TxnCore.{left_pin, receipt_pin, value_of, Explains, IsAnswered, IsIdle};
    ghost use Rattle.txc_txn.specs.RunningTxn.{HasBegunCall, HasGoneOn, IsShownRight, IsTxn};

    /// Joins the core with its registry. The pin set must be correct in the history that the core has seen.
    pub fn new(core: TxnCore, registry: Registry<A, C>) -> RunningTxn<A, C>
        requires { IsTxn A.next (record { core = value_of core; objects = registry }) }
        ensures { result ≡ record { core = value_of core; objects = registry } }
    {
        RunningTxn { core, registry }
    }

    /// Returns the core.
    pub fn core(&self) -> &TxnCore
        ensures { value_of result.now ≡ self.now.core }
    {
        &self.core
    }

    /// Every such transaction is correct in the history that it has seen. This is a lemma: it does nothing when
    /// it runs.
    pub fn is_kept(&self)
        ensures { IsTxn A.next self.now }
    {
        let _core = &self.core;
    }

    /// Begins a call, and returns its first request, its value or its error.
    pub fn start(&mut self, alloc: Global, key: Key) -> Turn<PortRequest, Value>
        requires { IsIdle self.old.core }
        ensures { HasBegunCall self.old key self.new result }
    {
        self.core.start(alloc, &mut self.registry, key)
    }

    /// Continues with the reply to the last request. The reply must be correct in the history that it shows.
    pub fn next(&mut self, alloc: Global, reply: PortReply) -> Turn<PortRequest, Value>
        requires reply { IsAnswered self.old.core reply }
        requires row { ForSome (front_of_reply reply) (λ front. front.events ≡ self.old.core.seen.events) }
        requires right { IsShownRight A.next self.old reply }
        ensures { HasGoneOn A.next self.old reply self.new result }
    {
        self.core.next(alloc, &mut self.registry, reply)
    }

    /// Cancels the open call, if there is one, and returns a stamp that was pinned and not added: its hold must
    /// be removed. The transaction stays open, with its results. Does not allocate.
    pub fn give_up(&mut self) -> Option<Stamp>
        ensures unpin { result ≡ left_pin self.old.core.pinning }
        ensures idle { IsIdle self.new.core }
        ensures functions { numbers_of self.new.objects ≡ numbers_of self.old.objects }
        ensures same { self.new.core ≡ record self.old.core { call = self.new.core.call; pinning = None } }
    {
        let unpin = match &self.core.pinning {
            Some(pinning) => pinning.left(),
            None => None,
        };
        self.core.give_up(&mut self.registry, TxnError::Memory);
        unpin
    }

    /// Ends the transaction, and returns its receipt, the stamps of the pins that must be returned, and the
    /// registry. Does not allocate.
    pub fn finish(self) -> (Receipt, Vec<Stamp>, Registry<A, C>)
        requires { IsIdle self.core }
        ensures answers { result.0.answers.items ≡ self.core.recorded }
        ensures pin { result.0.pin ≡ receipt_pin self.core.recorded self.core.pins.members }
        ensures explained { Explains A.next result.0.seen.history self.core.bounds result.0.pin
            result.0.answers.items }
        ensures seen { result.0.seen ≡ self.core.seen }
        ensures give_back { result.1.items ≡ self.core.taken }
        ensures registry { result.2 ≡ self.objects }
        ensures idle { AllIdle result.2 }
    {
        let RunningTxn { core, registry } = self;
        let (receipt, give_back) = core.finish();
        (receipt, give_back, registry)
    }

    /// Cancels the transaction, also in the middle of a call, and returns the remaining work, and the registry.
    /// Does not allocate.
    pub fn cancel(self) -> (Unfinished, Registry<A, C>)
        ensures give_back { result.0.give_back.items ≡ self.core.taken }
        ensures unpin { result.0.unpin ≡ left_pin self.core.pinning }
        ensures functions { numbers_of result.1 ≡ numbers_of self.objects }
        ensures idle { AllIdle result.1 }
    {
        let RunningTxn { core, mut registry } = self;
        let left = core.cancel(&mut registry);
        (left, registry)
    }
}
