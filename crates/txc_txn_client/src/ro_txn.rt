//! Read-only transactions of clients.
ghost use Rattle.std.specs.Prelude.{◌≡◌, ◌≢◌, ◌++◌, ◌∷◌, [], Err, IfOk, IsNone, OnErr, drop};
ghost use mathlib.Core.List.{IsPrefix};
ghost use Rattle.txc_call_registry.specs.Objects.{activity_of, AllIdle};
ghost use Rattle.txc_call.specs.declared.error.CallError.TheVariants.{NoFunction};
ghost use Rattle.txc_txn.specs.TxnCore.{receipt_pin, Explains, KeepsSettings};
ghost use Rattle.txc_txn.specs.RunningTxn.{IsTxn};
ghost use Rattle.txc_txn.specs.Sessions.{IsAtLeast};
ghost use Rattle.txc_txn_client.specs.Ports.{HaveGrown};
ghost use Rattle.txc_txn_client.specs.Run.{HasRun};
ghost use Rattle.txc_txn_client.specs.RoTxn.{client_of, IsValueAtMembers};

use crate::calling::call_at;
use crate::client::Client;
use crate::ports::Ports;
use std::alloc::Global;
use std::marker::Model;
use std::sync::Wait;
use txc_app::App;
use txc_call_registry::Cacheable;
use txc_cushion::{Pin, Pincushion};
use txc_db::{HistoryFront, Naming};
use txc_node::Value;
use txc_stamp::Stamp;
use txc_tags::Key;
use txc_txn::{Receipt, RunningTxn};
use txc_txn_ports::{Recorded, TxnError};

/// A read-only transaction of a client. Each value that it returns is correct at each stamp at which it may
/// still be serialised.
///
/// It is linear: [`RoTxn::commit`] or [`RoTxn::abort`] must consume it, and returns the client.
pub struct RoTxn<'a, A: App, C: Cacheable, J: Naming> {
    pub(crate) ports: Ports<'a, A, J>,
    pub(crate) renew_after: u64,
    // The number of its first pins that its client keeps.
    pub(crate) kept: usize,
    pub(crate) txn: RunningTxn<A, C>,
}

impl<'a, A: App, C: Cacheable, J: Naming> Model for RoTxn<'a, A, C, J> {
    ghost use Rattle.std.specs.Prelude.{◌≡◌};
    ghost use Rattle.txc_txn_client.specs.RoTxn.{RoTxnValue, IsResting};

    ghost Value = { RoTxnValue };

    ghost view = { λ t. record { txn = t.txn; passes = t.ports } };

    ghost invariant = { λ t. IsResting J.database_history (record { txn = t.txn; passes = t.ports })
        × (t.renew_after ≡ t.txn.core.renew_after) };
}

impl<'a, A: App, C: Cacheable, J: Naming> RoTxn<'a, A, C, J> {
    /// Returns the call's value: the uncached value at every stamp still open to the transaction.
    ///
    /// If the call fails, the transaction stays open, with its results as before. A node that fails counts as a
    /// miss, or as an insertion that was dropped.
    pub fn call(&mut self, rt: &impl Wait, alloc: Global, key: Key) -> Result<Value, TxnError>
        ensures passes { HaveGrown self.old.passes self.new.passes }
        ensures answer { IfOk result (IsValueAtMembers A.next self.new.txn.core key) }
        ensures recorded { IfOk result (λ value. self.new.txn.core.recorded
            ≡ self.old.txn.core.recorded ++ record { key = key; value = value } ∷ []) }
        ensures unchanged { OnErr result (self.new.txn.core.recorded ≡ self.old.txn.core.recorded) }
        ensures valid { IsTxn A.next self.new.txn }
        ensures idle { AllIdle self.new.txn.objects }
        ensures functions { self.new.txn.objects ≡ self.old.txn.objects }
        ensures run { HasRun A.next J.database_history J.node_histories self.old key self.new result }
        ensures settings { KeepsSettings self.old.txn.core self.new.txn.core }
        ensures longer { IsPrefix self.old.txn.core.seen.history self.new.txn.core.seen.history }
        ensures missing { self.old.txn.core.pins.members ≢ []
            → IsNone (activity_of self.old.txn.objects key.function)
            → result ≡ Err (TxnError.Call (NoFunction key.function)) }
    {
        self.txn.is_kept();
        let result = call_at(rt, alloc, &mut self.ports, &mut self.txn, key);
        self.txn.is_kept();
        result
    }

    /// Returns the pins at which it may still be serialised, the newest first.
    pub fn members(&self) -> &[Pin]
        ensures { result.now ≡ self.now.txn.core.pins.members }
    {
        self.txn.core().members()
    }

    /// Returns `true` if it may still be serialised at the present.
    pub fn has_present(&self) -> bool
        ensures { result ≡ self.now.txn.core.pins.has_present }
    {
        self.txn.core().has_present()
    }

    /// Returns the completed calls, with their values, in order.
    pub fn answers(&self) -> &[Recorded]
        ensures { result.now ≡ self.now.txn.core.recorded }
    {
        self.txn.core().answers()
    }

    /// Returns a front of the history that it has seen.
    pub fn seen(&self) -> &HistoryFront
        ensures answer { result.now ≡ self.now.txn.core.seen }
        ensures row { result.now.events ≡ J.database_history }
    {
        self.txn.core().seen()
    }

    /// Its pin set is correct in the history that it has seen. This is a lemma: it does nothing when it runs.
    pub fn is_kept(&self)
        ensures valid { IsTxn A.next self.now.txn }
        ensures idle { AllIdle self.now.txn.objects }
    {
        self.txn.is_kept();
    }

    /// Ends the transaction, and returns its receipt, and the client. If the receipt has a pin, its stamp is at
    /// least that of the bounds. It cannot fail, and does not allocate.
    pub fn commit(self, rt: &impl Wait) -> (Receipt, Client<'a, A, C, J>)
        ensures answers { result.0.answers.items ≡ self.entry.txn.core.recorded }
        ensures pin { result.0.pin
            ≡ receipt_pin self.entry.txn.core.recorded self.entry.txn.core.pins.members }
        ensures explained { Explains A.next result.0.seen.history self.entry.txn.core.bounds result.0.pin
            result.0.answers.items }
        ensures not_before { IsAtLeast self.entry.txn.core.bounds.at_least result.0.pin }
        ensures seen { result.0.seen ≡ self.entry.txn.core.seen }
        ensures row { result.0.seen.events ≡ J.database_history }
        ensures client { result.1 ≡ client_of self.entry }
    {
        let RoTxn {
            ports,
            renew_after,
            kept,
            txn,
        } = self;
        let (receipt, taken, registry) = txn.finish();
        give_back_after(rt, ports.cushion, &taken, kept);
        let client = Client {
            ports,
            registry,
            renew_after,
        };
        (receipt, client)
    }

    /// Aborts the transaction, and returns the client. Does not allocate.
    pub fn abort(self, rt: &impl Wait) -> Client<'a, A, C, J>
        ensures { result ≡ client_of self.entry }
    {
        // It only read, so the remaining work is the same as for a commit; the receipt is dropped.
        let (_receipt, client) = self.commit(rt);
        client
    }
}

// Returns the stamps after the first ones, which are kept.
fn stamps_after(taken: &[Stamp], kept: usize) -> &[Stamp]
    ensures { result.now ≡ drop kept taken.now }
{
    taken.get(kept..).unwrap_or(&[])
}

// Returns the pins after the first ones, which are kept. If there are none, it takes no lock.
fn give_back_after<J: Naming>(
    rt: &impl Wait,
    cushion: &Pincushion<J>,
    taken: &[Stamp],
    kept: usize,
) {
    let stamps = stamps_after(taken, kept);
    if !stamps.is_empty() {
        let _ = cushion.give_back(rt, stamps);
    }
}
