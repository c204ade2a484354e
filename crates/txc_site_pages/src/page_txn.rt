//! The transactions of pages.
ghost use Rattle.std.specs.Prelude.{◌≡◌, ◌≢◌, ◌++◌, ◌∷◌, [], Err, IfErr, IfOk, IsNone, OnErr};
ghost use Rattle.txc_call.specs.declared.error.CallError.TheVariants.{NoFunction};
ghost use Rattle.txc_txn_client.specs.PinLease.{HasBegunKept};
ghost use Rattle.txc_txn_client.specs.Run.{HasRun};
ghost use Rattle.txc_txn_client.specs.RoTxn.{IsValueAtMembers};
ghost use Rattle.txc_call_registry.specs.Objects.{activity_of, AllIdle};
ghost use Rattle.txc_txn_client.specs.Ports.{HaveGrown};
ghost use Rattle.txc_site_pages.specs.Pages.{IsPageRun};
ghost use Rattle.txc_txn.specs.TxnCore.{Explains};
ghost use Rattle.txc_txn.specs.RunningTxn.{IsTxn};
ghost use Rattle.txc_txn.specs.Sessions.{IsAtLeast};

use std::alloc::{AllocError, Global};
use std::marker::{Brand, Model, PhantomData};
use std::sync::Wait;
use txc_app::App;
use txc_call_definition::{Definition, Function};
use txc_cushion::Pin;
use txc_db::{HistoryFront, Naming};
use txc_node::Value;
use txc_tags::Key;
use txc_txn::Receipt;
use txc_txn_client::{Client, PinLease, RoTxn};
use txc_txn_ports::{Bounds, Recorded, TxnError};

/// The beginning of a page's transaction: the client as it was, and the bounds. It exists for the verifier
/// only.
pub trait Begun {
    ghost use Rattle.txc_txn_client.specs.RoTxn.{ClientValue};
    ghost use Rattle.txc_txn_ports.specs.declared.bounds.Bounds.{Bounds};

    ghost client: { ClientValue };

    ghost bounds: { Bounds };
}

impl Begun for Brand {
    ghost use Rattle.std.specs.Prelude.{[]};

    ghost client = { record { passes = []; renew_after = 0; objects = [] } };

    ghost bounds = { record { now = 0; staleness = 0; at_least = 0 } };
}

/// The read-only transaction of a page. Each value that it returns is correct at each pin at which it may still
/// be serialised. Whatever the page does with it, it has only made calls, one after the other, since it began.
pub struct PageTxn<'a, A: App, D: Definition, J: Naming, B: Begun> {
    txn: RoTxn<'a, A, Function<D>, J>,
    of: PhantomData<B>,
}

impl<'a, A: App, D: Definition, J: Naming, B: Begun> Model for PageTxn<'a, A, D, J, B> {
    ghost use Rattle.txc_txn_client.specs.RoTxn.{RoTxnValue};
    ghost use Rattle.txc_site_pages.specs.Pages.{HasCalled};

    ghost Value = { RoTxnValue };

    ghost view = { λ t. t.txn };

    ghost invariant = { λ t. HasCalled A.next J.database_history J.node_histories B.client B.bounds t.txn };
}

impl<'a, A: App, D: Definition, J: Naming, B: Begun> PageTxn<'a, A, D, J, B> {
    /// Begins the transaction of this client, with these bounds. If memory cannot be allocated, the client is
    /// returned.
    #[tactic(auto, using(crate::proofs::Pages::none_called))]
    pub(crate) fn begin(
        rt: &impl Wait,
        alloc: Global,
        client: Client<'a, A, Function<D>, J>,
        bounds: Bounds,
    ) -> Result<PageTxn<'a, A, D, J, B>, (AllocError, Client<'a, A, Function<D>, J>)>
        requires client { client ≡ B.client }
        requires bounds { bounds ≡ B.bounds }
        ensures recorded { IfOk result (λ txn. txn.txn.core.recorded ≡ []) }
        ensures handed_back { IfErr result (λ e. e.1 ≡ B.client) }
    {
        match client.begin_ro(rt, alloc, bounds) {
            Ok(txn) => Ok(PageTxn {
                txn,
                of: PhantomData,
            }),
            Err(refused) => Err(refused),
        }
    }

    /// Begins the transaction with pins that the client keeps.
    #[tactic(auto, using(crate::proofs::Pages::none_called))]
    pub(crate) fn begin_leased(
        rt: &impl Wait,
        alloc: Global,
        client: Client<'a, A, Function<D>, J>,
        bounds: Bounds,
        kept: PinLease<'a, J>,
    ) -> (
        Result<PageTxn<'a, A, D, J, B>, (AllocError, Client<'a, A, Function<D>, J>)>,
        PinLease<'a, J>,
    )
        requires client { client ≡ B.client }
        requires bounds { bounds ≡ B.bounds }
        ensures recorded { IfOk result.0 (λ txn. txn.txn.core.recorded ≡ []) }
        ensures kept { IfOk result.0 (λ txn. HasBegunKept J.database_history B.bounds kept.entry result.1
            txn.txn.core.pins.members txn.txn.core.seen) }
        ensures most { result.1.most ≡ kept.entry.most }
        ensures handed_back { IfErr result.0 (λ e. e.1 ≡ B.client) }
    {
        let (begun, kept) = client.begin_leased(rt, alloc, bounds, kept);
        match begun {
            Ok(txn) => {
                let txn = PageTxn {
                    txn,
                    of: PhantomData,
                };
                (Ok(txn), kept)
            }
            Err(refused) => (Err(refused), kept),
        }
    }

    /// Returns the call's value: the uncached value at every pin that remains. If it fails, the results are as
    /// before.
    #[tactic(auto, using(crate::proofs::Pages::one_called_more))]
    pub fn call(&mut self, rt: &impl Wait, alloc: Global, key: Key) -> Result<Value, TxnError>
        ensures answer { IfOk result (IsValueAtMembers A.next self.new.txn.core key) }
        ensures recorded { IfOk result (λ value. self.new.txn.core.recorded
            ≡ self.old.txn.core.recorded ++ record { key = key; value = value } ∷ []) }
        ensures unchanged { OnErr result (self.new.txn.core.recorded ≡ self.old.txn.core.recorded) }
        ensures run { HasRun A.next J.database_history J.node_histories self.old key self.new result }
        ensures missing { self.old.txn.core.pins.members ≢ []
            → IsNone (activity_of self.old.txn.objects key.function)
            → result ≡ Err (TxnError.Call (NoFunction key.function)) }
    {
        self.txn.call(rt, alloc, key)
    }

    /// Returns the pins at which it may still be serialised, the newest first.
    pub fn members(&self) -> &[Pin]
        ensures { result.now ≡ self.now.txn.core.pins.members }
    {
        self.txn.members()
    }

    /// Returns `true` if it may still be serialised at the present.
    pub fn has_present(&self) -> bool
        ensures { result ≡ self.now.txn.core.pins.has_present }
    {
        self.txn.has_present()
    }

    /// Returns the completed calls, with their values, in order.
    pub fn answers(&self) -> &[Recorded]
        ensures { result.now ≡ self.now.txn.core.recorded }
    {
        self.txn.answers()
    }

    /// Returns a front of the history that it has seen.
    pub fn seen(&self) -> &HistoryFront
        ensures answer { result.now ≡ self.now.txn.core.seen }
        ensures row { result.now.events ≡ J.database_history }
    {
        self.txn.seen()
    }

    /// Its pin set is correct in the history that it has seen. This is a lemma: it does nothing when it runs.
    pub fn is_kept(&self)
        ensures valid { IsTxn A.next self.now.txn }
        ensures idle { AllIdle self.now.txn.objects }
    {
        self.txn.is_kept();
    }

    /// Ends the transaction, and returns its receipt, and the client.
    #[tactic(auto, using(crate::proofs::Pages::explained_so, crate::proofs::Pages::not_before_so, crate::proofs::Pages::page_ran, crate::proofs::Pages::functions_left, crate::proofs::Pages::renew_after_left))]
    pub(crate) fn commit(self, rt: &impl Wait) -> (Receipt, Client<'a, A, Function<D>, J>)
        ensures answers { result.0.answers.items ≡ self.entry.txn.core.recorded }
        ensures explained { Explains A.next result.0.seen.history B.bounds result.0.pin result.0.answers.items }
        ensures not_before { IsAtLeast B.bounds.at_least result.0.pin }
        ensures row { result.0.seen.events ≡ J.database_history }
        ensures ran { IsPageRun A.next J.database_history J.node_histories B.client B.bounds
            result.0.answers.items result.1 }
        ensures passes { HaveGrown B.client.passes result.1.passes }
        ensures functions { result.1.objects ≡ B.client.objects }
        ensures renew_after { result.1.renew_after ≡ B.client.renew_after }
    {
        let PageTxn { txn, of: _ } = self;
        txn.commit(rt)
    }

    /// Aborts the transaction, and returns the client.
    #[tactic(auto, using(crate::proofs::Pages::page_ran, crate::proofs::Pages::functions_left, crate::proofs::Pages::renew_after_left))]
    pub(crate) fn abort(self, rt: &impl Wait) -> Client<'a, A, Function<D>, J>
        ensures ran { IsPageRun A.next J.database_history J.node_histories B.client B.bounds
            self.entry.txn.core.recorded result }
        ensures passes { HaveGrown B.client.passes result.passes }
        ensures functions { result.objects ≡ B.client.objects }
        ensures renew_after { result.renew_after ≡ B.client.renew_after }
    {
        let PageTxn { txn, of: _ } = self;
        txn.abort(rt)
    }
}
