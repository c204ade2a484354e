//! Reading pages.
ghost use Rattle.std.specs.Prelude.{◌≡◌, [], IfErr, IfOk, IsOk, OnOk};
ghost use Rattle.txc_txn_client.specs.PinLease.{AreKept};
ghost use Rattle.txc_txn_client.specs.Ports.{HaveGrown};
ghost use Rattle.txc_site_pages.specs.Pages.{IsLeftByRefused, IsPageRun, IsPageRefused};
ghost use Rattle.txc_txn.specs.TxnCore.{Explains};
ghost use Rattle.txc_txn.specs.Sessions.{IsAtLeast};

use crate::error::ReadError;
use crate::page::Page;
use crate::page_txn::{Begun, PageTxn};
use std::alloc::{AllocError, Global};
use std::marker::Brand;
use std::sync::Wait;
use txc_app::App;
use txc_call_definition::{Definition, Function};
use txc_db::Naming;
use txc_txn::Receipt;
use txc_txn_client::{Client, PinLease};
use txc_txn_ports::Bounds;

/// The content of a page, with the receipt of its transaction.
#[derive(Drop)]
pub struct PageResult<T> {
    pub output: T,
    pub receipt: Receipt,
}

/// Runs the page in a transaction of its own, and returns its content and its receipt, and the client. If the
/// page fails, its transaction is aborted.
pub fn read_page<'a, A: App, D: Definition, J: Naming, P: Page<A, D>, R: Wait>(
    rt: &R,
    alloc: Global,
    client: Client<'a, A, Function<D>, J>,
    bounds: Bounds,
    page: &P,
) -> (
    Result<PageResult<P::Output>, ReadError>,
    Client<'a, A, Function<D>, J>,
)
    ensures shows { IfOk result.0 (λ shown.
        P.shows page.now shown.receipt.answers.items shown.output) }
    ensures explained { IfOk result.0 (λ shown. Explains A.next shown.receipt.seen.history bounds
        shown.receipt.pin shown.receipt.answers.items) }
    ensures not_before { IfOk result.0 (λ shown. IsAtLeast bounds.at_least shown.receipt.pin) }
    ensures row { IfOk result.0 (λ shown. shown.receipt.seen.events ≡ J.database_history) }
    ensures ran { IfOk result.0 (λ shown. IsPageRun A.next J.database_history J.node_histories client.entry bounds
        shown.receipt.answers.items result.1) }
    ensures refused { IfErr result.0 (IsPageRefused (P.refuses page.now)) }
    ensures left { IfErr result.0 (λ error.
        IsLeftByRefused A.next J.database_history J.node_histories client.entry bounds error result.1) }
    ensures passes { HaveGrown client.entry.passes result.1.passes }
    ensures functions { result.1.objects ≡ client.entry.objects }
    ensures renew_after { result.1.renew_after ≡ client.entry.renew_after }
{
    read_begun::<A, D, J, P, Brand, R>(rt, alloc, client, bounds, page)
}

/// Runs the page in a transaction of its own, which begins with those of the kept pins that its bounds allow.
/// If these may not be used, it begins with others, which are kept from then on.
pub fn read_page_leased<'a, A: App, D: Definition, J: Naming, P: Page<A, D>, R: Wait>(
    rt: &R,
    alloc: Global,
    client: Client<'a, A, Function<D>, J>,
    bounds: Bounds,
    kept: PinLease<'a, J>,
    page: &P,
) -> (
    Result<PageResult<P::Output>, ReadError>,
    Client<'a, A, Function<D>, J>,
    PinLease<'a, J>,
)
    ensures shows { IfOk result.0 (λ shown.
        P.shows page.now shown.receipt.answers.items shown.output) }
    ensures explained { IfOk result.0 (λ shown. Explains A.next shown.receipt.seen.history bounds
        shown.receipt.pin shown.receipt.answers.items) }
    ensures not_before { IfOk result.0 (λ shown. IsAtLeast bounds.at_least shown.receipt.pin) }
    ensures row { IfOk result.0 (λ shown. shown.receipt.seen.events ≡ J.database_history) }
    ensures ran { IfOk result.0 (λ shown. IsPageRun A.next J.database_history J.node_histories client.entry bounds
        shown.receipt.answers.items result.1) }
    ensures kept { IfOk result.0 (λ shown. AreKept J.database_history bounds kept.entry result.2) }
    ensures most { result.2.most ≡ kept.entry.most }
    ensures refused { IfErr result.0 (IsPageRefused (P.refuses page.now)) }
    ensures left { IfErr result.0 (λ error.
        IsLeftByRefused A.next J.database_history J.node_histories client.entry bounds error result.1) }
    ensures passes { HaveGrown client.entry.passes result.1.passes }
    ensures functions { result.1.objects ≡ client.entry.objects }
    ensures renew_after { result.1.renew_after ≡ client.entry.renew_after }
{
    read_begun_leased::<A, D, J, P, Brand, R>(rt, alloc, client, bounds, kept, page)
}

/// Runs the page with kept pins, for the named client and bounds.
#[tactic(auto, using(crate::proofs::Pages::none_have_grown, crate::proofs::Pages::page_refused))]
fn read_begun_leased<'a, A: App, D: Definition, J: Naming, P: Page<A, D>, B: Begun, R: Wait>(
    rt: &R,
    alloc: Global,
    client: Client<'a, A, Function<D>, J>,
    bounds: Bounds,
    kept: PinLease<'a, J>,
    page: &P,
) -> (
    Result<PageResult<P::Output>, ReadError>,
    Client<'a, A, Function<D>, J>,
    PinLease<'a, J>,
)
    requires client { client ≡ B.client }
    requires bounds { bounds ≡ B.bounds }
    ensures shows { IfOk result.0 (λ shown.
        P.shows page.now shown.receipt.answers.items shown.output) }
    ensures explained { IfOk result.0 (λ shown. Explains A.next shown.receipt.seen.history B.bounds
        shown.receipt.pin shown.receipt.answers.items) }
    ensures not_before { IfOk result.0 (λ shown. IsAtLeast B.bounds.at_least shown.receipt.pin) }
    ensures row { IfOk result.0 (λ shown. shown.receipt.seen.events ≡ J.database_history) }
    ensures ran { IfOk result.0 (λ shown. IsPageRun A.next J.database_history J.node_histories B.client B.bounds
        shown.receipt.answers.items result.1) }
    ensures kept { IfOk result.0 (λ shown. AreKept J.database_history B.bounds kept.entry result.2) }
    ensures most { result.2.most ≡ kept.entry.most }
    ensures refused { IfErr result.0 (IsPageRefused (P.refuses page.now)) }
    ensures left { IfErr result.0 (λ error.
        IsLeftByRefused A.next J.database_history J.node_histories B.client B.bounds error result.1) }
    ensures passes { HaveGrown B.client.passes result.1.passes }
    ensures functions { result.1.objects ≡ B.client.objects }
    ensures renew_after { result.1.renew_after ≡ B.client.renew_after }
{
    let (begun, kept): (Result<PageTxn<'_, A, D, J, B>, _>, _) = PageTxn::begin_leased(
        rt, alloc, client, bounds, kept,
    );
    let (shown, client) = shown_in(rt, alloc, begun, page);
    (shown, client, kept)
}

/// Runs the page for the named client and bounds.
fn read_begun<'a, A: App, D: Definition, J: Naming, P: Page<A, D>, B: Begun, R: Wait>(
    rt: &R,
    alloc: Global,
    client: Client<'a, A, Function<D>, J>,
    bounds: Bounds,
    page: &P,
) -> (
    Result<PageResult<P::Output>, ReadError>,
    Client<'a, A, Function<D>, J>,
)
    requires client { client ≡ B.client }
    requires bounds { bounds ≡ B.bounds }
    ensures shows { IfOk result.0 (λ shown.
        P.shows page.now shown.receipt.answers.items shown.output) }
    ensures explained { IfOk result.0 (λ shown. Explains A.next shown.receipt.seen.history B.bounds
        shown.receipt.pin shown.receipt.answers.items) }
    ensures not_before { IfOk result.0 (λ shown. IsAtLeast B.bounds.at_least shown.receipt.pin) }
    ensures row { IfOk result.0 (λ shown. shown.receipt.seen.events ≡ J.database_history) }
    ensures ran { IfOk result.0 (λ shown. IsPageRun A.next J.database_history J.node_histories B.client B.bounds
        shown.receipt.answers.items result.1) }
    ensures refused { IfErr result.0 (IsPageRefused (P.refuses page.now)) }
    ensures left { IfErr result.0 (λ error.
        IsLeftByRefused A.next J.database_history J.node_histories B.client B.bounds error result.1) }
    ensures passes { HaveGrown B.client.passes result.1.passes }
    ensures functions { result.1.objects ≡ B.client.objects }
    ensures renew_after { result.1.renew_after ≡ B.client.renew_after }
{
    let begun: Result<PageTxn<'_, A, D, J, B>, _> = PageTxn::begin(rt, alloc, client, bounds);
    shown_in(rt, alloc, begun, page)
}

/// Runs the page in its transaction, if that has begun.
#[tactic(auto, using(crate::proofs::Pages::none_have_grown, crate::proofs::Pages::page_refused))]
fn shown_in<'a, A: App, D: Definition, J: Naming, P: Page<A, D>, B: Begun, R: Wait>(
    rt: &R,
    alloc: Global,
    begun: Result<PageTxn<'a, A, D, J, B>, (AllocError, Client<'a, A, Function<D>, J>)>,
    page: &P,
) -> (
    Result<PageResult<P::Output>, ReadError>,
    Client<'a, A, Function<D>, J>,
)
    requires new { IfOk begun (λ txn. txn.txn.core.recorded ≡ []) }
    requires handed_back { IfErr begun (λ e. e.1 ≡ B.client) }
    ensures began { OnOk result.0 (IsOk begun.entry) }
    ensures shows { IfOk result.0 (λ shown.
        P.shows page.now shown.receipt.answers.items shown.output) }
    ensures explained { IfOk result.0 (λ shown. Explains A.next shown.receipt.seen.history B.bounds
        shown.receipt.pin shown.receipt.answers.items) }
    ensures not_before { IfOk result.0 (λ shown. IsAtLeast B.bounds.at_least shown.receipt.pin) }
    ensures row { IfOk result.0 (λ shown. shown.receipt.seen.events ≡ J.database_history) }
    ensures ran { IfOk result.0 (λ shown. IsPageRun A.next J.database_history J.node_histories B.client B.bounds
        shown.receipt.answers.items result.1) }
    ensures refused { IfErr result.0 (IsPageRefused (P.refuses page.now)) }
    ensures left { IfErr result.0 (λ error.
        IsLeftByRefused A.next J.database_history J.node_histories B.client B.bounds error result.1) }
    ensures passes { HaveGrown B.client.passes result.1.passes }
    ensures functions { result.1.objects ≡ B.client.objects }
    ensures renew_after { result.1.renew_after ≡ B.client.renew_after }
{
    let mut txn = match begun {
        Ok(txn) => txn,
        Err((_, client)) => return (Err(ReadError::Memory), client),
    };
    match page.show(rt, alloc, &mut txn) {
        Ok(output) => {
            let (receipt, client) = txn.commit(rt);
            (Ok(PageResult { output, receipt }), client)
        }
        Err(cause) => (Err(ReadError::Page(cause)), txn.abort(rt)),
    }
}
