//! Clients of a site.
ghost use Rattle.std.specs.Prelude.{◌≡◌, ◌+◌, ◌<◌, ◌≤◌, [], All, IfErr, IfOk, MatchOption, None, OnErr, OnOk, length, map, slice_get, vec_len};
ghost use Rattle.txc_stream.specs.Names.{HasRow};
ghost use Rattle.txc_node.specs.Counts.{AreCountsOf};
ghost use Rattle.txc_txn_client.specs.PinLease.{AreKept};
ghost use Rattle.txc_txn_client.specs.Ports.{CountsLeave, HaveGrown, IsCallAt};
ghost use Rattle.txc_call_registry.specs.Objects.{AllIdle};
ghost use Rattle.txc_site_pages.specs.Pages.{IsLeftByRefused, IsPageRun, IsPageRefused};
ghost use Rattle.txc_site_ledger.specs.CommitCounter.{counted_again, counted_on};
ghost use Rattle.txc_site_workers.specs.Plans.{nodes_of, share_of};
ghost use Rattle.txc_site_keeper.specs.Refusals.{IsKeeperRefused};
ghost use Rattle.txc_site_ledger.specs.ChangeResult.{AreConflicts, IsRunSoOften, IsWritten, IsSiteWriteRefused};
ghost use Rattle.txc_txn.specs.TxnCore.{Explains};
ghost use Rattle.txc_txn.specs.Sessions.{IsAtLeast};

use crate::site_parts::SiteParts;
use crate::site_stats::{SiteStats, Tally};
use std::alloc::Global;
use std::marker::Model;
use std::sync::Wait;
use txc_app::App;
use txc_call_definition::{Definition, Function};
use txc_call_registry::Registry;
use txc_db::Naming;
use txc_node::Counts;
use txc_site_keeper::{Keeper, SiteError};
use txc_site_ledger::{Change, ChangeResult, CommitCounter, WriteError, write_change};
use txc_site_pages::{Page, PageResult, ReadError, read_page, read_page_leased};
use txc_txn_client::{Client, PinLease};
use txc_txn_ports::Bounds;

/// A client of a site, for one thread. It reads pages and writes changes, one after the other.
#[derive(Drop)]
pub struct SiteClient<'a, A: App, D: Definition, J: Naming> {
    foundation: &'a SiteParts<A, J>,
    reader: Client<'a, A, Function<D>, J>,
    writer: Registry<A, Function<D>>,
    committer: CommitCounter<J>,
    tally: &'a Tally,
}

impl<'a, A: App, D: Definition, J: Naming> Model for SiteClient<'a, A, D, J> {
    ghost use Rattle.txc_call_registry.specs.Objects.{AllIdle};
    ghost use Rattle.txc_site_workers.specs.Sites.{SiteClientValue};

    ghost Value = { SiteClientValue };

    ghost view = { λ c. record {
      plan = c.foundation.now.plan;
      reader = c.reader;
      writer = c.writer;
      updates = c.committer.updates;
      commits = c.committer.commits;
    } };

    ghost invariant = { λ c. AllIdle c.writer };
}

impl<'a, A: App, D: Definition, J: Naming> SiteClient<'a, A, D, J> {
    pub(crate) fn new(
        foundation: &'a SiteParts<A, J>,
        reader: Client<'a, A, Function<D>, J>,
        writer: Registry<A, Function<D>>,
        committer: CommitCounter<J>,
        tally: &'a Tally,
    ) -> Self
        requires { AllIdle writer }
        ensures { result ≡ record {
          plan = foundation.now.plan;
          reader = reader.entry;
          writer = writer;
          updates = committer.updates;
          commits = committer.commits;
        } }
    {
        SiteClient {
            foundation,
            reader,
            writer,
            committer,
            tally,
        }
    }

    /// Runs the page in one read-only transaction with these bounds, and commits it. The receipt lists the
    /// calls that this page made, each once, from the client as it was: at the receipt's pin each has its
    /// uncached value. If the page fails, its transaction is aborted. Either way the client is returned.
    pub fn read<P: Page<A, D>, R: Wait>(
        self,
        rt: &R,
        alloc: Global,
        bounds: Bounds,
        page: &P,
    ) -> (Result<PageResult<P::Output>, ReadError>, Self)
        ensures shows { IfOk result.0 (λ shown.
            P.shows page.now shown.receipt.answers.items shown.output) }
        ensures explained { IfOk result.0 (λ shown. Explains A.next shown.receipt.seen.history bounds
            shown.receipt.pin shown.receipt.answers.items) }
        ensures not_before { IfOk result.0 (λ shown. IsAtLeast bounds.at_least shown.receipt.pin) }
        ensures row { IfOk result.0 (λ shown. shown.receipt.seen.events ≡ J.database_history) }
        ensures ran { IfOk result.0 (λ shown. IsPageRun A.next J.database_history J.node_histories self.entry.reader bounds
            shown.receipt.answers.items result.1.reader) }
        ensures refused { IfErr result.0 (IsPageRefused (P.refuses page.now)) }
        ensures left { IfErr result.0 (λ error. IsLeftByRefused A.next J.database_history J.node_histories
            self.entry.reader bounds error result.1.reader) }
        ensures passes { HaveGrown self.entry.reader.passes result.1.reader.passes }
        ensures functions { result.1.reader.objects ≡ self.entry.reader.objects }
        ensures renew_after { result.1.reader.renew_after ≡ self.entry.reader.renew_after }
        ensures plan { result.1.plan ≡ self.entry.plan }
        ensures writer { result.1.writer ≡ self.entry.writer }
        ensures updates { result.1.updates ≡ self.entry.updates }
        ensures commits { result.1.commits ≡ self.entry.commits }
    {
        let SiteClient {
            foundation,
            reader,
            writer,
            committer,
            tally,
        } = self;
        let (shown, reader) = read_page(rt, alloc, reader, bounds, page);
        tally.count_read(&shown);
        let client = SiteClient {
            foundation,
            reader,
            writer,
            committer,
            tally,
        };
        (shown, client)
    }

    /// Returns an empty set of kept pins, for pages of this client that reuse pins for as long as the plan
    /// allows.
    pub fn lease(&self) -> PinLease<'a, J>
        ensures { result ≡ record { most = self.now.plan.pin_lease_ms; handed = None } }
    {
        self.reader.lease(self.foundation.plan.pin_lease_ms)
    }

    /// Runs the page as [`SiteClient::read`] does, in a transaction that begins with those of the kept pins
    /// that its bounds allow. If these may not be used, it begins with others, which are kept from then on.
    pub fn read_leased<P: Page<A, D>, R: Wait>(
        self,
        rt: &R,
        alloc: Global,
        bounds: Bounds,
        kept: PinLease<'a, J>,
        page: &P,
    ) -> (
        Result<PageResult<P::Output>, ReadError>,
        Self,
        PinLease<'a, J>,
    )
        ensures shows { IfOk result.0 (λ shown.
            P.shows page.now shown.receipt.answers.items shown.output) }
        ensures explained { IfOk result.0 (λ shown. Explains A.next shown.receipt.seen.history bounds
            shown.receipt.pin shown.receipt.answers.items) }
        ensures not_before { IfOk result.0 (λ shown. IsAtLeast bounds.at_least shown.receipt.pin) }
        ensures row { IfOk result.0 (λ shown. shown.receipt.seen.events ≡ J.database_history) }
        ensures ran { IfOk result.0 (λ shown. IsPageRun A.next J.database_history J.node_histories self.entry.reader bounds
            shown.receipt.answers.items result.1.reader) }
        ensures kept { IfOk result.0 (λ shown. AreKept J.database_history bounds kept.entry result.2) }
        ensures most { result.2.most ≡ kept.entry.most }
        ensures refused { IfErr result.0 (IsPageRefused (P.refuses page.now)) }
        ensures left { IfErr result.0 (λ error. IsLeftByRefused A.next J.database_history J.node_histories
            self.entry.reader bounds error result.1.reader) }
        ensures passes { HaveGrown self.entry.reader.passes result.1.reader.passes }
        ensures functions { result.1.reader.objects ≡ self.entry.reader.objects }
        ensures renew_after { result.1.reader.renew_after ≡ self.entry.reader.renew_after }
        ensures plan { result.1.plan ≡ self.entry.plan }
        ensures writer { result.1.writer ≡ self.entry.writer }
        ensures updates { result.1.updates ≡ self.entry.updates }
        ensures commits { result.1.commits ≡ self.entry.commits }
    {
        let SiteClient {
            foundation,
            reader,
            writer,
            committer,
            tally,
        } = self;
        let (shown, reader, kept) = read_page_leased(rt, alloc, reader, bounds, kept, page);
        tally.count_read(&shown);
        let client = SiteClient {
            foundation,
            reader,
            writer,
            committer,
            tally,
        };
        (shown, client, kept)
    }

    /// Runs the change in a read-write transaction, and commits it. After a conflict it runs the change again,
    /// in a new transaction, at most `tries` times in all. The result is of the last run, which was committed
    /// once. If this fails, nothing was committed. Either way the client is returned.
    pub fn write<C: Change<A, D>, R: Wait>(
        self,
        rt: &R,
        alloc: Global,
        tries: u32,
        change: &C,
    ) -> (Result<ChangeResult<C::Output>, WriteError>, Self)
        ensures written { IfOk result.0 (λ written.
            IsWritten A.next J.database_history (C.makes change.now) written.output written.committed) }
        ensures before { IfOk result.0 (λ written.
            AreConflicts J.database_history (C.makes change.now) written.conflicts.items) }
        ensures few { IfOk result.0 (λ written. vec_len written.conflicts + 1 ≤ tries) }
        ensures refused { IfErr result.0
            (IsSiteWriteRefused J.database_history (C.makes change.now) (C.refuses change.now) tries) }
        ensures same { result.1 ≡ record self.entry { updates = result.1.updates; commits = result.1.commits } }
        ensures committed { OnOk result.0 (result.1.commits ≡ counted_again self.entry.commits) }
        ensures not_committed { OnErr result.0 (result.1.commits ≡ self.entry.commits) }
        ensures runs { IfOk result.0 (λ written.
            result.1.updates ≡ counted_on (vec_len written.conflicts + 1) self.entry.updates) }
        ensures refused_runs { IfErr result.0 (λ error.
            IsRunSoOften tries error self.entry.updates result.1.updates) }
    {
        let SiteClient {
            foundation,
            reader,
            writer,
            mut committer,
            tally,
        } = self;
        let (written, writer) = write_change(
            rt,
            alloc,
            &foundation.ledger,
            writer,
            &mut committer,
            tries,
            change,
        );
        tally.count_write(&written);
        let client = SiteClient {
            foundation,
            reader,
            writer,
            committer,
            tally,
        };
        (written, client)
    }

    /// Makes a keeper of the site, with a new pass at each node, and with each node's share of the plan's
    /// budget. Fails if a node gives no pass, or memory cannot be allocated.
    #[tactic(auto, using(crate::proofs::Tended::budgets_of))]
    pub fn keeper(&self, rt: &impl Wait, alloc: Global) -> Result<Keeper<'a, A, J>, SiteError>
        ensures nodes { IfOk result (λ keeper.
            map (λ s. s.pass.settings) keeper ≡ nodes_of self.now.plan) }
        ensures records { IfOk result (λ keeper. All (λ s. s.pass.records ≡ []) keeper) }
        ensures budget { IfOk result (λ keeper. All (λ s. s.budget ≡ share_of self.now.plan) keeper) }
        ensures refused { IfErr result IsKeeperRefused }
    {
        Keeper::new(
            rt,
            alloc,
            &self.foundation.ledger,
            &self.foundation.nodes,
            self.foundation.plan.share(),
        )
    }

    /// Returns how many changes it has committed.
    pub fn commits(&self) -> u64
        ensures { result ≡ self.now.commits }
    {
        self.committer.commits()
    }

    /// Returns the last time that the clock of the site's automatic maintenance showed, in milliseconds, or 0
    /// if it was not read.
    pub fn now(&self) -> u64 {
        self.foundation.moment.get()
    }

    /// Returns the work of all clients of the site so far, and the lookups at its nodes, whose records the
    /// client is then shown. A node that fails is left out.
    pub fn stats(&mut self, rt: &impl Wait) -> SiteStats
        ensures same { self.new ≡ record self.old { reader = self.new.reader } }
        ensures reader { self.new.reader ≡ record self.old.reader { passes = self.new.reader.passes } }
        ensures passes { HaveGrown self.old.reader.passes self.new.reader.passes }
    {
        let stats = SiteStats::of(&self.foundation.tallies);
        stats.with_nodes_of(rt, &mut self.reader)
    }

    /// Returns the counts of the records that the client has seen of a node. Returns `None` if there is no such
    /// node, or its records are not stored.
    pub fn counts(&self, node: usize) -> Option<Counts>
        ensures { MatchOption (slice_get self.now.reader.passes node)
            (result ≡ None)
            (λ pass. MatchOption result
            (¬ (HasRow (J.node_histories pass.settings.number)))
            (AreCountsOf pass.records)) }
    {
        self.reader.counts(node)
    }

    /// Returns the counts of all records of a node, stored or not, which the client is then shown. Returns
    /// `None` if there is no such node, or the node fails. It takes the node's lock, and does not allocate.
    pub fn node_counts(&mut self, rt: &impl Wait, node: usize) -> Option<Counts>
        ensures same { self.new ≡ record self.old { reader = self.new.reader } }
        ensures reader { self.new.reader ≡ record self.old.reader { passes = self.new.reader.passes } }
        ensures passes { HaveGrown self.old.reader.passes self.new.reader.passes }
        ensures none { length self.old.reader.passes ≤ node → (result ≡ None) × (self.new ≡ self.old) }
        ensures left { node < length self.old.reader.passes
            → IsCallAt node (CountsLeave J.node_histories result) self.old.reader.passes self.new.reader.passes }
    {
        self.reader.node_counts(rt, node)
    }
}
