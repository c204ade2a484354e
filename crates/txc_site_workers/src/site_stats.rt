//! The counts of a site.
ghost use Rattle.std.specs.Prelude.{◌≡◌, IfOk, vec_len};
ghost use Rattle.txc_txn_client.specs.Ports.{HaveGrown};

use std::alloc::{AllocError, Global};
use std::sync::Wait;
use std::sync::atomic::{AtomicU64, Ordering};
use txc_app::App;
use txc_call_registry::Cacheable;
use txc_db::Naming;
use txc_node::Counts;
use txc_shared::SharedNode;
use txc_site_ledger::{ChangeResult, WriteError};
use txc_site_pages::{PageResult, ReadError};
use txc_tags::LAST_FUNCTION;
use txc_txn_client::Client;

/// Counts of the work of a site's clients so far, and of the lookups at its nodes.
#[derive(Clone, Copy, Debug, PartialEq, Eq)]
pub struct SiteStats {
    /// Pages that were read.
    pub pages: u64,
    /// Changes that were committed, without the opening.
    pub changes: u64,
    /// Runs of changes that ended with a conflict, and are reported in a `ChangeResult` or in
    /// `WriteError::Conflicts`.
    pub conflicts: u64,
    /// Pages and changes that failed.
    pub refusals: u64,
    /// Lookups at the nodes, including the hits.
    pub lookups: u64,
    pub hits: u64,
}

impl SiteStats {
    /// Returns the counts of these clients so far, without the lookups at the nodes.
    pub(crate) fn of(tallies: &[Tally]) -> SiteStats {
        let mut stats = SiteStats {
            pages: 0,
            changes: 0,
            conflicts: 0,
            refusals: 0,
            lookups: 0,
            hits: 0,
        };
        for tally in tallies {
            stats = stats.with_tally(tally);
        }
        stats
    }

    /// Adds the counts of one client.
    fn with_tally(self, tally: &Tally) -> SiteStats {
        let more = |number: u64, by: &AtomicU64| number.wrapping_add(by.load(Ordering::SeqCst));
        SiteStats {
            pages: more(self.pages, &tally.pages),
            changes: more(self.changes, &tally.changes),
            conflicts: more(self.conflicts, &tally.conflicts),
            refusals: more(self.refusals, &tally.refusals),
            ..self
        }
    }

    /// Adds the lookups at one node.
    fn with_node(self, counts: &Counts) -> SiteStats {
        let mut stats = self;
        for function in 0..=LAST_FUNCTION {
            let of = counts.of(function);
            stats.lookups = stats.lookups.saturating_add(of.lookups);
            stats.hits = stats.hits.saturating_add(of.hits);
        }
        stats
    }

    /// Adds the lookups at each node of a client. A node that fails is left out.
    #[tactic(auto, using(txc_txn_client::proofs::Grown::have_grown_self, txc_txn_client::proofs::Grown::have_grown_then))]
    pub(crate) fn with_nodes_of<A: App, C: Cacheable, J: Naming>(
        self,
        rt: &impl Wait,
        client: &mut Client<'_, A, C, J>,
    ) -> SiteStats
        ensures same { client.new ≡ record client.old { passes = client.new.passes } }
        ensures passes { HaveGrown client.old.passes client.new.passes }
    {
        let mut stats = self;
        for node in 0..client.node_count() {
            if let Some(counts) = client.node_counts(rt, node) {
                stats = stats.with_node(&counts);
            }
        }
        stats
    }

    /// Adds the lookups at each of these nodes, by a new pass at each. A node that fails is left out.
    pub(crate) fn with_nodes<A: App, J: Naming>(
        self,
        rt: &impl Wait,
        nodes: &[SharedNode<A, J>],
    ) -> SiteStats {
        let mut stats = self;
        for node in nodes {
            if let Ok(mut pass) = node.pass(rt)
                && let Ok(counts) = pass.node_counts(rt, node)
            {
                stats = stats.with_node(&counts);
            }
        }
        stats
    }
}

/// The counts of one client of a site, which the others read. Each number wraps after 2^64.
#[derive(Drop)]
pub(crate) struct Tally {
    pages: AtomicU64,
    changes: AtomicU64,
    conflicts: AtomicU64,
    refusals: AtomicU64,
    // It keeps two tallies out of one cache line.
    _apart: [u64; 12],
}

impl Tally {
    pub(crate) fn new() -> Tally {
        Tally {
            pages: AtomicU64::new(0),
            changes: AtomicU64::new(0),
            conflicts: AtomicU64::new(0),
            refusals: AtomicU64::new(0),
            _apart: [0; 12],
        }
    }

    /// Makes a tally for each of `count` clients. Fails only if memory cannot be allocated.
    pub(crate) fn each(alloc: Global, count: usize) -> Result<Vec<Tally>, AllocError>
        ensures { IfOk result (λ tallies. vec_len tallies ≡ count) }
    {
        let mut tallies = Vec::with_capacity(alloc, count)?;
        for _ in 0..count {
            tallies.push(Tally::new())?;
        }
        Ok(tallies)
    }

    /// Counts a page that was read or failed.
    pub(crate) fn count_read<T>(&self, shown: &Result<PageResult<T>, ReadError>) {
        match shown {
            Ok(_) => self.pages.fetch_add(1, Ordering::SeqCst),
            Err(_) => self.refusals.fetch_add(1, Ordering::SeqCst),
        };
    }

    /// Counts a change that was committed or failed, and the conflicts reported with it.
    pub(crate) fn count_write<T>(&self, written: &Result<ChangeResult<T>, WriteError>) {
        let conflicts = match written {
            Ok(written) => {
                self.changes.fetch_add(1, Ordering::SeqCst);
                written.conflicts.len()
            }
            Err(error) => {
                self.refusals.fetch_add(1, Ordering::SeqCst);
                match error {
                    WriteError::Conflicts(conflicts) => conflicts.len(),
                    _ => 0,
                }
            }
        };
        self.conflicts.fetch_add(conflicts as u64, Ordering::SeqCst);
    }
}
