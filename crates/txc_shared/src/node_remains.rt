//! The entries of a node that ends.
ghost use Rattle.std.specs.Prelude.{◌≡◌, [], IfSome, MatchOption, length};
ghost use Rattle.txc_app.specs.Claims.{IsTrueIn};
ghost use Rattle.txc_shared.specs.NodeRemains.{LeftValue, WasLast};

use std::marker::{Model, PhantomData};
use txc_app::App;
use txc_db::HistoryFront;
use txc_node::{Entry, RemainingEntries};
use txc_stamp::Stamp;

/// The entries of a node that ends. Each is true in the database history that the node has seen.
#[derive(Drop)]
pub struct NodeRemains<A: App> {
    pub(crate) number: usize,
    pub(crate) entries: RemainingEntries,
    pub(crate) processed: Stamp,
    pub(crate) seen: HistoryFront,
    pub(crate) of: PhantomData<A>,
}

impl<A: App> Model for NodeRemains<A> {
    ghost use Rattle.txc_shared.specs.NodeRemains.{LeftValue, IsLeftNode};

    ghost Value = { LeftValue };

    ghost view = { λ l. record {
      number = l.number;
      entries = l.entries;
      processed = l.processed;
      seen = l.seen;
    } };

    ghost invariant = { λ l. IsLeftNode A.next (record {
      number = l.number;
      entries = l.entries;
      processed = l.processed;
      seen = l.seen;
    }) };
}

impl<A: App> NodeRemains<A> {
    /// Returns the number of the node.
    pub fn number(&self) -> usize
        ensures { result ≡ self.now.number }
    {
        self.number
    }

    /// Returns a front of the database history that the node has seen.
    pub fn seen(&self) -> &HistoryFront
        ensures { result.now ≡ self.now.seen }
    {
        &self.seen
    }

    /// Returns how many entries of the node that ended [`next`](NodeRemains::next) has not returned yet.
    pub fn len(&self) -> usize
        ensures { result ≡ length self.now.entries }
    {
        self.entries.len()
    }

    /// Removes the least recently used entry, and returns it as a hit shows it. Does not allocate.
    pub fn next(&mut self) -> Option<Entry>
        ensures is_true { IfSome result (IsTrueIn A.next self.old.seen.history) }
        ensures last { MatchOption result (self.old.entries ≡ []) (WasLast self.old self.new) }
        ensures same { self.new ≡ record self.old { entries = self.new.entries } }
    {
        let mut entry = self.entries.next()?;
        entry.reach = entry.reach.shown(self.processed);
        Some(entry)
    }
}
