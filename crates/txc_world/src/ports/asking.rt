//! Requests of a transaction at the plain ports.
ghost use Rattle.std.specs.Prelude.{◌≡◌, ◌<◌, length, Some};
ghost use Rattle.txc_world.specs.PortRequests.{kept_after};

use crate::nodes;
use crate::ports::Ports;
use std::alloc::Global;
use txc_app::App;
use txc_db::HistoryFront;
use txc_shared::Insertion;
use txc_txn_ports::{Kept, PortReply, PortRequest};

// Returns the result of a node's insertion.
fn kept_by(insertion: Insertion) -> Kept
    ensures { Some result ≡ kept_after (Some insertion) }
{
    match insertion {
        Insertion::Stored(reach) => Kept::Stored(reach),
        Insertion::Kept => Kept::Earlier,
    }
}

// Returns the result of a node's insertion, or `None` if the node failed.
fn kept_after(made: Option<Insertion>) -> Option<Kept>
    ensures { result ≡ kept_after made }
{
    match made {
        Some(insertion) => Some(kept_by(insertion)),
        None => None,
    }
}

impl<A: App> Ports<A> {
    ghost use Rattle.txc_txn_ports.specs.PortRequests.{AddsSuch, MayAsk};
    ghost use Rattle.txc_world.specs.PortRequests.{IsAsked};
    ghost use Rattle.txc_world.specs.Parts.{IsPartOf};
    ghost use Rattle.txc_world.specs.Ports.{whole_of};

    /// Makes the transaction's request, as a step of the pass. `seen` is the history that the transaction has
    /// seen. A node that fails has no entry, and stores none.
    pub(crate) fn ask(
        &mut self,
        alloc: Global,
        pass: usize,
        seen: &HistoryFront,
        request: PortRequest,
    ) -> PortReply
        requires own { pass < self.old.actors }
        requires seen { IsPartOf (whole_of self.old) seen.now }
        requires may { MayAsk A.next self.old.database.events (length self.old.nodes) seen.now.history
            request }
        requires shown { AddsSuch (IsPartOf (whole_of self.old)) request }
        ensures { IsAsked A.next pass seen.now request self.old self.new result }
    {
        self.count_right();
        match request {
            PortRequest::Pin { now, at_least } => PortReply::Pin(self.pin(alloc, now, at_least)),
            PortRequest::AddPin(pinned) => {
                let added = self.add(&pinned);
                PortReply::AddPin(pinned, added)
            }
            PortRequest::Unpin(stamp) => PortReply::Unpin(self.unpin(stamp)),
            PortRequest::Lookup { node, key, lo, hi } => {
                let at = &mut self.nodes[node];
                let found = at.lookup(alloc, pass, &key, lo, hi);
                at.is_sound();
                PortReply::Lookup(found.unwrap_or(None))
            }
            PortRequest::Query { query, stamp } => PortReply::Query(self.find(
                alloc, &query, stamp,
            )),
            PortRequest::Insert { node, entry } => {
                let at = &mut self.nodes[node];
                let made = nodes::insert(alloc, at, pass, entry, seen);
                at.is_sound();
                PortReply::Insert(kept_after(made))
            }
        }
    }
}
