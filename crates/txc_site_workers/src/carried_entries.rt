//! Carrying entries over to the nodes of a site that continues from the same state.
ghost use Rattle.std.specs.Prelude.{◌≡◌, ◌↔◌, All, IsTrue, MatchOption, length};
ghost use mathlib.Core.List.{IsPrefix};
ghost use Rattle.txc_app.specs.Claims.{IsTrueIn};
ghost use Rattle.txc_app.specs.Laws.{begun_at};
ghost use Rattle.txc_site_workers.specs.CarriedEntries.{EndInOneState, IsValidAtEnd};

use std::alloc::Global;
use std::sync::Wait;
use txc_app::App;
use txc_app::laws::{carried_entries_are_true, true_entries_stay};
use txc_db::{HistoryFront, Naming};
use txc_node::Entry;
use txc_shared::{Advanced, NodePass, NodeRemains, SharedNode};
use txc_stamp::{MOST_STAMP, Reach};

/// The entries of a site's nodes, for those of a site that continues from the same state.
#[derive(Drop)]
pub struct CarriedEntries<A: App> {
    pub nodes: Vec<NodeRemains<A>>,
    /// The whole history that they have seen.
    pub whole: HistoryFront,
    /// The whole history of the new site's database.
    pub front: HistoryFront,
    ghost seen: { All (λ node. node.seen.events ≡ whole.events) nodes.items },
    ghost state: { EndInOneState whole front },
}

/// The place of a site: the only one, or one of several of which each continues the one before.
#[derive(Drop)]
pub enum GenerationKind<A: App> {
    /// Its nodes begin empty, and none of their entries is carried over.
    Alone,
    /// Its nodes begin with these entries, and leave theirs for those of the next site.
    InTurn(Option<CarriedEntries<A>>),
}

/// Lets the node take all events, by a pass of its own. If a pass or a step fails, the remaining events are not
/// taken.
fn take_all<A: App, J: Naming>(rt: &impl Wait, alloc: Global, node: &SharedNode<A, J>) {
    let Ok(mut pass) = node.pass(rt) else {
        return;
    };
    for _ in 0..MOST_STAMP {
        let Ok(Advanced::Taken { .. }) = pass.advance(rt, alloc, node) else {
            return;
        };
    }
}

/// Returns the entries of the node once it has taken all events that it can.
pub(crate) fn drain<A: App, J: Naming>(
    rt: &impl Wait,
    alloc: Global,
    node: SharedNode<A, J>,
) -> NodeRemains<A>
    ensures number { result.number ≡ node.number }
    ensures seen { result.seen.events ≡ J.database_history }
{
    take_all(rt, alloc, &node);
    node.drain()
}

/// Returns an entry that is still valid at the newest stamp of the one history as one that begins at the newest
/// stamp of the other. Returns `None` for any other entry.
fn begun(mut entry: Entry, whole: &HistoryFront, front: &HistoryFront) -> Option<Entry>
    ensures { MatchOption result
        (¬ (IsValidAtEnd whole.now.history entry))
        (λ begun. IsValidAtEnd whole.now.history entry
        × (begun ≡ begun_at (length front.now.history) entry)) }
{
    if !entry.reach.is_still() || !entry.reach.holds(whole.newest()) {
        return None;
    }
    let newest = front.newest();
    let Ok(reach) = Reach::from_stamps(newest, newest, true) else {
        unreachable!();
    };
    entry.reach = reach;
    Some(entry)
}

/// Inserts an entry as it begins, if it is carried over. If the insertion fails, the entry is left out.
fn begin<A: App, J: Naming>(
    rt: &impl Wait,
    alloc: Global,
    node: &SharedNode<A, J>,
    pass: &mut NodePass<J>,
    entry: Entry,
    whole: &HistoryFront,
    front: &HistoryFront,
)
    requires row { front.now.events ≡ J.database_history }
    requires state { EndInOneState whole.now front.now }
    requires is_true { IsTrueIn A.next whole.now.history entry }
{
    carried_entries_are_true();
    if let Some(begun) = begun(entry, whole, front) {
        let _ = pass.insert(rt, alloc, node, begun, front);
    }
}

/// Returns `true` if the one front shows a prefix of what the other shows.
#[tactic(auto, using(txc_stream::proofs::Offered::shorter_begins, txc_stream::proofs::Offered::prefix_length))]
fn begins(one: &HistoryFront, other: &HistoryFront) -> bool
    requires { one.now.events ≡ other.now.events }
    ensures { IsTrue result ↔ IsPrefix one.now.history other.now.history }
{
    one.agree(other);
    one.len() <= other.len()
}

/// Carries the entries of a node over to the one of its number, the least recently used first, so that they
/// have the same order there.
pub(crate) fn carry_entries<A: App, J: Naming>(
    rt: &impl Wait,
    alloc: Global,
    node: &SharedNode<A, J>,
    mut left: NodeRemains<A>,
    whole: &HistoryFront,
    front: &HistoryFront,
)
    requires number { node.now.number ≡ left.number }
    requires row { front.now.events ≡ J.database_history }
    requires seen { left.seen.events ≡ whole.now.events }
    requires state { EndInOneState whole.now front.now }
{
    true_entries_stay();
    if !begins(left.seen(), whole) {
        return;
    }
    let Ok(mut pass) = node.pass(rt) else {
        return;
    };
    for _ in 0..left.len() {
        let Some(entry) = left.next() else {
            return;
        };
        begin(rt, alloc, node, &mut pass, entry, whole, front);
    }
}
