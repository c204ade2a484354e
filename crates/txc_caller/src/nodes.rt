//! Steps at the node, for one thread.
ghost use Rattle.std.specs.Prelude.{◌≡◌, true, false, IfErr, OnOk};
ghost use Rattle.txc_app.specs.Claims.{IsTrueIn};
ghost use Rattle.txc_shared.specs.Nodes.{next_stamp, HasTags};
ghost use Rattle.txc_shared.specs.Refusals.{IsNodeLeft, IsStepRefused};
ghost use Rattle.txc_caller.specs.Budgets.{fits_alone, HasMadeRoomFor};
ghost use Rattle.txc_caller.specs.Ports.{kept_as, totals_of, CallerInsertTransition, GoesOnByEvents};

use std::alloc::Global;
use txc_app::App;
use txc_db::HistoryFront;
use txc_node::Entry;
use txc_shared::{Advanced, Insertion, NodeError, StoredNode};
use txc_tags::TagSet;
use txc_txn_ports::Kept;

/// Number and size of a node's entries, and how many of them trims have dropped.
#[derive(Clone, Copy, Debug, PartialEq, Eq)]
pub struct NodeTotals {
    /// The number of entries.
    pub entries: usize,
    /// The number of bytes of their values in all.
    pub bytes: usize,
    /// The number of entries that trims have dropped.
    pub trimmed: u128,
}

/// Returns the totals of a node that is not broken.
pub(crate) fn totals<A: App>(node: &StoredNode<A>) -> NodeTotals
    requires { node.now.broken ≡ false }
    ensures { result ≡ totals_of node.now }
{
    let Some(counts) = node.counts() else {
        unreachable!();
    };
    NodeTotals {
        entries: node.len(),
        bytes: node.bytes(),
        trimmed: counts.trimmed(),
    }
}

// Returns the result of a node's insertion.
fn kept_as(insertion: Insertion) -> Kept
    ensures { result ≡ kept_as insertion }
{
    match insertion {
        Insertion::Stored(reach) => Kept::Stored(reach),
        Insertion::Kept => Kept::Earlier,
    }
}

// Returns `true` if a value of `len` bytes is within the budget by itself.
fn fits_alone(budget: Option<usize>, len: usize) -> bool
    ensures { result ≡ fits_alone budget len }
{
    match budget {
        Some(most) => len <= most,
        None => true,
    }
}

// Makes room for a value: trims the node if its own values are not within the rest of the budget.
fn make_room<A: App>(
    alloc: Global,
    node: &mut StoredNode<A>,
    budget: Option<usize>,
    len: usize,
) -> Result<(), NodeError>
    requires pass { node.old.passes ≡ 1 }
    requires fits { fits_alone budget len ≡ true }
    ensures made { OnOk result (HasMadeRoomFor budget len node.old node.new) }
    ensures pass { OnOk result (node.new.passes ≡ node.old.passes) }
    ensures row { OnOk result (node.new.seen.events ≡ node.old.seen.events) }
    ensures left { IfErr result (IsNodeLeft node.old node.new) }
    ensures refused { IfErr result (IsStepRefused node.old) }
{
    let Some(most) = budget else {
        return Ok(());
    };
    let rest = most - len;
    if node.bytes() <= rest {
        return Ok(());
    }
    let _dropped = node.trim(alloc, 0, rest)?;
    Ok(())
}

/// Gives the node an entry to store, which is true in the front's history. The node makes room for it within
/// the budget. A node that fails stores nothing, and no node stores a value over the budget by itself.
pub(crate) fn insert<A: App>(
    alloc: Global,
    node: &mut StoredNode<A>,
    budget: Option<usize>,
    entry: Entry,
    seen: &HistoryFront,
) -> Option<Kept>
    requires pass { node.old.passes ≡ 1 }
    requires row { seen.now.events ≡ node.old.seen.events }
    requires is_true { IsTrueIn A.next seen.now.history entry }
    ensures { CallerInsertTransition budget seen.now entry node.old node.new result }
{
    let len = entry.value.bytes().len();
    if !fits_alone(budget, len) {
        return None;
    }
    match make_room(alloc, node, budget, len) {
        Ok(()) => (),
        Err(refusal) => {
            let _refusal = refusal;
            return None;
        }
    }
    match node.insert(alloc, 0, entry, seen) {
        Ok(insertion) => Some(kept_as(insertion)),
        Err(_) => None,
    }
}

/// Lets the node take the next event of the front's history, which has these tags. Returns `true` if it did.
pub(crate) fn take_event<A: App>(
    alloc: Global,
    node: &mut StoredNode<A>,
    front: &HistoryFront,
    tags: &TagSet,
) -> bool
    requires pass { node.old.passes ≡ 1 }
    requires row { front.now.events ≡ node.old.seen.events }
    requires tags { HasTags front.now.history (next_stamp node.old) tags.now }
    ensures { GoesOnByEvents node.old node.new }
{
    match node.advance_by(alloc, 0, front, Some(tags)) {
        Ok(Advanced::Taken { .. }) => true,
        Ok(Advanced::Idle) => false,
        Err(refusal) => {
            let _refusal = refusal;
            false
        }
    }
}
