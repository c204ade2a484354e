//! Steps at a node, for one thread.
ghost use Rattle.std.specs.Prelude.{◌≡◌, ◌<◌, false};
ghost use Rattle.txc_stream.specs.Names.{HasRow};
ghost use Rattle.txc_node.specs.Counts.{AreCountsOf};
ghost use Rattle.txc_db.specs.DatabaseValue.{front_of};
ghost use Rattle.txc_app.specs.Claims.{IsTrueIn};
ghost use Rattle.txc_world.specs.NodeSteps.{AdvanceTransition, InsertTransition};
ghost use Rattle.txc_world.specs.Parts.{IsPartOf};

use std::alloc::Global;
use txc_app::App;
use txc_db::{DbCore, HistoryFront};
use txc_node::{Counts, Entry};
use txc_shared::{Advanced, Insertion, NodeError, NodeFront, StoredNode};

/// Gives the node an entry to store, which is true in the front's history. A node that fails stores nothing.
pub(crate) fn insert<A: App>(
    alloc: Global,
    node: &mut StoredNode<A>,
    pass: usize,
    entry: Entry,
    seen: &HistoryFront,
) -> Option<Insertion>
    requires own { pass < node.old.passes }
    requires row { seen.now.events ≡ node.old.seen.events }
    requires is_true { IsTrueIn A.next seen.now.history entry }
    ensures { InsertTransition pass seen.now entry node.old node.new result }
{
    match node.insert(alloc, pass, entry, seen) {
        Ok(insertion) => Some(insertion),
        Err(_) => None,
    }
}

/// Lets the node take the next event of the database's history.
pub(crate) fn advance<A: App>(
    alloc: Global,
    node: &mut StoredNode<A>,
    pass: usize,
    database: &DbCore,
) -> Result<Advanced, NodeError>
    requires own { pass < node.old.passes }
    requires row { node.old.seen.events ≡ database.now.events }
    requires part { node.old.broken ≡ false → IsPartOf (front_of database.now) node.old.seen }
    ensures { AdvanceTransition pass (front_of database.now) node.old node.new result }
{
    if node.is_broken() {
        return Err(NodeError::Broken);
    }
    let whole = database.front()?;
    node.advance(alloc, pass, &whole)
}

/// Returns the counts of the stored records that a front shows.
pub(crate) fn counts_of(front: &NodeFront) -> Counts
    requires { HasRow front.now.name }
    ensures { AreCountsOf front.now.records result }
{
    let mut counts = Counts::new();
    for at in 0..front.len() {
        let Some(step) = front.get(at) else {
            unreachable!();
        };
        counts.add(step);
    }
    counts
}
