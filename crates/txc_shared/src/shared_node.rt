//! The node under its lock.
ghost use Rattle.std.specs.Prelude.{◌≡◌, ◌<◌, ◌≤◌, [], Ok, IfOk, IfErr, MatchOption};
ghost use Rattle.txc_stream.specs.Names.{stored, unstored, HasRow};
ghost use Rattle.txc_shared.specs.Refusals.{IsNewPassRefused, NodeMayRefuse};

use crate::error::NodeError;
use crate::held::Held;
use crate::history::History;
use crate::log::MAX_PASSES;
use crate::node_front::NodeFront;
use crate::node_pass::NodePass;
use crate::node_remains::NodeRemains;
use crate::settings::NodeSettings;
use crate::stored_node::StoredNode;
use std::alloc::{AllocError, Global};
use std::marker::Model;
use std::sync::{Mutex, Wait};
use txc_app::App;
use txc_db::{Database, Naming, lock_spinning};
use txc_node::{MAX_CAPACITY, MAX_RECENT, Record};
use txc_stamp::Stamp;
use txc_stream::{AppendToken, EventRow};

/// A node that threads share. Contracts see its settings.
///
/// A caller makes a pass, and its steps through that: each does the step of [`StoredNode`] of the same name,
/// for some prefix of the named history, and shows the pass what it has seen of that history. Once a call has
/// found the node `Broken`, each later call fails so.
pub struct SharedNode<A: App, J: Naming> {
    settings: NodeSettings,
    // Shows nothing.
    start: NodeFront,
    pub(crate) lock: Mutex<Held<A, J>>,
}

// Not derived, since a derived one would be proved again in each crate above.
impl<A: App, J: Naming> Drop for SharedNode<A, J> {
    fn drop(self) {
        let SharedNode {
            settings: _,
            start: _,
            lock: _,
        } = self;
    }
}

impl<A: App, J: Naming> Model for SharedNode<A, J> {
    ghost use Rattle.std.specs.Prelude.{◌≡◌};
    ghost use Rattle.txc_shared.specs.declared.settings.NodeSettings.{NodeSettings};

    ghost Value = { NodeSettings };

    ghost view = { λ n. n.settings };

    ghost invariant = { λ n. n.start.name ≡ J.node_histories n.settings.number };
}

impl<A: App, J: Naming> SharedNode<A, J> {
    /// Makes an empty node that will take the events of the database: all of them if they are stored, otherwise
    /// those after the present ones. Its log is the one of its number. Fails, and drops the log, if memory
    /// cannot be allocated.
    pub fn new(
        rt: &impl Wait,
        alloc: Global,
        settings: NodeSettings,
        row: EventRow<Record>,
        database: &Database<J>,
    ) -> Result<SharedNode<A, J>, AllocError>
        requires capacity { (1 ≤ settings.capacity) × (settings.capacity ≤ MAX_CAPACITY) }
        requires recent { (1 ≤ settings.recent) × (settings.recent ≤ MAX_RECENT) }
        requires named { stored row ≡ J.node_histories settings.number }
        ensures { IfOk result (λ node. node ≡ settings) }
    {
        let history = History::stored(alloc, row)?;
        SharedNode::of(rt, alloc, settings, history, database)
    }

    /// Makes an empty node that will take the same events. Its history is ghost, and `pen` is the append token
    /// of the history of its number. Fails only if memory cannot be allocated.
    pub fn unstored(
        rt: &impl Wait,
        alloc: Global,
        settings: NodeSettings,
        pen: AppendToken<Record>,
        database: &Database<J>,
    ) -> Result<SharedNode<A, J>, AllocError>
        requires capacity { (1 ≤ settings.capacity) × (settings.capacity ≤ MAX_CAPACITY) }
        requires recent { (1 ≤ settings.recent) × (settings.recent ≤ MAX_RECENT) }
        requires named { unstored pen.number ≡ J.node_histories settings.number }
        requires none { pen.list ≡ [] }
        ensures { IfOk result (λ node. node ≡ settings) }
    {
        SharedNode::of(rt, alloc, settings, History::unstored(pen), database)
    }

    // Makes a node of that history under its lock, which begins where a feed of the database does.
    #[tactic(auto, using(crate::proofs::Passes::begun_with))]
    fn of(
        rt: &impl Wait,
        alloc: Global,
        settings: NodeSettings,
        history: History,
        database: &Database<J>,
    ) -> Result<SharedNode<A, J>, AllocError>
        requires capacity { (1 ≤ settings.capacity) × (settings.capacity ≤ MAX_CAPACITY) }
        requires recent { (1 ≤ settings.recent) × (settings.recent ≤ MAX_RECENT) }
        requires named { history.name ≡ J.node_histories settings.number }
        requires none { history.records ≡ [] }
        ensures { IfOk result (λ node. node ≡ settings) }
    {
        let feed = database.feed(rt)?;
        let _most = feed.front().len();
        let from = Stamp::after(feed.taken());
        let seen = feed.front().again()?;
        let node = StoredNode::of(alloc, settings, history, seen, from)?;
        let start = node.start()?;
        let held = Held::new(node, feed);
        Ok(SharedNode {
            settings,
            start,
            lock: Mutex::new(held),
        })
    }

    /// Makes a pass for a caller, which has seen no record. Fails if [`MAX_PASSES`] were made, or the node is
    /// broken, or memory cannot be allocated.
    pub fn pass(&self, rt: &impl Wait) -> Result<NodePass<J>, NodeError>
        ensures settings { IfOk result (λ pass. pass.settings ≡ self.now) }
        ensures number { IfOk result (λ pass. pass.pass < MAX_PASSES) }
        ensures records { IfOk result (λ pass. pass.records ≡ []) }
        ensures refused { IfErr result (NodeMayRefuse J.node_histories (IsNewPassRefused self.now)) }
    {
        lock_spinning(rt, &self.lock).pass(self.settings)
    }

    /// Returns the entries of the node, once no other thread has it. Does not allocate.
    pub fn drain(self) -> NodeRemains<A>
        ensures number { result.number ≡ self.number }
        ensures seen { result.seen.events ≡ J.database_history }
    {
        let SharedNode {
            settings,
            start: _,
            lock,
        } = self;
        let left = lock.into_inner().drain();
        NodeRemains {
            number: settings.number,
            ..left
        }
    }

    /// Returns the log of its records, if they are stored, which any thread reads without the lock. A caller
    /// that appends to it breaks the node; tests do so.
    pub fn row(&self) -> Option<&EventRow<Record>>
        ensures { MatchOption result
            (¬ (HasRow (J.node_histories self.now.number)))
            (λ row. J.node_histories self.now.number ≡ stored row.now) }
    {
        let _number = self.settings.number;
        self.start.row()
    }
}
