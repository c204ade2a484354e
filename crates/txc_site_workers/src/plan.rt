//! The settings of a site.
ghost use Rattle.std.specs.Prelude.{◌≡◌, ◌≤◌, ◌↔◌, IsTrue, IfSome};
ghost use Rattle.txc_stream.specs.declared.row.TheConstants.{MAX_CAPACITY as MAX_ROOM};
ghost use Rattle.txc_site_workers.specs.Plans.{share_of, IsPlan};

use txc_call_permits::MAX_PERMITS;
use txc_node::{MAX_CAPACITY, MAX_RECENT};
use txc_rows::{MAX_MATCHING, MOST_MATCHING};
use txc_site_keeper::KeeperSettings;
use txc_stream::MAX_CAPACITY as MAX_ROOM;

/// The most nodes of a site.
pub const MAX_NODES: usize = 64;

/// The settings of a site, and its limits.
///
/// Its database's history has room for `events`, which is fixed once the site is made. Each commit that changes
/// something is an event, and so is each pin: one for each [`Keeper::keep`](txc_site_keeper::Keeper::keep), and one
/// for each transaction whose newest pin is too old. Once there are as many events, no commit and no pin
/// succeeds any more, and a transaction without a pin that its bounds allow fails. If events are stored, their
/// log is never freed. Otherwise the history is ghost: memory has only the tags of an event, until each node
/// has taken it and a vacuum has passed it.
///
/// Each lookup, insertion, event taken, sweep and trim is a record of its node. These are ghost, unless the
/// plan asks for `records`; then, once there are as many, the node has nothing and stores nothing, and all
/// calls are computed. So a site of `e` events ends after `e` commits and pins: at ten a second
/// [`Plan::DEFAULT`] lasts 13 years. [`Keeper::keep`](txc_site_keeper::Keeper::keep) reports what is left.
///
/// `with_generations` (`txc_site`) continues from there: each generation has this room again, less the events
/// that carry the state over, which are at most one for each row.
#[derive(Clone, Copy, Debug, PartialEq, Eq)]
pub struct Plan {
    /// The number of nodes, from 1 to [`MAX_NODES`].
    pub nodes: usize,
    /// The most entries of a node, from 1 to [`txc_node::MAX_CAPACITY`].
    pub capacity: usize,
    /// The number of last events whose tags a node stores, from 1 to [`txc_node::MAX_RECENT`].
    pub recent: usize,
    /// The budget of the nodes: the most bytes of their values after a maintenance run, an equal share for each
    /// node. Between two runs the nodes exceed it by the values inserted since. Without a number no node is
    /// ever trimmed.
    pub bytes: Option<usize>,
    /// The age of its newest pin, in milliseconds, beyond which a transaction renews it, if it may.
    pub renew_after: u64,
    /// The time, in milliseconds, below which a client reuses its pins from one page to the next, if it reads
    /// the pages so. With 0 each page begins with pins of its own.
    pub pin_lease_ms: u64,
    /// The number of calls of functions that may run at once, from 1 to [`txc_call_permits::MAX_PERMITS`].
    pub permits: u64,
    /// The number of versions that may match a query, including the kept ones of replaced rows: from
    /// [`txc_rows::MAX_MATCHING`] to [`txc_rows::MOST_MATCHING`].
    pub matching: usize,
    /// The number of commits and pins that are stored, where any thread can read them: from 1 to
    /// [`txc_stream::MAX_CAPACITY`]. Without a number none is, and there is room for [`txc_stamp::MOST_STAMP`]
    /// of them.
    pub events: Option<usize>,
    /// The number of records of each node that are stored, where any thread can read them: from 1 to
    /// [`txc_stream::MAX_CAPACITY`]. Without a number none is, and a node's history has no end; its still valid
    /// entries are then carried over to the next generation.
    pub records: Option<usize>,
    /// Settings of automatic maintenance, in a thread of its own, until the worker threads have ended. `None`
    /// if there is none.
    pub keep: Option<KeeperSettings>,
}

// Returns `true` if a log may have room for that many.
fn may_be_stored(room: Option<usize>) -> bool
    ensures { IsTrue result ↔ IfSome room (λ room. (1 ≤ room) × (room ≤ MAX_ROOM)) }
{
    match room {
        Some(room) => 1 <= room && room <= MAX_ROOM,
        None => true,
    }
}

impl Plan {
    /// Sixteen nodes of 4,096 entries each. As many versions may match a query as can be allowed. Neither
    /// events nor records are stored, and there is no automatic maintenance.
    pub const DEFAULT: Plan = Plan {
        nodes: 16,
        capacity: 4096,
        recent: 64,
        bytes: None,
        renew_after: 5000,
        pin_lease_ms: 0,
        permits: 64,
        matching: MOST_MATCHING,
        events: None,
        records: None,
        keep: None,
    };

    /// Returns the most bytes of the values that a maintenance run leaves in each node, if the plan has a
    /// budget.
    pub fn share(&self) -> Option<usize>
        ensures { result ≡ share_of self.now }
    {
        match self.bytes {
            Some(bytes) => Some(bytes / self.nodes.max(1)),
            None => None,
        }
    }

    /// Returns `true` if each number is within its limits.
    pub fn is_sound(&self) -> bool
        ensures { IsTrue result ↔ IsPlan self.now }
    {
        1 <= self.nodes
            && self.nodes <= MAX_NODES
            && 1 <= self.capacity
            && self.capacity <= MAX_CAPACITY
            && 1 <= self.recent
            && self.recent <= MAX_RECENT
            && 1 <= self.permits
            && self.permits <= MAX_PERMITS
            && MAX_MATCHING <= self.matching
            && self.matching <= MOST_MATCHING
            && may_be_stored(self.events)
            && may_be_stored(self.records)
    }
}
