//! Maintenance of a site.
ghost use Rattle.std.specs.Prelude.{◌≡◌, ◌≤◌, ◌⊎◌, [], All, IfErr, IfOk, Some, map, vec_capacity, vec_len};
ghost use Rattle.txc_cushion.specs.Cushion.{retired};
ghost use Rattle.txc_cushion.specs.Pincushion.{CushionMayAnswer};
ghost use Rattle.txc_db.specs.Calls.{IsHoldRefused, IsPinRefused};
ghost use Rattle.txc_db.specs.History.{event_at, pin_event};
ghost use Rattle.txc_db.specs.DatabaseReply.{MayRefuse};
ghost use Rattle.txc_site_keeper.specs.NodeReports.{HasKeptNode, HasSwept, HasTakenEvents, HasTrimmed, HaveKept, ok_of};
ghost use Rattle.txc_site_keeper.specs.KeepReport.{keep_told, IsKeep, IsNoKeep};
ghost use Rattle.txc_site_keeper.specs.Refusals.{IsKeeperRefused};
ghost use Rattle.txc_site_keeper.specs.KeeperNodes.{IsSamePass};

use crate::error::SiteError;
use crate::keeper_node::KeeperNode;
use crate::room::{events_left, records_left};
use std::alloc::{AllocError, Global};
use std::marker::Model;
use std::sync::Wait;
use txc_app::App;
use txc_db::{DbError, HistoryFront, Naming, Pinned};
use txc_shared::{Ended, MAX_TOGETHER, NodeError, SharedNode};
use txc_site_ledger::{Horizon, Ledger};
use txc_stamp::Stamp;

/// The most locked calls in which a node takes events during one call of [`Keeper::keep`].
const MOST_ROUNDS: usize = 64;

/// The most events that a node takes in one call of [`Keeper::keep`].
pub const MAX_TAKEN: usize = MOST_ROUNDS * MAX_TOGETHER;

/// Effect of maintenance on a node.
#[derive(Drop)]
pub struct NodeReport {
    /// The number of events that it took.
    pub taken: usize,
    /// The reason for which it stopped.
    pub ended: Ended,
    /// The number of swept entries, or the error. `None` if there was no horizon.
    pub swept: Option<Result<usize, NodeError>>,
    /// The number of entries that the trim dropped, or the error. `None` if there is no budget of bytes.
    pub trimmed: Option<Result<usize, NodeError>>,
    /// The number of records that there is room for after those that the keeper has seen. `None` if records are
    /// not stored.
    pub records_left: Option<usize>,
}

/// Result of maintenance, and the room that is left.
#[derive(Drop)]
pub struct KeepReport<J: Naming> {
    /// The history, as seen once the present was pinned.
    pub seen: HistoryFront,
    /// The number of events that there is room for after those.
    pub events_left: usize,
    /// The stamp at which the present was pinned, or the error. `Ok` also if the pincushion did not take the
    /// pin, whose hold was then removed.
    pub pinned: Result<Stamp, DbError>,
    /// The stamps of the pins that were retired and whose holds were removed, or the error.
    pub retired: Result<Vec<Stamp>, AllocError>,
    /// The horizon after the vacuum, or the error.
    pub horizon: Result<Horizon<J>, DbError>,
    /// The effect on each node, in order.
    pub nodes: Vec<NodeReport>,
}

/// The maintenance of a site: it pins the present, lets the nodes take events, and drops what no transaction
/// can read. One for a site is enough.
#[derive(Drop)]
pub struct Keeper<'a, A: App, J: Naming> {
    ledger: &'a Ledger<J>,
    stations: Vec<KeeperNode<'a, A, J>>,
}

/// Lets the node take up to [`MAX_TAKEN`] events, in several locked calls, between which other threads can
/// acquire the lock.
#[tactic(auto, using(crate::proofs::NodesKept::same_then))]
fn advance<A: App, J: Naming>(
    rt: &impl Wait,
    alloc: Global,
    station: &mut KeeperNode<'_, A, J>,
) -> (usize, Ended)
    ensures did { HasTakenEvents J.database_history J.node_histories MAX_TAKEN station.old result.0 result.1 station.new }
    ensures same { IsSamePass station.old station.new }
{
    let mut taken = 0;
    for _ in 0..MOST_ROUNDS {
        let (more, ended) = station.advance_many(rt, alloc);
        taken += more;
        let Ended::Paused = ended else {
            return (taken, ended);
        };
    }
    (taken, Ended::Paused)
}

/// Sweeps the node, if there is a horizon.
fn sweep<A: App, J: Naming>(
    rt: &impl Wait,
    alloc: Global,
    station: &mut KeeperNode<'_, A, J>,
    horizon: &Result<Horizon<J>, DbError>,
) -> Option<Result<usize, NodeError>>
    ensures did { HasSwept J.node_histories station.old (ok_of horizon.now) result station.new }
    ensures same { IsSamePass station.old station.new }
{
    match horizon {
        Ok(horizon) => Some(station.sweep(rt, alloc, horizon)),
        Err(_) => None,
    }
}

/// Trims the node, if it has a budget.
fn trim<A: App, J: Naming>(
    rt: &impl Wait,
    alloc: Global,
    station: &mut KeeperNode<'_, A, J>,
) -> Option<Result<usize, NodeError>>
    ensures did { HasTrimmed J.node_histories station.old station.old.budget result station.new }
    ensures same { IsSamePass station.old station.new }
{
    match station.budget() {
        Some(most) => Some(station.trim(rt, alloc, most)),
        None => None,
    }
}

/// Returns each node with a new pass at it.
#[tactic(auto, using(crate::proofs::NoPass::no_new_pass))]
fn stations<'a, A: App, J: Naming>(
    rt: &impl Wait,
    alloc: Global,
    nodes: &'a [SharedNode<A, J>],
    budget: Option<usize>,
) -> Result<Vec<KeeperNode<'a, A, J>>, SiteError>
    ensures nodes { IfOk result (λ stations. map (λ s. s.pass.settings) stations.items ≡ nodes.now) }
    ensures records { IfOk result (λ stations. All (λ s. s.pass.records ≡ []) stations.items) }
    ensures budget { IfOk result (λ stations. All (λ s. s.budget ≡ budget) stations.items) }
    ensures refused { IfErr result IsKeeperRefused }
{
    let mut stations = Vec::with_capacity(alloc, nodes.len())?;
    for node in nodes {
        stations.push(KeeperNode::new(rt, node, budget)?)?;
    }
    Ok(stations)
}

/// Maintains one node of the keeper.
#[tactic(auto, using(crate::proofs::NodesKept::same_then, crate::proofs::NodesKept::trimmed_at))]
fn keep_node<'a, A: App, J: Naming>(
    rt: &impl Wait,
    alloc: Global,
    station: KeeperNode<'a, A, J>,
    horizon: &Result<Horizon<J>, DbError>,
) -> (NodeReport, KeeperNode<'a, A, J>)
    ensures { HasKeptNode J.database_history J.node_histories (ok_of horizon.now) station.entry result.0 result.1 }
{
    let mut station = station;
    let (taken, ended) = advance(rt, alloc, &mut station);
    let swept = sweep(rt, alloc, &mut station, horizon);
    let trimmed = trim(rt, alloc, &mut station);
    let kept = NodeReport {
        taken,
        ended,
        swept,
        trimmed,
        records_left: records_left(station.pass()),
    };
    (kept, station)
}

/// Pins the present, and adds the pin to the pincushion, without a user. If the pincushion does not add it, its
/// hold is removed. If there is no pin, a hold shows the history.
fn pin<J: Naming>(
    rt: &impl Wait,
    alloc: Global,
    ledger: &Ledger<J>,
    now: u64,
) -> Result<(HistoryFront, Result<Stamp, DbError>), DbError>
    ensures row { IfOk result (λ seen. seen.0.events ≡ J.database_history) }
    ensures pinned { IfOk result (λ seen. IfOk seen.1 (λ stamp.
        event_at seen.0.history stamp ≡ Some (pin_event now))) }
    ensures refused { IfOk result (λ seen. IfErr seen.1
        (MayRefuse J.database_history (λ d. IsPinRefused d 0))) }
    ensures unseen { IfErr result (λ error. (error ≡ DbError.Memory)
        ⊎ MayRefuse J.database_history IsHoldRefused error) }
{
    let pin = match ledger.pin(rt, alloc, now) {
        Ok(pin) => pin,
        Err(cause) => {
            let front = ledger.seen(rt, alloc)?;
            return Ok((front, Err(cause)));
        }
    };
    let Pinned {
        stamp,
        moment: _,
        front,
    } = match ledger.add(rt, pin) {
        Ok(used) => ledger.give_back(rt, used),
        Err(pin) => ledger.unpin(rt, pin),
    };
    Ok((front, Ok(stamp)))
}

/// Retires the pins that no transaction uses and that are more than `age` before `now`, both in milliseconds,
/// and removes their holds. Returns their stamps. Fails only if memory cannot be allocated.
pub fn retire<J: Naming>(
    rt: &impl Wait,
    alloc: Global,
    ledger: &Ledger<J>,
    now: u64,
    age: u64,
) -> Result<Vec<Stamp>, AllocError>
    ensures { IfOk result (CushionMayAnswer J.database_history (λ c stamps. stamps.items ≡ retired c now age)) }
{
    let mut pins = ledger.retire(rt, alloc, now, age)?;
    let count = pins.len();
    for _ in 0..count {
        ledger.unpin_retired(rt, pins.take());
    }
    Ok(pins.stamps())
}

/// Maintains each node. The lists have room for the results.
fn keep_all<'a, A: App, J: Naming>(
    rt: &impl Wait,
    alloc: Global,
    horizon: &Result<Horizon<J>, DbError>,
    stations: Vec<KeeperNode<'a, A, J>>,
    mut nodes: Vec<NodeReport>,
    mut left: Vec<KeeperNode<'a, A, J>>,
) -> (Vec<NodeReport>, Vec<KeeperNode<'a, A, J>>)
    requires none { nodes.items ≡ [] }
    requires none_left { left.items ≡ [] }
    requires room { vec_len stations ≤ vec_capacity nodes }
    requires room_left { vec_len stations ≤ vec_capacity left }
    ensures { HaveKept J.database_history J.node_histories (ok_of horizon.now) stations.entry.items result.0.items result.1.items }
{
    for station in stations {
        let (kept, station) = keep_node(rt, alloc, station, horizon);
        nodes.push_reserved(kept);
        left.push_reserved(station);
    }
    (nodes, left)
}

/// Maintains these nodes and their database.
fn keep_stations<'a, A: App, J: Naming>(
    rt: &impl Wait,
    alloc: Global,
    ledger: &Ledger<J>,
    stations: Vec<KeeperNode<'a, A, J>>,
    now: u64,
    age: u64,
) -> (Result<KeepReport<J>, DbError>, Vec<KeeperNode<'a, A, J>>)
    ensures kept { IfOk result.0 (λ kept. IsKeep J.database_history J.node_histories now age
        stations.entry.items (keep_told kept) result.1.items) }
    ensures refused { IfErr result.0 (λ error.
        IsNoKeep J.database_history stations.entry.items error result.1.items) }
{
    let Ok(nodes) = Vec::with_capacity(alloc, stations.len()) else {
        return (Err(DbError::Memory), stations);
    };
    let Ok(left) = Vec::with_capacity(alloc, stations.len()) else {
        return (Err(DbError::Memory), stations);
    };
    let (seen, pinned) = match pin(rt, alloc, ledger, now) {
        Ok(seen) => seen,
        Err(error) => return (Err(error), stations),
    };
    let retired = retire(rt, alloc, ledger, now, age);
    let horizon = ledger.vacuum(rt);
    let (nodes, stations) = keep_all(rt, alloc, &horizon, stations, nodes, left);
    let kept = KeepReport {
        events_left: events_left(&seen),
        seen,
        pinned,
        retired,
        horizon,
        nodes,
    };
    (Ok(kept), stations)
}

impl<'a, A: App, J: Naming> Model for Keeper<'a, A, J> {
    ghost use Rattle.std.specs.Prelude.{List};
    ghost use Rattle.txc_site_keeper.specs.KeeperNodes.{KeeperNodeValue};

    ghost Value = { List KeeperNodeValue };

    ghost view = { λ k. k.stations.items };
}

impl<'a, A: App, J: Naming> Keeper<'a, A, J> {
    /// Makes a keeper of the ledger and of these nodes, with a new pass at each. With a `budget`, each
    /// maintenance run trims the values of every node to that many bytes. Fails if a pass cannot be made, or
    /// memory cannot be allocated.
    pub fn new(
        rt: &impl Wait,
        alloc: Global,
        ledger: &'a Ledger<J>,
        nodes: &'a [SharedNode<A, J>],
        budget: Option<usize>,
    ) -> Result<Keeper<'a, A, J>, SiteError>
        ensures nodes { IfOk result (λ keeper. map (λ s. s.pass.settings) keeper ≡ nodes.now) }
        ensures records { IfOk result (λ keeper. All (λ s. s.pass.records ≡ []) keeper) }
        ensures budget { IfOk result (λ keeper. All (λ s. s.budget ≡ budget) keeper) }
        ensures refused { IfErr result IsKeeperRefused }
    {
        let stations = stations(rt, alloc, nodes, budget)?;
        Ok(Keeper { ledger, stations })
    }

    /// Runs the maintenance once. It pins the present at the wall-clock time `now`, so that transactions find a
    /// fresh pin. If the pincushion cannot take it, its hold is removed. It removes the pins without users
    /// whose time is more than `age` before, and the states below the least held stamp. It lets each node take
    /// the events, drop the entries that it cannot serve any more, and then those over its budget of bytes, if
    /// it has one. Times are in milliseconds.
    ///
    /// The error of a part is in the result, and the other parts are still done. It fails as a whole only
    /// before anything was done except a failed pin.
    pub fn keep(
        self,
        rt: &impl Wait,
        alloc: Global,
        now: u64,
        age: u64,
    ) -> (Result<KeepReport<J>, DbError>, Self)
        ensures kept { IfOk result.0 (λ kept.
            IsKeep J.database_history J.node_histories now age self.entry (keep_told kept) result.1) }
        ensures refused { IfErr result.0 (λ error.
            IsNoKeep J.database_history self.entry error result.1) }
    {
        let Keeper { ledger, stations } = self;
        let (kept, stations) = keep_stations(rt, alloc, ledger, stations, now, age);
        (kept, Keeper { ledger, stations })
    }
}
