//! The ports of a new world.
ghost use Rattle.std.specs.Prelude.{◌≡◌, ◌+◌, ◌≤◌, length, IfErr, IfOk};
ghost use Rattle.txc_db.specs.DatabaseValue.{front_of};
ghost use Rattle.txc_world.specs.NewWorld.{IsNewNode, AreNewNodes};

use crate::ports::Ports;
use crate::settings::WorldSettings;
use std::alloc::{AllocError, Global};
use txc_app::App;
use txc_cushion::CushionCore;
use txc_db::{DbCore, DbError};
use txc_node::{MAX_CAPACITY, MAX_RECENT};
use txc_shared::{MAX_PASSES, NodeSettings, StoredNode};
use txc_stamp::Stamp;
use txc_stream::{EventRow, MAX_CAPACITY as ROW_MOST};

// Makes a node without entries, with `passes` passes.
fn new_node<A: App>(
    alloc: Global,
    database: &DbCore,
    settings: NodeSettings,
    row_cap: usize,
    passes: usize,
) -> Result<StoredNode<A>, AllocError>
    requires capacity { (1 ≤ settings.capacity) × (settings.capacity ≤ MAX_CAPACITY) }
    requires recent { (1 ≤ settings.recent) × (settings.recent ≤ MAX_RECENT) }
    requires least { 1 ≤ row_cap }
    requires most { row_cap ≤ ROW_MOST }
    requires passes { passes ≤ MAX_PASSES }
    ensures { IfOk result (IsNewNode settings row_cap passes (front_of database.now)) }
{
    let row = EventRow::new(alloc, row_cap)?;
    let seen = database.front()?;
    let mut node = StoredNode::new(alloc, settings, row, seen)?;
    for pass in 0..passes {
        let Ok(_drawn) = node.pass() else {
            return Err(AllocError);
        };
    }
    Ok(node)
}

// Makes the nodes, by their numbers, each with `passes` passes.
fn new_nodes<A: App>(
    alloc: Global,
    database: &DbCore,
    settings: &WorldSettings,
    passes: usize,
) -> Result<Vec<StoredNode<A>>, AllocError>
    requires capacity { (1 ≤ settings.now.capacity) × (settings.now.capacity ≤ MAX_CAPACITY) }
    requires recent { (1 ≤ settings.now.recent) × (settings.now.recent ≤ MAX_RECENT) }
    requires row { (1 ≤ settings.now.row_cap) × (settings.now.row_cap ≤ ROW_MOST) }
    requires passes { passes ≤ MAX_PASSES }
    ensures count { IfOk result (λ nodes. length nodes.items ≡ settings.now.nodes) }
    ensures nodes { IfOk result (λ nodes.
        AreNewNodes settings.now passes (front_of database.now) nodes.items) }
{
    let mut nodes = Vec::new(alloc);
    for number in 0..settings.nodes {
        let node_settings = NodeSettings {
            number,
            capacity: settings.capacity,
            recent: settings.recent,
        };
        nodes.push(new_node(alloc, database, node_settings, settings.row_cap, passes)?)?;
    }
    Ok(nodes)
}

impl<A: App> Ports<A> {
    ghost use Rattle.txc_db.specs.Refusals.{IsWant};
    ghost use Rattle.txc_world.specs.NewWorld.{AreNewPorts};

    /// Makes the ports of a new world, with a pass at each node for each actor and for the keeper. Fails only
    /// if memory cannot be allocated or SQLite fails.
    pub(crate) fn new(
        alloc: Global,
        settings: &WorldSettings,
        actors: usize,
    ) -> Result<Ports<A>, DbError>
        requires capacity { (1 ≤ settings.now.capacity) × (settings.now.capacity ≤ MAX_CAPACITY) }
        requires recent { (1 ≤ settings.now.recent) × (settings.now.recent ≤ MAX_RECENT) }
        requires row { (1 ≤ settings.now.row_cap) × (settings.now.row_cap ≤ ROW_MOST) }
        requires actors { actors + 1 ≤ MAX_PASSES }
        ensures new { IfOk result (AreNewPorts settings.now actors) }
        ensures refused { IfErr result IsWant }
    {
        let database = DbCore::new(alloc, settings.row_cap)?;
        let front = database.front()?;
        let cushion = CushionCore::new(alloc, front);
        let nodes = new_nodes(alloc, &database, settings, actors + 1)?;
        Ok(Ports {
            database,
            cushion,
            nodes,
            spare: Vec::new(alloc),
            actors,
            newest: Stamp::ZERO,
        })
    }
}
