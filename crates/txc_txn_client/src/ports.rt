//! The locked ports of a transaction, with one call for each request.
ghost use Rattle.std.specs.Prelude.{◌≡◌, ◌≤◌, ◌<◌, ◌⊎◌, [], get_or, map, All, Any, IfErr, IfOk, length};
ghost use Rattle.txc_shared.specs.Refusals.{IsNewPassRefused, NodeMayRefuse};

use crate::finding::find;
use std::alloc::Global;
use std::marker::Model;
use std::sync::Wait;
use txc_app::App;
use txc_cushion::Pincushion;
use txc_db::{Database, HistoryFront, Naming};
use txc_node::{Counts, Entry};
use txc_shared::{Insertion, NodeError, NodePass, SharedNode};
use txc_txn_ports::{Kept, PortReply, PortRequest};

/// A database, its pincushion, and nodes that take its events, with a pass at each node. Contracts see the
/// passes.
#[derive(Drop)]
pub(crate) struct Ports<'a, A: App, J: Naming> {
    pub(crate) database: &'a Database<J>,
    pub(crate) cushion: &'a Pincushion<J>,
    nodes: &'a [SharedNode<A, J>],
    passes: Vec<NodePass<J>>,
}

impl<'a, A: App, J: Naming> Model for Ports<'a, A, J> {
    ghost use Rattle.std.specs.Prelude.{◌≡◌, ◌≤◌, length, List, map};
    ghost use Rattle.txc_shared.specs.Passes.{PassValue};

    ghost Value = { List PassValue };

    ghost view = { λ p. p.passes.items };

    // Each pass is one of the node at its place.
    ghost invariant = { λ p. (map (λ pass. pass.settings) p.passes.items ≡ p.nodes.now)
        × (1 ≤ length p.nodes.now) };
}

impl<'a, A: App, J: Naming> Ports<'a, A, J> {
    ghost use Rattle.txc_app.specs.Claims.{IsTrueIn};
    ghost use Rattle.txc_txn_client.specs.Ports.{CountsLeave, HaveGrown, InsertLeaves, IsCallAt, PassesAfter};
    ghost use Rattle.txc_txn_client.specs.Run.{IsToldSo};
    ghost use Rattle.txc_txn_ports.specs.PortRequests.{IsOfRow, IsReplyTo, MayAsk};
    ghost use Rattle.txc_txn_ports.specs.Exchanges.{IsExchange};

    /// Makes a pass at each node. Fails if a pass cannot be made.
    pub(crate) fn new(
        rt: &impl Wait,
        alloc: Global,
        database: &'a Database<J>,
        cushion: &'a Pincushion<J>,
        nodes: &'a [SharedNode<A, J>],
    ) -> Result<Ports<'a, A, J>, NodeError>
        requires { 1 ≤ length nodes.now }
        ensures nodes { IfOk result (λ ports. map (λ pass. pass.settings) ports ≡ nodes.now) }
        ensures records { IfOk result (λ ports. All (λ pass. pass.records ≡ []) ports) }
        ensures refused { IfErr result (λ e. (e ≡ NodeError.Memory)
            ⊎ Any (λ node. NodeMayRefuse J.node_histories (IsNewPassRefused node) e) nodes.now) }
    {
        let passes = draw_passes(rt, alloc, nodes)?;
        Ok(Ports {
            database,
            cushion,
            nodes,
            passes,
        })
    }

    /// Returns how many nodes there are.
    pub(crate) fn len(&self) -> usize
        ensures answer { result ≡ length self.now }
        ensures some { 1 ≤ result }
    {
        self.passes.len()
    }

    /// Returns the pass at a node.
    pub(crate) fn pass(&self, node: usize) -> &NodePass<J>
        requires { node < length self.now }
        ensures { result.now ≡ get_or self.now node result.now }
    {
        &self.passes[node]
    }

    /// Returns the counts of all records of a node, or `None` if the node fails.
    pub(crate) fn node_counts(&mut self, rt: &impl Wait, node: usize) -> Option<Counts>
        requires { node < length self.old }
        ensures passes { HaveGrown self.old self.new }
        ensures left { IsCallAt node (CountsLeave J.node_histories result) self.old self.new }
    {
        let nodes = self.nodes;
        let pass = &mut self.passes[node];
        match pass.node_counts(rt, &nodes[node]) {
            Ok(counts) => Some(counts),
            Err(_) => None,
        }
    }

    // Gives the node an entry to store. A node that fails stores nothing.
    fn insert(
        &mut self,
        rt: &impl Wait,
        alloc: Global,
        node: usize,
        entry: Entry,
        seen: &HistoryFront,
    ) -> Option<Kept>
        requires node { node < length self.old }
        requires row { seen.now.events ≡ J.database_history }
        requires is_true { IsTrueIn A.next seen.now.history entry }
        ensures passes { HaveGrown self.old self.new }
        ensures left { IsCallAt node (InsertLeaves J.node_histories entry result) self.old self.new }
    {
        let nodes = self.nodes;
        let pass = &mut self.passes[node];
        match pass.insert(rt, alloc, &nodes[node], entry, seen) {
            Ok(insertion) => Some(kept_by(insertion)),
            Err(_) => None,
        }
    }

    /// Makes the transaction's request, in one call. `seen` is the history that the transaction has seen. A
    /// node that fails has no entry.
    pub(crate) fn ask(
        &mut self,
        rt: &impl Wait,
        alloc: Global,
        seen: &HistoryFront,
        request: PortRequest,
    ) -> PortReply
        requires row { seen.now.events ≡ J.database_history }
        requires may { MayAsk A.next J.database_history (length self.old) seen.now.history request }
        ensures answer { IsReplyTo A.next request result }
        ensures row { IsOfRow J.database_history result }
        ensures told { IsExchange (IsToldSo J.database_history) request result }
        ensures passes { HaveGrown self.old self.new }
        ensures left { IsExchange (λ x. PassesAfter J.node_histories self.old x self.new) request result }
    {
        match request {
            PortRequest::Pin { now, at_least } => PortReply::Pin(
                self.database.pin(rt, alloc, now, at_least),
            ),
            PortRequest::AddPin(pinned) => {
                let added = self.cushion.add(rt, &pinned);
                PortReply::AddPin(pinned, added)
            }
            PortRequest::Unpin(stamp) => PortReply::Unpin(self.database.unpin(rt, stamp)),
            PortRequest::Lookup { node, key, lo, hi } => {
                let nodes = self.nodes;
                let pass = &mut self.passes[node];
                let found = pass.lookup(rt, alloc, &nodes[node], &key, lo, hi);
                PortReply::Lookup(found.unwrap_or(None))
            }
            PortRequest::Query { query, stamp } => {
                PortReply::Query(find(rt, alloc, self.database, &query, stamp))
            }
            PortRequest::Insert { node, entry } => {
                PortReply::Insert(self.insert(rt, alloc, node, entry, seen))
            }
        }
    }
}

ghost use Rattle.txc_txn_client.specs.Ports.{kept_by};

// Returns a pass at each of the nodes, in order.
fn draw_passes<A: App, J: Naming>(
    rt: &impl Wait,
    alloc: Global,
    nodes: &[SharedNode<A, J>],
) -> Result<Vec<NodePass<J>>, NodeError>
    ensures nodes { IfOk result (λ passes. map (λ pass. pass.settings) passes.items ≡ nodes.now) }
    ensures records { IfOk result (λ passes. All (λ pass. pass.records ≡ []) passes.items) }
    ensures refused { IfErr result (λ e. (e ≡ NodeError.Memory)
        ⊎ Any (λ node. NodeMayRefuse J.node_histories (IsNewPassRefused node) e) nodes.now) }
{
    let mut passes = Vec::new(alloc);
    for node in nodes {
        passes.push(node.pass(rt)?)?;
    }
    Ok(passes)
}

// Returns the result of a node's insertion.
fn kept_by(insertion: Insertion) -> Kept
    ensures { result ≡ kept_by insertion }
{
    match insertion {
        Insertion::Stored(reach) => Kept::Stored(reach),
        Insertion::Kept => Kept::Earlier,
    }
}
