//! Clients, and the beginning of their transactions.
ghost use Rattle.std.specs.Prelude.{◌≡◌, ◌≤◌, ◌<◌, ◌⊎◌, [], get_or, slice_get, All, Any, IfErr, IfOk, MatchOption, None, length, map};
ghost use Rattle.txc_stream.specs.Names.{HasRow};
ghost use Rattle.txc_node.specs.Counts.{AreCountsOf};
ghost use Rattle.txc_call_registry.specs.Objects.{AllIdle};
ghost use Rattle.txc_app.specs.Eval.{Next};
ghost use Rattle.txc_shared.specs.Refusals.{IsNewPassRefused, NodeMayRefuse};
ghost use Rattle.txc_call_registry.specs.Objects.{Objects};
ghost use Rattle.txc_db.specs.History.{IsAllowed};
ghost use Rattle.txc_txn.specs.TxnCore.{begun_core, value_of, CoreHolds, IsCore, IsIdle};
ghost use Rattle.txc_txn.specs.RunningTxn.{IsTxn};
ghost use Rattle.txc_txn_client.specs.Ports.{CountsLeave, HaveGrown, IsCallAt};
ghost use Rattle.txc_txn_client.specs.PinLease.{HasBegunKept};
ghost use Rattle.txc_txn_client.specs.RoTxn.{client_of, HasBegunCore};

use crate::pin_lease::PinLease;
use crate::ports::Ports;
use crate::ro_txn::RoTxn;
use std::alloc::{AllocError, Global};
use std::marker::Model;
use std::sync::Wait;
use txc_app::App;
use txc_call_registry::{Cacheable, Registry};
use txc_cushion::{Pincushion, Pins};
use txc_db::{Database, Naming};
use txc_node::Counts;
use txc_shared::{NodeError, NodePass, SharedNode, audit};
use txc_txn::{RunningTxn, Session, TxnCore};
use txc_txn_ports::Bounds;

/// A client of a database, its pincushion and its nodes, with the functions that it calls, all idle.
///
/// It can be sent to the thread that uses it, and has one transaction at a time.
#[derive(Drop)]
pub struct Client<'a, A: App, C: Cacheable, J: Naming> {
    pub(crate) ports: Ports<'a, A, J>,
    pub(crate) registry: Registry<A, C>,
    pub(crate) renew_after: u64,
}

impl<'a, A: App, C: Cacheable, J: Naming> Model for Client<'a, A, C, J> {
    ghost use Rattle.txc_call_registry.specs.Objects.{AllIdle};
    ghost use Rattle.txc_txn_client.specs.RoTxn.{ClientValue};

    ghost Value = { ClientValue };

    ghost view = { λ c. record {
      passes = c.ports;
      renew_after = c.renew_after;
      objects = c.registry;
    } };

    ghost invariant = { λ c. AllIdle c.registry };
}

impl<'a, A: App, C: Cacheable, J: Naming> Client<'a, A, C, J> {
    /// Makes a client with a new pass at each node. It renews the newest pin of a transaction if that one's
    /// time is more than `renew_after` milliseconds before the transaction's `now`.
    ///
    /// Fails if a pass cannot be made. The passes made by then stay counted at their nodes, and the registry is
    /// dropped.
    pub fn new(
        rt: &impl Wait,
        alloc: Global,
        database: &'a Database<J>,
        cushion: &'a Pincushion<J>,
        nodes: &'a [SharedNode<A, J>],
        registry: Registry<A, C>,
        renew_after: u64,
    ) -> Result<Client<'a, A, C, J>, NodeError>
        requires some { 1 ≤ length nodes.now }
        requires idle { AllIdle registry }
        ensures nodes { IfOk result (λ client. map (λ pass. pass.settings) client.passes ≡ nodes.now) }
        ensures records { IfOk result (λ client. All (λ pass. pass.records ≡ []) client.passes) }
        ensures renew_after { IfOk result (λ client. client.renew_after ≡ renew_after) }
        ensures functions { IfOk result (λ client. client.objects ≡ registry) }
        ensures refused { IfErr result (λ e. (e ≡ NodeError.Memory)
            ⊎ Any (λ node. NodeMayRefuse J.node_histories (IsNewPassRefused node) e) nodes.now) }
    {
        let ports = Ports::new(rt, alloc, database, cushion, nodes)?;
        Ok(Client {
            ports,
            registry,
            renew_after,
        })
    }

    /// Begins a transaction with the newest of the pins that its bounds allow, and the present. The transaction
    /// returns each of these pins at its end. If memory cannot be allocated, the pins are returned at once, and
    /// so is the client.
    pub fn begin_ro(
        self,
        rt: &impl Wait,
        alloc: Global,
        bounds: Bounds,
    ) -> Result<RoTxn<'a, A, C, J>, (AllocError, Client<'a, A, C, J>)>
        ensures begun { IfOk result (λ txn. HasBegunCore J.database_history bounds txn.txn.core) }
        ensures valid { IfOk result (λ txn. IsTxn A.next txn.txn) }
        ensures client { IfOk result (λ txn. client_of txn ≡ self.entry) }
        ensures handed_back { IfErr result (λ e. e.1 ≡ self.entry) }
    {
        let Client {
            ports,
            registry,
            renew_after,
        } = self;
        let cushion = ports.cushion;
        let nodes = ports.len();
        match begun(rt, alloc, cushion, nodes, renew_after, bounds) {
            Ok(core) => Ok(RoTxn {
                ports,
                renew_after,
                kept: 0,
                txn: RunningTxn::new(core, registry),
            }),
            Err(error) => {
                let client = Client {
                    ports,
                    registry,
                    renew_after,
                };
                Err((error, client))
            }
        }
    }

    /// Returns an empty set of kept pins, for transactions of this client that reuse pins for less than `most`
    /// milliseconds. With 0 each transaction begins with pins of its own.
    pub fn lease(&self, most: u64) -> PinLease<'a, J>
        ensures { result ≡ record { most = most; handed = None } }
    {
        PinLease::new(self.ports.cushion, most)
    }

    /// Begins a transaction with exactly those of the kept pins that its bounds allow, and the present. The
    /// transaction returns only the pins that it adds: the others stay kept while it is open. If the kept pins
    /// may not be used, they are returned first, and others are issued, as by [`Client::begin_ro`]. If memory
    /// cannot be allocated, the client is returned.
    pub fn begin_leased(
        self,
        rt: &impl Wait,
        alloc: Global,
        bounds: Bounds,
        kept: PinLease<'a, J>,
    ) -> (
        Result<RoTxn<'a, A, C, J>, (AllocError, Client<'a, A, C, J>)>,
        PinLease<'a, J>,
    )
        ensures begun { IfOk result.0 (λ txn. HasBegunCore J.database_history bounds txn.txn.core) }
        ensures kept { IfOk result.0 (λ txn. HasBegunKept J.database_history bounds kept.entry result.1
            txn.txn.core.pins.members txn.txn.core.seen) }
        ensures most { result.1.most ≡ kept.entry.most }
        ensures valid { IfOk result.0 (λ txn. IsTxn A.next txn.txn) }
        ensures client { IfOk result.0 (λ txn. client_of txn ≡ self.entry) }
        ensures handed_back { IfErr result.0 (λ e. e.1 ≡ self.entry) }
    {
        let Client {
            ports,
            registry,
            renew_after,
        } = self;
        let (begun, kept) = begun_leased(rt, alloc, ports.len(), renew_after, &bounds, kept);
        match begun {
            Ok(core) => {
                let txn = RoTxn {
                    ports,
                    renew_after,
                    kept: core.members().len(),
                    txn: RunningTxn::new(core, registry),
                };
                (Ok(txn), kept)
            }
            Err(error) => {
                let client = Client {
                    ports,
                    registry,
                    renew_after,
                };
                (Err((error, client)), kept)
            }
        }
    }

    /// Begins a transaction in a session at time `now`: it reads nothing older than the session's floor, nor
    /// older than `staleness`. Both are in milliseconds. The session must belong to this database. If memory
    /// cannot be allocated, it returns the client.
    pub fn begin_in(
        self,
        rt: &impl Wait,
        alloc: Global,
        session: &Session,
        now: u64,
        staleness: u64,
    ) -> Result<RoTxn<'a, A, C, J>, (AllocError, Client<'a, A, C, J>)>
        ensures begun { IfOk result (λ txn. HasBegunCore J.database_history
            (record { now = now; staleness = staleness; at_least = session.now }) txn.txn.core) }
        ensures valid { IfOk result (λ txn. IsTxn A.next txn.txn) }
        ensures client { IfOk result (λ txn. client_of txn ≡ self.entry) }
        ensures handed_back { IfErr result (λ e. e.1 ≡ self.entry) }
    {
        let bounds = Bounds {
            now,
            staleness,
            at_least: session.floor(),
        };
        self.begin_ro(rt, alloc, bounds)
    }

    /// Returns how many nodes there are.
    pub fn node_count(&self) -> usize
        ensures answer { result ≡ length self.now.passes }
        ensures some { 1 ≤ result }
    {
        self.ports.len()
    }

    /// Returns the pass at a node, which shows a legal history of it.
    pub fn pass(&self, node: usize) -> &NodePass<J>
        requires { node < length self.now.passes }
        ensures { result.now ≡ get_or self.now.passes node result.now }
    {
        self.ports.pass(node)
    }

    /// Returns the counts of the records that its pass at a node has seen. Returns `None` if there is no such
    /// node, or its records are not stored. It takes no lock, and does not allocate.
    pub fn counts(&self, node: usize) -> Option<Counts>
        ensures { MatchOption (slice_get self.now.passes node)
            (result ≡ None)
            (λ pass. MatchOption result
            (¬ (HasRow (J.node_histories pass.settings.number)))
            (AreCountsOf pass.records)) }
    {
        if node >= self.ports.len() {
            return None;
        }
        audit(self.ports.pass(node))
    }

    /// Returns the counts of all records of a node, stored or not, and shows these to its pass. Returns `None`
    /// if there is no such node, or the node fails. It takes the node's lock, and does not allocate.
    pub fn node_counts(&mut self, rt: &impl Wait, node: usize) -> Option<Counts>
        ensures same { self.new ≡ record self.old { passes = self.new.passes } }
        ensures passes { HaveGrown self.old.passes self.new.passes }
        ensures none { length self.old.passes ≤ node → (result ≡ None) × (self.new ≡ self.old) }
        ensures left { node < length self.old.passes
            → IsCallAt node (CountsLeave J.node_histories result) self.old.passes self.new.passes }
    {
        if node >= self.ports.len() {
            return None;
        }
        self.ports.node_counts(rt, node)
    }
}

// Makes a core with the pins that the pincushion issues for its bounds. If memory cannot be allocated, they are
// returned.
fn begun<J: Naming>(
    rt: &impl Wait,
    alloc: Global,
    cushion: &Pincushion<J>,
    nodes: usize,
    renew_after: u64,
    bounds: Bounds,
) -> Result<TxnCore, AllocError>
    requires { 1 ≤ nodes }
    ensures fits { IfOk result (λ core. (next : Next) (objects : Objects) → AllIdle objects
        → IsCore next objects (value_of core)) }
    ensures holds { IfOk result (λ core. (next : Next) (objects : Objects)
        → CoreHolds next (value_of core).seen.history objects (value_of core)) }
    ensures idle { IfOk result (λ core. IsIdle (value_of core)) }
    ensures renew_after { IfOk result (λ core. (value_of core).renew_after ≡ renew_after) }
    ensures nodes { IfOk result (λ core. (value_of core).nodes ≡ nodes) }
    ensures begun { IfOk result (λ core. HasBegunCore J.database_history bounds (value_of core)) }
{
    let Bounds {
        now,
        staleness,
        at_least,
    } = bounds;
    let pins = cushion.fresh(rt, alloc, now, staleness, at_least)?;
    match TxnCore::begin(alloc, nodes, renew_after, bounds, pins) {
        Ok(core) => Ok(core),
        Err(pins) => {
            give_back_each(rt, cushion, &pins);
            Err(AllocError)
        }
    }
}

// Makes a core with pins that its bounds allow. If memory cannot be allocated, none of them is returned.
fn begun_with(
    alloc: Global,
    nodes: usize,
    renew_after: u64,
    bounds: &Bounds,
    pins: Pins,
) -> Result<TxnCore, AllocError>
    requires some { 1 ≤ nodes }
    requires allowed { All (λ pin. IsAllowed pins.front.history pin.stamp bounds.now.now bounds.now.staleness bounds.now.at_least)
        pins.pins.items }
    ensures fits { IfOk result (λ core. (next : Next) (objects : Objects) → AllIdle objects
        → IsCore next objects (value_of core)) }
    ensures holds { IfOk result (λ core. (next : Next) (objects : Objects)
        → CoreHolds next (value_of core).seen.history objects (value_of core)) }
    ensures idle { IfOk result (λ core. IsIdle (value_of core)) }
    ensures answer { IfOk result (λ core. value_of core
        ≡ begun_core nodes renew_after bounds.entry.now pins (value_of core).call) }
{
    match TxnCore::begin(alloc, nodes, renew_after, *bounds, pins) {
        Ok(core) => Ok(core),
        Err(_) => Err(AllocError),
    }
}

// Makes a core with the kept pins that are fresh for its bounds.
fn begun_leased<'a, J: Naming>(
    rt: &impl Wait,
    alloc: Global,
    nodes: usize,
    renew_after: u64,
    bounds: &Bounds,
    kept: PinLease<'a, J>,
) -> (Result<TxnCore, AllocError>, PinLease<'a, J>)
    requires { 1 ≤ nodes }
    ensures fits { IfOk result.0 (λ core. (next : Next) (objects : Objects) → AllIdle objects
        → IsCore next objects (value_of core)) }
    ensures holds { IfOk result.0 (λ core. (next : Next) (objects : Objects)
        → CoreHolds next (value_of core).seen.history objects (value_of core)) }
    ensures idle { IfOk result.0 (λ core. IsIdle (value_of core)) }
    ensures renew_after { IfOk result.0 (λ core. (value_of core).renew_after ≡ renew_after) }
    ensures nodes { IfOk result.0 (λ core. (value_of core).nodes ≡ nodes) }
    ensures begun { IfOk result.0 (λ core. HasBegunCore J.database_history bounds.entry.now (value_of core)) }
    ensures kept { IfOk result.0 (λ core. HasBegunKept J.database_history bounds.entry.now kept.entry result.1
        (value_of core).pins.members (value_of core).seen) }
    ensures most { result.1.most ≡ kept.entry.most }
{
    let (pins, kept) = kept.fresh(rt, alloc, bounds);
    match pins {
        Ok(pins) => (begun_with(alloc, nodes, renew_after, bounds, pins), kept),
        Err(error) => (Err(error), kept),
    }
}

// Returns the pins one by one, which does not allocate.
pub(crate) fn give_back_each<J: Naming>(rt: &impl Wait, cushion: &Pincushion<J>, pins: &Pins) {
    for pin in &pins.pins {
        let _ = cushion.give_back(rt, &[pin.stamp]);
    }
}
