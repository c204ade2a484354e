//! The database of a site, its pincushion, and the operations on both.
ghost use Rattle.std.specs.Prelude.{◌≡◌, ◌≤◌, ◌⊎◌, All, Any, IfErr, IfOk, length, map, [], ℕ};
ghost use Rattle.txc_db.specs.Calls.{IsHoldRefused};
ghost use Rattle.txc_db.specs.DatabaseReply.{IsDatabaseOf, MayRefuse};
ghost use Rattle.txc_node.specs.declared.node.TheConstants.{MAX_CAPACITY, MAX_RECENT};
ghost use Rattle.txc_call_registry.specs.Objects.{AllIdle};
ghost use Rattle.txc_shared.specs.Refusals.{IsNewPassRefused, NodeMayRefuse};
ghost use Rattle.txc_site_ledger.specs.Histories.{IsNew, history_name};

mod pins;
mod update;

use crate::node_history::NodeHistory;
pub use pins::{Horizon, PresentPin, RefusedPin, RetiredPin, RetiredPins, UsedPin};
use std::alloc::{AllocError, Global};
use std::marker::{Model, PhantomData};
use std::sync::Wait;
use txc_app::App;
use txc_call_registry::{Cacheable, Registry};
use txc_cushion::Pincushion;
use txc_db::{Database, DbCore, DbError, HistoryFront, Naming};
use txc_shared::{NodeError, NodeSettings, SharedNode};
use txc_txn_client::Client;

/// The database and its pincushion. Only this module and those below it reach them. All others commit by a
/// [`CommitCounter`], which counts, and pin, retire and vacuum by linear values.
#[derive(Drop)]
pub struct Ledger<J: Naming> {
    database: Database<J>,
    cushion: Pincushion<J>,
}

/// The one source of the [`CommitCounter`]s of a ledger. Only a new ledger makes it.
#[derive(Drop)]
pub struct CommitCounters<J: Naming> {
    of: PhantomData<J>,
}

impl<J: Naming> CommitCounters<J> {
    /// Makes a committer that has begun no update and committed none.
    pub fn committer(&self) -> CommitCounter<J>
        ensures { result ≡ record { updates = 0; commits = 0 } }
    {
        CommitCounter {
            updates: 0,
            commits: 0,
            of: PhantomData,
        }
    }
}

/// The token to commit to a ledger. Contracts see how many updates it has begun or failed to begin, and how
/// many it has committed.
#[derive(Drop)]
pub struct CommitCounter<J: Naming> {
    updates: u64,
    commits: u64,
    of: PhantomData<J>,
}

impl<J: Naming> Model for CommitCounter<J> {
    ghost use Rattle.txc_site_ledger.specs.CommitCounter.{CommitterValue};

    ghost Value = { CommitterValue };

    ghost view = { λ c. record { updates = c.updates; commits = c.commits } };
}

impl<J: Naming> CommitCounter<J> {
    /// Returns how many updates it has committed.
    pub fn commits(&self) -> u64
        ensures { result ≡ self.now.commits }
    {
        self.commits
    }
}

impl<J: Naming> Ledger<J> {
    /// Puts the database, whose history is the named one, under its lock. Fails only if memory cannot be
    /// allocated.
    pub fn new(alloc: Global, core: DbCore) -> Result<(Ledger<J>, CommitCounters<J>), AllocError>
        requires { core.events ≡ J.database_history }
    {
        let database = Database::<J>::new(alloc, core)?;
        let cushion = Pincushion::new(alloc, &database)?;
        Ok((
            Ledger { database, cushion },
            CommitCounters { of: PhantomData },
        ))
    }

    /// Returns the database without its lock, once no other thread has it.
    pub fn into_core(self) -> DbCore
        ensures { IsDatabaseOf J.database_history result }
    {
        let Ledger {
            database,
            cushion: _,
        } = self;
        database.into_core()
    }

    /// Returns a front of the whole history, by a hold that is released at once. Fails if the database cannot
    /// hold its newest stamp, or memory cannot be allocated.
    pub fn seen(&self, rt: &impl Wait, alloc: Global) -> Result<HistoryFront, DbError>
        ensures row { IfOk result (λ front. front.events ≡ J.database_history) }
        ensures refused { IfErr result (λ error. (error ≡ DbError.Memory)
            ⊎ MayRefuse J.database_history IsHoldRefused error) }
    {
        let held = self.database.hold(rt, alloc)?;
        let front = held.front().again();
        let _ = self.database.release(rt, held);
        Ok(front?)
    }

    /// Makes a node with that history, which will take the database's events. Fails only if memory cannot be
    /// allocated.
    pub fn node<A: App>(
        &self,
        rt: &impl Wait,
        alloc: Global,
        settings: NodeSettings,
        history: NodeHistory,
    ) -> Result<SharedNode<A, J>, AllocError>
        requires capacity { (1 ≤ settings.capacity) × (settings.capacity ≤ MAX_CAPACITY) }
        requires recent { (1 ≤ settings.recent) × (settings.recent ≤ MAX_RECENT) }
        requires new { IsNew history }
        requires named { history_name history ≡ J.node_histories settings.number }
        ensures { IfOk result (λ node. node ≡ settings) }
    {
        match history {
            NodeHistory::Stored(row) => {
                SharedNode::new(rt, alloc, settings, row, &self.database)
            }
            NodeHistory::Unstored(pen) => {
                SharedNode::unstored(rt, alloc, settings, pen, &self.database)
            }
        }
    }

    /// Makes a client that reads, with a new pass at each node.
    pub fn reader<'a, A: App, C: Cacheable>(
        &'a self,
        rt: &impl Wait,
        alloc: Global,
        nodes: &'a [SharedNode<A, J>],
        registry: Registry<A, C>,
        renew_after: u64,
    ) -> Result<Client<'a, A, C, J>, NodeError>
        requires some { 1 ≤ length nodes.now }
        requires idle { AllIdle registry }
        ensures nodes { IfOk result (λ client. map (λ pass. pass.settings) client.passes ≡ nodes.now) }
        ensures records { IfOk result (λ client. All (λ pass. pass.records ≡ []) client.passes) }
        ensures renew_after { IfOk result (λ client. client.renew_after ≡ renew_after) }
        ensures functions { IfOk result (λ client. client.objects ≡ registry) }
        ensures refused { IfErr result (λ e. (e ≡ NodeError.Memory)
            ⊎ Any (λ node. NodeMayRefuse J.node_histories (IsNewPassRefused node) e) nodes.now) }
    {
        Client::new(
            rt,
            alloc,
            &self.database,
            &self.cushion,
            nodes,
            registry,
            renew_after,
        )
    }
}
