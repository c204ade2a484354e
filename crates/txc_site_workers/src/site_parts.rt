//! The shared parts of a site.
ghost use Rattle.std.specs.Prelude.{◌≡◌, ◌≤◌, All, IfErr, IfOk, vec_len};
ghost use Rattle.txc_db.specs.DatabaseReply.{IsDatabaseOf};
ghost use Rattle.txc_site_keeper.specs.Refusals.{IsKeeperRefused};
ghost use Rattle.txc_site_keeper.specs.SiteKeeper.{IsTendedBy};
ghost use Rattle.txc_site_workers.specs.Plans.{nodes_of, share_of, IsPlan};
ghost use Rattle.txc_site_workers.specs.Histories.{AreHistoriesOf};

use crate::carried_entries::{CarriedEntries, carry_entries, drain};
use crate::plan::Plan;
use crate::site_stats::Tally;
use std::alloc::{AllocError, Global};
use std::sync::Wait;
use txc_app::App;
use txc_db::{DbCore, Naming};
use txc_shared::{NodeRemains, NodeSettings, SharedNode};
use txc_site_keeper::{
    Clock, KeeperSettings, KeeperTotals, SharedClock, SiteError, StopFlag, retire,
};
use txc_site_ledger::{CommitCounters, Ledger, NodeHistory};

/// The database with its pincushion, and its nodes, by the plan.
#[derive(Drop)]
pub(crate) struct SiteParts<A: App, J: Naming> {
    pub(crate) ledger: Ledger<J>,
    pub(crate) nodes: Vec<SharedNode<A, J>>,
    pub(crate) plan: Plan,
    pub(crate) tallies: Vec<Tally>,
    pub(crate) moment: SharedClock,
    ghost some: { 1 ≤ vec_len nodes },
    ghost planned: { nodes.items ≡ nodes_of plan },
}

/// Makes the nodes of the histories, by their numbers.
fn nodes<A: App, J: Naming>(
    rt: &impl Wait,
    alloc: Global,
    plan: Plan,
    histories: Vec<NodeHistory>,
    ledger: &Ledger<J>,
) -> Result<Vec<SharedNode<A, J>>, AllocError>
    requires plan { IsPlan plan }
    requires each { vec_len histories ≡ plan.nodes }
    requires histories { AreHistoriesOf J.node_histories 0 histories.items }
    ensures each { IfOk result (λ nodes. vec_len nodes ≡ plan.nodes) }
    ensures made { IfOk result (λ nodes. nodes.items ≡ nodes_of plan) }
{
    let mut nodes = Vec::with_capacity(alloc, histories.len())?;
    for history in histories {
        let settings = NodeSettings {
            number: nodes.len(),
            capacity: plan.capacity,
            recent: plan.recent,
        };
        nodes.push(ledger.node(rt, alloc, settings, history)?)?;
    }
    Ok(nodes)
}

impl<A: App, J: Naming> SiteParts<A, J> {
    /// Puts the database and the nodes of these histories under their locks, for `count` clients. It returns a
    /// source of committers.
    pub(crate) fn new(
        rt: &impl Wait,
        alloc: Global,
        plan: Plan,
        core: DbCore,
        histories: Vec<NodeHistory>,
        count: usize,
    ) -> Result<(SiteParts<A, J>, CommitCounters<J>), AllocError>
        requires plan { IsPlan plan }
        requires database { core.events ≡ J.database_history }
        requires each { vec_len histories ≡ plan.nodes }
        requires histories { AreHistoriesOf J.node_histories 0 histories.items }
        ensures plan { IfOk result (λ made. made.0.plan ≡ plan) }
        ensures tallies { IfOk result (λ made. vec_len made.0.tallies ≡ count) }
    {
        let (ledger, committers) = Ledger::<J>::new(alloc, core)?;
        let nodes = nodes(rt, alloc, plan, histories, &ledger)?;
        let foundation = SiteParts {
            ledger,
            nodes,
            plan,
            tallies: Tally::each(alloc, count)?,
            moment: SharedClock::new(),
        };
        Ok((foundation, committers))
    }

    /// Carries the entries of another site's nodes over to these, as far as there are nodes of the same
    /// numbers.
    pub(crate) fn carry_entries(
        &self,
        rt: &impl Wait,
        alloc: Global,
        carried_entries: CarriedEntries<A>,
    )
        requires { carried_entries.front.events ≡ J.database_history }
    {
        let CarriedEntries {
            nodes,
            whole,
            front,
        } = carried_entries;
        for left in nodes {
            let number = left.number();
            if number < self.nodes.len() {
                carry_entries(rt, alloc, &self.nodes[number], left, &whole, &front);
            }
        }
    }

    /// Returns the database without its lock, once no other thread has it. Only pins that were lost are still
    /// held.
    fn into_core(self, rt: &impl Wait, alloc: Global) -> DbCore
        ensures database { IsDatabaseOf J.database_history result }
    {
        let SiteParts {
            ledger,
            nodes: _,
            plan: _,
            tallies: _,
            moment: _,
        } = self;
        let _ = retire(rt, alloc, &ledger, u64::MAX, 0);
        ledger.into_core()
    }

    /// Returns the database, and the entries of its nodes once each has taken all events.
    fn into_parts(self, rt: &impl Wait, alloc: Global) -> (DbCore, Vec<NodeRemains<A>>)
        ensures database { IsDatabaseOf J.database_history result.0 }
        ensures left { All (λ left. left.seen.events ≡ J.database_history) result.1.items }
    {
        let SiteParts {
            ledger,
            nodes,
            plan,
            tallies: _,
            moment: _,
        } = self;
        let _ = retire(rt, alloc, &ledger, u64::MAX, 0);
        let left = drain_each(rt, alloc, plan, nodes);
        (ledger.into_core(), left)
    }

    /// Returns the database, and the entries of its nodes if they go over to those of the next site.
    pub(crate) fn end(
        self,
        rt: &impl Wait,
        alloc: Global,
        goes_over: bool,
    ) -> (DbCore, Vec<NodeRemains<A>>)
        ensures database { IsDatabaseOf J.database_history result.0 }
        ensures left { All (λ left. left.seen.events ≡ J.database_history) result.1.items }
    {
        if goes_over {
            return self.into_parts(rt, alloc);
        }
        (self.into_core(rt, alloc), Vec::new(alloc))
    }
}

/// Returns the entries of the nodes if their records are not stored: otherwise each carried entry would need a
/// record. If memory cannot be allocated, it returns those of the first nodes only.
fn drain_each<A: App, J: Naming>(
    rt: &impl Wait,
    alloc: Global,
    plan: Plan,
    nodes: Vec<SharedNode<A, J>>,
) -> Vec<NodeRemains<A>>
    ensures { All (λ left. left.seen.events ≡ J.database_history) result.items }
{
    let mut left = Vec::new(alloc);
    if plan.records.is_some() {
        return left;
    }
    for node in nodes {
        let Ok(()) = left.push(drain(rt, alloc, node)) else {
            return left;
        };
    }
    left
}

/// Runs the maintenance at this clock until `ended` is set.
#[tactic(auto, using(crate::proofs::Tended::tended_of))]
pub(crate) fn run_keeper<A: App, J: Naming, C: Clock, R: Wait>(
    rt: &R,
    alloc: Global,
    foundation: &SiteParts<A, J>,
    keeping: KeeperSettings,
    clock: &C,
    ended: &StopFlag,
) -> Result<KeeperTotals, SiteError>
    ensures tended { IfOk result
        (IsTendedBy J.database_history (nodes_of foundation.now.plan) (share_of foundation.now.plan) (C.tells clock.now) keeping) }
    ensures refused { IfErr result IsKeeperRefused }
{
    txc_site_keeper::run_keeper(
        rt,
        alloc,
        &foundation.ledger,
        &foundation.nodes,
        foundation.plan.share(),
        &foundation.moment,
        keeping,
        clock,
        ended,
    )
}
