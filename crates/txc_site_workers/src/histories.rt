//! The threads of a site over newly named histories.
ghost use Rattle.std.specs.Prelude.{◌≡◌, ◌≤◌, All, IfErr, IfOk, length, vec_len};
ghost use Rattle.txc_db.specs.DatabaseReply.{IsDatabaseOf};
ghost use Rattle.txc_site_workers.specs.Sites.{AreWorkersRefused, HaveCome};
ghost use Rattle.txc_site_workers.specs.Plans.{IsPlan};
ghost use Rattle.txc_site_workers.specs.Histories.{AreHistoriesOf, HaveHistoriesBy};
ghost use Rattle.txc_site_workers.specs.GenerationKinds.{GoesOverTo};
ghost use Rattle.txc_site_workers.specs.SiteKeeperByPlan.{IsTendedAsPlanned};

use crate::carried_entries::GenerationKind;
use crate::error::OpenError;
use crate::function_table::FunctionTable;
use crate::node_histories::new_histories;
use crate::plan::Plan;
use crate::site_parts::SiteParts;
use crate::site_stats::SiteStats;
use crate::threads::{WorkerOutputs, run_workers};
use crate::worker::Worker;
use std::alloc::Global;
use std::marker::Brand;
use std::sync::Wait;
use std::thread::Threads;
use txc_app::App;
use txc_call_definition::Definition;
use txc_call_permits::PermitPool;
use txc_db::{DbCore, Naming};
use txc_shared::NodeRemains;
use txc_site_keeper::{Clock, KeeperTotals, SiteError};
use txc_site_ledger::NodeHistory;

/// Results of the threads of a site, and of its automatic maintenance; their work in all, and the database
/// after them.
#[derive(Drop)]
pub struct WorkerResults<A: App, T> {
    pub outputs: Vec<T>,
    pub tended: Option<Result<KeeperTotals, SiteError>>,
    pub stats: SiteStats,
    pub core: DbCore,
    /// For a site that is one of several: the entries of its nodes, if their records are not stored.
    pub left: Vec<NodeRemains<A>>,
}

/// Runs the threads at a site of the database and of new nodes.
pub fn over_new_histories<A, D, V, C, R>(
    rt: &R,
    alloc: Global,
    plan: Plan,
    core: DbCore,
    succession: GenerationKind<A>,
    count: usize,
    workers: &V,
    clock: &C,
) -> Result<WorkerResults<A, V::Output>, OpenError>
where
    A: FunctionTable<D> + Send + Sync,
    D: Definition + Send,
    V: Worker<A, D> + Sync,
    C: Clock + Sync,
    R: Threads + Wait + Sync,
    requires plan { IsPlan plan }
    requires carried { GoesOverTo core.events succession }
    ensures each { IfOk result (λ visited. vec_len visited.outputs ≡ count) }
    ensures gives { IfOk result (λ visited.
        HaveCome (V.gives workers.now plan core.events) visited.outputs.items) }
    ensures tended { IfOk result (λ visited.
        IsTendedAsPlanned plan (C.tells clock.now) core.events visited.tended) }
    ensures database { IfOk result (λ visited. IsDatabaseOf core.events visited.core) }
    ensures left { IfOk result (λ visited. All (λ left. left.seen.events ≡ core.events) visited.left.items) }
    ensures refused { IfErr result (AreWorkersRefused A.numbers) }
{
    let histories = new_histories(alloc, plan.nodes, plan.records)?;
    over_histories::<A, D, V, Brand, C, R>(
        rt, alloc, plan, core, succession, histories, count, workers, clock,
    )
}

/// Runs the threads over the named histories.
fn over_histories<A, D, V, J, C, R>(
    rt: &R,
    alloc: Global,
    plan: Plan,
    core: DbCore,
    succession: GenerationKind<A>,
    histories: Vec<NodeHistory>,
    count: usize,
    workers: &V,
    clock: &C,
) -> Result<WorkerResults<A, V::Output>, OpenError>
where
    A: FunctionTable<D> + Send + Sync,
    D: Definition + Send,
    V: Worker<A, D> + Sync,
    J: Naming + Send + Sync,
    C: Clock + Sync,
    R: Threads + Wait + Sync,
    requires plan { IsPlan plan }
    requires database { core.events ≡ J.database_history }
    requires carried { GoesOverTo J.database_history succession }
    requires each { vec_len histories ≡ plan.nodes }
    requires histories { AreHistoriesOf J.node_histories 0 histories.items }
    requires stored_so { HaveHistoriesBy plan J.node_histories }
    ensures each { IfOk result (λ visited. vec_len visited.outputs ≡ count) }
    ensures gives { IfOk result (λ visited.
        HaveCome (V.gives workers.now plan J.database_history) visited.outputs.items) }
    ensures tended { IfOk result (λ visited.
        IsTendedAsPlanned plan (C.tells clock.now) J.database_history visited.tended) }
    ensures database { IfOk result (λ visited. IsDatabaseOf J.database_history visited.core) }
    ensures left { IfOk result (λ visited.
        All (λ left. left.seen.events ≡ J.database_history) visited.left.items) }
    ensures refused { IfErr result (AreWorkersRefused A.numbers) }
{
    let (foundation, committers) = SiteParts::<A, J>::new(rt, alloc, plan, core, histories, count)?;
    let goes_over = match succession {
        GenerationKind::Alone => false,
        GenerationKind::InTurn(carried_entries) => {
            if let Some(carried_entries) = carried_entries {
                foundation.carry_entries(rt, alloc, carried_entries);
            }
            true
        }
    };
    let mut pool = PermitPool::new(alloc, plan.permits)?;
    let came = run_workers::<A, D, V, J, C, R>(
        rt,
        alloc,
        &foundation,
        &committers,
        &mut pool,
        count,
        workers,
        clock,
    )?;
    let WorkerOutputs { outputs, tended } = came;
    let stats = SiteStats::of(&foundation.tallies).with_nodes(rt, &foundation.nodes);
    let (core, left) = foundation.end(rt, alloc, goes_over);
    Ok(WorkerResults {
        outputs,
        tended,
        stats,
        core,
        left,
    })
}
