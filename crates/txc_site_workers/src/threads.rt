//! The threads of a site, and their clients.
ghost use Rattle.std.specs.Prelude.{◌≡◌, ◌<◌, All, IfErr, IfOk, map, vec_len};
ghost use Rattle.txc_call_registry.specs.Objects.{numbers_of};
ghost use Rattle.txc_site_workers.specs.Histories.{HaveHistoriesBy};
ghost use Rattle.txc_site_workers.specs.Plans.{nodes_of, share_of, IsPlan};
ghost use Rattle.txc_site_workers.specs.Sites.{AreWorkersRefused, numbers_below, HaveCome, IsClientRefused, IsNewClient};
ghost use Rattle.txc_site_workers.specs.WorkerClients.{AreGuests};
ghost use Rattle.txc_site_keeper.specs.Refusals.{IsKeeperRefused};
ghost use Rattle.txc_site_workers.specs.SiteKeeperByPlan.{IsTendedAsPlanned};
ghost use Rattle.txc_site_keeper.specs.SiteKeeper.{IsTendedBy};

use crate::client::SiteClient;
use crate::error::OpenError;
use crate::function_table::{FunctionTable, registry};
use crate::plan::Plan;
use crate::site_parts::{SiteParts, run_keeper};
use crate::worker::Worker;
use std::alloc::Global;
use std::sync::Wait;
use std::thread::{self, Threads};
use txc_call_definition::Definition;
use txc_call_permits::PermitPool;
use txc_db::Naming;
use txc_site_keeper::{Clock, KeeperSettings, KeeperTotals, SiteError, StopFlag};
use txc_site_ledger::CommitCounters;

/// Makes the client of this number, with a new pass at each node.
#[tactic(auto, using(txc_site_keeper::proofs::NoPass::no_pass))]
pub(crate) fn client<'a, A: FunctionTable<D>, D: Definition, J: Naming>(
    rt: &impl Wait,
    alloc: Global,
    foundation: &'a SiteParts<A, J>,
    number: usize,
    committers: &CommitCounters<J>,
    pool: &mut PermitPool,
) -> Result<SiteClient<'a, A, D, J>, SiteError>
    requires plan { IsPlan foundation.now.plan }
    requires stored_so { HaveHistoriesBy foundation.now.plan J.node_histories }
    requires number { number < vec_len foundation.now.tallies }
    ensures plan { IfOk result (λ client. client.plan ≡ foundation.now.plan) }
    ensures new { IfOk result (IsNewClient J.node_histories) }
    ensures reader { IfOk result (λ client. numbers_of client.reader.objects ≡ A.numbers) }
    ensures writer { IfOk result (λ client. numbers_of client.writer ≡ A.numbers) }
    ensures refused { IfErr result (IsClientRefused A.numbers) }
{
    let functions = registry::<A, D>(alloc, pool)?;
    let reader = foundation.ledger.reader(
        rt,
        alloc,
        &foundation.nodes,
        functions,
        foundation.plan.renew_after,
    )?;
    let writer = registry::<A, D>(alloc, pool)?;
    let tally = &foundation.tallies[number];
    let committer = committers.committer();
    Ok(SiteClient::new(foundation, reader, writer, committer, tally))
}

/// The client of the thread of this number.
#[derive(Drop)]
struct WorkerClient<C> {
    number: usize,
    client: C,
}

/// Makes the clients of `count` threads, by their numbers.
fn guests<'a, A: FunctionTable<D>, D: Definition, J: Naming>(
    rt: &impl Wait,
    alloc: Global,
    foundation: &'a SiteParts<A, J>,
    committers: &CommitCounters<J>,
    pool: &mut PermitPool,
    count: usize,
) -> Result<Vec<WorkerClient<SiteClient<'a, A, D, J>>>, SiteError>
    requires plan { IsPlan foundation.now.plan }
    requires stored_so { HaveHistoriesBy foundation.now.plan J.node_histories }
    requires tallies { vec_len foundation.now.tallies ≡ count }
    ensures each { IfOk result (λ guests. vec_len guests ≡ count) }
    ensures numbers { IfOk result (λ guests.
        map (λ guest. guest.number) guests.items ≡ numbers_below count) }
    ensures plan { IfOk result (λ guests.
        All (λ guest. guest.client.plan ≡ foundation.now.plan) guests.items) }
    ensures new { IfOk result (λ guests.
        All (λ guest. IsNewClient J.node_histories guest.client) guests.items) }
    ensures refused { IfErr result (IsClientRefused A.numbers) }
{
    let mut guests = Vec::with_capacity(alloc, count)?;
    for number in 0..count {
        let client = client(rt, alloc, foundation, number, committers, pool)?;
        guests.push(WorkerClient { number, client })?;
    }
    Ok(guests)
}

/// Starts a thread for each client, and returns their results, in the order of their numbers, once all have
/// ended.
fn run_each<A, D, V, J, R>(
    rt: &R,
    alloc: Global,
    plan: Plan,
    guests: Vec<WorkerClient<SiteClient<'_, A, D, J>>>,
    workers: &V,
) -> Result<Vec<V::Output>, OpenError>
where
    A: FunctionTable<D> + Send + Sync,
    D: Definition + Send,
    V: Worker<A, D> + Sync,
    J: Naming + Send + Sync,
    R: Threads + Wait + Sync,
    requires { AreGuests J.node_histories plan guests.items }
    ensures each { IfOk result (λ outputs. vec_len outputs ≡ vec_len guests.entry) }
    ensures gives { IfOk result (λ outputs.
        HaveCome (V.gives workers.now plan J.database_history) outputs.items) }
    ensures refused { IfErr result (λ error. error ≡ OpenError.Threads) }
{
    let visited = thread::map_vec(
        rt,
        guests,
        &|guest: WorkerClient<SiteClient<'_, A, D, J>>| -> V::Output
            requires { IsNewClient J.node_histories guest.client }
            ensures { V.gives workers.entry.now guest.entry.client.plan J.database_history
                guest.entry.number result }
        {
            let WorkerClient { number, client } = guest;
            workers.run(rt, alloc, number, &mut Some(client))
        },
    );
    match visited {
        Ok(outputs) => Ok(outputs),
        Err(_) => Err(OpenError::Threads),
    }
}

/// Results of the threads, and of the automatic maintenance, if there is one.
#[derive(Drop)]
pub(crate) struct WorkerOutputs<T> {
    pub(crate) outputs: Vec<T>,
    pub(crate) tended: Option<Result<KeeperTotals, SiteError>>,
}

/// Runs the threads in parallel with a thread for maintenance, until all have ended. If that thread cannot be
/// made, there is no maintenance.
fn run_kept<A, D, V, J, C, R>(
    rt: &R,
    alloc: Global,
    foundation: &SiteParts<A, J>,
    guests: Vec<WorkerClient<SiteClient<'_, A, D, J>>>,
    workers: &V,
    keeping: KeeperSettings,
    clock: &C,
) -> (
    Result<KeeperTotals, SiteError>,
    Result<Vec<V::Output>, OpenError>,
)
where
    A: FunctionTable<D> + Send + Sync,
    D: Definition + Send,
    V: Worker<A, D> + Sync,
    J: Naming + Send + Sync,
    C: Clock + Sync,
    R: Threads + Wait + Sync,
    requires { AreGuests J.node_histories foundation.now.plan guests.items }
    ensures tended { IfOk result.0
        (IsTendedBy J.database_history (nodes_of foundation.now.plan) (share_of foundation.now.plan) (C.tells clock.now) keeping) }
    ensures no_keeper { IfErr result.0 IsKeeperRefused }
    ensures each { IfOk result.1 (λ outputs. vec_len outputs ≡ vec_len guests.entry) }
    ensures gives { IfOk result.1 (λ outputs.
        HaveCome (V.gives workers.now foundation.now.plan J.database_history) outputs.items) }
    ensures refused { IfErr result.1 (λ error. error ≡ OpenError.Threads) }
{
    let ended = StopFlag::new();
    let plan = foundation.plan;
    foundation.moment.set(clock.now());
    thread::join(
        rt,
        || -> Result<KeeperTotals, SiteError>
            ensures { IfOk result
                (IsTendedBy J.database_history (nodes_of foundation.entry.now.plan) (share_of foundation.entry.now.plan) (C.tells clock.entry.now) keeping)
                × IfErr result IsKeeperRefused }
        { run_keeper(rt, alloc, foundation, keeping, clock, &ended) },
        || -> Result<Vec<V::Output>, OpenError>
            requires { AreGuests J.node_histories plan guests.items }
            ensures { IfOk result (λ outputs. (vec_len outputs ≡ vec_len guests.entry)
                × HaveCome (V.gives workers.entry.now plan J.database_history) outputs.items)
                × IfErr result (λ error. error ≡ OpenError.Threads) }
        {
            let visited = run_each(rt, alloc, plan, guests, workers);
            ended.give();
            visited
        },
    )
}

/// Starts `count` threads, each with a client of its own, and returns their results, in the order of their
/// numbers, once all have ended. If the plan asks for it, one more thread runs the maintenance meanwhile.
#[tactic(auto, using(crate::proofs::Tended::planned_none, crate::proofs::Tended::planned_some))]
pub(crate) fn run_workers<A, D, V, J, C, R>(
    rt: &R,
    alloc: Global,
    foundation: &SiteParts<A, J>,
    committers: &CommitCounters<J>,
    pool: &mut PermitPool,
    count: usize,
    workers: &V,
    clock: &C,
) -> Result<WorkerOutputs<V::Output>, OpenError>
where
    A: FunctionTable<D> + Send + Sync,
    D: Definition + Send,
    V: Worker<A, D> + Sync,
    J: Naming + Send + Sync,
    C: Clock + Sync,
    R: Threads + Wait + Sync,
    requires plan { IsPlan foundation.now.plan }
    requires stored_so { HaveHistoriesBy foundation.now.plan J.node_histories }
    requires tallies { vec_len foundation.now.tallies ≡ count }
    ensures each { IfOk result (λ came. vec_len came.outputs ≡ count) }
    ensures gives { IfOk result (λ came.
        HaveCome (V.gives workers.now foundation.now.plan J.database_history) came.outputs.items) }
    ensures tended { IfOk result (λ came.
        IsTendedAsPlanned foundation.now.plan (C.tells clock.now) J.database_history came.tended) }
    ensures refused { IfErr result (AreWorkersRefused A.numbers) }
{
    let guests = guests::<A, D, J>(rt, alloc, foundation, committers, pool, count)?;
    let Some(keeping) = foundation.plan.keep else {
        return Ok(WorkerOutputs {
            outputs: run_each(rt, alloc, foundation.plan, guests, workers)?,
            tended: None,
        });
    };
    let (tended, outputs) = run_kept(rt, alloc, foundation, guests, workers, keeping, clock);
    Ok(WorkerOutputs {
        outputs: outputs?,
        tended: Some(tended),
    })
}
