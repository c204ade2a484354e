//! Opening a site.
ghost use Rattle.std.specs.Prelude.{◌≡◌, Err, IfErr, IfOk, length, vec_len};
ghost use Rattle.txc_db_carry.specs.Rooms.{IsHistoryFor};
ghost use Rattle.txc_db.specs.DatabaseReply.{IsDatabaseOf};
ghost use Rattle.txc_site.specs.SiteResult.{IsOpeningRefused, IsOpenRefused, IsVisited};
ghost use Rattle.txc_site_workers.specs.Plans.{IsPlan};
ghost use Rattle.txc_site_workers.specs.Sites.{IsDatabaseRefused};
ghost use Rattle.txc_site_workers.specs.SiteKeeperByPlan.{IsTendedAsPlanned};
ghost use Rattle.txc_site_ledger.specs.ChangeResult.{IsWritten};

use std::alloc::Global;
use std::marker::Brand;
use std::sync::Wait;
use std::thread::Threads;
use txc_call_definition::Definition;
use txc_call_permits::PermitPool;
use txc_db::{DbCore, Naming};
use txc_db_carry::new_database;
use txc_site_keeper::{Clock, CountedClock, KeeperTotals, SiteError};
use txc_site_ledger::{Change, ChangeResult, Ledger, write_change};
use txc_site_workers::{
    FinalState, FunctionTable, GenerationKind, OpenError, Plan, SiteStats, Worker, WorkerResults,
    over_new_histories, registry,
};

/// Result of a site.
#[derive(Drop)]
pub struct SiteResult<O, T> {
    /// Result of the opening, with its commit.
    pub opening: ChangeResult<O>,
    /// Result of each thread, in the order of their numbers.
    pub outputs: Vec<T>,
    /// Result of the automatic maintenance, or its error; `None` if the plan has none.
    pub tended: Option<Result<KeeperTotals, SiteError>>,
    /// Counts of the threads' work in all.
    pub stats: SiteStats,
    /// The state after them.
    pub last: FinalState,
}

/// Makes a new database, by the plan.
fn new_core(alloc: Global, plan: Plan) -> Result<DbCore, SiteError>
    requires { IsPlan plan }
    ensures room { IfOk result (λ core. IsHistoryFor plan.events core.events) }
    ensures limit { IfOk result (λ core. core.most ≡ plan.matching) }
    ensures refused { IfErr result IsDatabaseRefused }
{
    let mut core = new_database(alloc, plan.events)?;
    core.allow(plan.matching);
    Ok(core)
}

/// Opens a site as [`with_clock`] does, at a clock that counts how many times it was read.
pub fn with_site<A, D, O, V, R>(
    rt: &R,
    alloc: Global,
    plan: Plan,
    opening: &O,
    count: usize,
    workers: &V,
) -> Result<SiteResult<O::Output, V::Output>, OpenError>
where
    A: FunctionTable<D> + Send + Sync,
    D: Definition + Send,
    O: Change<A, D>,
    V: Worker<A, D> + Sync,
    R: Threads + Wait + Sync,
    ensures visited { IfOk result
        (IsVisited A.next plan count (O.makes opening.now) (V.gives workers.now)) }
    ensures unsound { ¬ (IsPlan plan) → result ≡ Err (OpenError.Site SiteError.Plan) }
    ensures refused { IfErr result
        (IsOpenRefused plan A.numbers (O.makes opening.now) (O.refuses opening.now)) }
{
    let clock = CountedClock::new();
    with_clock::<A, D, O, V, CountedClock, R>(rt, alloc, plan, opening, count, workers, &clock)
}

/// Opens a site: makes it by the plan, writes the opening in one read-write transaction, and then starts
/// `count` threads, each with a client of its own. Returns once all have ended.
///
/// If the plan asks for it, one more thread maintains the site at the clock, until the others have ended. If
/// that thread cannot be made, there is no maintenance.
///
/// The threads have the numbers from 0, and outputs come in that order. If a thread cannot be made, some run
/// one after the other, so none may wait for another.
#[tactic(auto, using(crate::proofs::Opened::visit_so, txc_site_workers::proofs::Tended::tended_at))]
pub fn with_clock<A, D, O, V, C, R>(
    rt: &R,
    alloc: Global,
    plan: Plan,
    opening: &O,
    count: usize,
    workers: &V,
    clock: &C,
) -> Result<SiteResult<O::Output, V::Output>, OpenError>
where
    A: FunctionTable<D> + Send + Sync,
    D: Definition + Send,
    O: Change<A, D>,
    V: Worker<A, D> + Sync,
    C: Clock + Sync,
    R: Threads + Wait + Sync,
    ensures visited { IfOk result
        (IsVisited A.next plan count (O.makes opening.now) (V.gives workers.now)) }
    ensures tended { IfOk result (λ visited.
        IsTendedAsPlanned plan (C.tells clock.now) visited.last.events visited.tended) }
    ensures unsound { ¬ (IsPlan plan) → result ≡ Err (OpenError.Site SiteError.Plan) }
    ensures refused { IfErr result
        (IsOpenRefused plan A.numbers (O.makes opening.now) (O.refuses opening.now)) }
{
    if !plan.is_sound() {
        return Err(OpenError::Site(SiteError::Plan));
    }
    let (opening, core) = opened::<A, D, O, R>(rt, alloc, plan, opening)?;
    let alone = GenerationKind::Alone;
    let visits = over_new_histories::<A, D, V, C, R>(
        rt, alloc, plan, core, alone, count, workers, clock,
    )?;
    let WorkerResults {
        outputs,
        tended,
        stats,
        core,
        left: _,
    } = visits;
    Ok(SiteResult {
        opening,
        outputs,
        tended,
        stats,
        last: FinalState::new(core, plan),
    })
}

/// Makes a new database, and writes the opening to it.
#[tactic(auto, using(crate::proofs::Opened::database_so, crate::proofs::Opened::opening_so))]
pub(crate) fn opened<A, D, O, R>(
    rt: &R,
    alloc: Global,
    plan: Plan,
    opening: &O,
) -> Result<(ChangeResult<O::Output>, DbCore), OpenError>
where
    A: FunctionTable<D>,
    D: Definition,
    O: Change<A, D>,
    R: Wait,
    requires { IsPlan plan }
    ensures opened { IfOk result (λ opened. IsWritten A.next opened.1.events (O.makes opening.now)
        opened.0.output opened.0.committed) }
    ensures room { IfOk result (λ opened. IsHistoryFor plan.events opened.1.events) }
    ensures once { IfOk result (λ opened. vec_len opened.0.conflicts ≡ 0) }
    ensures refused { IfErr result
        (IsOpenRefused plan A.numbers (O.makes opening.now) (O.refuses opening.now)) }
{
    let core = new_core(alloc, plan)?;
    open::<A, D, O, Brand, R>(rt, alloc, plan, core, opening)
}

/// Writes the opening to the database, in one try. Its history is the named one.
fn open<A, D, O, J, R>(
    rt: &R,
    alloc: Global,
    plan: Plan,
    core: DbCore,
    opening: &O,
) -> Result<(ChangeResult<O::Output>, DbCore), OpenError>
where
    A: FunctionTable<D>,
    D: Definition,
    O: Change<A, D>,
    J: Naming,
    R: Wait,
    requires plan { IsPlan plan }
    requires database { core.events ≡ J.database_history }
    ensures opened { IfOk result (λ opened. IsWritten A.next J.database_history (O.makes opening.now)
        opened.0.output opened.0.committed) }
    ensures once { IfOk result (λ opened. vec_len opened.0.conflicts ≡ 0) }
    ensures database { IfOk result (λ opened. IsDatabaseOf J.database_history opened.1) }
    ensures refused { IfErr result
        (IsOpeningRefused A.numbers J.database_history (O.makes opening.now) (O.refuses opening.now)) }
{
    let (ledger, committers) = Ledger::<J>::new(alloc, core)?;
    let mut committer = committers.committer();
    let mut pool = PermitPool::new(alloc, plan.permits)?;
    let functions = registry::<A, D>(alloc, &mut pool)?;
    let (written, _functions) = write_change(
        rt,
        alloc,
        &ledger,
        functions,
        &mut committer,
        1,
        opening,
    );
    match written {
        Ok(written) => Ok((written, ledger.into_core())),
        Err(cause) => Err(OpenError::Opening(cause)),
    }
}
