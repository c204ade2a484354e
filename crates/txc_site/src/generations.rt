//! A site in generations, one after the other.
ghost use Rattle.std.specs.Prelude.{◌≡◌, ◌<◌, ◌⊎◌, [], All, Err, IfErr, IfOk, IfSome, length};
ghost use mathlib.Core.List.{IsPrefix};
ghost use Rattle.txc_db_carry.specs.Rooms.{IsHistoryFor};
ghost use Rattle.txc_db.specs.DatabaseValue.{front_of};
ghost use Rattle.txc_site.specs.Generations.{HaveServed, IsGeneration, IsGenerationRefused, IsNextRefused, IsServed, IsShort, committed_with, last_state};
ghost use Rattle.txc_site.specs.SiteResult.{IsOpenRefused};
ghost use Rattle.txc_site_workers.specs.Plans.{IsPlan};
ghost use Rattle.txc_site_workers.specs.CarriedEntries.{EndInOneState};

use crate::error::GenerationError;
use crate::opening::opened;
use crate::recurring::{Generation, Recurring};
use std::alloc::{AllocError, Global};
use std::sync::Wait;
use std::thread::Threads;
use txc_app::App;
use txc_call_definition::Definition;
use txc_db::{Answered, DbCore, DbError, HistoryFront};
use txc_db_carry::renew;
use txc_shared::NodeRemains;
use txc_site_keeper::{Clock, CountedClock, SiteError};
use txc_site_ledger::{Change, ChangeResult};
use txc_site_workers::{
    CarriedEntries, FunctionTable, GenerationKind, OpenError, Plan, WorkerResults,
    over_new_histories,
};
use txc_stamp::Stamp;
use txc_txn_rw::{Committed, Given};

/// Result of the opening of a site in generations, with its commit. It has no front, which would keep the log
/// of the first generation in memory: that generation begins with it.
#[derive(Drop)]
pub struct OpeningCommit<O> {
    pub output: O,
    /// The newest stamp after the commit.
    pub stamp: Stamp,
    /// The results that its transaction has read, in order.
    pub answers: Vec<Given>,
    pub conflicts: Vec<Answered<Stamp>>,
}

/// Result of a site in all its generations.
#[derive(Drop)]
pub struct GenerationsResult<O, T> {
    /// Result of the opening, with its commit.
    pub opening: OpeningCommit<O>,
    /// Result of each thread of each generation, in the order of the generations and of the threads.
    pub generations: Vec<Vec<T>>,
    /// `Ok` if the workers asked for no other generation, or the error that ended them.
    pub end: Result<(), GenerationError>,
}

/// The beginning of a generation.
#[derive(Drop)]
struct Begun<A: App> {
    core: DbCore,
    front: HistoryFront,
    carried_entries: Option<CarriedEntries<A>>,
}

/// The end of a generation.
#[derive(Drop)]
struct Ended<A: App, T> {
    generation: Generation<T>,
    core: DbCore,
    left: Vec<NodeRemains<A>>,
}

/// Returns a front of the whole history, which begins with the events seen before. Fails as `Broken` if the
/// history is shorter.
fn whole_front(core: &DbCore, seen: &HistoryFront) -> Result<HistoryFront, DbError>
    requires { core.now.events ≡ seen.now.events }
    ensures whole { IfOk result (λ front. front ≡ front_of core.now) }
    ensures goes_on { IfOk result (λ front. IsPrefix seen.now.history front.history) }
    ensures refused { IfErr result (λ error. (error ≡ DbError.Memory)
        ⊎ ((error ≡ DbError.Broken) × (length core.now.history < length seen.now.history))) }
{
    let whole = core.front()?;
    if whole.len() < seen.len() {
        return Err(DbError::Broken);
    }
    whole.agree(seen);
    Ok(whole)
}

/// Runs one generation: it begins with this database, and ends once all threads have.
#[tactic(auto, using(txc_site_workers::proofs::Tended::tended_at))]
fn generation<A, D, V, C, R>(
    rt: &R,
    alloc: Global,
    plan: Plan,
    begun: Begun<A>,
    number: usize,
    count: usize,
    workers: &V,
    clock: &C,
) -> Result<Ended<A, V::Output>, GenerationError>
where
    A: FunctionTable<D> + Send + Sync,
    D: Definition + Send,
    V: Recurring<A, D> + Sync,
    C: Clock + Sync,
    R: Threads + Wait + Sync,
    requires plan { IsPlan plan }
    requires row { begun.core.events ≡ begun.front.events }
    requires room { IsHistoryFor plan.events begun.front.events }
    requires carried { IfSome begun.carried_entries (λ w. w.front.events ≡ begun.core.events) }
    ensures generation { IfOk result (λ ended.
        IsGeneration plan (C.tells clock.now) count (V.gives workers.now) ended.generation) }
    ensures number { IfOk result (λ ended. ended.generation.number ≡ number) }
    ensures begun { IfOk result (λ ended. ended.generation.begun ≡ begun.front) }
    ensures ended { IfOk result (λ ended. ended.generation.ended ≡ front_of ended.core) }
    ensures left { IfOk result (λ ended. All (λ left. left.seen.events ≡ ended.core.events) ended.left.items) }
    ensures refused { IfErr result (IsGenerationRefused A.numbers) }
{
    let Begun {
        core,
        front: begun,
        carried_entries,
    } = begun;
    let succession = GenerationKind::InTurn(carried_entries);
    let visits = over_new_histories::<A, D, V, C, R>(
        rt, alloc, plan, core, succession, count, workers, clock,
    )?;
    let WorkerResults {
        outputs,
        tended,
        stats,
        core,
        left,
    } = visits;
    let ended = whole_front(&core, &begun)?;
    let generation = Generation {
        number,
        begun,
        ended,
        outputs,
        tended,
        stats,
    };
    Ok(Ended {
        generation,
        core,
        left,
    })
}

/// Returns the entries for the nodes of the next generation, or `None` if there is no front of the whole
/// history.
fn carried_entries<A: App>(
    left: Vec<NodeRemains<A>>,
    whole: Result<HistoryFront, AllocError>,
    front: &HistoryFront,
) -> Option<CarriedEntries<A>>
    requires seen { IfOk whole (λ whole. All (λ left. left.seen.events ≡ whole.events) left.items) }
    requires state { IfOk whole (λ whole. EndInOneState whole front.now) }
    ensures { IfSome result (λ w. w.front ≡ front.now) }
{
    let Ok(whole) = whole else {
        return None;
    };
    let Ok(front) = front.again() else {
        return None;
    };
    Some(CarriedEntries {
        nodes: left,
        whole,
        front,
    })
}

/// Returns the beginning of the next generation: the newest state of this database, and the entries of these
/// nodes.
fn next<A: App>(
    alloc: Global,
    plan: Plan,
    mut core: DbCore,
    left: Vec<NodeRemains<A>>,
) -> Result<Begun<A>, GenerationError>
    requires plan { IsPlan plan }
    requires left { All (λ left. left.seen.events ≡ core.events) left.items }
    ensures row { IfOk result (λ begun. begun.core.events ≡ begun.front.events) }
    ensures room { IfOk result (λ begun. IsHistoryFor plan.events begun.front.events) }
    ensures carried { IfOk result (λ begun. IfSome begun.carried_entries (λ w. w.front.events ≡ begun.core.events)) }
    ensures state { IfOk result (λ begun. last_state begun.front ≡ last_state (front_of core)) }
    ensures anew { IfOk result (λ begun. IsShort begun.front) }
    ensures refused { IfErr result (IsNextRefused plan.events (front_of core)) }
{
    let whole = core.front();
    if let Err(cause) = renew(alloc, &mut core, plan.events) {
        return Err(GenerationError::Carry(cause));
    }
    let front = core.front()?;
    let carried_entries = carried_entries(left, whole, &front);
    Ok(Begun {
        core,
        front,
        carried_entries,
    })
}

/// Splits the result of the opening from the front of its commit.
fn parts<O>(written: ChangeResult<O>) -> (OpeningCommit<O>, HistoryFront)
    ensures output { result.0.output ≡ written.output }
    ensures committed { committed_with result.0 result.1 ≡ written.committed }
    ensures conflicts { result.0.conflicts ≡ written.conflicts }
{
    let ChangeResult {
        output,
        committed,
        conflicts,
    } = written;
    let Committed {
        stamp,
        answers,
        front,
    } = committed;
    let opened = OpeningCommit {
        output,
        stamp,
        answers,
        conflicts,
    };
    (opened, front)
}

/// Runs as [`with_generations_at`] does, at a clock that counts how many times it was read.
pub fn with_generations<A, D, O, V, R>(
    rt: &R,
    alloc: Global,
    plan: Plan,
    opening: &O,
    count: usize,
    workers: &V,
) -> Result<GenerationsResult<O::Output, V::Output>, OpenError>
where
    A: FunctionTable<D> + Send + Sync,
    D: Definition + Send,
    O: Change<A, D>,
    V: Recurring<A, D> + Sync,
    R: Threads + Wait + Sync,
    ensures served { IfOk result (IsServed A.next plan (λ now. Unit {0}) count A.numbers
        (O.makes opening.now) (V.gives workers.now) (V.continues workers.now)) }
    ensures unsound { ¬ (IsPlan plan) → result ≡ Err (OpenError.Site SiteError.Plan) }
    ensures refused { IfErr result
        (IsOpenRefused plan A.numbers (O.makes opening.now) (O.refuses opening.now)) }
{
    let clock = CountedClock::new();
    with_generations_at::<A, D, O, V, CountedClock, R>(
        rt, alloc, plan, opening, count, workers, &clock,
    )
}

/// Opens a site as [`with_clock`](crate::with_clock) does, and runs the threads. Once all have ended, the
/// workers answer whether they want another generation. If they do, the newest state continues in a new history
/// with the plan's room, with new nodes and `count` threads; and so on.
///
/// Stamps begin at 0 again in each generation. If the plan stores no records, each node begins with the entries
/// of the one of its number that were still valid at the end; otherwise it begins empty. An error after the
/// opening is in the result, next to the results of the generations before.
pub fn with_generations_at<A, D, O, V, C, R>(
    rt: &R,
    alloc: Global,
    plan: Plan,
    opening: &O,
    count: usize,
    workers: &V,
    clock: &C,
) -> Result<GenerationsResult<O::Output, V::Output>, OpenError>
where
    A: FunctionTable<D> + Send + Sync,
    D: Definition + Send,
    O: Change<A, D>,
    V: Recurring<A, D> + Sync,
    C: Clock + Sync,
    R: Threads + Wait + Sync,
    ensures served { IfOk result (IsServed A.next plan (C.tells clock.now) count A.numbers
        (O.makes opening.now) (V.gives workers.now) (V.continues workers.now)) }
    ensures unsound { ¬ (IsPlan plan) → result ≡ Err (OpenError.Site SiteError.Plan) }
    ensures refused { IfErr result
        (IsOpenRefused plan A.numbers (O.makes opening.now) (O.refuses opening.now)) }
{
    if !plan.is_sound() {
        return Err(OpenError::Site(SiteError::Plan));
    }
    let (written, core) = opened::<A, D, O, R>(rt, alloc, plan, opening)?;
    let (opening, front) = parts(written);
    let mut generations = Vec::new(alloc);
    let end = go_on::<A, D, V, C, R>(
        rt,
        alloc,
        plan,
        Begun {
            core,
            front,
            carried_entries: None,
        },
        count,
        workers,
        clock,
        &mut generations,
    );
    Ok(GenerationsResult {
        opening,
        generations,
        end,
    })
}

/// Runs one generation after the other, until the workers want no other or one fails.
#[tactic(auto, using(crate::proofs::Turns::failed_so))]
fn go_on<A, D, V, C, R>(
    rt: &R,
    alloc: Global,
    plan: Plan,
    begun: Begun<A>,
    count: usize,
    workers: &V,
    clock: &C,
    generations: &mut Vec<Vec<V::Output>>,
) -> Result<(), GenerationError>
where
    A: FunctionTable<D> + Send + Sync,
    D: Definition + Send,
    V: Recurring<A, D> + Sync,
    C: Clock + Sync,
    R: Threads + Wait + Sync,
    requires plan { IsPlan plan }
    requires row { begun.core.events ≡ begun.front.events }
    requires room { IsHistoryFor plan.events begun.front.events }
    requires carried { IfSome begun.carried_entries (λ w. w.front.events ≡ begun.core.events) }
    requires none { generations.old.items ≡ [] }
    ensures { HaveServed plan (C.tells clock.now) count A.numbers (V.gives workers.now) (V.continues workers.now)
        begun.front generations.new.items result }
{
    let mut begun = begun;
    for _ in rt.forever() {
        generations.reserve(1)?;
        let number = generations.len();
        let ended = generation::<A, D, V, C, R>(
            rt, alloc, plan, begun, number, count, workers, clock,
        )?;
        let Ended {
            generation,
            core,
            left,
        } = ended;
        let should_continue = workers.should_continue(&generation);
        generations.push_reserved(generation.outputs);
        if !should_continue {
            return Ok(());
        }
        begun = next(alloc, plan, core, left)?;
    }
    unreachable!()
}
