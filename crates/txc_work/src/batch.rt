//! A batch of jobs.
ghost use denote.Param.Send.{IsSend, IsSync};
ghost use Rattle.std.specs.Prelude.{◌≡◌, ◌+◌, ◌<◌, ◌≤◌, [], ℕ, List, All, Err, IfErr, IfOk, IsOk, IsPermutation, vec_capacity, vec_len};
ghost use Rattle.std.specs.List.Sorted.{IsStrictlyIncreasing};
ghost use Rattle.crossbeam_queue.specs.Passes.{IsPassOf};
ghost use Rattle.txc_call_registry.specs.Objects.{numbers_of};
ghost use Rattle.txc_work.specs.Batches.{job_numbers, result_numbers, IsLeastTwice, IsResultOf, Meets, NamesOneOf};
ghost use Rattle.txc_work.specs.Workers.{Implies, IsWorkerOf};

use crate::error::BatchError;
use crate::gate::Gate;
use crate::job::{Job, Receipted};
use crate::numbering::{distinct_numbers, in_order};
use crate::queues::{Batch, JobQueue, ResultQueue, next_result, put_jobs};
use crate::worker::{Worker, equip, work};
use crossbeam_queue::Pass;
use std::alloc::{AllocError, Global};
use std::marker::Brand;
use std::sync::Wait;
use std::thread::{self, Threads};
use txc_app::App;
use txc_call_registry::Cacheable;
use txc_db::Naming;
use txc_txn_client::Client;

/// The most clients of a batch.
pub const MAX_CLIENTS: usize = 8;

/// Runs each job once, by one of the clients, and returns the results in the order of the jobs' numbers.
///
/// Each client has a thread, the last one the caller's, and continues with the next job however the one before
/// ended. If no thread can be made for a client, the others run its jobs. Jobs begin in the order in which they
/// are in `jobs`, each between two calls of the gate. If two jobs have one number, or memory for the batch
/// itself cannot be allocated, it fails, runs no job and does not call the gate.
pub fn run_batch<A, C, J, G, R>(
    rt: &R,
    alloc: Global,
    jobs: Vec<Job>,
    clients: Vec<Client<'_, A, C, J>>,
    gate: &G,
) -> Result<Vec<Receipted>, BatchError>
where
    A: App + Send + Sync,
    C: Cacheable + Send,
    J: Naming + Send + Sync,
    G: Gate + Sync,
    R: Threads + Wait + Sync,
    ghost functions: { List ℕ }
    requires some { 0 < vec_len clients }
    requires few { vec_len clients ≤ MAX_CLIENTS }
    requires functions { All (λ client. numbers_of client.objects ≡ functions) clients.items }
    ensures once { IfOk result (λ results.
        IsPermutation (job_numbers jobs.items) (result_numbers results.items)) }
    ensures in_order { IfOk result (λ results. IsStrictlyIncreasing (result_numbers results.items)) }
    ensures met { IfOk result (λ results.
        All (IsResultOf jobs.items (Meets A.next J.database_history J.node_histories functions)) results.items) }
    ensures none { jobs.items ≡ [] → IsOk result }
    ensures twice { (number : ℕ) → IsLeastTwice (job_numbers jobs.items) number
        → result ≡ Err (BatchError.Twice number) }
    ensures named { IfErr result (NamesOneOf (job_numbers jobs.items)) }
{
    if jobs.is_empty() {
        return Ok(Vec::new(alloc));
    }
    let numbers = distinct_numbers(alloc, &jobs)?;
    let Ok(results) = run_all::<Brand, A, C, J, G, R>(rt, alloc, jobs, clients, gate) else {
        return Err(BatchError::Memory);
    };
    in_order(results, &numbers)
}

// Runs the jobs, at least one, and returns their results in the order in which they ended.
fn run_all<B, A, C, J, G, R>(
    rt: &R,
    alloc: Global,
    jobs: Vec<Job>,
    clients: Vec<Client<'_, A, C, J>>,
    gate: &G,
) -> Result<Vec<Receipted>, AllocError>
where
    B: Batch + Sync,
    A: App + Send + Sync,
    C: Cacheable + Send,
    J: Naming + Send + Sync,
    G: Gate + Sync,
    R: Threads + Wait + Sync,
    requires some { 0 < vec_len jobs }
    requires jobs { B.jobs ≡ jobs.items }
    requires functions { All (λ client. numbers_of client.objects ≡ B.functions) clients.items }
    requires given { Implies (Meets A.next J.database_history J.node_histories B.functions) B.meets }
    requires taken { Implies B.meets (Meets A.next J.database_history J.node_histories B.functions) }
    ensures { IfOk result (λ results.
        All (IsResultOf jobs.items (Meets A.next J.database_history J.node_histories B.functions)) results.items) }
{
    let count = jobs.len();
    let mut results = Vec::with_capacity(alloc, count)?;
    let (job_queue, job_pass) = JobQueue::<B>::ruled(alloc, count)?;
    let (result_queue, result_pass) = ResultQueue::<B>::ruled(alloc, count)?;
    let (job_pass, result_pass, workers) = equip(
        alloc,
        &job_queue,
        job_pass,
        &result_queue,
        result_pass,
        clients,
    )?;
    put_jobs(rt, &job_queue, job_pass, jobs);
    run_workers(rt, alloc, &job_queue, &result_queue, gate, workers);
    take_results(rt, &result_queue, result_pass, count, &mut results);
    Ok(results)
}

// Runs each worker on a thread of its own, the last one on this thread, until all jobs were taken.
fn run_workers<B, A, C, J, G, R>(
    rt: &R,
    alloc: Global,
    jobs: &JobQueue<B>,
    results: &ResultQueue<B>,
    gate: &G,
    mut workers: Vec<Worker<Client<'_, A, C, J>>>,
)
where
    B: Batch + Sync,
    A: App + Send + Sync,
    C: Cacheable + Send,
    J: Naming + Send + Sync,
    G: Gate + Sync,
    R: Threads + Wait + Sync,
    requires workers { All (IsWorkerOf jobs.now results.now B.functions) workers.items }
    requires meets { Implies (Meets A.next J.database_history J.node_histories B.functions) B.meets }
{
    let Some(last) = workers.pop() else {
        return;
    };
    thread::scope(
        thread::scope_env(),
        rt,
        |scope|
            requires gate { IsSync G.row }
            requires runtime { IsSync R.row }
            requires functions { IsSend C.row }
            requires workers { All (IsWorkerOf jobs.now results.now B.functions) workers.items }
            requires last { IsWorkerOf jobs.now results.now B.functions last }
            requires meets { Implies (Meets A.next J.database_history J.node_histories B.functions) B.meets }
        {
            for worker in workers {
                let _ = scope.spawn(
                    move ||
                        requires { IsWorkerOf jobs.now results.now B.functions worker
                            × Implies (Meets A.next J.database_history J.node_histories B.functions) B.meets }
                    { work(rt, alloc, jobs, results, gate, worker) },
                );
            }
            work(rt, alloc, jobs, results, gate, last);
        },
    );
}

// Takes the present results, as far as there is room.
fn take_results<B: Batch, R: Wait>(
    rt: &R,
    queue: &ResultQueue<B>,
    mut pass: Pass<Receipted, ()>,
    count: usize,
    results: &mut Vec<Receipted>,
)
    requires queue { IsPassOf queue.now pass }
    requires room { vec_len results.old + count ≤ vec_capacity results.old }
    requires of_batch { All (IsResultOf B.jobs B.meets) results.old.items }
    ensures of_batch { All (IsResultOf B.jobs B.meets) results.new.items }
{
    for _ in 0..count {
        match next_result(rt, queue, &mut pass) {
            Some(told) => results.push_reserved(told),
            None => break,
        }
    }
}
