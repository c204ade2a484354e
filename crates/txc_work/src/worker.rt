//! Workers: clients that run the jobs of a batch.
ghost use Rattle.std.specs.Prelude.{◌≡◌, All, IfOk};
ghost use Rattle.crossbeam_queue.specs.Passes.{IsPassOf};
ghost use Rattle.txc_call_registry.specs.Objects.{numbers_of};
ghost use Rattle.txc_work.specs.Batches.{Meets};
ghost use Rattle.txc_work.specs.Workers.{Implies, IsWorkerOf};

use crate::gate::Gate;
use crate::job::{Job, Receipted};
use crate::queues::{Batch, JobQueue, ResultQueue, Twins, next_job, put_result};
use crate::running::run_job;
use crossbeam_queue::Pass;
use std::alloc::{AllocError, Global};
use std::sync::Wait;
use txc_app::App;
use txc_call_registry::Cacheable;
use txc_db::Naming;
use txc_txn_client::Client;

/// A client, with its passes of both queues.
#[derive(Drop)]
pub(crate) struct Worker<K> {
    client: K,
    jobs: Pass<Job, ()>,
    results: Pass<Receipted, ()>,
}

/// The passes that put jobs into their queue and take results out of theirs, and the workers.
pub(crate) type Equipped<K> = (Pass<Job, ()>, Pass<Receipted, ()>, Vec<Worker<K>>);

/// Gives each client passes of both queues, split off from these.
pub(crate) fn equip<'a, B: Batch, A: App, C: Cacheable, J: Naming>(
    alloc: Global,
    jobs: &JobQueue<B>,
    mut job_pass: Pass<Job, ()>,
    results: &ResultQueue<B>,
    mut result_pass: Pass<Receipted, ()>,
    clients: Vec<Client<'a, A, C, J>>,
) -> Result<Equipped<Client<'a, A, C, J>>, AllocError>
    requires jobs { IsPassOf jobs.now job_pass }
    requires results { IsPassOf results.now result_pass }
    requires functions { All (λ client. numbers_of client.objects ≡ B.functions) clients.items }
    ensures jobs { IfOk result (λ equipped. IsPassOf jobs.now equipped.0) }
    ensures results { IfOk result (λ equipped. IsPassOf results.now equipped.1) }
    ensures workers { IfOk result (λ equipped.
        All (IsWorkerOf jobs.now results.now B.functions) equipped.2.items) }
{
    let mut workers = Vec::with_capacity(alloc, clients.len())?;
    for client in clients {
        workers.push(Worker {
            client,
            jobs: jobs.another::<Twins>(&mut job_pass),
            results: results.another::<Twins>(&mut result_pass),
        })?;
    }
    Ok((job_pass, result_pass, workers))
}

/// Runs jobs of the queue until all were taken.
pub(crate) fn work<B: Batch, A: App, C: Cacheable, J: Naming, G: Gate, R: Wait>(
    rt: &R,
    alloc: Global,
    jobs: &JobQueue<B>,
    results: &ResultQueue<B>,
    gate: &G,
    worker: Worker<Client<'_, A, C, J>>,
)
    requires worker { IsWorkerOf jobs.now results.now B.functions worker }
    requires meets { Implies (Meets A.next J.database_history J.node_histories B.functions) B.meets }
{
    let Worker {
        mut client,
        jobs: mut job_pass,
        results: mut result_pass,
    } = worker;
    for _ in rt.forever() {
        let Some(job) = next_job(rt, jobs, &mut job_pass) else {
            break;
        };
        let (told, same) = run_job(rt, alloc, client, gate, job);
        client = same;
        put_result(rt, results, &mut result_pass, told);
    }
}
