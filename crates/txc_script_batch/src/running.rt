//! Running jobs: the database and the pincushion of a batch are put under their locks, with new nodes, and each
//! worker gets a client of them.
ghost use Rattle.std.specs.Prelude.{◌≡◌, ◌≤◌, ℕ, List, All, IfErr, IfOk, length, map, vec_len};
ghost use Rattle.txc_stream.specs.declared.row.TheConstants.{MAX_CAPACITY as MAX_ROW};
ghost use Rattle.txc_call_registry.specs.Objects.{numbers_of};
ghost use Rattle.txc_work.specs.Batches.{job_numbers, NamesOneOf};
ghost use Rattle.txc_script_batch.specs.WorkerFunctions.{numbers_in, IsCrew};
ghost use Rattle.txc_script_batch.specs.JobResults.{AgreesWith, HaveRun};
ghost use Rattle.txc_script_batch.specs.Rows.{AreRowsOf, OutcomeIsOfRow};
ghost use Rattle.txc_script_batch.specs.BatchClients.{AreNodesBy};

use crate::batch::Batch;
use crate::batch_result::BatchResult;
use std::alloc::{AllocError, Global};
use std::marker::Brand;
use std::sync::Wait;
use std::thread::Threads;
use txc_app::App;
use txc_call_registry::{Cacheable, Registry};
use txc_cushion::Pincushion;
use txc_db::{Database, HistoryFront, Naming};
use txc_node::Record;
use txc_script_settings::Settings;
use txc_shared::{NodeSettings, SharedNode};
use txc_stream::EventRow;
use txc_txn_client::Client;
use txc_work::{BatchError, Outcome, Receipted};

/// Makes a log for each of `nodes` nodes, each with room for `room` records.
fn node_rows(alloc: Global, nodes: usize, room: usize) -> Result<Vec<EventRow<Record>>, AllocError>
    requires room { (1 ≤ room) × (room ≤ MAX_ROW) }
    ensures count { IfOk result (λ rows. vec_len rows ≡ nodes) }
    ensures rooms { IfOk result (λ rows. All (λ row. length row ≡ room) rows.items) }
{
    let mut rows = Vec::with_capacity(alloc, nodes)?;
    for _ in 0..nodes {
        rows.push(EventRow::new(alloc, room)?)?;
    }
    Ok(rows)
}

/// Makes the nodes of the logs, by their numbers.
fn nodes<A: App, J: Naming>(
    rt: &impl Wait,
    alloc: Global,
    settings: Settings,
    rows: Vec<EventRow<Record>>,
    database: &Database<J>,
) -> Result<Vec<SharedNode<A, J>>, AllocError>
    requires rows { AreRowsOf J.node_histories 0 rows.items }
    requires count { vec_len rows ≡ settings.nodes }
    ensures { IfOk result (λ nodes. AreNodesBy settings nodes.items) }
{
    let mut nodes = Vec::with_capacity(alloc, rows.len())?;
    for row in rows {
        let made = NodeSettings {
            number: nodes.len(),
            capacity: settings.capacity,
            recent: settings.recent,
        };
        nodes.push(SharedNode::new(rt, alloc, made, row, database)?)?;
    }
    Ok(nodes)
}

/// Makes a client of the database, the pincushion and the nodes for each registry.
fn clients<'a, A: App, C: Cacheable, J: Naming>(
    rt: &impl Wait,
    alloc: Global,
    database: &'a Database<J>,
    cushion: &'a Pincushion<J>,
    nodes: &'a [SharedNode<A, J>],
    crew: Vec<Registry<A, C>>,
    renew_after: u64,
) -> Result<Vec<Client<'a, A, C, J>>, AllocError>
    requires some { 1 ≤ length nodes.now }
    requires crew { IsCrew (vec_len crew) crew.items }
    ensures functions { IfOk result (λ clients.
        All (λ client. numbers_of client.objects ≡ numbers_in crew.items) clients.items) }
    ensures count { IfOk result (λ clients. vec_len clients ≡ vec_len crew) }
    ensures nodes { IfOk result (λ clients.
        All (λ client. map (λ pass. pass.settings) client.passes ≡ nodes.now) clients.items) }
    ensures renewal { IfOk result (λ clients. All (λ client. client.renew_after ≡ renew_after) clients.items) }
{
    let mut clients = Vec::with_capacity(alloc, crew.len())?;
    for registry in crew {
        match Client::new(rt, alloc, database, cushion, nodes, registry, renew_after) {
            Ok(client) => clients.push(client)?,
            Err(_) => return Err(AllocError),
        }
    }
    Ok(clients)
}

/// The history of a receipt agrees with that of this front. This is a lemma: it does nothing when it runs.
fn outcome_agrees(told: &HistoryFront, outcome: &Outcome)
    requires { OutcomeIsOfRow told.now.events outcome.now }
    ensures { AgreesWith told.now.history outcome.now }
{
    match outcome {
        Outcome::Receipt(receipt) => told.agree(&receipt.seen),
        Outcome::Refused(_) => {}
    }
}

/// The histories of all receipts agree with that of this front. This is a lemma: it does nothing when it runs.
fn results_agree(told: &HistoryFront, results: &[Receipted])
    requires { All (λ r. OutcomeIsOfRow told.now.events r.outcome) results.now }
    ensures { All (λ r. AgreesWith told.now.history r.outcome) results.now }
{
    for result in results {
        outcome_agrees(told, &result.outcome);
    }
}

/// Runs the jobs over nodes of the named logs.
fn run_over<A, C, J, H>(
    rt: &H,
    alloc: Global,
    batch: Batch<A, C>,
    rows: Vec<EventRow<Record>>,
) -> Result<BatchResult, BatchError>
where
    A: App + Send + Sync,
    C: Cacheable + Send,
    J: Naming + Send + Sync,
    H: Threads + Wait + Sync,
    ghost functions: { List ℕ }
    requires database { batch.source.database.events ≡ J.database_history }
    requires rows { AreRowsOf J.node_histories 0 rows.items }
    requires count { vec_len rows ≡ batch.settings.nodes }
    requires rooms { All (λ row. length row ≡ batch.settings.row_cap) rows.items }
    requires functions { batch.functions ≡ functions }
    ensures ran { IfOk result (HaveRun A.next batch) }
    ensures named { IfErr result (NamesOneOf (job_numbers batch.jobs)) }
{
    let Batch {
        settings,
        source,
        crew,
        jobs,
    } = batch;
    let (database, cushion) = source.into_parts();
    let Ok(told) = database.front() else {
        return Err(BatchError::Memory);
    };
    let Ok(database) = Database::<J>::new(alloc, database) else {
        return Err(BatchError::Memory);
    };
    let cushion = Pincushion::of_core(cushion);
    let Ok(nodes) = nodes(rt, alloc, settings, rows, &database) else {
        return Err(BatchError::Memory);
    };
    let renew_after = settings.renew_after;
    let Ok(clients) = clients(rt, alloc, &database, &cushion, &nodes, crew, renew_after) else {
        return Err(BatchError::Memory);
    };
    let ran = BatchResult::by_clients(rt, alloc, settings, jobs, clients)?;
    results_agree(&told, ran.results());
    Ok(ran)
}

/// Runs the jobs over the database and the pincushion of the batch, each once, by one of the workers. If memory
/// for the batch cannot be allocated, it runs no job.
pub fn run_jobs<A, C, H>(
    rt: &H,
    alloc: Global,
    batch: Batch<A, C>,
) -> Result<BatchResult, BatchError>
where
    A: App + Send + Sync,
    C: Cacheable + Send,
    H: Threads + Wait + Sync,
    ensures ran { IfOk result (HaveRun A.next batch) }
    ensures named { IfErr result (NamesOneOf (job_numbers batch.jobs)) }
{
    let settings = batch.settings;
    let Ok(rows) = node_rows(alloc, settings.nodes, settings.row_cap) else {
        return Err(BatchError::Memory);
    };
    run_over::<A, C, Brand, H>(rt, alloc, batch, rows)
}
