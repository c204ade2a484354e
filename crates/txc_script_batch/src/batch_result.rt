//! Jobs that clients of known settings ran.
ghost use Rattle.std.specs.Prelude.{◌≡◌, ℕ, List, All, IfErr, IfOk, IsPermutation};
ghost use Rattle.std.specs.List.Sorted.{IsStrictlyIncreasing};
ghost use Rattle.txc_call_registry.specs.Objects.{numbers_of};
ghost use Rattle.txc_work.specs.Batches.{job_numbers, result_numbers, IsResultOf, Meets, NamesOneOf};

mod texts;

use std::alloc::Global;
use std::marker::Model;
use std::sync::Wait;
use std::thread::Threads;
use txc_app::App;
use txc_call_registry::Cacheable;
use txc_db::Naming;
use txc_script_settings::Settings;
use txc_txn_client::Client;
use txc_work::{BatchError, Gate, Job, Receipted, run_batch};

/// A gate that lets each job pass.
#[derive(Drop)]
struct OpenGate;

impl Gate for OpenGate {
    fn before(&self, job: &Job) {}

    fn after(&self, job: &Job) {}
}

/// The results of jobs, and the settings of the clients that ran them and of their nodes. Only
/// [`BatchResult::by_clients`] makes it, since no result shows these settings.
#[derive(Drop)]
pub struct BatchResult {
    settings: Settings,
    results: Vec<Receipted>,
}

impl Model for BatchResult {
    ghost use Rattle.txc_script_batch.specs.BatchClients.{RanValue};

    ghost Value = { RanValue };

    ghost view = { λ r. record { settings = r.settings; results = r.results.items } };
}

impl BatchResult {
    ghost use Rattle.txc_script_batch.specs.BatchClients.{AreClientsBy};

    /// Runs the jobs, each once, by one of the clients, which are made by the settings. Fails if a job has no
    /// result or two, or memory cannot be allocated.
    pub fn by_clients<A, C, J, H>(
        rt: &H,
        alloc: Global,
        settings: Settings,
        jobs: Vec<Job>,
        clients: Vec<Client<'_, A, C, J>>,
    ) -> Result<BatchResult, BatchError>
    where
        A: App + Send + Sync,
        C: Cacheable + Send,
        J: Naming + Send + Sync,
        H: Threads + Wait + Sync,
        ghost functions: { List ℕ }
        requires clients { AreClientsBy settings J.node_histories clients.items }
        requires functions { All (λ client. numbers_of client.objects ≡ functions) clients.items }
        ensures settings { IfOk result (λ ran. ran.settings ≡ settings) }
        ensures once { IfOk result (λ ran. IsPermutation (job_numbers jobs.items) (result_numbers ran.results)) }
        ensures in_order { IfOk result (λ ran. IsStrictlyIncreasing (result_numbers ran.results)) }
        ensures met { IfOk result (λ ran.
            All (IsResultOf jobs.items (Meets A.next J.database_history J.node_histories functions)) ran.results) }
        ensures named { IfErr result (NamesOneOf (job_numbers jobs.items)) }
    {
        let results = run_batch(rt, alloc, jobs, clients, &OpenGate)?;
        Ok(BatchResult { settings, results })
    }

    /// Returns the results, in the order of the jobs' numbers.
    pub fn results(&self) -> &[Receipted]
        ensures { result.now ≡ self.now.results }
    {
        &self.results
    }
}
