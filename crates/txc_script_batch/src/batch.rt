//! The state of a batch's script: a database and its pincushion, and the queued jobs.
ghost use Rattle.std.specs.Prelude.{◌≡◌, Some, IfOk, OnOk, OnErr};
ghost use Rattle.txc_script_batch.specs.BatchScripts.{DoesOrder, Queues};
ghost use Rattle.txc_script_batch.specs.BatchStates.{new_batch};
ghost use Rattle.txc_script_batch.specs.WorkerFunctions.{numbers_in, IsCrew};
ghost use Rattle.txc_script_batch.specs.OrderEffects.{IsBrokenOff, IsObeyed};

use crate::order::{Order, Queued};
use crate::plain_database::PlainDatabase;
use crate::prepared::{PrepareError, push_prepared};
use std::alloc::{AllocError, Global};
use std::marker::Model;
use txc_app::App;
use txc_call_registry::{Cacheable, Registry};
use txc_rows::Change;
use txc_script_settings::Settings;
use txc_stamp::Stamp;
use txc_txn_ports::Bounds;
use txc_work::Job;

/// The database and the workers of a batch, and its jobs.
#[derive(Drop)]
pub struct Batch<A: App, C: Cacheable> {
    /// The settings of the nodes and of the clients.
    pub(crate) settings: Settings,
    pub(crate) source: PlainDatabase,
    /// The functions of each worker.
    pub(crate) crew: Vec<Registry<A, C>>,
    /// In the order of their lines.
    pub(crate) jobs: Vec<Job>,
}

impl<A: App, C: Cacheable> Model for Batch<A, C> {
    ghost use Rattle.std.specs.Prelude.{◌≡◌, length};
    ghost use Rattle.txc_script_batch.specs.BatchStates.{BatchState};
    ghost use Rattle.txc_script_batch.specs.WorkerFunctions.{numbers_in, IsCrew};

    ghost Value = { BatchState };

    ghost view = { λ b. record {
      settings = b.settings;
      source = b.source;
      functions = numbers_in b.crew.items;
      jobs = b.jobs.items;
    } };

    ghost invariant = { λ b. IsCrew b.settings.workers b.crew.items };
}

impl<A: App, C: Cacheable> Batch<A, C> {
    /// Makes a batch without jobs.
    pub fn new(
        alloc: Global,
        settings: Settings,
        source: PlainDatabase,
        crew: Vec<Registry<A, C>>,
    ) -> Batch<A, C>
        requires { IsCrew settings.workers crew.items }
        ensures { result ≡ new_batch settings source (numbers_in crew.items) }
    {
        Batch {
            settings,
            source,
            crew,
            jobs: Vec::new(alloc),
        }
    }

    /// Returns the jobs, in the order of their lines.
    pub fn jobs(&self) -> &[Job]
        ensures { result.now ≡ self.now.jobs }
    {
        &self.jobs
    }

    /// Makes a change.
    fn write(&mut self, alloc: Global, change: &Change) -> Result<Stamp, PrepareError>
        ensures { DoesOrder self.old (Order.Write change.now) (Some result) self.new }
    {
        self.source.write(alloc, change)
    }

    /// Makes a pin.
    fn pin(&mut self, alloc: Global, now: u64) -> Result<Stamp, PrepareError>
        ensures { DoesOrder self.old (Order.Pin now) (Some result) self.new }
    {
        self.source.pin(alloc, now)
    }

    /// Appends a job.
    fn queue(&mut self, queued: Queued) -> Result<(), AllocError>
        ensures after { OnOk result (Queues queued self.old self.new) }
        ensures unchanged { OnErr result (self.new ≡ self.old) }
    {
        let Queued {
            now,
            staleness,
            keys,
        } = queued;
        let Ok(number) = u32::try_from(self.jobs.len()) else {
            return Err(AllocError);
        };
        let bounds = Bounds {
            now,
            staleness,
            at_least: Stamp::ZERO,
        };
        self.jobs.push(Job {
            number,
            bounds,
            keys,
        })?;
        Ok(())
    }

    /// Executes an order, appends its output to the text, and returns whether that has a refusal. Fails only if
    /// memory cannot be allocated.
    pub fn run_line(
        &mut self,
        alloc: Global,
        order: Order,
        text: &mut Vec<u8>,
    ) -> Result<bool, AllocError>
        ensures after { IfOk result (IsObeyed self.old order self.new text.old.items text.new.items) }
        ensures broke { OnErr result (IsBrokenOff self.old order self.new) }
        ensures unchanged { OnErr result (text.new.items ≡ text.old.items) }
    {
        match order {
            Order::Write(change) => {
                let written = self.write(alloc, &change);
                push_prepared(alloc, text, &written)
            }
            Order::Pin(now) => {
                let pinned = self.pin(alloc, now);
                push_prepared(alloc, text, &pinned)
            }
            Order::Run(queued) => {
                self.queue(queued)?;
                Ok(false)
            }
        }
    }
}
