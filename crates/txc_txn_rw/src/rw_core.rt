ghost use Rattle.txc_call.specs.declared.frames.TheConstants.{MAX_CALL_ASKS};
ghost use Rattle.std.specs.Prelude.{◌≡◌, ◌<◌, ◌≤◌, ◌++◌, ◌∷◌, [], length, IfErr, IsOk, None, OnErr, OnOk};

mod asking;
mod by_hand;
mod replies;

use crate::given::Given;
use crate::reading::Reading;
use std::alloc::Global;
use std::marker::Model;
use txc_app::App;
use txc_call::CallMachine;
use txc_call_registry::{Cacheable, Registry};
use txc_rows::{Change, Query};
use txc_stamp::Stamp;
use txc_tags::TagSet;
use txc_txn_ports::{PortRequest, TxnError};

/// The most changes of a transaction.
pub const MAX_CHANGES: usize = 256;

/// A read-write transaction that makes one query at a time, and continues with its answer.
///
/// It has no lock and no thread, and it uses no node. It begins with a stamp that the database holds for it. It
/// lends its base, its tags and its changes to a commit, so a failed commit leaves it as it was. Each call is
/// lent the registry of its functions, always the same one.
#[derive(Drop)]
pub struct RwCore {
    base: Stamp,
    tags: TagSet,
    queried: Vec<Query>,
    answers: Vec<Given>,
    changes: Vec<Change>,
    machine: CallMachine,
    reading: Option<Reading>,
}

impl Model for RwCore {
    ghost use Rattle.txc_txn_rw.specs.RwCore.{query_of_reading, RwValue, IsRwState};

    ghost Value = { RwValue };

    ghost view = { λ c. record {
      base = c.base;
      queried = c.queried.items;
      answers = c.answers.items;
      changes = c.changes.items;
      call = c.machine;
      reading = query_of_reading c.reading;
    } };

    ghost invariant = { λ c. IsRwState c.tags c.queried c.changes.items c.reading };
}

impl RwCore {
    ghost use Rattle.txc_call_registry.specs.Objects.{numbers_of, AllIdle};
    ghost use Rattle.txc_txn_rw.specs.RwCore.{tags_read, IsBegun, IsRw, IsRwIdle, IsWriteRefused};

    /// Makes a transaction whose base is the stamp that is held for it.
    pub fn begin(alloc: Global, base: Stamp) -> RwCore
        ensures { IsBegun base result }
    {
        RwCore {
            base,
            tags: TagSet::new(alloc),
            queried: Vec::new(alloc),
            answers: Vec::new(alloc),
            changes: Vec::new(alloc),
            machine: CallMachine::new(alloc),
            reading: None,
        }
    }

    /// Returns the stamp at which it reads.
    pub fn base(&self) -> Stamp
        ensures { result ≡ self.now.base }
    {
        self.base
    }

    /// Returns the tags of every answered query.
    pub fn tags(&self) -> &TagSet
        ensures { result.now ≡ tags_read self.now }
    {
        &self.tags
    }

    /// Returns its changes, in order.
    pub fn changes(&self) -> &[Change]
        ensures answer { result.now ≡ self.now.changes }
        ensures few { length self.now.changes ≤ MAX_CHANGES }
    {
        &self.changes
    }

    /// Returns the results that it has read, in order.
    pub fn answers(&self) -> &[Given]
        ensures { result.now ≡ self.now.answers }
    {
        &self.answers
    }

    /// In every core the call has made no more steps than it may. This is a lemma: it does nothing when it
    /// runs.
    pub fn is_within_budget(&self)
        ensures { self.now.call.asked ≤ MAX_CALL_ASKS }
    {
        self.machine.is_within_budget();
    }

    /// Buffers one more change. Fails, and drops the change, if there are [`MAX_CHANGES`] already, or memory
    /// cannot be allocated.
    pub fn write(&mut self, change: Change) -> Result<(), TxnError>
        ensures after { OnOk result (self.new
            ≡ record self.old { changes = self.old.changes ++ change ∷ [] }) }
        ensures only_if { IsOk result → length self.old.changes < MAX_CHANGES }
        ensures refused { IfErr result (λ error. IsWriteRefused (length self.old.changes) error) }
        ensures unchanged { OnErr result (self.new ≡ self.old) }
    {
        if self.changes.len() >= MAX_CHANGES {
            return Err(TxnError::BufferFull);
        }
        let Ok(()) = self.changes.push(change) else {
            return Err(TxnError::Memory);
        };
        Ok(())
    }

    /// Ends the transaction and returns the results that it has read, in order. No call may be open. Its list
    /// of changes is dropped, and its caller must release the hold of its base.
    pub fn finish(self) -> Vec<Given>
        requires { IsRwIdle self }
        ensures { result.items ≡ self.answers }
    {
        let RwCore {
            base: _,
            tags: _,
            queried: _,
            answers: given,
            changes: _,
            machine: _,
            reading: _,
        } = self;
        given
    }

    /// Cancels the transaction: every object is idle then, and the returned request removes the hold of its
    /// base.
    pub fn cancel<A: App, C: Cacheable>(self, registry: &mut Registry<A, C>) -> PortRequest
        requires { IsRw A.next registry.old self }
        ensures idle { AllIdle registry.new }
        ensures functions { numbers_of registry.new ≡ numbers_of registry.old }
        ensures unpins { result ≡ PortRequest.Unpin self.base }
    {
        let RwCore {
            base,
            tags: _,
            queried: _,
            answers: _,
            changes: _,
            mut machine,
            reading: _,
        } = self;
        machine.cancel(registry);
        PortRequest::Unpin(base)
    }
}
