//! Maintenance of a caller, whatever is open, and pins for later transactions.
ghost use Rattle.std.specs.Prelude.{◌≡◌, IfErr, IfOk, OnErr, OnOk, length};
ghost use Rattle.txc_cushion.specs.Cushion.{retired};
ghost use Rattle.txc_db.specs.DatabaseValue.{next_horizon};
ghost use Rattle.txc_caller.specs.Ports.{totals_of, CallerSweepTransition, CallerTrimTransition, GoesOnByEvents, HasGrownDatabase, HasRetired, HasVacuumedPorts, IsKeepRefused};
ghost use Rattle.txc_caller.specs.Budgets.{IsInBudget};
ghost use Rattle.txc_caller.specs.CallerTxn.{KeepsCaller};
ghost use Rattle.txc_caller.specs.SparePins.{HasNotPinned, HasPinnedNewest};

use crate::caller::Caller;
use crate::nodes::NodeTotals;
use crate::pin_error::PinError;
use std::alloc::{AllocError, Global};
use txc_app::App;
use txc_db::DbError;
use txc_shared::NodeError;
use txc_stamp::Stamp;

impl<A: App> Caller<A> {
    /// Retires the pins that no transaction uses and that are more than `age` before `now`, both in
    /// milliseconds: removes them and their holds. Returns how many. Fails, and changes nothing, only if memory
    /// cannot be allocated.
    pub fn retire(&mut self, alloc: Global, now: u64, age: u64) -> Result<usize, AllocError>
        ensures retired { OnOk result (HasRetired now age self.old.ports self.new.ports) }
        ensures answer { IfOk result (λ count. count ≡ length (retired self.old.ports.cushion now age)) }
        ensures same { self.new ≡ record self.old { ports = self.new.ports } }
        ensures unchanged { OnErr result (self.new ≡ self.old) }
        ensures caller { KeepsCaller self.old self.new }
        ensures grown { HasGrownDatabase self.old.ports.database self.new.ports.database }
    {
        self.ports.retire(alloc, now, age)
    }

    /// Lets the node take the events. Then moves the horizon to the least held stamp, or to the newest if none
    /// is held, returns it, and drops the versions and tags that only earlier stamps need. Fails if the
    /// database is broken, its store fails, or the node cannot take an event; then only the node may have
    /// changed.
    pub fn vacuum(&mut self, alloc: Global) -> Result<Stamp, DbError>
        ensures after { OnOk result (HasVacuumedPorts self.old.ports self.new.ports) }
        ensures node { GoesOnByEvents self.old.ports.node self.new.ports.node }
        ensures answer { IfOk result (λ horizon. horizon ≡ next_horizon self.old.ports.database) }
        ensures refused { IfErr result (IsKeepRefused self.old.ports.database self.old.ports.node self.new.ports.node) }
        ensures unchanged { OnErr result (self.new.ports ≡ record self.old.ports { node = self.new.ports.node }) }
        ensures same { self.new ≡ record self.old { ports = self.new.ports } }
        ensures caller { KeepsCaller self.old self.new }
        ensures grown { HasGrownDatabase self.old.ports.database self.new.ports.database }
    {
        self.ports.vacuum(alloc)
    }

    /// Drops the node's entries whose span ends at the horizon or before it, and returns how many. Fails if the
    /// node is broken, its history is full, or memory cannot be allocated.
    pub fn sweep(&mut self, alloc: Global, horizon: Stamp) -> Result<usize, NodeError>
        ensures transition { CallerSweepTransition horizon self.old.ports.node self.new.ports.node result }
        ensures same { self.new ≡ record self.old { ports = record self.old.ports { node = self.new.ports.node } } }
        ensures caller { KeepsCaller self.old self.new }
        ensures grown { HasGrownDatabase self.old.ports.database self.new.ports.database }
    {
        self.ports.sweep(alloc, horizon)
    }

    /// Trims the node to the longest prefix of its entries, the most recently used first, whose values have at
    /// most `most` bytes in all. Returns the number of entries dropped. Fails as [`Caller::sweep`] does.
    pub fn trim(&mut self, alloc: Global, most: usize) -> Result<usize, NodeError>
        ensures transition { CallerTrimTransition most self.old.ports.node self.new.ports.node result }
        ensures same { self.new ≡ record self.old { ports = record self.old.ports { node = self.new.ports.node } } }
        ensures caller { KeepsCaller self.old self.new }
        ensures grown { HasGrownDatabase self.old.ports.database self.new.ports.database }
    {
        self.ports.trim(alloc, most)
    }

    /// Returns how many entries the node has, how many bytes their values have in all, and how many of its
    /// entries trims have dropped. The bytes are within the budget. It changes nothing.
    pub fn totals(&mut self) -> NodeTotals
        ensures answer { result ≡ totals_of self.old.ports.node }
        ensures within { IsInBudget self.old.ports.budget result.bytes }
        ensures same { self.new ≡ self.old }
    {
        self.ports.totals()
    }

    /// Pins the newest state at the wall-clock time `moment`, in milliseconds, for later transactions, and
    /// returns its stamp. The pin is an event. No transaction uses it yet. Fails if the database cannot pin, or
    /// the pincushion cannot add the pin.
    pub fn pin(&mut self, alloc: Global, moment: u64) -> Result<Stamp, PinError>
        ensures pinned { IfOk result (λ stamp. HasPinnedNewest moment self.old.ports stamp self.new.ports) }
        ensures refused { IfErr result (λ error. HasNotPinned moment self.old.ports error self.new.ports) }
        ensures same { self.new ≡ record self.old { ports = self.new.ports } }
        ensures caller { KeepsCaller self.old self.new }
        ensures grown { HasGrownDatabase self.old.ports.database self.new.ports.database }
    {
        self.ports.pin(alloc, moment)
    }
}
