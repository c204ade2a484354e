//! The ports of a caller, whose types no crate above sees.
ghost use Rattle.std.specs.Prelude.{◌≡◌, ◌≤◌, ◌∷◌, ◌↔◌, [], IfErr, IfOk, IsOk, OnErr, OnOk, length, true, false};
ghost use Rattle.txc_cushion.specs.Cushion.{retired, after_fresh};
ghost use Rattle.txc_db.specs.Calls.{matching_of, IsAnswerable, IsBase, IsCommitRefused, IsCommittable, IsHoldable, IsHoldRefused, IsLeft, IsQueryRefused};
ghost use Rattle.txc_db.specs.DatabaseValue.{after_commit, after_hold, newest, next_horizon};
ghost use Rattle.txc_db.specs.History.{state_at};
ghost use Rattle.txc_db.specs.Steps.{IsBaseRefused};
ghost use Rattle.txc_rows.specs.RowTags.{query_tag};
ghost use Rattle.txc_validity.specs.Answers.{IsAnswer};
ghost use Rattle.txc_txn.specs.TxnCore.{value_of};
ghost use Rattle.txc_caller.specs.CallerTxn.{IsBegunCore};
ghost use Rattle.txc_caller.specs.Budgets.{IsInBudget};
ghost use Rattle.txc_caller.specs.Ports.{AreGivenBack, totals_of, CallerSweepTransition, CallerTrimTransition, GoesOnByEvents, HasGrownDatabase, HasNoEventFor, HasRetired, HasVacuumedPorts, IsKeepRefused, MayHaveTaken, StaysBehind};
ghost use Rattle.txc_caller.specs.SparePins.{HasNotPinned, HasPinnedNewest};

use crate::call_ports::CallPorts;
use crate::caller::begun;
use crate::nodes::{self, NodeTotals};
use crate::pin_error::PinError;
use crate::plain_ports::{PlainPorts, give_back, let_each_go, let_go};
use crate::ports_slot::PortsSlot;
use std::alloc::{AllocError, Global};
use std::marker::Model;
use txc_app::App;
use txc_db::{DbError, HistoryFront};
use txc_rows::{Change, Query};
use txc_shared::NodeError;
use txc_stamp::Stamp;
use txc_tags::TagSet;
use txc_txn::TxnCore;
use txc_txn_ports::{Bounds, PortReply, PortRequest};
use txc_validity::Found;

/// A database, its pincushion, and one node that takes its events, behind a pointer. A method takes them out,
/// calls one of their methods, and puts them back.
pub(crate) struct Ports<A: App> {
    slot: PortsSlot<A>,
    alloc: Global,
}

impl<A: App> Drop for Ports<A> {
    fn drop(self) {
        drop(self.into_plain());
    }
}

impl<A: App> Model for Ports<A> {
    ghost use Rattle.std.specs.Prelude.{◌≡◌, true};
    ghost use Rattle.txc_caller.specs.Ports.{CallerPorts};

    ghost Value = { CallerPorts };

    ghost view = { λ p. p.slot.value };

    ghost invariant = { λ p. p.slot.is_full ≡ true };
}

impl<A: App> Ports<A> {
    /// Puts these ports behind a pointer.
    pub(crate) fn of(alloc: Global, plain: Box<PlainPorts<A>, Global>) -> Ports<A>
        ensures { result ≡ plain.value }
    {
        Ports {
            slot: PortsSlot::of(plain),
            alloc,
        }
    }

    /// Returns the ports.
    pub(crate) fn into_plain(self) -> Box<PlainPorts<A>, Global>
        ensures { result.value ≡ self }
    {
        let Ports { slot, alloc: _ } = self;
        slot.into_ports()
    }

    /// Lets the node take the events that it has not taken yet. Returns `true` if it took all.
    pub(crate) fn take_events(&mut self, alloc: Global) -> bool
        ensures node { GoesOnByEvents self.old.node self.new.node }
        ensures all { result ≡ true → HasNoEventFor self.new.database self.new.node }
        ensures left { result ≡ false → StaysBehind self.old.database self.old.node self.new.node }
        ensures same { self.new ≡ record self.old { node = self.new.node } }
    {
        let mut plain = self.slot.take(self.alloc);
        let has_all = plain.take_events(alloc);
        self.slot.put(plain);
        has_all
    }

    /// Holds the newest stamp, and returns it.
    pub(crate) fn hold(&mut self, alloc: Global) -> Result<Stamp, DbError>
        ensures after { OnOk result (self.new ≡ record self.old { database = after_hold self.old.database }) }
        ensures answer { IfOk result (λ stamp. stamp ≡ newest self.old.database) }
        ensures only_if { IsOk result → IsHoldable self.old.database }
        ensures refused { IfErr result (IsHoldRefused self.old.database) }
        ensures unchanged { OnErr result (self.new ≡ self.old) }
        ensures grown { HasGrownDatabase self.old.database self.new.database }
    {
        let mut plain = self.slot.take(self.alloc);
        let held = plain.database.hold(alloc);
        self.slot.put(plain);
        held
    }

    /// Returns the newest stamp if a commit may have that base. Fails otherwise.
    pub(crate) fn check_base(&mut self, base: Stamp) -> Result<Stamp, DbError>
        ensures same { self.new ≡ self.old }
        ensures only_if { IsOk result ↔ IsBase self.old.database base }
        ensures answer { IfOk result (λ stamp. stamp ≡ newest self.old.database) }
        ensures refused { IfErr result (IsBaseRefused self.old.database base) }
    {
        let plain = self.slot.take(self.alloc);
        let checked = plain.database.check_base(base);
        self.slot.put(plain);
        checked
    }

    /// Returns the answer of the query at a stamp, with the query's tag.
    pub(crate) fn query(
        &mut self,
        alloc: Global,
        query: &Query,
        stamp: Stamp,
    ) -> Result<Found, DbError>
        ensures same { self.new ≡ self.old }
        ensures answer { IfOk result (λ found. IsAnswer (state_at self.old.database.history) query.now stamp
            self.old.database.horizon (newest self.old.database) found) }
        ensures tag { IfOk result (λ found. found.tags ≡ query_tag query.now ∷ []) }
        ensures only_if { IsOk result → IsAnswerable self.old.database stamp }
        ensures few { IsOk result → matching_of self.old.database query.now ≤ self.old.database.most }
        ensures refused { IfErr result (IsQueryRefused self.old.database query.now stamp) }
    {
        let mut plain = self.slot.take(self.alloc);
        let found = plain.database.query(alloc, query, stamp);
        self.slot.put(plain);
        found
    }

    /// Commits the changes if no event after the base has a tag that matches those read. The node then takes
    /// the events.
    pub(crate) fn commit(
        &mut self,
        alloc: Global,
        base: Stamp,
        read: &TagSet,
        changes: &[Change],
    ) -> Result<Stamp, DbError>
        ensures after { OnOk result (self.new.database ≡ after_commit self.old.database changes.now) }
        ensures answer { IfOk result (λ stamp. stamp ≡ newest self.new.database) }
        ensures only_if { IsOk result → IsCommittable self.old.database base read.now changes.now }
        ensures node { OnOk result (MayHaveTaken self.new.database self.old.node self.new.node) }
        ensures same { OnOk result
            (self.new ≡ record self.old { database = self.new.database; node = self.new.node }) }
        ensures refused { IfErr result (IsCommitRefused self.old.database base read.now changes.now) }
        ensures left { IfErr result (IsLeft self.old.database self.new.database) }
        ensures unchanged { OnErr result (self.new ≡ record self.old { database = self.new.database }) }
        ensures grown { HasGrownDatabase self.old.database self.new.database }
    {
        let mut plain = self.slot.take(self.alloc);
        let committed = plain.database.commit(alloc, base, read, changes);
        self.slot.put(plain);
        let stamp = committed?;
        let _has_all = self.take_events(alloc);
        Ok(stamp)
    }

    /// Makes a core with the pins that the pincushion issues for its bounds. If memory cannot be allocated,
    /// they are returned.
    pub(crate) fn begin(
        &mut self,
        alloc: Global,
        renew_after: u64,
        bounds: Bounds,
    ) -> Result<TxnCore, AllocError>
        ensures begun { IfOk result (λ core. IsBegunCore renew_after bounds self.new.database.events self.old.cushion
            (value_of core)) }
        ensures users { OnOk result (self.new.cushion
            ≡ after_fresh self.old.cushion bounds.now bounds.staleness bounds.at_least) }
        ensures unchanged { OnErr result (self.new ≡ self.old) }
        ensures same { self.new ≡ record self.old { cushion = self.new.cushion } }
    {
        let mut plain = self.slot.take(self.alloc);
        let core = begun(alloc, &mut plain.cushion, renew_after, bounds);
        self.slot.put(plain);
        core
    }

    /// Removes one user of each of the pins. Does not allocate.
    pub(crate) fn give_back(&mut self, stamps: &[Stamp])
        ensures after { AreGivenBack stamps.now self.old.cushion self.new.cushion }
        ensures same { self.new ≡ record self.old { cushion = self.new.cushion } }
    {
        let mut plain = self.slot.take(self.alloc);
        give_back(&mut plain.cushion, stamps);
        self.slot.put(plain);
    }

    /// Pins the newest state for no transaction.
    pub(crate) fn pin(&mut self, alloc: Global, moment: u64) -> Result<Stamp, PinError>
        ensures pinned { IfOk result (λ stamp. HasPinnedNewest moment self.old stamp self.new) }
        ensures refused { IfErr result (λ error. HasNotPinned moment self.old error self.new) }
        ensures grown { HasGrownDatabase self.old.database self.new.database }
    {
        let mut plain = self.slot.take(self.alloc);
        let pinned = plain.pin(alloc, moment);
        self.slot.put(plain);
        pinned
    }

    /// Retires the pins that no transaction uses and that are more than `age` before `now`: removes them and
    /// their holds. Returns how many.
    pub(crate) fn retire(&mut self, alloc: Global, now: u64, age: u64) -> Result<usize, AllocError>
        ensures retired { OnOk result (HasRetired now age self.old self.new) }
        ensures answer { IfOk result (λ count. count ≡ length (retired self.old.cushion now age)) }
        ensures unchanged { OnErr result (self.new ≡ self.old) }
        ensures grown { HasGrownDatabase self.old.database self.new.database }
    {
        let mut plain = self.slot.take(self.alloc);
        match plain.cushion.retire(alloc, now, age) {
            Ok(stamps) => {
                let_each_go(&mut plain.database, &stamps);
                self.slot.put(plain);
                Ok(stamps.len())
            }
            Err(error) => {
                self.slot.put(plain);
                Err(error)
            }
        }
    }

    /// Lets the node take the events. Then moves the horizon to the least held stamp, or to the newest if none
    /// is held, and drops the versions and tags that only earlier stamps need.
    pub(crate) fn vacuum(&mut self, alloc: Global) -> Result<Stamp, DbError>
        ensures after { OnOk result (HasVacuumedPorts self.old self.new) }
        ensures node { GoesOnByEvents self.old.node self.new.node }
        ensures answer { IfOk result (λ horizon. horizon ≡ next_horizon self.old.database) }
        ensures refused { IfErr result (IsKeepRefused self.old.database self.old.node self.new.node) }
        ensures unchanged { OnErr result (self.new ≡ record self.old { node = self.new.node }) }
        ensures grown { HasGrownDatabase self.old.database self.new.database }
    {
        if !self.take_events(alloc) {
            return Err(DbError::Memory);
        }
        let mut plain = self.slot.take(self.alloc);
        let horizon = plain.database.vacuum();
        self.slot.put(plain);
        horizon
    }

    /// Lets the node drop the entries whose span ends at the horizon or before it. Returns how many.
    pub(crate) fn sweep(&mut self, alloc: Global, horizon: Stamp) -> Result<usize, NodeError>
        ensures transition { CallerSweepTransition horizon self.old.node self.new.node result }
        ensures same { self.new ≡ record self.old { node = self.new.node } }
    {
        let mut plain = self.slot.take(self.alloc);
        let swept = plain.node.sweep(alloc, 0, horizon);
        self.slot.put(plain);
        swept
    }

    /// Lets the node keep the longest prefix of its entries whose values have at most `most` bytes in all.
    /// Returns how many entries it dropped.
    pub(crate) fn trim(&mut self, alloc: Global, most: usize) -> Result<usize, NodeError>
        ensures transition { CallerTrimTransition most self.old.node self.new.node result }
        ensures same { self.new ≡ record self.old { node = self.new.node } }
    {
        let mut plain = self.slot.take(self.alloc);
        let trimmed = plain.node.trim(alloc, 0, most);
        self.slot.put(plain);
        trimmed
    }

    /// Returns the number and size of the node's entries, and how many of them trims have dropped.
    pub(crate) fn totals(&mut self) -> NodeTotals
        ensures answer { result ≡ totals_of self.old.node }
        ensures within { IsInBudget self.old.budget result.bytes }
        ensures same { self.new ≡ self.old }
    {
        let plain = self.slot.take(self.alloc);
        let totals = nodes::totals(&plain.node);
        self.slot.put(plain);
        totals
    }
}

impl<A: App> CallPorts<A> for Ports<A> {
    ghost ports = { λ p. p };

    fn ask(&mut self, alloc: Global, seen: &HistoryFront, request: PortRequest) -> PortReply {
        let mut plain = self.slot.take(self.alloc);
        let reply = plain.ask(alloc, seen, request);
        self.slot.put(plain);
        reply
    }

    fn let_go(&mut self, unpin: Option<Stamp>) {
        let mut plain = self.slot.take(self.alloc);
        plain.let_go(unpin);
        self.slot.put(plain);
    }
}
