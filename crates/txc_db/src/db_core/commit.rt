//! Commits: conflicts with what was read, net changes of the newest state, and the appended event.
ghost use Rattle.std.specs.Prelude.{◌≡◌, ◌≢◌, ◌+◌, ◌<◌, ◌≤◌, ◌++◌, ◌∷◌, [], ℕ, true, false, length, Ok, Err, IfOk, OnOk, OnErr, IfErr, IfSome, IfNone, IsOk, ◌↔◌};
ghost use Rattle.txc_stream.specs.Names.{HasRow};
ghost use Rattle.txc_rows.specs.declared.query.Query.TheVariants.{ById};
ghost use Rattle.txc_rows.specs.States.{answer, after_changes};
ghost use Rattle.txc_rows.specs.RowTags.{tags_between};
ghost use Rattle.txc_rows.specs.Net.{IsNet, net_changes, change_table, change_id};
ghost use Rattle.txc_rows.specs.Versions.{after_net};
ghost use Rattle.txc_db.specs.DatabaseValue.{DatabaseValue, after_commit, after_event_of, newest, newest_net, newest_state};
ghost use Rattle.txc_db.specs.History.{commit_event};
ghost use Rattle.txc_db.specs.Facts.{commit};
ghost use Rattle.txc_db.specs.NetGrowth.{IsNetWith};
ghost use Rattle.txc_db.specs.Refusals.{IsConflict, NoneMatches};
ghost use Rattle.txc_db.specs.Calls.{IsLeft, IsBase, AreFewNamed, row_query, matching_of, IsCommittable, IsCommitRefused};
ghost use Rattle.txc_db.specs.Room.{events_room};
ghost use Rattle.txc_db.specs.Steps.{IsBaseRefused, IsReadRefused, IsNetRefused, IsAppendRefused};

use crate::db_core::DbCore;
use crate::error::DbError;
use crate::history::History;
use crate::net::Net;
use crate::settled::{add_puts, add_rows, makes_another, settle};
use std::alloc::Global;
use txc_rows::{
    Change, Query, Row, net_changes_are_differences, states_are_maps, versions_keep_states,
};
use txc_stamp::Stamp;
use txc_tags::{Table, TagSet};
use txc_validity::rows_at;

/// Returns the number of the first event after the base whose tags match those read.
fn first_conflict(told: &History, base: usize, read: &TagSet) -> Option<usize>
    requires { ¬ (HasRow told.now.events) → told.now.first ≤ base }
    ensures some { IfSome result (IsConflict told.now.history base read.now) }
    ensures none { IfNone result (NoneMatches told.now.history base (length told.now.history) read.now) }
{
    for at in base..told.len() {
        if told.tags_of(at + 1).matches(read) {
            return Some(at + 1);
        }
    }
    None
}

impl DbCore {
    /// Returns the rows of the newest state at a table and id: one or none.
    fn rows_now(&mut self, alloc: Global, table: Table, id: u32) -> Result<Vec<Row>, DbError>
        requires { self.old.broken ≡ false }
        ensures same { self.new ≡ self.old }
        ensures rows { IfOk result (λ rows. rows.items ≡ answer (ById table id) (newest_state self.old)) }
        ensures few { IsOk result → matching_of self.old (ById table id) ≤ self.old.most }
        ensures refused { IfErr result (IsReadRefused self.old (ById table id)) }
    {
        let newest = self.told.newest();
        let query = Query::ById(table, id);
        let versions = self.store.current(&query, self.most)?;
        Ok(rows_at(alloc, &versions, &query, newest)?)
    }

    /// Adds the change to the net changes if it makes another state, with the tags of the rows that it
    /// replaces.
    fn add_change(&mut self, alloc: Global, net: &mut Net, change: &Change) -> Result<(), DbError>
        requires { self.old.broken ≡ false }
        ensures same { self.new ≡ self.old }
        ensures net { OnOk result (IsNetWith (newest_state self.old) change.now
            net.old.changes.items net.new.changes.items net.old.tags net.new.tags) }
        ensures few { IsOk result → matching_of self.old (row_query change.now) ≤ self.old.most }
        ensures refused { IfErr result (IsReadRefused self.old (row_query change.now)) }
    {
        let rows = self.rows_now(alloc, change.table(), change.id())?;
        if makes_another(change, &rows) {
            add_rows(&mut net.tags, &rows)?;
            net.changes.push(change.copy(alloc)?)?;
        }
        Ok(())
    }

    /// Returns the net changes of the newest state by these changes, with their tags.
    fn net_of(&mut self, alloc: Global, changes: &[Change]) -> Result<Net, DbError>
        requires { self.old.broken ≡ false }
        ensures same { self.new ≡ self.old }
        ensures changes { IfOk result (λ net. net.changes.items ≡ newest_net self.old changes.now) }
        ensures tags { IfOk result (λ net. net.tags
            ≡ tags_between (newest_state self.old) (after_changes changes.now (newest_state self.old))) }
        ensures few { IsOk result → AreFewNamed self.old changes.now }
        ensures refused { IfErr result (IsNetRefused self.old changes.now) }
    {
        states_are_maps();
        net_changes_are_differences();
        let settled = settle(alloc, changes)?;
        let mut net = Net {
            changes: Vec::new(alloc),
            tags: TagSet::new(alloc),
        };
        for change in &settled {
            match self.add_change(alloc, &mut net, change) {
                Ok(()) => {}
                Err(refusal) => return Err(refusal),
            }
        }
        add_puts(&mut net.tags, &net.changes)?;
        Ok(net)
    }

    /// Appends the commit of net changes of the newest state, with their tags.
    fn append_commit(&mut self, alloc: Global, net: Net) -> Result<Stamp, DbError>
        requires whole { self.old.broken ≡ false }
        requires net { let before = newest_state self.old
            in IsNet before net.changes.items (after_changes net.changes.items before) }
        requires tags { let before = newest_state self.old
            in net.tags ≡ tags_between before (after_changes net.changes.items before) }
        ensures after { OnOk result (self.new
            ≡ after_event_of self.old (record { fact = commit net.changes.items; tags = net.tags })
            net.changes.items) }
        ensures answer { IfOk result (λ stamp. stamp ≡ newest self.old + 1) }
        ensures room { IsOk result → newest self.old < events_room self.old.events }
        ensures unchanged { IfErr result (IsLeft self.old self.new) }
        ensures refused { IfErr result (IsAppendRefused self.old) }
        ensures taken { result ≡ Err DbError.Broken → HasRow self.old.events }
    {
        versions_keep_states();
        let events = self.told.len();
        if self.told.is_full() {
            return Err(DbError::Full);
        }
        let event = self.told.prepare_commit(alloc, net)?;
        let stamp = Stamp::after(events + 1);
        self.store.write(event.net(), stamp)?;
        if !self.told.append(event) {
            self.broken = true;
            return Err(DbError::Broken);
        }
        Ok(stamp)
    }

    /// Returns the newest stamp if a commit may have that base. Fails if the base is beyond the newest stamp,
    /// or if the tags of an event after it are dropped, or if the database is broken.
    pub fn check_base(&self, base: Stamp) -> Result<Stamp, DbError>
        ensures only_if { IsOk result ↔ IsBase self.now base }
        ensures answer { IfOk result (λ stamp. stamp ≡ newest self.now) }
        ensures refused { IfErr result (IsBaseRefused self.now base) }
    {
        if self.broken {
            return Err(DbError::Broken);
        }
        let newest = self.told.newest();
        if newest < base {
            return Err(DbError::FutureStamp(newest));
        }
        if !self.told.keeps_tags(self.horizon, base) {
            return Err(DbError::SnapshotGone(self.horizon));
        }
        Ok(newest)
    }

    /// Commits the changes if no event after the base has a tag that matches those read. Returns the newest
    /// stamp after the commit. Changes that leave the state as it is add no event.
    ///
    /// Fails with the first such event as a conflict; with `FutureStamp` if the base is beyond the newest
    /// stamp; and with `SnapshotGone` if the tags of the events after it are no longer stored. It also fails if
    /// the history is full, the store fails, the database is broken, or memory cannot be allocated.
    pub fn commit(
        &mut self,
        alloc: Global,
        base: Stamp,
        read: &TagSet,
        changes: &[Change],
    ) -> Result<Stamp, DbError>
        ensures after { OnOk result (self.new ≡ after_commit self.old changes.now) }
        ensures answer { IfOk result (λ stamp. stamp ≡ newest self.new) }
        ensures only_if { IsOk result → IsCommittable self.old base read.now changes.now }
        ensures unchanged { IfErr result (IsLeft self.old self.new) }
        ensures refused { IfErr result (IsCommitRefused self.old base read.now changes.now) }
        ensures taken { self.old.broken ≡ false → result ≡ Err DbError.Broken → HasRow self.old.events }
    {
        net_changes_are_differences();
        states_are_maps();
        let newest = self.check_base(base)?;
        let base = base.number() as usize;
        if let Some(first) = first_conflict(&self.told, base, read) {
            return Err(DbError::Conflict(Stamp::after(first)));
        }
        let net = self.net_of(alloc, changes)?;
        if net.changes.is_empty() {
            return Ok(newest);
        }
        self.append_commit(alloc, net)
    }
}
