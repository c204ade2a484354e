//! The database for one thread, which the lock of a shared one holds.
ghost use Rattle.std.specs.Prelude.{◌≡◌, ◌≢◌, ◌+◌, ◌<◌, ◌≤◌, ◌∷◌, [], ◌↔◌, true, false, length, Ok, Err, IfOk, OnOk, OnErr, IfErr, ◌⊎◌, IsOk, IsTrue, MatchOption};
ghost use mathlib.Core.List.{IsPrefix};
ghost use Rattle.txc_rows.specs.RowTags.{query_tag};
ghost use Rattle.txc_validity.specs.Answers.{IsAnswer};
ghost use Rattle.txc_stream.specs.Names.{stored, unstored, HasRow};
ghost use Rattle.std.specs.Arc.{arc_value};
ghost use Rattle.txc_db.specs.History.{state_at, tags_at};
ghost use Rattle.txc_db.specs.Room.{HasCapacity, AreTagsGone};
ghost use Rattle.txc_db.specs.Refusals.{IsWant};
ghost use Rattle.txc_db.specs.Calls.{IsLeft, IsHoldable, IsHoldRefused, IsUnpinRefused, IsVacuumRefused, IsPinnable, IsPinRefused, IsAnswerable, matching_of, IsQueryRefused};
ghost use Rattle.txc_rows.specs.declared.store_error.TheConstants.{MAX_MATCHING, MOST_MATCHING};

mod beginning;
mod commit;

use crate::error::DbError;
use crate::event::Event;
use crate::history::History;
use crate::history_front::HistoryFront;
use crate::holds::{MAX_HOLDS, least_held, place_of};
use crate::pinned::Pinned;
use crate::row_store::RowStore;
use std::alloc::{AllocError, Global};
use std::marker::Model;
use std::sync::Arc;
use txc_rows::{MAX_MATCHING, Query, VersionRows, tags_are_sound, versions_keep_states};
use txc_stamp::Stamp;
use txc_stream::{AppendToken, EventRow, MAX_CAPACITY};
use txc_tags::TagSet;
use txc_validity::{Found, answer_at, validity_is_the_largest};

/// A versioned database for one thread: one history of commits and pins, the versions of the rows from the
/// horizon on, and the held stamps.
///
/// Its history is stored in an event log, or is ghost: then it stores only the tags of the events after the
/// horizon, and a commit with a base below the horizon fails as a query there does.
///
/// A stamp is the number of events before a state. Any call that needs memory may fail with `Memory`, and any
/// that uses the store of rows with `Store`; every other error comes exactly if the clauses state it.
pub struct DbCore {
    store: VersionRows,
    // The most versions that may match a query.
    most: usize,
    told: History,
    horizon: Stamp,
    // In ascending order.
    holds: Vec<Stamp>,
    broken: bool,
}

// Not derived, since a derived one would be proved again in each crate above.
impl Drop for DbCore {
    fn drop(self) {
        let DbCore {
            store: _,
            most: _,
            told: _,
            horizon: _,
            holds: _,
            broken: _,
        } = self;
    }
}

impl Model for DbCore {
    ghost use Rattle.std.specs.Prelude.{◌≡◌, ◌⊎◌, ◌≤◌, false};
    ghost use Rattle.txc_stream.specs.Names.{HasRow};
    ghost use Rattle.txc_db.specs.DatabaseValue.{DatabaseValue, IsSound};

    ghost Value = { DatabaseValue };

    ghost view = { λ d. record {
      events = d.told.events;
      history = d.told.history;
      versions = d.store;
      most = d.most;
      horizon = d.horizon;
      holds = d.holds.items;
      broken = d.broken;
    } };

    ghost invariant = { λ d. (d.told.first ≤ d.horizon) × (d.broken ≡ false → IsSound (record {
      events = d.told.events;
      history = d.told.history;
      versions = d.store;
      most = d.most;
      horizon = d.horizon;
      holds = d.holds.items;
      broken = d.broken;
    })) × (HasRow d.told.events ⊎ (d.told.first ≡ d.horizon)) };
}

impl DbCore {
    ghost use Rattle.txc_db.specs.DatabaseValue.{DatabaseValue, front_of, after_hold, after_pin, after_unpin, after_vacuum, newest, next_horizon, is_held, IsSound};

    /// Makes an empty database over SQLite, with an event log for `capacity` events. Fails only if memory
    /// cannot be allocated or SQLite fails.
    pub fn new(alloc: Global, capacity: usize) -> Result<DbCore, DbError>
        requires least { 1 ≤ capacity }
        requires most { capacity ≤ MAX_CAPACITY }
        ensures history { IfOk result (λ d. (d.history ≡ []) × HasCapacity d.events capacity) }
        ensures kept { IfOk result (λ d. (d.versions ≡ []) × (d.horizon ≡ 0)) }
        ensures limit { IfOk result (λ d. d.most ≡ MAX_MATCHING) }
        ensures holds { IfOk result (λ d. (d.holds ≡ []) × (d.broken ≡ false)) }
        ensures refused { IfErr result IsWant }
    {
        DbCore::new_over(alloc, RowStore::Sql, capacity)
    }

    /// Makes an empty database whose rows are in a new store of that kind, with an event log for `capacity`
    /// events. Fails only if memory cannot be allocated or the store fails.
    pub fn new_over(alloc: Global, rows: RowStore, capacity: usize) -> Result<DbCore, DbError>
        requires least { 1 ≤ capacity }
        requires most { capacity ≤ MAX_CAPACITY }
        ensures history { IfOk result (λ d. (d.history ≡ []) × HasCapacity d.events capacity) }
        ensures kept { IfOk result (λ d. (d.versions ≡ []) × (d.horizon ≡ 0)) }
        ensures limit { IfOk result (λ d. d.most ≡ MAX_MATCHING) }
        ensures holds { IfOk result (λ d. (d.holds ≡ []) × (d.broken ≡ false)) }
        ensures refused { IfErr result IsWant }
    {
        let row = Arc::new(alloc, EventRow::new(alloc, capacity)?)?;
        DbCore::of(alloc, rows, History::stored(row)?)
    }

    /// Makes an empty database over SQLite. Its history is ghost, and `pen` appends to it. It has room for
    /// 4,294,967,294 events. Fails only if memory cannot be allocated, or with an error of SQLite.
    pub fn unstored(alloc: Global, pen: AppendToken<Event>) -> Result<DbCore, DbError>
        requires { pen.list ≡ [] }
        ensures history { IfOk result (λ d. (d.history ≡ []) × (d.events ≡ unstored pen.number)) }
        ensures kept { IfOk result (λ d. (d.versions ≡ []) × (d.horizon ≡ 0)) }
        ensures limit { IfOk result (λ d. d.most ≡ MAX_MATCHING) }
        ensures holds { IfOk result (λ d. (d.holds ≡ []) × (d.broken ≡ false)) }
        ensures refused { IfErr result IsWant }
    {
        DbCore::unstored_over(alloc, RowStore::Sql, pen)
    }

    /// Makes an empty database over this kind of store. Its history is ghost, and `pen` appends to it. It has
    /// room for 4,294,967,294 events. Fails only if memory cannot be allocated, or the store fails.
    pub fn unstored_over(
        alloc: Global,
        rows: RowStore,
        pen: AppendToken<Event>,
    ) -> Result<DbCore, DbError>
        requires { pen.list ≡ [] }
        ensures history { IfOk result (λ d. (d.history ≡ []) × (d.events ≡ unstored pen.number)) }
        ensures kept { IfOk result (λ d. (d.versions ≡ []) × (d.horizon ≡ 0)) }
        ensures limit { IfOk result (λ d. d.most ≡ MAX_MATCHING) }
        ensures holds { IfOk result (λ d. (d.holds ≡ []) × (d.broken ≡ false)) }
        ensures refused { IfErr result IsWant }
    {
        DbCore::of(alloc, rows, History::unstored(alloc, pen))
    }

    // Makes an empty database with this history.
    fn of(alloc: Global, rows: RowStore, told: History) -> Result<DbCore, DbError>
        requires none { told.history ≡ [] }
        requires all { told.first ≡ 0 }
        ensures made { IfOk result (λ d. d ≡ record {
          events = told.events;
          history = [];
          versions = [];
          most = MAX_MATCHING;
          horizon = 0;
          holds = [];
          broken = false;
        }) }
        ensures refused { IfErr result IsWant }
    {
        versions_keep_states();
        let store = rows.open(alloc)?;
        Ok(DbCore {
            store,
            most: MAX_MATCHING,
            told,
            horizon: Stamp::ZERO,
            holds: Vec::new(alloc),
            broken: false,
        })
    }

    /// Sets how many versions may match a query, from [`txc_rows::MAX_MATCHING`] (the default) to
    /// [`txc_rows::MOST_MATCHING`]. A query that more versions match fails. They are counted, and only those that
    /// the answer needs are copied.
    pub fn allow(&mut self, most: usize)
        requires least { MAX_MATCHING ≤ most }
        requires most { most ≤ MOST_MATCHING }
        ensures { self.new ≡ record self.old { most = most } }
    {
        self.most = most;
    }

    /// Returns how many versions may match a query.
    pub fn allowed(&self) -> usize
        ensures { result ≡ self.now.most }
    {
        self.most
    }

    /// A database that is not broken is sound: each event has the tags of its changes, the versions describe
    /// each state from the horizon to the newest stamp, and no held stamp is below the horizon. This is a
    /// lemma: it does nothing when it runs.
    pub fn is_sound(&self)
        ensures { self.now.broken ≡ false → IsSound self.now }
    {
        let _whole = self.broken;
    }

    /// Returns `true` if another record was found in its event log.
    pub(crate) fn is_broken(&self) -> bool
        ensures { result ≡ self.now.broken }
    {
        self.broken
    }

    /// Makes each later call fail as broken.
    pub(crate) fn set_broken(&mut self)
        ensures { self.new ≡ record self.old { broken = true } }
    {
        self.broken = true;
    }

    /// Returns the history, for the crate's own use.
    pub(crate) fn history(&self) -> &HistoryFront
        ensures { result.now ≡ front_of self.now }
    {
        self.told.front()
    }

    /// Returns a handle of the tags of its last event, for the publisher of events. Returns `None` if the
    /// history is stored or each event was vacuumed.
    pub(crate) fn last_tags(&self) -> Result<Option<Arc<TagSet>>, AllocError>
        ensures { IfOk result (λ tags. MatchOption tags
            (HasRow self.now.events ⊎ (newest self.now ≤ self.now.horizon))
            (λ tags. arc_value tags ≡ tags_at self.now.history (newest self.now))) }
    {
        self.told.last_tags()
    }

    /// Returns the tags of the event after the first `base` ones, or `None` if there is no such event, or its
    /// tags are dropped.
    pub fn tags_after(&self, base: Stamp) -> Option<&TagSet>
        ensures { MatchOption result
            ((newest self.now ≤ base) ⊎ AreTagsGone self.now.events self.now.horizon base)
            (λ tags. (base < newest self.now) × (tags.now ≡ tags_at self.now.history (base + 1))) }
    {
        if self.told.newest() <= base || !self.told.keeps_tags(self.horizon, base) {
            return None;
        }
        Some(self.told.tags_of(base.number() as usize + 1))
    }

    /// Returns the newest stamp.
    pub fn newest(&self) -> Stamp
        ensures { result ≡ newest self.now }
    {
        self.told.newest()
    }

    /// Returns a front of the history that shows nothing yet. Fails only if the log has too many handles.
    pub fn reader(&self) -> Result<HistoryFront, AllocError>
        ensures { IfOk result (λ front. front ≡ record { events = self.now.events; history = [] }) }
    {
        self.told.start().again()
    }

    /// Returns a front that shows the whole history. Fails only if the log has too many handles.
    pub fn front(&self) -> Result<HistoryFront, AllocError>
        ensures { IfOk result (λ front. front ≡ front_of self.now) }
    {
        self.told.front().again()
    }

    /// Returns the event log, if events are stored. A caller that appends to it breaks the database; tests do
    /// so.
    pub fn events(&self) -> Option<&EventRow<Event>>
        ensures { MatchOption result
            (¬ (HasRow self.now.events))
            (λ row. self.now.events ≡ stored row.now) }
    {
        self.told.front().events()
    }

    /// Returns the answer of the query at a stamp, with its validity and the query's tag. Fails if the stamp is
    /// below the horizon or beyond the newest stamp, or more versions match than are allowed.
    pub fn query(&mut self, alloc: Global, query: &Query, stamp: Stamp) -> Result<Found, DbError>
        ensures same { self.new ≡ self.old }
        ensures answer { IfOk result (λ found.
            IsAnswer (state_at self.old.history) query.now stamp self.old.horizon (newest self.old) found) }
        ensures tag { IfOk result (λ found. found.tags ≡ query_tag query.now ∷ []) }
        ensures only_if { IsOk result → IsAnswerable self.old stamp }
        ensures few { IsOk result → matching_of self.old query.now ≤ self.old.most }
        ensures refused { IfErr result (IsQueryRefused self.old query.now stamp) }
    {
        if self.broken {
            return Err(DbError::Broken);
        }
        let newest = self.told.newest();
        if newest < stamp {
            return Err(DbError::FutureStamp(newest));
        }
        if stamp < self.horizon {
            return Err(DbError::SnapshotGone(self.horizon));
        }
        validity_is_the_largest();
        let versions = self.store.matching_at(query, stamp, self.most)?;
        // The stamp is kept, so only a failed allocation is left.
        match answer_at(alloc, &versions, query, stamp, self.horizon, newest) {
            Ok(found) => Ok(found),
            Err(_) => Err(DbError::Memory),
        }
    }

    /// Returns `true` if there is no room for another hold.
    fn has_all_holds(&self) -> bool
        ensures { IsTrue result ↔ (MAX_HOLDS ≤ length self.now.holds) }
    {
        self.holds.len() >= MAX_HOLDS
    }

    /// Fails if no hold can be added, whatever memory there is.
    pub(crate) fn check_hold(&self) -> Result<(), DbError>
        ensures only_if { IsOk result ↔ IsHoldable self.now }
        ensures refused { IfErr result (IsHoldRefused self.now) }
        ensures broken { self.now.broken ≡ true → result ≡ Err DbError.Broken }
        ensures full { self.now.broken ≡ false → MAX_HOLDS ≤ length self.now.holds
            → result ≡ Err DbError.HoldsFull }
    {
        if self.broken {
            return Err(DbError::Broken);
        }
        if self.has_all_holds() {
            return Err(DbError::HoldsFull);
        }
        Ok(())
    }

    /// Holds the newest stamp, and returns it: no vacuum passes it until the hold is removed. Fails if there
    /// are [`crate::MAX_HOLDS`] holds, or memory cannot be allocated, or the database is broken.
    pub fn hold(&mut self, alloc: Global) -> Result<Stamp, DbError>
        ensures after { OnOk result (self.new ≡ after_hold self.old) }
        ensures answer { IfOk result (λ stamp. stamp ≡ newest self.old) }
        ensures only_if { IsOk result → IsHoldable self.old }
        ensures unchanged { OnErr result (self.new ≡ self.old) }
        ensures refused { IfErr result (IsHoldRefused self.old) }
        ensures broken { self.old.broken ≡ true → result ≡ Err DbError.Broken }
        ensures full { self.old.broken ≡ false → MAX_HOLDS ≤ length self.old.holds
            → result ≡ Err DbError.HoldsFull }
    {
        self.check_hold()?;
        let newest = self.told.newest();
        self.holds.push(newest)?;
        Ok(newest)
    }

    /// Removes one hold of the stamp. Fails if the stamp has none, or the database is broken. Does not
    /// allocate.
    pub fn unpin(&mut self, stamp: Stamp) -> Result<(), DbError>
        ensures after { OnOk result (self.new ≡ after_unpin self.old stamp) }
        ensures only_if { IsOk result → is_held stamp self.old.holds ≡ true }
        ensures unchanged { OnErr result (self.new ≡ self.old) }
        ensures refused { IfErr result (IsUnpinRefused self.old stamp) }
        ensures broken { self.old.broken ≡ true → result ≡ Err DbError.Broken }
    {
        if self.broken {
            return Err(DbError::Broken);
        }
        let Some(at) = place_of(&self.holds, stamp) else {
            return Err(DbError::NotPinned(stamp));
        };
        let _hold = self.holds.remove(at);
        Ok(())
    }

    /// Moves the horizon to the least held stamp, or to the newest if none is held, returns it, and drops the
    /// versions that are in no state from there on. It uses the store only if the horizon moves. Fails, and
    /// changes nothing, if the store fails or the database is broken.
    pub fn vacuum(&mut self) -> Result<Stamp, DbError>
        ensures after { OnOk result (self.new ≡ after_vacuum self.old) }
        ensures answer { IfOk result (λ horizon. horizon ≡ next_horizon self.old) }
        ensures unchanged { OnErr result (self.new ≡ self.old) }
        ensures refused { IfErr result (IsVacuumRefused self.old) }
        ensures broken { self.old.broken ≡ true → result ≡ Err DbError.Broken }
    {
        if self.broken {
            return Err(DbError::Broken);
        }
        let newest = self.told.newest();
        let horizon = least_held(&self.holds, newest);
        if horizon == self.horizon {
            return Ok(horizon);
        }
        self.store.purge(horizon)?;
        self.told.forget(horizon.number() as usize);
        self.horizon = horizon;
        Ok(horizon)
    }

    /// Fails if no pin can be appended, whatever memory there is.
    pub(crate) fn check_pin(&self, at_least: Stamp) -> Result<(), DbError>
        ensures only_if { IsOk result ↔ IsPinnable self.now at_least }
        ensures refused { IfErr result (IsPinRefused self.now at_least) }
        ensures whole { self.now.broken ≡ false → result ≢ Err DbError.Broken }
    {
        if self.broken {
            return Err(DbError::Broken);
        }
        let events = self.told.len();
        if at_least.number() as usize > events + 1 {
            return Err(DbError::FutureStamp(Stamp::after(events)));
        }
        if self.told.is_full() {
            return Err(DbError::Full);
        }
        if self.has_all_holds() {
            return Err(DbError::HoldsFull);
        }
        Ok(())
    }

    /// Appends a pin of the wall-clock time `now`, in milliseconds, and holds its stamp. Fails if that stamp
    /// would be below `at_least`, the history is full, or there are [`crate::MAX_HOLDS`] holds.
    pub fn pin(&mut self, alloc: Global, now: u64, at_least: Stamp) -> Result<Pinned, DbError>
        ensures after { OnOk result (self.new ≡ after_pin self.old now) }
        ensures answer { IfOk result (λ pinned. pinned.stamp ≡ newest self.new) }
        ensures moment { IfOk result (λ pinned. pinned.moment ≡ now) }
        ensures front { IfOk result (λ pinned. pinned.front ≡ front_of self.new) }
        ensures only_if { IsOk result → IsPinnable self.old at_least }
        ensures unchanged { IfErr result (IsLeft self.old self.new) }
        ensures refused { IfErr result (IsPinRefused self.old at_least) }
        ensures taken { self.old.broken ≡ false → result ≡ Err DbError.Broken → HasRow self.old.events }
    {
        versions_keep_states();
        tags_are_sound();
        self.check_pin(at_least)?;
        let events = self.told.len();
        self.holds.reserve(1)?;
        let event = self.told.prepare_pin(alloc, now)?;
        let mut front = self.told.front().again()?;
        let stamp = Stamp::after(events + 1);
        if !self.told.append(event) {
            self.broken = true;
            return Err(DbError::Broken);
        }
        self.holds.push_reserved(stamp);
        front.lengthen(self.told.front());
        Ok(Pinned {
            stamp,
            moment: now,
            front,
        })
    }
}
