//! An observed prefix of a database's history.
ghost use Rattle.std.specs.Prelude.{◌≡◌, ◌+◌, ◌<◌, ◌≤◌, ◌⊎◌, ◌++◌, ◌∷◌, [], true, false, length, Some, IfOk, OnOk, IfErr, IsTrue, ◌↔◌, MatchOption};
ghost use Rattle.std.specs.Arc.{arc_value};
ghost use mathlib.Core.List.{IsPrefix};
ghost use Rattle.txc_stamp.specs.declared.stamp.TheConstants.{LAST_STAMP, MOST_STAMP};
ghost use Rattle.txc_stream.specs.Names.{stored, HasRow};
ghost use Rattle.txc_rows.specs.RowTags.{tags_between};
ghost use Rattle.txc_db.specs.History.{AreTagged, state_after_event, state_at, tags_at, event_at};
ghost use Rattle.txc_db.specs.Room.{events_room};

use crate::error::DbError;
use crate::event::Event;
use std::alloc::AllocError;
use std::marker::Model;
use std::sync::Arc;
use txc_stamp::{MOST_STAMP, Stamp};
use txc_stream::{EventRow, Front};

/// A prefix of the history of a database, as observed. Each event in it has the tags of its changes.
///
/// Contracts see the history's identity and the events seen. If the history is stored, the front has a handle
/// of the event log, so that its owner can read it. Otherwise it is as large as a number.
#[derive(Drop)]
pub struct HistoryFront {
    row: Option<Arc<EventRow<Event>>>,
    front: Front<Event>,
}

impl Model for HistoryFront {
    ghost use Rattle.std.specs.Prelude.{◌≡◌, ◌≤◌, MatchOption, length};
    ghost use Rattle.std.specs.Arc.{arc_value};
    ghost use Rattle.txc_db.specs.History.{AreTagged};
    ghost use Rattle.txc_db.specs.Room.{events_room};
    ghost use Rattle.txc_stream.specs.Names.{stored, HasRow};
    ghost use Rattle.txc_db.specs.FrontsAndFeeds.{FrontValue};

    ghost Value = { FrontValue };

    ghost view = { λ f. record { events = f.front.name; history = f.front.list } };

    ghost invariant = { λ f.
        MatchOption f.row (¬ (HasRow f.front.name)) (λ row. f.front.name ≡ stored (arc_value row))
        × AreTagged f.front.list × (length f.front.list ≤ events_room f.front.name) };
}

impl HistoryFront {
    /// Makes a front that shows nothing yet of the event log.
    pub(crate) fn stored(row: Arc<EventRow<Event>>) -> HistoryFront
        ensures { result ≡ record { events = stored (arc_value row); history = [] } }
    {
        let front = row.start();
        HistoryFront {
            row: Some(row),
            front,
        }
    }

    /// Makes a front of a history that is not stored.
    pub(crate) fn unstored(front: Front<Event>) -> HistoryFront
        requires unstored { ¬ (HasRow front.name) }
        requires tagged { AreTagged front.list }
        requires fits { length front.list ≤ events_room front.name }
        ensures { result ≡ record { events = front.name; history = front.list } }
    {
        HistoryFront { row: None, front }
    }

    /// Returns a second front that shows the same events. It does not allocate, and fails only if the event log
    /// has too many handles.
    pub fn again(&self) -> Result<HistoryFront, AllocError>
        ensures { IfOk result (λ copy. copy ≡ self.now) }
    {
        let row = self.row_handle()?;
        let front = self.front.again();
        Ok(HistoryFront { row, front })
    }

    /// Returns `true` if its history is stored.
    pub fn is_stored(&self) -> bool
        ensures { IsTrue result ↔ HasRow self.now.events }
    {
        self.row.is_some()
    }

    // Returns a handle of its event log, if events are stored.
    fn row_handle(&self) -> Result<Option<Arc<EventRow<Event>>>, AllocError>
        ensures { IfOk result (λ row. MatchOption row
            (¬ (HasRow self.now.events))
            (λ row. self.now.events ≡ stored (arc_value row))) }
    {
        match &self.row {
            Some(row) => Ok(Some(Arc::try_clone(row)?)),
            None => Ok(None),
        }
    }

    /// Returns the event log, if events are stored. A caller that appends to it breaks the database; tests do
    /// so.
    pub fn events(&self) -> Option<&EventRow<Event>>
        ensures { MatchOption result
            (¬ (HasRow self.now.events))
            (λ row. self.now.events ≡ stored row.now) }
    {
        match &self.row {
            Some(row) => Some(row),
            None => None,
        }
    }

    /// Returns the plain front, which reads the log.
    pub(crate) fn front(&self) -> &Front<Event>
        ensures name { result.now.name ≡ self.now.events }
        ensures list { result.now.list ≡ self.now.history }
    {
        &self.front
    }

    /// Each of its events has the tags of its changes. This is a lemma: it does nothing when it runs.
    pub fn is_tagged(&self)
        ensures { AreTagged self.now.history }
    {
        let _len = self.front.len();
    }

    /// Returns how many events it shows.
    pub fn len(&self) -> usize
        ensures shown { result ≡ length self.now.history }
        ensures room { result ≤ events_room self.now.events }
        ensures most { result ≤ MOST_STAMP }
        ensures stored { HasRow self.now.events → result ≤ LAST_STAMP }
    {
        self.front.len()
    }

    /// Returns `true` if it shows no event.
    pub fn is_empty(&self) -> bool
        ensures { IsTrue result ↔ (self.now.history ≡ []) }
    {
        self.front.is_empty()
    }

    /// Returns how many events its history has room for.
    pub fn room(&self) -> usize
        ensures room { result ≡ events_room self.now.events }
        ensures most { result ≤ MOST_STAMP }
        ensures stored { HasRow self.now.events → result ≤ LAST_STAMP }
    {
        match &self.row {
            Some(row) => row.capacity(),
            None => MOST_STAMP as usize,
        }
    }

    /// Returns `true` if it shows as many events as there is room for.
    pub(crate) fn is_full(&self) -> bool
        ensures full { result ≡ true → length self.now.history ≡ events_room self.now.events }
        ensures room { result ≡ false → length self.now.history < events_room self.now.events }
        ensures next { result ≡ false → length self.now.history < MOST_STAMP }
    {
        self.front.len() >= self.room()
    }

    /// Returns the stamp after the events that it shows.
    pub fn newest(&self) -> Stamp
        ensures { result ≡ length self.now.history }
    {
        Stamp::after(self.len())
    }

    /// Returns one of the events that it shows, by its number, from 1 on, with its tags, or `None` if events
    /// are not stored.
    pub fn event_at(&self, number: usize) -> Option<&Event>
        requires first { 1 ≤ number }
        requires last { number ≤ length self.now.history }
        ensures event { MatchOption result
            (¬ (HasRow self.now.events))
            (λ event. event_at self.now.history number ≡ Some event.now) }
        ensures tags { MatchOption result
            (¬ (HasRow self.now.events))
            (λ event. event.now.tags ≡ tags_at self.now.history number) }
    {
        match &self.row {
            Some(row) => Some(row.get(&self.front, number - 1)),
            None => None,
        }
    }

    /// Takes over the events that only the other front shows, so that this one shows the longer history. Does
    /// not allocate.
    pub fn longer(&mut self, other: &HistoryFront)
        requires { other.now.events ≡ self.old.events }
        ensures events { self.new.events ≡ self.old.events }
        ensures one { (self.new.history ≡ self.old.history) ⊎ (self.new.history ≡ other.now.history) }
        ensures this { IsPrefix self.old.history self.new.history }
        ensures that { IsPrefix other.now.history self.new.history }
    {
        self.see(&other.front);
    }

    /// Takes over the events that only a plain front shows, each of which has the tags of its changes.
    pub(crate) fn see(&mut self, front: &Front<Event>)
        requires named { front.now.name ≡ self.old.events }
        requires tagged { AreTagged front.now.list }
        requires fits { length front.now.list ≤ events_room front.now.name }
        ensures events { self.new.events ≡ self.old.events }
        ensures one { (self.new.history ≡ self.old.history) ⊎ (self.new.history ≡ front.now.list) }
        ensures this { IsPrefix self.old.history self.new.history }
        ensures that { IsPrefix front.now.list self.new.history }
    {
        self.front.longer(front);
    }

    /// Takes over all events of a front that begins with this one.
    pub(crate) fn lengthen(&mut self, whole: &HistoryFront)
        requires events { self.old.events ≡ whole.now.events }
        requires begins { IsPrefix self.old.history whole.now.history }
        ensures { self.new ≡ whole.now }
    {
        self.longer(whole);
    }

    /// Of two fronts of one history, the events of one are a prefix of the other's. This is a lemma: it does
    /// nothing when it runs.
    pub fn agree(&self, other: &HistoryFront)
        requires { self.now.events ≡ other.now.events }
        ensures { IsPrefix self.now.history other.now.history ⊎ IsPrefix other.now.history self.now.history }
    {
        self.front.agree(&other.front);
    }

    /// Appends a stored event that has the tags of its changes. Fails as `Broken` if another record is in its
    /// cell.
    pub(crate) fn append(&mut self, event: Box<Event>) -> Result<(), DbError>
        requires stored { HasRow self.old.events }
        requires room { length self.old.history < events_room self.old.events }
        requires tagged { let before = state_at self.old.history (length self.old.history)
            in event.value.tags ≡ tags_between before (state_after_event before event.value) }
        ensures after { OnOk result (self.new
            ≡ record self.old { history = self.old.history ++ event.value ∷ [] }) }
        ensures unchanged { IfErr result (λ refusal. self.new ≡ self.old) }
        ensures refused { IfErr result (λ refusal. refusal ≡ DbError.Broken) }
    {
        let Some(row) = &self.row else {
            unreachable!();
        };
        match row.append(&mut self.front, event) {
            Ok(()) => Ok(()),
            Err(_) => Err(DbError::Broken),
        }
    }
}
