//! The history of a database, and its writer.
ghost use Rattle.std.specs.Prelude.{◌≡◌, ◌+◌, ◌<◌, ◌≤◌, ◌++◌, ◌∷◌, [], true, false, length, max, ◌⊎◌, IfOk, OnOk, OnErr, MatchOption};
ghost use Rattle.std.specs.Arc.{arc_value};
ghost use Rattle.txc_stamp.specs.declared.stamp.TheConstants.{MOST_STAMP};
ghost use Rattle.txc_stream.specs.Names.{stored, unstored, HasRow};
ghost use Rattle.txc_rows.specs.RowTags.{tags_between};
ghost use Rattle.txc_db.specs.Facts.{commit, net_of};
ghost use Rattle.txc_db.specs.History.{pin_event, state_at, state_after_event, tags_at};
ghost use Rattle.txc_db.specs.Room.{events_room, AreTagsKept, AreTagsGone};
ghost use Rattle.txc_db.specs.HeldHistory.{HistoryValue, front_in, event_in, IsPrepared};

use crate::event::{Event, EventTags, What};
use crate::history_front::HistoryFront;
use crate::net::Net;
use crate::prepared::{AsCommit, AsPin, Loose, Prepared};
use std::alloc::{AllocError, Global};
use std::marker::Model;
use std::sync::Arc;
use txc_stamp::Stamp;
use txc_stream::{AppendToken, EventRow, GhostRecord, Window};
use txc_tags::TagSet;

/// The history of a database: a front that shows the whole of it, and, if it is ghost, a window with the tags
/// of its last events.
#[derive(Drop)]
pub(crate) struct History {
    front: HistoryFront,
    // Shows nothing, as the front of a new reader does.
    start: HistoryFront,
    window: Option<Window<Event, Arc<TagSet>, EventTags>>,
}

impl Model for History {
    ghost use Rattle.std.specs.Prelude.{◌≡◌, []};
    ghost use Rattle.txc_db.specs.HeldHistory.{HistoryValue, HasWindow, first_kept, room_in};

    ghost Value = { HistoryValue };

    ghost view = { λ h. record {
      events = h.front.events;
      history = h.front.history;
      first = first_kept h.window;
      room = room_in h.window;
    } };

    ghost invariant = { λ h. (h.start.events ≡ h.front.events) × (h.start.history ≡ []) × HasWindow h.window h.front };
}

impl History {
    /// Makes the history of an event log, of which nothing was observed. Fails only if the log has too many
    /// handles.
    pub(crate) fn stored(row: Arc<EventRow<Event>>) -> Result<History, AllocError>
        ensures { IfOk result (λ h. (h.events ≡ stored (arc_value row)) × (h.history ≡ []) × (h.first ≡ 0)) }
    {
        let start = HistoryFront::stored(Arc::try_clone(&row)?);
        let front = HistoryFront::stored(row);
        Ok(History {
            front,
            start,
            window: None,
        })
    }

    /// Makes a ghost history without events.
    pub(crate) fn unstored(alloc: Global, pen: AppendToken<Event>) -> History
        requires { pen.list ≡ [] }
        ensures { (result.events ≡ unstored pen.number) × (result.history ≡ []) × (result.first ≡ 0) }
    {
        let window = Window::new(alloc, pen);
        History {
            front: HistoryFront::unstored(window.front().again()),
            start: HistoryFront::unstored(window.front().again()),
            window: Some(window),
        }
    }

    /// Makes a ghost history with one event, whose tags are not stored.
    pub(crate) fn begun(
        alloc: Global,
        mut pen: AppendToken<Event>,
        draft: GhostRecord<Event>,
    ) -> History
        requires none { pen.list ≡ [] }
        requires tagged { draft.value.tags ≡ tags_between [] (state_after_event [] draft.value) }
        ensures events { result.events ≡ unstored pen.number }
        ensures history { result.history ≡ draft.value ∷ [] }
        ensures first { result.first ≡ 1 }
    {
        let start = HistoryFront::unstored(pen.start());
        let window = Window::begun(alloc, pen, draft);
        History {
            front: HistoryFront::unstored(window.front().again()),
            start,
            window: Some(window),
        }
    }

    /// Returns a front that shows the whole of it.
    pub(crate) fn front(&self) -> &HistoryFront
        ensures { result.now ≡ front_in self.now }
    {
        &self.front
    }

    /// Returns how many events it has.
    pub(crate) fn len(&self) -> usize
        ensures shown { result ≡ length self.now.history }
        ensures most { result ≤ MOST_STAMP }
    {
        self.front.len()
    }

    /// Returns the stamp after its events.
    pub(crate) fn newest(&self) -> Stamp
        ensures { result ≡ length self.now.history }
    {
        self.front.newest()
    }

    /// Returns `true` if there is no room for another event.
    pub(crate) fn is_full(&self) -> bool
        ensures full { result ≡ true → length self.now.history ≡ events_room self.now.events }
        ensures room { result ≡ false → length self.now.history < events_room self.now.events }
        ensures next { result ≡ false → length self.now.history < MOST_STAMP }
    {
        self.front.is_full()
    }

    /// Returns `true` if the tags of each event after the base are stored, provided that those after the
    /// horizon are.
    pub(crate) fn keeps_tags(&self, horizon: Stamp, base: Stamp) -> bool
        ensures kept { result ≡ true → AreTagsKept self.now.events horizon base }
        ensures gone { result ≡ false → AreTagsGone self.now.events horizon base }
    {
        self.front.is_stored() || base >= horizon
    }

    /// Returns a front that shows nothing yet.
    pub(crate) fn start(&self) -> &HistoryFront
        ensures { result.now ≡ record { events = self.now.events; history = [] } }
    {
        &self.start
    }

    // Returns the stored tags of one of its events, by its number, from 1 on.
    fn kept_tags(&self, number: usize) -> &Arc<TagSet>
        requires unstored { ¬ (HasRow self.now.events) }
        requires kept { self.now.first < number }
        requires last { number ≤ length self.now.history }
        ensures { arc_value result.now ≡ tags_at self.now.history number }
    {
        self.front.is_tagged();
        let Some(window) = &self.window else {
            unreachable!();
        };
        window.get(number - 1)
    }

    /// Returns the tags of one of its events, by its number, from 1 on. They are stored.
    pub(crate) fn tags_of(&self, number: usize) -> &TagSet
        requires first { 1 ≤ number }
        requires kept { ¬ (HasRow self.now.events) → self.now.first < number }
        requires last { number ≤ length self.now.history }
        ensures { result.now ≡ tags_at self.now.history number }
    {
        if let Some(event) = self.front.event_at(number) {
            return &event.tags;
        }
        self.kept_tags(number)
    }

    /// Returns a handle of the tags of its last event, or `None` if events are stored or the tags of no event
    /// are.
    pub(crate) fn last_tags(&self) -> Result<Option<Arc<TagSet>>, AllocError>
        ensures { IfOk result (λ tags. MatchOption tags
            (HasRow self.now.events ⊎ (length self.now.history ≤ self.now.first))
            (λ tags. arc_value tags ≡ tags_at self.now.history (length self.now.history))) }
    {
        let Some(window) = &self.window else {
            return Ok(None);
        };
        let events = self.front.len();
        if window.first() >= events {
            return Ok(None);
        }
        let tags = Arc::try_clone(self.kept_tags(events))?;
        Ok(Some(tags))
    }

    // Makes room for the tags of one more event, if tags are stored.
    fn reserve(&mut self) -> Result<(), AllocError>
        ensures same { self.new ≡ record self.old { room = self.new.room } }
        ensures room { OnOk result (¬ (HasRow self.old.events) → 0 < self.new.room) }
    {
        match &mut self.window {
            Some(window) => window.reserve(),
            None => Ok(()),
        }
    }

    /// Prepares a commit of these net changes. Fails only if memory cannot be allocated.
    pub(crate) fn prepare_commit(&mut self, alloc: Global, net: Net) -> Result<Prepared, AllocError>
        ensures same { self.new ≡ record self.old { room = self.new.room } }
        ensures event { IfOk result (λ next.
            event_in next ≡ record { fact = commit net.changes.items; tags = net.tags }) }
        ensures prepared { IfOk result (IsPrepared self.new) }
    {
        self.reserve()?;
        if self.front.is_stored() {
            let Net { changes, tags } = net;
            let event = Event {
                what: What::Commit(changes),
                tags,
            };
            return Ok(Prepared::Stored(Box::new(alloc, event)?));
        }
        let draft = GhostRecord::of::<Net, AsCommit>(&net);
        let Net { changes, tags } = net;
        let tags = Arc::new(alloc, tags)?;
        Ok(Prepared::Unstored(Loose {
            changes,
            tags,
            draft,
        }))
    }

    /// Prepares a pin of that wall-clock time. Fails only if memory cannot be allocated.
    pub(crate) fn prepare_pin(&mut self, alloc: Global, moment: u64) -> Result<Prepared, AllocError>
        ensures same { self.new ≡ record self.old { room = self.new.room } }
        ensures event { IfOk result (λ next. event_in next ≡ pin_event moment) }
        ensures prepared { IfOk result (IsPrepared self.new) }
    {
        self.reserve()?;
        let tags = TagSet::new(alloc);
        if self.front.is_stored() {
            let event = Event {
                what: What::Pin(moment),
                tags,
            };
            return Ok(Prepared::Stored(Box::new(alloc, event)?));
        }
        let draft = GhostRecord::of::<u64, AsPin>(&moment);
        let tags = Arc::new(alloc, tags)?;
        Ok(Prepared::Unstored(Loose {
            changes: Vec::new(alloc),
            tags,
            draft,
        }))
    }

    /// Appends a prepared event that has the tags of its changes. Returns `false`, and changes nothing, if
    /// another record is in its cell, which cannot be if events are not stored.
    pub(crate) fn append(&mut self, next: Prepared) -> bool
        requires prepared { IsPrepared self.old next }
        requires room { length self.old.history < events_room self.old.events }
        requires tagged { let before = state_at self.old.history (length self.old.history)
            in (event_in next).tags ≡ tags_between before (state_after_event before (event_in next)) }
        ensures after { result ≡ true → self.new ≡ record self.old {
          history = self.old.history ++ event_in next ∷ [];
          room = self.new.room;
        } }
        ensures unchanged { result ≡ false → self.new ≡ self.old }
        ensures taken { result ≡ false → HasRow self.old.events }
    {
        match next {
            Prepared::Stored(event) => self.front.append(event).is_ok(),
            Prepared::Unstored(next) => {
                self.write(next);
                true
            }
        }
    }

    // Appends an event that is not stored.
    fn write(&mut self, next: Loose)
        requires unstored { ¬ (HasRow self.old.events) }
        requires kept { 0 < self.old.room }
        requires room { length self.old.history < events_room self.old.events }
        requires tagged { let before = state_at self.old.history (length self.old.history)
            in next.draft.value.tags ≡ tags_between before (state_after_event before next.draft.value) }
        ensures { self.new ≡ record self.old {
          history = self.old.history ++ next.draft.value ∷ [];
          room = self.new.room;
        } }
    {
        self.front.is_tagged();
        let Some(window) = &mut self.window else {
            unreachable!();
        };
        let Loose {
            changes: _,
            tags,
            draft,
        } = next;
        window.append(tags, draft);
        self.front = HistoryFront::unstored(window.front().again());
    }

    /// Drops the tags of the events up to the stamp, if events are not stored. Does not allocate.
    pub(crate) fn forget(&mut self, upto: usize)
        requires { upto ≤ length self.old.history }
        ensures same { self.new ≡ record self.old { first = self.new.first; room = self.new.room } }
        ensures low { self.new.first ≤ max self.old.first upto }
        ensures kept { HasRow self.old.events ⊎ (self.new.first ≡ max self.old.first upto) }
    {
        if let Some(window) = &mut self.window {
            window.forget(upto);
        }
    }
}
