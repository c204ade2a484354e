//! The events of a database for threads without its lock.
ghost use Rattle.std.specs.Prelude.{◌≡◌, ◌+◌, ◌<◌, ◌≤◌, ◌↔◌, ◌⊎◌, IsTrue, IfSome, IfNone, MatchOption, [], true, length, Some};
ghost use Rattle.std.specs.Arc.{arc_value};
ghost use Rattle.txc_stream.specs.Names.{HasRow};
ghost use Rattle.txc_db.specs.History.{tags_at, event_at};
ghost use mathlib.Core.List.{IsPrefix};

use crate::event::{Event, PostedTags};
use crate::history_front::HistoryFront;
use crate::naming::Naming;
use std::marker::Model;
use std::sync::{Arc, Wait};
use txc_stream::{Cursor, longer_of_two, prefix_of_itself};
use txc_tags::TagSet;

/// Cursor through the posted events of a database.
pub(crate) type EventWalker<J> = Cursor<Event, Option<Arc<TagSet>>, PostedTags<J>>;

/// The events of the database, one after the other, for a thread without the lock.
///
/// Contracts see the events that it has seen so far, and how many of them were taken.
#[derive(Drop)]
pub struct Feed<J: Naming> {
    front: HistoryFront,
    walker: EventWalker<J>,
    taken: usize,
}

impl<J: Naming> Model for Feed<J> {
    ghost use Rattle.std.specs.Prelude.{◌≡◌, ◌≤◌, length};
    ghost use Rattle.txc_db.specs.FrontsAndFeeds.{FeedValue};

    ghost Value = { FeedValue };

    ghost view = { λ f. record { history = f.front.history; taken = f.taken } };

    ghost invariant = { λ f. (f.front.events ≡ J.database_history) × (f.taken ≤ length f.front.history) };
}

// Looks for an event after the first `taken`.
fn find_after<J: Naming>(walker: &mut EventWalker<J>, rt: &impl Wait, taken: usize) -> bool
    ensures { result ≡ walker.new.found }
{
    if walker.look(rt) && walker.front().len() <= taken {
        walker.take();
    }
    walker.look(rt)
}

impl<J: Naming> Feed<J> {
    pub(crate) fn new(front: HistoryFront, walker: EventWalker<J>, taken: usize) -> Feed<J>
        requires named { front.events ≡ J.database_history }
        requires taken { taken ≤ length front.history }
        ensures { result ≡ record { history = front.history; taken = taken } }
    {
        Feed {
            front,
            walker,
            taken,
        }
    }

    // Takes over the events that its cursor finds.
    fn walk(&mut self, rt: &impl Wait)
        ensures taken { self.new.taken ≡ self.old.taken }
        ensures longer { IsPrefix self.old.history self.new.history }
    {
        prefix_of_itself::<Event>();
        if find_after(&mut self.walker, rt, self.taken) {
            let _tags = self.walker.note();
            self.front.see(self.walker.front());
        }
    }

    /// Looks for an event after the taken ones, and returns `true` if there is one. It does not allocate, and
    /// waits for a lock at most once in a thousand events. No contract states that `false` means that there was
    /// none, since one may be appended at any time.
    pub fn look(&mut self, rt: &impl Wait) -> bool
        ensures next { IsTrue result ↔ (self.new.taken < length self.new.history) }
        ensures taken { self.new.taken ≡ self.old.taken }
        ensures longer { IsPrefix self.old.history self.new.history }
    {
        self.walk(rt);
        self.taken < self.front.len()
    }

    /// Lets the feed show what the front shows beyond it. No event counts as taken by this. The front must be
    /// of the same history. Does not allocate.
    pub fn longer(&mut self, other: &HistoryFront)
        requires { other.now.events ≡ J.database_history }
        ensures taken { self.new.taken ≡ self.old.taken }
        ensures one { (self.new.history ≡ self.old.history) ⊎ (self.new.history ≡ other.now.history) }
        ensures this { IsPrefix self.old.history self.new.history }
        ensures that { IsPrefix other.now.history self.new.history }
    {
        self.front.longer(other);
    }

    /// Returns the event after the taken ones, with its tags, or `None` if events are not stored.
    pub fn next_event(&self) -> Option<&Event>
        requires { self.now.taken < length self.now.history }
        ensures event { MatchOption result
            (¬ (HasRow J.database_history))
            (λ event. event_at self.now.history (self.now.taken + 1) ≡ Some event.now) }
        ensures tags { MatchOption result
            (¬ (HasRow J.database_history))
            (λ event. event.now.tags ≡ tags_at self.now.history (self.now.taken + 1)) }
    {
        let _seen = self.front.len();
        self.front.event_at(self.taken + 1)
    }

    /// Returns the tags of the event after the taken ones, if they are known. They are unknown if the history
    /// is ghost and the feed has not found the event where the database posts it.
    pub fn next_tags(&self) -> Option<&TagSet>
        ensures tags { IfSome result (λ tags. (self.now.taken < length self.now.history)
            × (tags.now ≡ tags_at self.now.history (self.now.taken + 1))) }
        ensures none { IfNone result
            ((length self.now.history ≤ self.now.taken) ⊎ ¬ (HasRow J.database_history)) }
    {
        if self.taken >= self.front.len() {
            return None;
        }
        if let Some(event) = self.next_event() {
            return Some(&event.tags);
        }
        self.posted_tags()
    }

    // Returns the tags of the event after the taken ones, if the cursor is at it and they were posted.
    fn posted_tags(&self) -> Option<&TagSet>
        requires { self.now.taken < length self.now.history }
        ensures { IfSome result (λ tags. tags.now ≡ tags_at self.now.history (self.now.taken + 1)) }
    {
        longer_of_two::<Event>();
        let _seen = self.front.len();
        let found = self.walker.front();
        if !self.walker.is_found() || found.len() != self.taken + 1 {
            return None;
        }
        found.agree(self.front.front());
        match self.walker.note() {
            Some(tags) => Some(tags),
            None => None,
        }
    }

    /// Returns how many events were taken.
    pub fn taken(&self) -> usize
        ensures { result ≡ self.now.taken }
    {
        self.taken
    }

    /// Takes the event after the taken ones.
    pub fn take(&mut self)
        requires { self.old.taken < length self.old.history }
        ensures history { self.new.history ≡ self.old.history }
        ensures taken { self.new.taken ≡ self.old.taken + 1 }
    {
        let _seen = self.front.len();
        self.taken += 1;
    }

    /// Returns a front that shows the events seen so far.
    pub fn front(&self) -> &HistoryFront
        ensures named { result.now.events ≡ J.database_history }
        ensures history { result.now.history ≡ self.now.history }
        ensures taken { self.now.taken ≤ length self.now.history }
    {
        &self.front
    }
}
