//! The database under its lock: each call returns a front that proves its result.
ghost use Rattle.std.specs.Prelude.{◌≡◌, ◌+◌, ◌≤◌, ◌⊎◌, ◌∷◌, [], length, Some, IfOk, IfErr, MatchOption};
ghost use Rattle.txc_stream.specs.Names.{stored, HasRow};
ghost use Rattle.txc_rows.specs.RowTags.{query_tag};
ghost use Rattle.txc_db.specs.History.{event_at, pin_event};
ghost use Rattle.txc_db.specs.DatabaseValue.{next_horizon};
ghost use Rattle.txc_db.specs.FrontsAndFeeds.{taken_at_start};
ghost use Rattle.txc_db.specs.Calls.{IsHoldRefused, IsUnpinRefused, IsVacuumRefused, IsQueryRefused, IsPinRefused};
ghost use Rattle.txc_db.specs.DatabaseReply.{IsDatabaseOf, MayAnswer, IsQueryAnswer, IsQuietIn, IsEventIn, MayRefuse, IsSharedCommitRefused};

use crate::answered::{Answered, CommitError};
use crate::db_core::DbCore;
use crate::error::DbError;
use crate::event::Event;
use crate::feed::Feed;
use crate::held::Held;
use crate::history_front::HistoryFront;
use crate::lock::lock_spinning;
use crate::locked::Locked;
use crate::naming::Naming;
use crate::pinned::Pinned;
use std::alloc::{AllocError, Global};
use std::sync::{Mutex, Wait};
use txc_rows::{Change, Query};
use txc_stamp::Stamp;
use txc_stream::EventRow;
use txc_tags::TagSet;
use txc_validity::Found;

/// A database that threads share.
///
/// Each call that waits for the lock does the call of [`DbCore`] of the same name, and fails as that does, for
/// some history of the named database. The front in a result shows what the result states of the history.
/// Memory for the front may be unavailable as any other. Once a call has found the database `Broken`, each
/// later call fails so, whatever memory there is.
pub struct Database<J: Naming> {
    start: HistoryFront,
    lock: Mutex<Locked<J>>,
    ghost begins: { start ≡ record { events = J.database_history; history = [] } },
}

// Not derived, since a derived one would be proved again in each crate above.
impl<J: Naming> Drop for Database<J> {
    fn drop(self) {
        let Database { start: _, lock: _ } = self;
    }
}

impl<J: Naming> Database<J> {
    /// Puts the database, whose history is the named one, under a lock. Fails, and drops the database, if
    /// memory cannot be allocated.
    pub fn new(alloc: Global, core: DbCore) -> Result<Database<J>, AllocError>
        requires { core.events ≡ J.database_history }
    {
        let start = core.reader()?;
        let locked = Locked::new(alloc, core)?;
        Ok(Database {
            start,
            lock: Mutex::new(locked),
        })
    }

    /// Returns the answer of the query at a stamp, with its validity up to the newest stamp, and the query's
    /// tag. The front shows the whole history. Fails if the stamp is below the horizon or beyond the newest,
    /// the store fails (more versions match than it allows, for one), the database is broken, or memory cannot
    /// be allocated.
    pub fn query(
        &self,
        rt: &impl Wait,
        alloc: Global,
        query: &Query,
        stamp: Stamp,
    ) -> Result<Answered<Found>, DbError>
        ensures named { IfOk result (λ answered. answered.front.events ≡ J.database_history) }
        ensures answer { IfOk result
            (MayAnswer J.database_history (λ d. IsQueryAnswer d query.now stamp)) }
        ensures tag { IfOk result (λ answered. answered.answer.tags ≡ query_tag query.now ∷ []) }
        ensures refused { IfErr result (MayRefuse J.database_history (λ d. IsQueryRefused d query.now stamp)) }
    {
        lock_spinning(rt, &self.lock).query(alloc, query, stamp)
    }

    /// Holds the newest stamp: no vacuum passes it until the hold is released. Fails if there are
    /// [`crate::MAX_HOLDS`] holds, or memory cannot be allocated, or the database is broken.
    pub fn hold(&self, rt: &impl Wait, alloc: Global) -> Result<Held<J>, DbError>
        ensures refused { IfErr result (MayRefuse J.database_history IsHoldRefused) }
    {
        let Answered { answer, front } = lock_spinning(rt, &self.lock).hold(alloc)?;
        Ok(Held::new(answer, front))
    }

    /// Releases the hold, which is consumed even if this fails: the database is broken, or [`Database::unpin`]
    /// has already removed the hold of the stamp. Does not allocate.
    pub fn release(&self, rt: &impl Wait, held: Held<J>) -> Result<(), DbError>
        ensures refused { IfErr result
            (MayRefuse J.database_history (λ d. IsUnpinRefused d (length held))) }
    {
        self.unpin(rt, held.spend())
    }

    /// Commits the changes if no event after the base has a tag that matches those read. Returns the newest
    /// stamp after the commit; the front shows the history up to it. Changes that leave the state as it is add
    /// no event.
    ///
    /// Fails with the first such event as a conflict; with `FutureStamp` if the base is beyond the newest
    /// stamp; and with `SnapshotGone` if the tags of the events after it are no longer stored. It also fails if
    /// the history is full, the store fails, the database is broken, or memory cannot be allocated.
    pub fn commit(
        &self,
        rt: &impl Wait,
        alloc: Global,
        base: Stamp,
        read: &TagSet,
        changes: &[Change],
    ) -> Result<Answered<Stamp>, CommitError>
        ensures named { IfOk result (λ answered. answered.front.events ≡ J.database_history) }
        ensures answer { IfOk result (λ answered.
            IsQuietIn answered.front.history base read.now changes.now answered.answer
            ⊎ IsEventIn answered.front.history base read.now changes.now answered.answer) }
        ensures refused { IfErr result
            (MayRefuse J.database_history (λ d. IsSharedCommitRefused d base read.now changes.now)) }
    {
        lock_spinning(rt, &self.lock).commit(rt, alloc, base, read, changes)
    }

    /// Appends a pin of the wall-clock time `now`, in milliseconds, and holds its stamp, which is at least
    /// `at_least`. Fails if `at_least` is beyond the next stamp, the history is full, [`MAX_HOLDS`] stamps are
    /// held, the database is broken, or memory cannot be allocated.
    pub fn pin(
        &self,
        rt: &impl Wait,
        alloc: Global,
        now: u64,
        at_least: Stamp,
    ) -> Result<Pinned, DbError>
        ensures named { IfOk result (λ pinned. pinned.front.events ≡ J.database_history) }
        ensures answer { IfOk result (λ pinned. pinned.stamp ≡ length pinned.front.history) }
        ensures event { IfOk result (λ pinned.
            event_at pinned.front.history pinned.stamp ≡ Some (pin_event now)) }
        ensures moment { IfOk result (λ pinned. pinned.moment ≡ now) }
        ensures late { IfOk result (λ pinned. at_least ≤ pinned.stamp) }
        ensures refused { IfErr result (MayRefuse J.database_history (λ d. IsPinRefused d at_least)) }
    {
        lock_spinning(rt, &self.lock).pin(rt, alloc, now, at_least)
    }

    /// Removes one hold of the stamp, as maintenance does with those of pins. Fails if the stamp has no hold,
    /// or the database is broken. Does not allocate.
    pub fn unpin(&self, rt: &impl Wait, stamp: Stamp) -> Result<(), DbError>
        ensures refused { IfErr result (MayRefuse J.database_history (λ d. IsUnpinRefused d stamp)) }
    {
        lock_spinning(rt, &self.lock).unpin(stamp)
    }

    /// Moves the horizon to the least held stamp, or to the newest if none is held, and returns it. Fails, and
    /// changes nothing, if the store fails or the database is broken.
    pub fn vacuum(&self, rt: &impl Wait) -> Result<Stamp, DbError>
        ensures answer { IfOk result (MayAnswer J.database_history (λ d horizon. horizon ≡ next_horizon d)) }
        ensures refused { IfErr result (MayRefuse J.database_history IsVacuumRefused) }
    {
        lock_spinning(rt, &self.lock).vacuum()
    }

    /// Returns the database without its lock, once no other thread has it.
    pub fn into_core(self) -> DbCore
        ensures { IsDatabaseOf J.database_history result }
    {
        let Database { start: _, lock } = self;
        lock.into_inner().into_core()
    }

    /// Returns the event log, if events are stored, which any thread reads without the lock. A caller that
    /// appends to it breaks the database; tests do so.
    pub fn events(&self) -> Option<&EventRow<Event>>
        ensures { MatchOption result
            (¬ (HasRow J.database_history))
            (λ row. J.database_history ≡ stored row.now) }
    {
        self.start.events()
    }

    /// Returns a front of the history that shows nothing yet. It takes no lock. Fails only if memory cannot be
    /// allocated.
    pub fn reader(&self) -> Result<HistoryFront, AllocError>
        ensures { IfOk result (λ front. front ≡ record { events = J.database_history; history = [] }) }
    {
        self.start.again()
    }

    /// Returns a feed of the events. For a stored history it begins before the first event, otherwise after the
    /// present ones. Fails only if memory cannot be allocated.
    pub fn feed(&self, rt: &impl Wait) -> Result<Feed<J>, AllocError>
        ensures { IfOk result (λ feed.
            feed.taken ≡ taken_at_start J.database_history (length feed.history)) }
    {
        lock_spinning(rt, &self.lock).feed()
    }
}
