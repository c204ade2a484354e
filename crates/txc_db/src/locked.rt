//! The database's calls under its lock.
ghost use Rattle.std.specs.Prelude.{◌≡◌, ◌+◌, ◌<◌, ◌≤◌, ◌++◌, ◌∷◌, [], true, false, length, Some, Err, IfOk, IfErr, IsOk, OnOk, OnErr};
ghost use Rattle.txc_stream.specs.Published.{PosterValue};
ghost use Rattle.txc_stream.specs.declared.segment.TheConstants.{SEGMENT_LEN};
ghost use Rattle.txc_rows.specs.RowTags.{query_tag};
ghost use Rattle.txc_validity.specs.Answers.{IsAnswer};
ghost use Rattle.txc_db.specs.History.{state_at};
ghost use Rattle.txc_db.specs.FrontsAndFeeds.{taken_at_start};
ghost use Rattle.txc_db.specs.DatabaseValue.{DatabaseValue, front_of, after_hold, after_unpin, after_vacuum, after_pin, after_commit, newest, next_horizon, is_held};
ghost use Rattle.txc_db.specs.Calls.{IsHoldable, IsHoldRefused, IsUnpinRefused, IsVacuumRefused, IsAnswerable, matching_of, IsQueryRefused, IsPinnable, IsPinRefused, IsCommittable};
ghost use Rattle.txc_db.specs.DatabaseReply.{IsDatabaseOf, IsSharedCommitRefused};
ghost use Rattle.txc_db.specs.Locked.{IsLockedLeft, IsCommitLeft, IsRefusalWith, AreAllPosted};

use crate::answered::{Answered, CommitError};
use crate::db_core::DbCore;
use crate::error::DbError;
use crate::event::{Event, PostedTags};
use crate::feed::Feed;
use crate::history_front::HistoryFront;
use crate::holds::MAX_HOLDS;
use crate::naming::Naming;
use crate::pinned::Pinned;
use std::alloc::{AllocError, Global};
use std::marker::Model;
use std::sync::{Arc, Wait};
use txc_rows::{Change, Query};
use txc_stamp::Stamp;
use txc_stream::{NextCell, Publisher};
use txc_tags::TagSet;
use txc_validity::Found;

/// Publishes the events of the named database.
type EventPoster<J> = Publisher<Event, Option<Arc<TagSet>>, PostedTags<J>>;

/// Memory for the posting of one event, allocated in advance.
type EventSlip<J> = NextCell<Event, Option<Arc<TagSet>>, PostedTags<J>>;

/// The content of the lock: the named database, and the publisher of its events for the feeds. While the
/// database is not broken, each event is posted.
#[derive(Drop)]
pub(crate) struct Locked<J: Naming> {
    core: DbCore,
    poster: EventPoster<J>,
}

impl<J: Naming> Model for Locked<J> {
    ghost use Rattle.std.specs.Prelude.{◌≡◌, false};
    ghost use Rattle.txc_db.specs.Locked.{AreAllPosted};
    ghost use Rattle.txc_db.specs.DatabaseValue.{DatabaseValue};

    ghost Value = { DatabaseValue };

    ghost view = { λ l. l.core };

    ghost invariant = { λ l. (l.core.events ≡ J.database_history)
        × (l.core.broken ≡ false → AreAllPosted l.core.history l.poster) };
}

impl<J: Naming> Locked<J> {
    /// Wraps the database, whose events are posted from now on.
    pub(crate) fn new(alloc: Global, core: DbCore) -> Result<Locked<J>, AllocError>
        requires { core.events ≡ J.database_history }
        ensures { IfOk result (λ locked. locked ≡ core) }
    {
        let poster = Publisher::new(alloc, core.history().len())?;
        Ok(Locked { core, poster })
    }

    /// Returns a feed of the events. For a history that is not stored it begins after the present events.
    pub(crate) fn feed(&self) -> Result<Feed<J>, AllocError>
        ensures shown { IfOk result (λ feed. feed.history ≡ self.now.history) }
        ensures taken { IfOk result (λ feed.
            feed.taken ≡ taken_at_start J.database_history (length feed.history)) }
    {
        let front = self.core.front()?;
        let walker = self.poster.walker(front.front())?;
        let taken = begun(&front);
        Ok(Feed::new(front, walker, taken))
    }

    // It is a database with the named history. It does nothing when it runs.
    fn is_named(&self)
        ensures { IsDatabaseOf J.database_history self.now }
    {
        self.core.is_sound();
        let _events = self.core.history().len();
    }

    /// Returns the database alone.
    pub(crate) fn into_core(self) -> DbCore
        ensures { IsDatabaseOf J.database_history result }
    {
        self.is_named();
        let Locked { core, poster: _ } = self;
        core
    }

    pub(crate) fn query(
        &mut self,
        alloc: Global,
        query: &Query,
        stamp: Stamp,
    ) -> Result<Answered<Found>, DbError>
        ensures database { IsDatabaseOf J.database_history self.old }
        ensures same { self.new ≡ self.old }
        ensures answer { IfOk result (λ answered. IsAnswer (state_at self.old.history) query.now stamp
            self.old.horizon (newest self.old) answered.answer) }
        ensures tag { IfOk result (λ answered. answered.answer.tags ≡ query_tag query.now ∷ []) }
        ensures front { IfOk result (λ answered. answered.front ≡ front_of self.old) }
        ensures only_if { IsOk result → IsAnswerable self.old stamp }
        ensures few { IsOk result → matching_of self.old query.now ≤ self.old.most }
        ensures refused { IfErr result (IsQueryRefused self.old query.now stamp) }
    {
        self.is_named();
        let answer = self.core.query(alloc, query, stamp)?;
        let front = self.core.front()?;
        Ok(Answered { answer, front })
    }

    pub(crate) fn hold(&mut self, alloc: Global) -> Result<Answered<Stamp>, DbError>
        ensures database { IsDatabaseOf J.database_history self.old }
        ensures after { OnOk result (self.new ≡ after_hold self.old) }
        ensures answer { IfOk result (λ answered. answered.answer ≡ newest self.old) }
        ensures front { IfOk result (λ answered. answered.front ≡ front_of self.new) }
        ensures only_if { IsOk result → IsHoldable self.old }
        ensures unchanged { OnErr result (self.new ≡ self.old) }
        ensures refused { IfErr result (IsHoldRefused self.old) }
        ensures broken { self.old.broken ≡ true → result ≡ Err DbError.Broken }
        ensures full { self.old.broken ≡ false → MAX_HOLDS ≤ length self.old.holds
            → result ≡ Err DbError.HoldsFull }
    {
        self.is_named();
        self.core.check_hold()?;
        let front = self.core.front()?;
        let answer = self.core.hold(alloc)?;
        Ok(Answered { answer, front })
    }

    pub(crate) fn unpin(&mut self, stamp: Stamp) -> Result<(), DbError>
        ensures database { IsDatabaseOf J.database_history self.old }
        ensures after { OnOk result (self.new ≡ after_unpin self.old stamp) }
        ensures only_if { IsOk result → is_held stamp self.old.holds ≡ true }
        ensures unchanged { OnErr result (self.new ≡ self.old) }
        ensures refused { IfErr result (IsUnpinRefused self.old stamp) }
    {
        self.is_named();
        self.core.unpin(stamp)
    }

    pub(crate) fn vacuum(&mut self) -> Result<Stamp, DbError>
        ensures database { IsDatabaseOf J.database_history self.old }
        ensures after { OnOk result (self.new ≡ after_vacuum self.old) }
        ensures answer { IfOk result (λ horizon. horizon ≡ next_horizon self.old) }
        ensures unchanged { OnErr result (self.new ≡ self.old) }
        ensures refused { IfErr result (IsVacuumRefused self.old) }
    {
        self.is_named();
        self.core.vacuum()
    }

    pub(crate) fn pin(
        &mut self,
        rt: &impl Wait,
        alloc: Global,
        now: u64,
        at_least: Stamp,
    ) -> Result<Pinned, DbError>
        ensures database { IsDatabaseOf J.database_history self.old }
        ensures after { OnOk result (self.new ≡ after_pin self.old now) }
        ensures answer { IfOk result (λ pinned. pinned.stamp ≡ newest self.new) }
        ensures moment { IfOk result (λ pinned. pinned.moment ≡ now) }
        ensures front { IfOk result (λ pinned. pinned.front ≡ front_of self.new) }
        ensures only_if { IsOk result → IsPinnable self.old at_least }
        ensures unchanged { IfErr result (IsLockedLeft self.old self.new) }
        ensures refused { IfErr result (IsPinRefused self.old at_least) }
    {
        self.is_named();
        self.core.check_pin(at_least)?;
        let slip = self.poster.prepare(rt, alloc)?;
        let pinned = self.core.pin(alloc, now, at_least)?;
        if !post(&self.core, &mut self.poster, slip) {
            self.core.set_broken();
            return Err(DbError::Broken);
        }
        Ok(pinned)
    }

    pub(crate) fn commit(
        &mut self,
        rt: &impl Wait,
        alloc: Global,
        base: Stamp,
        read: &TagSet,
        changes: &[Change],
    ) -> Result<Answered<Stamp>, CommitError>
        ensures database { IsDatabaseOf J.database_history self.old }
        ensures after { OnOk result (self.new ≡ after_commit self.old changes.now) }
        ensures answer { IfOk result (λ answered. answered.answer ≡ newest self.new) }
        ensures front { IfOk result (λ answered. answered.front ≡ front_of self.new) }
        ensures only_if { IsOk result → IsCommittable self.old base read.now changes.now }
        ensures unchanged { IfErr result (IsCommitLeft self.old self.new) }
        ensures refused { IfErr result (IsSharedCommitRefused self.old base read.now changes.now) }
    {
        self.is_named();
        let newest = self.core.check_base(base)?;
        let mut front = self.core.front()?;
        let slip = self.poster.prepare(rt, alloc)?;
        match self.core.commit(alloc, base, read, changes) {
            Ok(answer) => {
                front.lengthen(self.core.history());
                if newest < answer && !post(&self.core, &mut self.poster, slip) {
                    self.core.set_broken();
                    return Err(CommitError::Database(DbError::Broken));
                }
                Ok(Answered { answer, front })
            }
            Err(refusal) => Err(refused_with(front, refusal)),
        }
    }
}

/// Returns how many of the front's events a feed has taken that begins with it.
fn begun(front: &HistoryFront) -> usize
    ensures begun { result ≡ taken_at_start front.now.events (length front.now.history) }
    ensures within { result ≤ length front.now.history }
{
    if front.is_stored() { 0 } else { front.len() }
}

/// Posts the last event. Returns `false` if another record is in its cell.
fn post<J: Naming>(core: &DbCore, poster: &mut EventPoster<J>, slip: EventSlip<J>) -> bool
    requires named { core.now.events ≡ J.database_history }
    requires room { length poster.old.posted < SEGMENT_LEN }
    ensures { result ≡ true
        → poster.new ≡ record poster.old { posted = poster.old.posted ++ Some core.now.history ∷ [] } }
{
    let history = core.history();
    history.is_tagged();
    let _events = history.len();
    let tags = core.last_tags().unwrap_or(None);
    poster.post(slip, tags, history.front().again())
}

/// Makes the error of a commit. A conflict has the front with it.
fn refused_with(front: HistoryFront, refusal: DbError) -> CommitError
    ensures { IsRefusalWith front refusal result }
{
    match refusal {
        DbError::Conflict(answer) => CommitError::Conflict(Answered { answer, front }),
        _ => CommitError::Database(refusal),
    }
}
