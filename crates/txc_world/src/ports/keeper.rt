//! The keeper's steps at the plain ports, each with its reply, and the commits of actors.
ghost use Rattle.std.specs.Prelude.{◌≡◌, ◌<◌, false, true, length, slice_index, IfNone, IfSome};
ghost use Rattle.std.specs.List.{remove};
ghost use Rattle.txc_db.specs.DatabaseValue.{is_held, without};
ghost use Rattle.txc_world.specs.declared.step.KeeperStep.{KeeperStep};
ghost use Rattle.txc_world.specs.KeeperAtPorts.{stamps_of_pins};

use crate::nodes;
use crate::ports::Ports;
use crate::reply::{Refusal, Reply};
use std::alloc::Global;
use std::slice;
use txc_app::App;
use txc_cushion::UnknownPin;
use txc_db::{DbError, Pinned};
use txc_rows::{Change, Query};
use txc_stamp::Stamp;
use txc_tags::TagSet;
use txc_validity::Found;

// Returns the place of the first pin of the stamp.
fn place_of(spare: &[Pinned], stamp: Stamp) -> Option<usize>
    ensures within { IfSome result (λ at. at < length spare.now) }
    ensures held { IfSome result (λ at. is_held stamp (stamps_of_pins spare.now) ≡ true) }
    ensures there { IfSome result (λ at. slice_index (stamps_of_pins spare.now) at ≡ stamp) }
    ensures place { IfSome result (λ at.
        stamps_of_pins (remove spare.now at) ≡ without stamp (stamps_of_pins spare.now)) }
    ensures none { IfNone result (is_held stamp (stamps_of_pins spare.now) ≡ false) }
{
    for (at, pinned) in spare.iter().enumerate() {
        if pinned.stamp == stamp {
            return Some(at);
        }
    }
    None
}

impl<A: App> Ports<A> {
    ghost use Rattle.txc_world.specs.PortRequests.{QueryTransition};
    ghost use Rattle.txc_world.specs.KeeperAtPorts.{CommitTransition, GiveBackTransition, PinSpareTransition};
    ghost use Rattle.txc_world.specs.KeeperStep.{IsKeeperStep};
    ghost use Rattle.txc_world.specs.Ports.{KeepsRow};

    /// Commits the changes if no event after the base matches what was read.
    pub(crate) fn commit(
        &mut self,
        alloc: Global,
        base: Stamp,
        read: &TagSet,
        changes: &[Change],
    ) -> Result<Stamp, DbError>
        ensures transition { CommitTransition base read.now changes.now self.old self.new result }
        ensures keeps { KeepsRow self.old self.new }
    {
        let stamp = self.database.commit(alloc, base, read, changes)?;
        self.newest = stamp;
        Ok(stamp)
    }

    /// Commits the change at the newest stamp, without reads.
    pub(crate) fn write(&mut self, alloc: Global, change: &Change) -> Reply
        ensures { IsKeeperStep (KeeperStep.Write change.now) self.old self.new result }
    {
        let read = TagSet::new(alloc);
        let base = self.newest;
        let changes = slice::from_ref(change);
        match self.commit(alloc, base, &read, changes) {
            Ok(stamp) => Reply::At(stamp),
            Err(refusal) => Reply::Refused(Refusal::Database(refusal)),
        }
    }

    /// Pins the present and queues the pin.
    pub(crate) fn pin_spare(&mut self, alloc: Global, now: u64) -> Result<Stamp, DbError>
        ensures transition { PinSpareTransition now self.old self.new result }
        ensures keeps { KeepsRow self.old self.new }
    {
        self.spare.reserve(1)?;
        let pinned = self.database.pin(alloc, now, Stamp::ZERO)?;
        let stamp = pinned.stamp;
        self.newest = stamp;
        self.spare.push_reserved(pinned);
        Ok(stamp)
    }

    /// Adds the queued pin of this stamp, if there is one, to the pincushion, and removes it from the queue.
    pub(crate) fn add_spare(&mut self, stamp: Stamp) -> Reply
        ensures { IsKeeperStep (KeeperStep.Add stamp) self.old self.new result }
    {
        let Some(at) = place_of(&self.spare, stamp) else {
            return Reply::Refused(Refusal::NoRequest);
        };
        let pinned = self.spare.remove(at);
        match self.add(&pinned) {
            Ok(()) => Reply::Added,
            Err(refusal) => Reply::Refused(Refusal::Pincushion(refusal)),
        }
    }

    /// Removes one user of each stamp at the pincushion.
    pub(crate) fn give_back(&mut self, stamps: &[Stamp]) -> Result<(), UnknownPin>
        ensures transition { GiveBackTransition stamps.now self.old self.new result }
        ensures keeps { KeepsRow self.old self.new }
        ensures same { self.new ≡ record self.old { cushion = self.new.cushion } }
    {
        self.cushion.give_back(stamps)
    }

    /// Removes the pins without users whose time is more than `age` before `now`.
    pub(crate) fn retire(&mut self, alloc: Global, now: u64, age: u64) -> Reply
        ensures { IsKeeperStep (KeeperStep.Retire now age) self.old self.new result }
    {
        match self.cushion.retire(alloc, now, age) {
            Ok(stamps) => Reply::Retired(stamps),
            Err(_) => Reply::Refused(Refusal::Memory),
        }
    }

    /// Drops the versions that no held stamp needs.
    pub(crate) fn vacuum(&mut self) -> Reply
        ensures { IsKeeperStep KeeperStep.Vacuum self.old self.new result }
    {
        match self.database.vacuum() {
            Ok(horizon) => Reply::Vacuumed(horizon),
            Err(refusal) => Reply::Refused(Refusal::Database(refusal)),
        }
    }

    /// Returns the answer of the query at the stamp.
    pub(crate) fn answer(
        &mut self,
        alloc: Global,
        query: &Query,
        stamp: Stamp,
    ) -> Result<Found, DbError>
        ensures same { self.new ≡ self.old }
        ensures transition { QueryTransition query.now stamp self.old result }
    {
        self.database.query(alloc, query, stamp)
    }

    /// Lets the node take the next event.
    pub(crate) fn advance(&mut self, alloc: Global, at: usize) -> Reply
        ensures { IsKeeperStep (KeeperStep.Advance at) self.old self.new result }
    {
        if at >= self.len() {
            return Reply::Refused(Refusal::NoNode);
        }
        let keeper = self.actors;
        let node = &mut self.nodes[at];
        let advanced = nodes::advance(alloc, node, keeper, &self.database);
        node.is_sound();
        match advanced {
            Ok(advanced) => Reply::Advanced(advanced),
            Err(refusal) => Reply::Refused(Refusal::Node(refusal)),
        }
    }

    /// Lets the node drop the entries whose span ends at the horizon or before it.
    pub(crate) fn sweep(&mut self, alloc: Global, at: usize, horizon: Stamp) -> Reply
        ensures { IsKeeperStep (KeeperStep.Sweep at horizon) self.old self.new result }
    {
        if at >= self.len() {
            return Reply::Refused(Refusal::NoNode);
        }
        let keeper = self.actors;
        let node = &mut self.nodes[at];
        let swept = node.sweep(alloc, keeper, horizon);
        node.is_sound();
        match swept {
            Ok(count) => Reply::Swept(count),
            Err(refusal) => Reply::Refused(Refusal::Node(refusal)),
        }
    }
}
