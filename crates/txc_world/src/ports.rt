//! The plain ports of a world.
ghost use Rattle.std.specs.Prelude.{◌≡◌, ◌+◌, ◌<◌, length, IfOk, slice_get, Some, All};
ghost use Rattle.txc_stream.specs.Names.{HasRow};

mod asking;
mod keeper;
mod making;

use std::alloc::{AllocError, Global};
use std::marker::Model;
use txc_app::App;
use txc_cushion::{AddError, CushionCore, Pins};
use txc_db::{Answered, DbCore, DbError, Pinned};
use txc_rows::Query;
use txc_shared::StoredNode;
use txc_stamp::Stamp;
use txc_validity::Found;

/// The database, the pincushion and the nodes of a world, and the pins that its keeper has made and not added
/// yet.
///
/// The history that each of them shows is a prefix of the database's. Each actor has a pass at each node, by
/// the actor's number, and the keeper has the last one.
#[derive(Drop)]
pub(crate) struct Ports<A: App> {
    database: DbCore,
    cushion: CushionCore,
    nodes: Vec<StoredNode<A>>,
    spare: Vec<Pinned>,
    actors: usize,
    // The database's newest stamp.
    newest: Stamp,
}

impl<A: App> Model for Ports<A> {
    ghost use Rattle.std.specs.Prelude.{◌≡◌, length};
    ghost use Rattle.txc_world.specs.Ports.{PortsValue, ArePorts};

    ghost Value = { PortsValue };

    ghost view = { λ p. record {
      database = p.database;
      cushion = p.cushion;
      nodes = p.nodes.items;
      spare = p.spare.items;
      actors = p.actors;
    } };

    ghost invariant = { λ p. (p.newest ≡ length p.database.history) × ArePorts A.next (record {
      database = p.database;
      cushion = p.cushion;
      nodes = p.nodes.items;
      spare = p.spare.items;
      actors = p.actors;
    }) };
}

impl<A: App> Ports<A> {
    ghost use Rattle.txc_txn_ports.specs.Answers.{IsFresh};
    ghost use Rattle.txc_world.specs.PortRequests.{AddTransition, FindTransition, FreshTransition, HoldTransition, PinTransition, UnpinTransition};
    ghost use Rattle.txc_world.specs.Holdings.{CountRight, GivesBack, KeepsPins};
    ghost use Rattle.txc_world.specs.Parts.{IsPartOf};
    ghost use Rattle.txc_world.specs.Ports.{whole_of, KeepsRow};
    ghost use Rattle.txc_world.specs.Worlds.{IsTrueNode};

    /// Returns the database and the pincushion, and drops the rest.
    pub(crate) fn into_parts(self) -> (DbCore, CushionCore)
        ensures database { result.0 ≡ self.database }
        ensures cushion { result.1 ≡ self.cushion }
        ensures row { result.1.events ≡ result.0.events }
    {
        let Ports {
            database,
            cushion,
            nodes: _,
            spare: _,
            actors: _,
            newest: _,
        } = self;
        (database, cushion)
    }

    /// Returns how many nodes there are.
    pub(crate) fn len(&self) -> usize
        ensures { result ≡ length self.now.nodes }
    {
        self.nodes.len()
    }

    /// Returns one of the nodes.
    pub(crate) fn node(&self, at: usize) -> &StoredNode<A>
        requires { at < length self.now.nodes }
        ensures there { slice_get self.now.nodes at ≡ Some result.now }
        ensures kind { HasRow result.now.name }
        ensures is_true { IsTrueNode A.next (whole_of self.now) result.now }
        ensures passes { result.now.passes ≡ self.now.actors + 1 }
    {
        &self.nodes[at]
    }

    /// Pins the present, at this wall-clock time in milliseconds.
    pub(crate) fn pin(
        &mut self,
        alloc: Global,
        now: u64,
        at_least: Stamp,
    ) -> Result<Pinned, DbError>
        ensures transition { PinTransition now at_least self.old self.new result }
        ensures keeps { KeepsRow self.old self.new }
    {
        let pinned = self.database.pin(alloc, now, at_least)?;
        self.newest = pinned.stamp;
        Ok(pinned)
    }

    /// Adds a pin to the pincushion.
    pub(crate) fn add(&mut self, pinned: &Pinned) -> Result<(), AddError>
        requires { IsPartOf (whole_of self.old) pinned.now.front }
        ensures transition { AddTransition pinned.now self.old self.new result }
        ensures keeps { KeepsRow self.old self.new }
    {
        self.cushion.add(pinned)
    }

    /// Removes one hold of the stamp.
    pub(crate) fn unpin(&mut self, stamp: Stamp) -> Result<(), DbError>
        ensures transition { UnpinTransition stamp self.old self.new result }
        ensures same { self.new ≡ record self.old { database = self.new.database } }
        ensures history { self.new.database.history ≡ self.old.database.history }
        ensures keeps { KeepsRow self.old self.new }
    {
        self.database.unpin(stamp)
    }

    /// Holds the newest stamp.
    pub(crate) fn hold(&mut self, alloc: Global) -> Result<Stamp, DbError>
        ensures transition { HoldTransition self.old self.new result }
        ensures same { self.new ≡ record self.old { database = self.new.database } }
        ensures history { self.new.database.history ≡ self.old.database.history }
        ensures keeps { KeepsRow self.old self.new }
    {
        self.database.hold(alloc)
    }

    /// Returns the answer of the query at the stamp, with a front of the whole history.
    #[tactic(auto, using(txc_app::proofs::Claims::found_rows_hold))]
    pub(crate) fn find(
        &mut self,
        alloc: Global,
        query: &Query,
        stamp: Stamp,
    ) -> Result<Answered<Found>, DbError>
        ensures same { self.new ≡ self.old }
        ensures transition { FindTransition query.now stamp self.old result }
    {
        let answer = self.database.query(alloc, query, stamp)?;
        let front = self.database.front()?;
        Ok(Answered { answer, front })
    }

    /// Issues the newest of the pins that the bounds allow, each with one more user.
    pub(crate) fn fresh(
        &mut self,
        alloc: Global,
        now: u64,
        staleness: u64,
        at_least: Stamp,
    ) -> Result<Pins, AllocError>
        ensures transition { FreshTransition now staleness at_least self.old self.new result }
        ensures part { IfOk result (λ pins. IsPartOf (whole_of self.old) pins.front) }
        ensures allowed { IfOk result (λ pins. All (IsFresh pins.front.history
            (record { now = now; staleness = staleness; at_least = at_least })) pins.pins.items) }
        ensures same { self.new ≡ record self.old { cushion = self.new.cushion } }
    {
        let pins = self.cushion.fresh(alloc, now, staleness, at_least)?;
        Ok(pins)
    }

    /// Removes one user of each of the pins. Does not allocate.
    pub(crate) fn give_back_pins(&mut self, pins: &Pins)
        ensures same { self.new ≡ record self.old { cushion = self.new.cushion } }
        ensures users { GivesBack self.old self.new pins.now.pins.items }
        ensures pins { KeepsPins self.old self.new }
    {
        for pin in &pins.pins {
            let _ = self.give_back(&[pin.stamp]);
        }
    }

    /// States the ports' own holdings, and the effects of their calls stamp by stamp. It does nothing when it
    /// runs.
    pub(crate) fn count_right(&self)
        ensures { CountRight self.now }
    {
        self.database.is_sound();
        self.cushion.is_cushion();
    }

    /// States that each node is true. It does nothing when it runs.
    pub(crate) fn are_true(&self)
        ensures { All (IsTrueNode A.next (whole_of self.now)) self.now.nodes }
    {
        let _nodes = &self.nodes;
    }
}
