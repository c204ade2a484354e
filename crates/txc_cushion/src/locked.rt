//! The pincushion's calls under its lock.
ghost use Rattle.std.specs.Prelude.{◌≡◌, All, IfOk, OnOk, OnErr, IfErr};
ghost use Rattle.txc_db.specs.History.{IsAllowed};
ghost use Rattle.txc_cushion.specs.Cushion.{IsCushion, cushion_front, handed_out, after_fresh, after_add, after_give_back, retired, after_retire};
ghost use Rattle.txc_cushion.specs.Refusals.{IsAddRefused, IsFirstUnused};

use crate::cushion_core::CushionCore;
use crate::error::{AddError, UnknownPin};
use crate::pins::Pins;
use std::alloc::{AllocError, Global};
use std::marker::{Model, PhantomData};
use txc_db::{Naming, Pinned};
use txc_stamp::Stamp;

/// The content of the lock: a pincushion of the named history.
#[derive(Drop)]
pub(crate) struct Locked<J: Naming> {
    core: CushionCore,
    of: PhantomData<J>,
}

impl<J: Naming> Model for Locked<J> {
    ghost use Rattle.std.specs.Prelude.{◌≡◌};
    ghost use Rattle.txc_cushion.specs.Cushion.{CushionValue};

    ghost Value = { CushionValue };

    ghost view = { λ l. l.core };

    ghost invariant = { λ l. l.core.events ≡ J.database_history };
}

impl<J: Naming> Locked<J> {
    pub(crate) fn new(core: CushionCore) -> Locked<J>
        requires { core.events ≡ J.database_history }
    {
        Locked {
            core,
            of: PhantomData,
        }
    }

    pub(crate) fn fresh(
        &mut self,
        alloc: Global,
        now: u64,
        staleness: u64,
        at_least: Stamp,
    ) -> Result<Pins, AllocError>
        ensures named { self.old.events ≡ J.database_history }
        ensures cushion { IsCushion self.old }
        ensures after { OnOk result (self.new ≡ after_fresh self.old now staleness at_least) }
        ensures pins { IfOk result (λ given.
            given.pins.items ≡ handed_out self.old now staleness at_least) }
        ensures front { IfOk result (λ given. given.front ≡ cushion_front self.old) }
        ensures allowed { IfOk result (λ given. All
            (λ pin. IsAllowed given.front.history pin.stamp now staleness at_least) given.pins.items) }
        ensures unchanged { OnErr result (self.new ≡ self.old) }
    {
        self.core.is_cushion();
        self.core.fresh(alloc, now, staleness, at_least)
    }

    pub(crate) fn add(&mut self, pinned: &Pinned) -> Result<(), AddError>
        requires { pinned.now.front.events ≡ J.database_history }
        ensures named { self.old.events ≡ J.database_history }
        ensures cushion { IsCushion self.old }
        ensures after { OnOk result (self.new ≡ after_add self.old pinned.now) }
        ensures unchanged { OnErr result (self.new ≡ self.old) }
        ensures refused { IfErr result (IsAddRefused self.old pinned.now.stamp) }
    {
        self.core.is_cushion();
        self.core.add(pinned)
    }

    pub(crate) fn give_back(&mut self, stamps: &[Stamp]) -> Result<(), UnknownPin>
        ensures named { self.old.events ≡ J.database_history }
        ensures cushion { IsCushion self.old }
        ensures after { OnOk result (self.new ≡ after_give_back self.old stamps.now) }
        ensures unchanged { OnErr result (self.new ≡ self.old) }
        ensures refused { IfErr result (λ unknown.
            IsFirstUnused self.old.entries stamps.now unknown.stamp) }
    {
        self.core.is_cushion();
        self.core.give_back(stamps)
    }

    pub(crate) fn retire(
        &mut self,
        alloc: Global,
        now: u64,
        age: u64,
    ) -> Result<Vec<Stamp>, AllocError>
        ensures named { self.old.events ≡ J.database_history }
        ensures cushion { IsCushion self.old }
        ensures after { OnOk result (self.new ≡ after_retire self.old now age) }
        ensures answer { IfOk result (λ stamps. stamps.items ≡ retired self.old now age) }
        ensures unchanged { OnErr result (self.new ≡ self.old) }
    {
        self.core.is_cushion();
        self.core.retire(alloc, now, age)
    }
}
