//! The pincushion for one thread, which the lock of a shared one holds.
ghost use Rattle.std.specs.Prelude.{◌≡◌, ◌≤◌, ◌↔◌, All, IfOk, OnOk, OnErr, IfErr, IsOk};
ghost use Rattle.txc_db.specs.History.{IsAllowed};
ghost use Rattle.txc_cushion.specs.Refusals.{IsAddable, IsAddRefused, HaveUsers, IsFirstUnused};

use crate::entry::PinEntry;
use crate::error::{AddError, UnknownPin};
use crate::handing::hand_out;
use crate::limits::MAX_PINS;
use crate::pin::pin_of;
use crate::pins::Pins;
use crate::places::{is_pinned, put};
use crate::retiring::{retirable, retire};
use crate::users::give_back;
use std::alloc::{AllocError, Global};
use std::marker::Model;
use txc_db::{HistoryFront, Pinned};
use txc_stamp::Stamp;

/// The pinned stamps of a history that transactions may use, for one thread.
///
/// It maps stamps to the wall-clock times of their pins and to the number of transactions that may use each.
/// Its front shows each of its pins, and so proves the pins that it issues. Contracts see the pins, the newest
/// first, and the front.
#[derive(Drop)]
pub struct CushionCore {
    front: HistoryFront,
    // The newest first.
    entries: Vec<PinEntry>,
}

impl Model for CushionCore {
    ghost use Rattle.txc_cushion.specs.Cushion.{CushionValue, IsCushion};

    ghost Value = { CushionValue };

    ghost view = { λ c. record { events = c.front.events; history = c.front.history; entries = c.entries.items } };

    ghost invariant = { λ c. IsCushion (record { events = c.front.events; history = c.front.history; entries = c.entries.items }) };
}

impl CushionCore {
    ghost use Rattle.txc_cushion.specs.Cushion.{IsCushion, cushion_front, empty_cushion, handed_out, after_fresh, after_add, after_give_back, retired, after_retire};

    /// Makes a pincushion without pins, for the history of the front.
    pub fn new(alloc: Global, front: HistoryFront) -> CushionCore
        ensures { result ≡ empty_cushion front }
    {
        CushionCore {
            front,
            entries: Vec::new(alloc),
        }
    }

    /// In every pincushion the pins descend from the newest, and the history shows each. This is a lemma: it
    /// does nothing when it runs.
    pub fn is_cushion(&self)
        ensures { IsCushion self.now }
    {
        let _entries = &self.entries;
    }

    /// Issues the newest of the fresh pins, at most [`crate::MAX_HANDED_OUT`], and counts one more user for
    /// each. A pin is fresh if its time is no more than `staleness` before `now`, all in milliseconds, and its
    /// stamp is at least `at_least`. It skips pins with [`crate::MAX_USERS`] users. Fails, and changes nothing,
    /// only if memory cannot be allocated.
    pub fn fresh(
        &mut self,
        alloc: Global,
        now: u64,
        staleness: u64,
        at_least: Stamp,
    ) -> Result<Pins, AllocError>
        ensures after { OnOk result (self.new ≡ after_fresh self.old now staleness at_least) }
        ensures pins { IfOk result (λ given.
            given.pins.items ≡ handed_out self.old now staleness at_least) }
        ensures front { IfOk result (λ given. given.front ≡ cushion_front self.old) }
        ensures allowed { IfOk result (λ given. All
            (λ pin. IsAllowed given.front.history pin.stamp now staleness at_least) given.pins.items) }
        ensures unchanged { OnErr result (self.new ≡ self.old) }
    {
        let front = self.front.again()?;
        let pins = hand_out(alloc, &mut self.entries, now, staleness, at_least)?;
        Ok(Pins { pins, front })
    }

    /// Adds a pin of the same history, with one user, and takes over its front. Fails if there are
    /// [`crate::MAX_PINS`] pins, if the stamp is pinned already, or if memory cannot be allocated.
    pub fn add(&mut self, pinned: &Pinned) -> Result<(), AddError>
        requires { pinned.now.front.events ≡ self.old.events }
        ensures after { OnOk result (self.new ≡ after_add self.old pinned.now) }
        ensures only_if { IsOk result → IsAddable self.old pinned.now.stamp }
        ensures unchanged { OnErr result (self.new ≡ self.old) }
        ensures refused { IfErr result (IsAddRefused self.old pinned.now.stamp) }
    {
        if self.entries.len() == MAX_PINS {
            return Err(AddError::Full);
        }
        if is_pinned(&self.entries, pinned.stamp) {
            return Err(AddError::Known(pinned.stamp));
        }
        put(&mut self.entries, pin_of(pinned))?;
        self.front.longer(&pinned.front);
        Ok(())
    }

    /// Removes one user for each stamp in the list. Fails, and changes nothing, if a stamp has no user left.
    /// Does not allocate.
    pub fn give_back(&mut self, stamps: &[Stamp]) -> Result<(), UnknownPin>
        ensures after { OnOk result (self.new ≡ after_give_back self.old stamps.now) }
        ensures only_if { IsOk result → HaveUsers self.old.entries stamps.now }
        ensures unchanged { OnErr result (self.new ≡ self.old) }
        ensures refused { IfErr result (λ unknown.
            IsFirstUnused self.old.entries stamps.now unknown.stamp) }
    {
        give_back(&mut self.entries, stamps)?;
        Ok(())
    }

    /// Removes the pins without users whose time is more than `age` before `now`, all in milliseconds. Returns
    /// their stamps in ascending order. Fails, and changes nothing, only if memory cannot be allocated.
    pub fn retire(&mut self, alloc: Global, now: u64, age: u64) -> Result<Vec<Stamp>, AllocError>
        ensures after { OnOk result (self.new ≡ after_retire self.old now age) }
        ensures answer { IfOk result (λ stamps. stamps.items ≡ retired self.old now age) }
        ensures unchanged { OnErr result (self.new ≡ self.old) }
    {
        let stamps = retirable(alloc, &self.entries, now, age)?;
        retire(&mut self.entries, now, age);
        Ok(stamps)
    }
}
