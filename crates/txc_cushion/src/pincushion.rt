//! The pincushion under its lock.
ghost use Rattle.std.specs.Prelude.{◌≡◌, All, IfOk, IfErr};
ghost use Rattle.txc_db.specs.History.{IsAllowed};
ghost use Rattle.txc_cushion.specs.Cushion.{cushion_front, handed_out, retired};
ghost use Rattle.txc_cushion.specs.Refusals.{IsAddRefused, IsFirstUnused};
ghost use Rattle.txc_cushion.specs.Pincushion.{CushionMayAnswer};

use crate::cushion_core::CushionCore;
use crate::error::{AddError, UnknownPin};
use crate::locked::Locked;
use crate::pins::Pins;
use std::alloc::{AllocError, Global};
use std::sync::{Mutex, Wait};
use txc_db::{Database, Naming, Pinned, lock_spinning};
use txc_stamp::Stamp;

/// A pincushion that threads share.
///
/// Each call waits for the lock, does the call of [`CushionCore`] of the same name, and fails as that does, for
/// some pincushion of the named history. The front next to issued pins shows them.
pub struct Pincushion<J: Naming> {
    lock: Mutex<Locked<J>>,
}

// Not derived, since a derived one would be proved again in each crate above.
impl<J: Naming> Drop for Pincushion<J> {
    fn drop(self) {
        let Pincushion { lock: _ } = self;
    }
}

impl<J: Naming> Pincushion<J> {
    /// Makes a pincushion without pins, for those of the database. Fails only if memory cannot be allocated.
    pub fn new(alloc: Global, database: &Database<J>) -> Result<Pincushion<J>, AllocError> {
        Ok(Pincushion::of_core(CushionCore::new(alloc, database.reader()?)))
    }

    /// Makes a pincushion with the pins of the core, which are of the named history.
    pub fn of_core(core: CushionCore) -> Pincushion<J>
        requires { core.events ≡ J.database_history }
    {
        Pincushion {
            lock: Mutex::new(Locked::new(core)),
        }
    }

    /// Issues the newest of the fresh pins, at most [`crate::MAX_HANDED_OUT`], and counts one more user for
    /// each. Each is a pin of the front's history whose time is no more than `staleness` before `now`, all in
    /// milliseconds, and whose stamp is at least `at_least`. Fails only if memory cannot be allocated.
    pub fn fresh(
        &self,
        rt: &impl Wait,
        alloc: Global,
        now: u64,
        staleness: u64,
        at_least: Stamp,
    ) -> Result<Pins, AllocError>
        ensures named { IfOk result (λ given. given.front.events ≡ J.database_history) }
        ensures allowed { IfOk result (λ given. All
            (λ pin. IsAllowed given.front.history pin.stamp now staleness at_least) given.pins.items) }
        ensures answer { IfOk result (CushionMayAnswer J.database_history (λ c given.
            (given.pins.items ≡ handed_out c now staleness at_least) × (given.front ≡ cushion_front c))) }
    {
        lock_spinning(rt, &self.lock).fresh(alloc, now, staleness, at_least)
    }

    /// Adds a pin, with one user. Fails if there are [`crate::MAX_PINS`] pins, if the stamp is pinned already,
    /// or if memory cannot be allocated.
    pub fn add(&self, rt: &impl Wait, pinned: &Pinned) -> Result<(), AddError>
        requires { pinned.now.front.events ≡ J.database_history }
        ensures refused { IfErr result (CushionMayAnswer J.database_history (λ c.
            IsAddRefused c pinned.now.stamp)) }
    {
        lock_spinning(rt, &self.lock).add(pinned)
    }

    /// Removes one user for each stamp in the list. Fails, and changes nothing, if a stamp has no user left.
    /// Does not allocate.
    pub fn give_back(&self, rt: &impl Wait, stamps: &[Stamp]) -> Result<(), UnknownPin>
        ensures refused { IfErr result (CushionMayAnswer J.database_history (λ c unknown.
            IsFirstUnused c.entries stamps.now unknown.stamp)) }
    {
        lock_spinning(rt, &self.lock).give_back(stamps)
    }

    /// Removes the pins without users whose time is more than `age` before `now`, all in milliseconds. Returns
    /// their stamps in ascending order. Fails only if memory cannot be allocated.
    pub fn retire(
        &self,
        rt: &impl Wait,
        alloc: Global,
        now: u64,
        age: u64,
    ) -> Result<Vec<Stamp>, AllocError>
        ensures answer { IfOk result (CushionMayAnswer J.database_history (λ c stamps.
            stamps.items ≡ retired c now age)) }
    {
        lock_spinning(rt, &self.lock).retire(alloc, now, age)
    }
}
