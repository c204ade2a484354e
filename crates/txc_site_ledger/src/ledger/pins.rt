//! The steps of maintenance at pins, each by a linear value that only the ledger makes and consumes.
ghost use Rattle.std.specs.Prelude.{◌≡◌, ◌+◌, ◌<◌, IfErr, IfOk, Some, length, vec_len};
ghost use Rattle.txc_cushion.specs.Cushion.{retired};
ghost use Rattle.txc_cushion.specs.Pincushion.{CushionMayAnswer};
ghost use Rattle.txc_db.specs.Calls.{IsPinRefused, IsVacuumRefused};
ghost use Rattle.txc_db.specs.History.{event_at, pin_event};
ghost use Rattle.txc_db.specs.DatabaseValue.{next_horizon};
ghost use Rattle.txc_db.specs.DatabaseReply.{MayAnswer, MayRefuse};

use crate::ledger::Ledger;
use std::alloc::{AllocError, Global};
use std::marker::{Model, PhantomData};
use std::sync::Wait;
use txc_db::{DbError, Naming, Pinned};
use txc_stamp::Stamp;

/// A pin of the present, which is held. It is linear: [`Ledger::add`] must consume it.
pub struct PresentPin<J: Naming> {
    pinned: Pinned,
    of: PhantomData<J>,
}

impl<J: Naming> Model for PresentPin<J> {
    ghost use Rattle.std.specs.Prelude.{◌≡◌};
    ghost use Rattle.txc_db.specs.declared.pinned.Pinned.{Pinned};

    ghost Value = { Pinned };

    ghost view = { λ p. p.pinned };

    ghost invariant = { λ p. p.pinned.front.events ≡ J.database_history };
}

/// A pin of the present that the pincushion did not add, and that is held. It is linear: [`Ledger::unpin`] must
/// consume it.
pub struct RefusedPin<J: Naming> {
    pinned: Pinned,
    of: PhantomData<J>,
}

impl<J: Naming> Model for RefusedPin<J> {
    ghost use Rattle.std.specs.Prelude.{◌≡◌};
    ghost use Rattle.txc_db.specs.declared.pinned.Pinned.{Pinned};

    ghost Value = { Pinned };

    ghost view = { λ p. p.pinned };

    ghost invariant = { λ p. p.pinned.front.events ≡ J.database_history };
}

/// A pin in the pincushion, with a user. It is linear: [`Ledger::give_back`] must consume it.
pub struct UsedPin<J: Naming> {
    pinned: Pinned,
    of: PhantomData<J>,
}

impl<J: Naming> Model for UsedPin<J> {
    ghost use Rattle.std.specs.Prelude.{◌≡◌};
    ghost use Rattle.txc_db.specs.declared.pinned.Pinned.{Pinned};

    ghost Value = { Pinned };

    ghost view = { λ p. p.pinned };

    ghost invariant = { λ p. p.pinned.front.events ≡ J.database_history };
}

/// Pins that were removed from the pincushion, and how many of them were taken. It is linear:
/// [`RetiredPins::take`] takes each, and then [`RetiredPins::stamps`] must consume it.
pub struct RetiredPins<J: Naming> {
    stamps: Vec<Stamp>,
    taken: usize,
    of: PhantomData<J>,
}

impl<J: Naming> Model for RetiredPins<J> {
    ghost use Rattle.txc_site_ledger.specs.RetiredPins.{RetiredValue};

    ghost Value = { RetiredValue };

    ghost view = { λ r. record { stamps = r.stamps.items; taken = r.taken } };
}

/// A pin that was retired: no transaction gets it any more. The database still keeps its snapshot, until
/// [`Ledger::unpin_retired`] consumes it. It is linear, so that must happen.
pub struct RetiredPin<J: Naming> {
    stamp: Stamp,
    of: PhantomData<J>,
}

/// The horizon after a vacuum: no state before it can be read any more. Only a vacuum makes one.
#[derive(Drop)]
pub struct Horizon<J: Naming> {
    stamp: Stamp,
    of: PhantomData<J>,
}

impl<J: Naming> Model for Horizon<J> {
    ghost use Rattle.std.specs.Prelude.{ℕ};

    ghost Value = { ℕ };

    ghost view = { λ h. h.stamp };
}

impl<J: Naming> Horizon<J> {
    /// Returns its stamp.
    pub fn stamp(&self) -> Stamp
        ensures { result ≡ self.now }
    {
        self.stamp
    }
}

impl<J: Naming> RetiredPins<J> {
    /// Returns how many pins there are.
    pub fn len(&self) -> usize
        ensures { result ≡ length self.now.stamps }
    {
        self.stamps.len()
    }

    /// Takes the next one.
    pub fn take(&mut self) -> RetiredPin<J>
        requires { self.old.taken < length self.old.stamps }
        ensures { self.new ≡ record self.old { taken = self.old.taken + 1 } }
    {
        let stamp = self.stamps[self.taken];
        self.taken += 1;
        RetiredPin {
            stamp,
            of: PhantomData,
        }
    }

    /// Returns the stamps, once each pin was taken.
    pub fn stamps(self) -> Vec<Stamp>
        requires { self.taken ≡ length self.stamps }
        ensures { result.items ≡ self.stamps }
    {
        let RetiredPins {
            stamps,
            taken: _,
            of: _,
        } = self;
        stamps
    }
}

impl<J: Naming> Ledger<J> {
    /// Appends a pin of the wall-clock time `now`, in milliseconds, and holds its stamp. Fails as
    /// [`Database::pin`](txc_db::Database::pin) does.
    pub fn pin(&self, rt: &impl Wait, alloc: Global, now: u64) -> Result<PresentPin<J>, DbError>
        ensures row { IfOk result (λ pin. pin.front.events ≡ J.database_history) }
        ensures event { IfOk result (λ pin. event_at pin.front.history pin.stamp ≡ Some (pin_event now)) }
        ensures refused { IfErr result (MayRefuse J.database_history (λ d. IsPinRefused d 0)) }
    {
        let pinned = self.database.pin(rt, alloc, now, Stamp::ZERO)?;
        Ok(PresentPin {
            pinned,
            of: PhantomData,
        })
    }

    /// Adds the pin to the pincushion, with one user. If that fails, the pin is returned, still held.
    pub fn add(&self, rt: &impl Wait, pin: PresentPin<J>) -> Result<UsedPin<J>, RefusedPin<J>>
        ensures added { IfOk result (λ used. used ≡ pin) }
        ensures not_added { IfErr result (λ refused. refused ≡ pin) }
    {
        let PresentPin { pinned, of: _ } = pin;
        match self.cushion.add(rt, &pinned) {
            Ok(()) => Ok(UsedPin {
                pinned,
                of: PhantomData,
            }),
            Err(_) => Err(RefusedPin {
                pinned,
                of: PhantomData,
            }),
        }
    }

    /// Removes the user of the pin, which stays in the pincushion.
    pub fn give_back(&self, rt: &impl Wait, used: UsedPin<J>) -> Pinned
        ensures pin { result ≡ used }
        ensures row { result.front.events ≡ J.database_history }
    {
        let UsedPin { pinned, of: _ } = used;
        let _ = self.cushion.give_back(rt, &[pinned.stamp]);
        pinned
    }

    /// Removes the hold of the pin.
    pub fn unpin(&self, rt: &impl Wait, pin: RefusedPin<J>) -> Pinned
        ensures pin { result ≡ pin }
        ensures row { result.front.events ≡ J.database_history }
    {
        let RefusedPin { pinned, of: _ } = pin;
        let _ = self.database.unpin(rt, pinned.stamp);
        pinned
    }

    /// Retires the pins that no transaction uses and that are more than `age` before `now`, both in
    /// milliseconds. Fails only if memory cannot be allocated.
    pub fn retire(
        &self,
        rt: &impl Wait,
        alloc: Global,
        now: u64,
        age: u64,
    ) -> Result<RetiredPins<J>, AllocError>
        ensures answer { IfOk result (CushionMayAnswer J.database_history (λ c pins.
            pins.stamps ≡ retired c now age)) }
        ensures untaken { IfOk result (λ pins. pins.taken ≡ 0) }
    {
        let stamps = self.cushion.retire(rt, alloc, now, age)?;
        Ok(RetiredPins {
            stamps,
            taken: 0,
            of: PhantomData,
        })
    }

    /// Removes the hold of a retired pin.
    pub fn unpin_retired(&self, rt: &impl Wait, pin: RetiredPin<J>) {
        let RetiredPin { stamp, of: _ } = pin;
        let _ = self.database.unpin(rt, stamp);
    }

    /// Moves the horizon to the least held stamp, or to the newest if none is held. Fails, and changes nothing,
    /// if the store fails or the database is broken.
    pub fn vacuum(&self, rt: &impl Wait) -> Result<Horizon<J>, DbError>
        ensures answer { IfOk result (MayAnswer J.database_history (λ d horizon. horizon ≡ next_horizon d)) }
        ensures refused { IfErr result (MayRefuse J.database_history IsVacuumRefused) }
    {
        let stamp = self.database.vacuum(rt)?;
        Ok(Horizon {
            stamp,
            of: PhantomData,
        })
    }
}
