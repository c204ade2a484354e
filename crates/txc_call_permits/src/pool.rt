ghost use Rattle.std.specs.Prelude.{◌≡◌, ◌≤◌, ◌<◌, IfOk, IfSome};

use crate::place::Place;
use crate::word::{Give, Take, Word};
use atomic_table::Table;
use std::alloc::{AllocError, Global};
use std::marker::Model;
use std::sync::Arc;

/// The most permits that a pool may have.
pub const MAX_PERMITS: u64 = 1024;

/// Number of tries for a permit. A try fails if another call took or returned one meanwhile.
const TRIES: u32 = 1024;

/// A handle of a pool. A contract sees which pool it is, and how many permits that has.
pub struct PermitPool {
    most: u64,
    word: Arc<Word>,
    place: Place,
}

impl Model for PermitPool {
    ghost use Rattle.std.specs.Prelude.{◌≡◌, ℕ, false};
    ghost use Rattle.std.specs.Arc.{arc_value};
    ghost use Rattle.txc_call_permits.specs.PermitPool.{Pool, IsAt};

    ghost Value = { Pool };

    ghost view = { λ p. record { name = p.place.seat.table_id; most = p.most } };

    ghost invariant = { λ p. IsAt (arc_value p.word).shared.table_id (arc_value p.word).shared.key p.place.seat.table_id p.most × (p.place.seat.me.0 ≡ false) };
}

/// A linear permit: only [`Grant::give_back`] consumes it. A contract sees which pool it is of.
pub struct Grant {
    word: Arc<Word>,
    place: Place,
}

impl Model for Grant {
    ghost use Rattle.std.specs.Prelude.{◌≡◌, true};
    ghost use Rattle.std.specs.Arc.{arc_value};
    ghost use Rattle.atomic_table.specs.Seated.{TableId, table_id_coded};

    ghost Value = { TableId };

    ghost coded = { table_id_coded };

    ghost view = { λ g. g.place.seat.table_id };

    ghost invariant = { λ g. ((arc_value g.word).shared.table_id.words ≡ 1)
        × (g.place.seat.table_id ≡ (arc_value g.word).shared.table_id) × (g.place.seat.me.0 ≡ true) };
}

/// A permit to run, which is returned to its pool when it is dropped. A contract sees which pool that is.
pub struct Permit {
    grant: Grant,
}

impl Model for Permit {
    ghost use Rattle.atomic_table.specs.Seated.{TableId, table_id_coded};

    ghost Value = { TableId };

    ghost coded = { table_id_coded };

    ghost view = { λ p. p.grant };
}

impl PermitPool {
    /// Makes a pool of `most` permits, none of which is out. Fails only if memory cannot be allocated.
    pub fn new(alloc: Global, most: u64) -> Result<PermitPool, AllocError>
        requires some { 0 < most }
        requires limit { most ≤ MAX_PERMITS }
        ensures answer { IfOk result (λ pool. pool.most ≡ most) }
    {
        let (table, seat) = Table::of_words(alloc, &[0], &most)?;
        let place = Place { seat };
        let word = Arc::new(alloc, table)?;
        Ok(PermitPool { most, word, place })
    }

    /// Makes another handle of the same pool. It does not allocate, and fails only if the pool has as many
    /// handles and permits as can be counted.
    pub fn share(&mut self) -> Result<PermitPool, AllocError>
        ensures same { IfOk result (λ other. other ≡ self.old) }
        ensures unchanged { self.new ≡ self.old }
    {
        let word = Arc::try_clone(&self.word)?;
        let place = self.place.split(&self.word);
        Ok(PermitPool {
            most: self.most,
            word,
            place,
        })
    }

    /// Takes a permit that its owner must return. Returns `None` if all are out, if more than a thousand others
    /// are taken or returned meanwhile, or if the pool has as many handles and permits as can be counted.
    pub fn grant(&mut self) -> Option<Grant>
        ensures answer { IfSome result (λ grant. grant ≡ self.old.name) }
        ensures unchanged { self.new ≡ self.old }
    {
        let most = self.most;
        let mut out = self.word.shared.peek(0);
        if out >= most {
            return None;
        }
        let word = Arc::try_clone(&self.word).ok()?;
        let mut place = self.place.split(&self.word);
        for _ in 0..TRIES {
            let found = word
                .shared
                .compare_exchange::<Take>(&mut place.seat, 0, out, out + 1);
            if found == out {
                return Some(Grant { word, place });
            }
            if found >= most {
                return None;
            }
            out = found;
        }
        None
    }

    /// Takes a permit that is returned when it is dropped. Returns `None` as [`PermitPool::grant`] does.
    pub fn take(&mut self) -> Option<Permit>
        ensures answer { IfSome result (λ permit. permit ≡ self.old.name) }
        ensures unchanged { self.new ≡ self.old }
    {
        let grant = self.grant()?;
        Some(Permit { grant })
    }
}

impl Grant {
    /// Returns the permit to its pool.
    pub fn give_back(self) {
        let Grant { word, mut place } = self;
        word.shared.fetch_sub::<Give>(&mut place.seat, 0, 1);
    }
}

impl Drop for PermitPool {
    fn drop(self) {
        let PermitPool {
            most: _,
            word: _,
            place: _,
        } = self;
    }
}

impl Drop for Permit {
    fn drop(self) {
        let Permit { grant } = self;
        grant.give_back();
    }
}
