//! The database of a batch and its pincushion, which changes and pins prepare.
ghost use Rattle.std.specs.Prelude.{◌≡◌, ◌≤◌, IfOk};
ghost use Rattle.txc_stream.specs.declared.row.TheConstants.{MAX_CAPACITY as MAX_ROW};

use crate::prepared::PrepareError;
use std::alloc::{AllocError, Global};
use std::marker::Model;
use std::slice;
use txc_cushion::laws::add_counts_one_pin;
use txc_cushion::{AddError, CushionCore};
use txc_db::{DbCore, DbError, Pinned};
use txc_rows::Change;
use txc_stamp::Stamp;
use txc_tags::TagSet;

/// A database and its pincushion, for one thread.
#[derive(Drop)]
pub struct PlainDatabase {
    database: DbCore,
    cushion: CushionCore,
    // The database's newest stamp.
    newest: Stamp,
}

impl Model for PlainDatabase {
    ghost use Rattle.std.specs.Prelude.{◌≡◌, length};
    ghost use Rattle.txc_script_batch.specs.PlainDatabase.{SourceValue};

    ghost Value = { SourceValue };

    ghost view = { λ s. record { database = s.database; cushion = s.cushion } };

    ghost invariant = { λ s. (s.newest ≡ length s.database.history) × (s.cushion.events ≡ s.database.events) };
}

impl PlainDatabase {
    ghost use Rattle.txc_script_batch.specs.PlainDatabase.{MakesPin, MakesChange, HasAddedPin, IsNewSource};

    /// Makes an empty database, with room for `row_cap` events, and a pincushion without pins. Fails only if
    /// memory cannot be allocated.
    pub fn new(alloc: Global, row_cap: usize) -> Result<PlainDatabase, DbError>
        requires { (1 ≤ row_cap) × (row_cap ≤ MAX_ROW) }
        ensures { IfOk result (IsNewSource row_cap) }
    {
        let database = DbCore::new(alloc, row_cap)?;
        let front = database.front()?;
        let cushion = CushionCore::new(alloc, front);
        Ok(PlainDatabase {
            database,
            cushion,
            newest: Stamp::ZERO,
        })
    }

    /// Returns the database and the pincushion.
    pub fn into_parts(self) -> (DbCore, CushionCore)
        ensures database { result.0 ≡ self.database }
        ensures cushion { result.1 ≡ self.cushion }
        ensures row { result.1.events ≡ result.0.events }
    {
        let PlainDatabase {
            database,
            cushion,
            newest: _,
        } = self;
        (database, cushion)
    }

    /// Commits the change at the newest stamp, without reads, and returns the newest stamp after it. Fails as
    /// the database's commit does.
    pub fn write(&mut self, alloc: Global, change: &Change) -> Result<Stamp, PrepareError>
        ensures { MakesChange change.now self.old result self.new }
    {
        let read = TagSet::new(alloc);
        let base = self.newest;
        let changes = slice::from_ref(change);
        match self.database.commit(alloc, base, &read, changes) {
            Ok(stamp) => {
                self.newest = stamp;
                Ok(stamp)
            }
            Err(refusal) => Err(PrepareError::Database(refusal)),
        }
    }

    /// Pins the present, adds the pin, which no transaction uses, and returns its stamp. Fails if the database
    /// cannot pin, or the pincushion cannot add the pin: then the hold is removed, and the pin's event stays.
    pub fn pin(&mut self, alloc: Global, now: u64) -> Result<Stamp, PrepareError>
        ensures { MakesPin now self.old result self.new }
    {
        let pinned = match self.database.pin(alloc, now, Stamp::ZERO) {
            Ok(pinned) => pinned,
            Err(refusal) => return Err(PrepareError::Database(refusal)),
        };
        let stamp = pinned.stamp;
        self.newest = stamp;
        match self.add_unused(&pinned) {
            Ok(()) => Ok(stamp),
            Err(refusal) => {
                let _ = self.database.unpin(stamp);
                Err(PrepareError::Pincushion(refusal))
            }
        }
    }

    /// Adds a pin, and removes its user.
    fn add_unused(&mut self, pinned: &Pinned) -> Result<(), AddError>
        requires { pinned.now.front.events ≡ self.old.database.events }
        ensures { HasAddedPin pinned.now self.old result self.new }
    {
        add_counts_one_pin();
        self.cushion.is_cushion();
        self.cushion.add(pinned)?;
        let _ = self.cushion.give_back(&[pinned.stamp]);
        Ok(())
    }
}
