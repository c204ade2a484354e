ghost use Rattle.std.specs.Fmt.{WritesOnOk};
ghost use Rattle.txc_db.specs.Codes.{database_code};

use crate::holds::MAX_HOLDS;
use std::alloc::{AllocError, AllocFailed};
use std::fmt;
use thiserror::Error;
use txc_rows::StoreError;
use txc_stamp::Stamp;

/// Errors of the database. After an error it is as it was, except that a call that finds it `Broken` leaves it
/// broken.
#[derive(Clone, Copy, Debug, PartialEq, Eq, Error)]
pub enum DbError {
    /// The stamp is below the horizon, which is given.
    #[error("the snapshot is gone: the oldest that can be read has the stamp {0}")]
    SnapshotGone(Stamp),
    /// The commit conflicts with an event after the base that matches the tags read; the first such event is
    /// given.
    #[error("the commit conflicts with event {0}, which changed what was read")]
    Conflict(Stamp),
    /// The history has as many events as it has room for.
    #[error("the history has no room for another event")]
    Full,
    /// The store of the row versions failed: too many versions match, or it has no memory for its own work, or
    /// SQLite failed otherwise.
    #[error("{0}")]
    Store(StoreError),
    /// Another record is in the event log after the history. Every later call fails so.
    #[error("the database is broken: its event log has another record")]
    Broken,
    /// No hold of the stamp exists.
    #[error("stamp {0} is not held")]
    NotPinned(Stamp),
    /// The stamp is beyond the newest one, which is given.
    #[error("the stamp is beyond the newest one, {0}")]
    FutureStamp(Stamp),
    /// There are [`crate::MAX_HOLDS`] holds.
    #[error("{MAX_HOLDS} stamps are held, and no more can be")]
    HoldsFull,
    /// Memory cannot be allocated.
    #[error("out of memory")]
    Memory,
}

impl DbError {
    /// Writes its code, and the numbers that go with it.
    pub fn write_code<W: fmt::Write>(&self, f: &mut fmt::Formatter<W>) -> fmt::Result
        ensures { WritesOnOk W.write_str_gives f.old result (database_code self.now) f.new }
    {
        match self {
            DbError::SnapshotGone(horizon) => write!(f, "B1 {horizon}"),
            DbError::Conflict(stamp) => write!(f, "B2 {stamp}"),
            DbError::Full => write!(f, "B3"),
            DbError::Store(cause) => cause.write_code(f),
            DbError::Broken => write!(f, "B5"),
            DbError::NotPinned(stamp) => write!(f, "B6 {stamp}"),
            DbError::FutureStamp(newest) => write!(f, "B7 {newest}"),
            DbError::HoldsFull => write!(f, "B8"),
            DbError::Memory => write!(f, "memory"),
        }
    }
}

impl From<StoreError> for DbError {
    ghost use Rattle.txc_db.specs.Refusals.{IsRefusalOf};

    ghost from_gives = { λ cause it. IsRefusalOf cause it };

    fn from(cause: StoreError) -> DbError {
        match cause {
            StoreError::Memory => DbError::Memory,
            StoreError::TooManyRows | StoreError::Store(_) | StoreError::StoreMemory => {
                DbError::Store(cause)
            }
        }
    }
}

impl From<AllocError> for DbError {
    ghost use Rattle.std.specs.Prelude.{◌≡◌};
    ghost use Rattle.txc_db.specs.declared.error.DbError.TheVariants.{Memory};

    ghost from_gives = { λ _ it. it ≡ Memory };

    fn from(_: AllocError) -> DbError {
        DbError::Memory
    }
}

impl<T: Drop> From<AllocFailed<T>> for DbError {
    ghost use Rattle.std.specs.Prelude.{◌≡◌};
    ghost use Rattle.txc_db.specs.declared.error.DbError.TheVariants.{Memory};

    ghost from_gives = { λ _ it. it ≡ Memory };

    fn from(_: AllocFailed<T>) -> DbError {
        DbError::Memory
    }
}
