ghost use Rattle.std.specs.Fmt.{WritesOnOk};
ghost use Rattle.txc_rows.specs.Codes.{store_code};

use std::alloc::{AllocError, AllocFailed};
use std::fmt;
use thiserror::Error;

/// The most versions that may match a query, unless a greater number is set.
pub const MAX_MATCHING: usize = 1024;

/// The greatest number that can be set.
pub const MOST_MATCHING: usize = 65_536;

/// Errors of the store of row versions. After an error the versions are as they were.
#[derive(Clone, Copy, Debug, PartialEq, Eq, Error)]
pub enum StoreError {
    /// More versions match the query than are allowed: [`MAX_MATCHING`], or the greater number that was set.
    #[error("too many versions match the query: at most {MAX_MATCHING} may, or up to {MOST_MATCHING} if so set")]
    TooManyRows,
    /// SQLite failed for another reason than memory. Its transaction was rolled back.
    #[error("the store of rows failed: {0}")]
    Store(sqlite::Error),
    /// SQLite had no memory for its own work. Its transaction was rolled back.
    #[error("the store of rows failed: out of memory")]
    StoreMemory,
    /// Memory for the answer cannot be allocated.
    #[error("out of memory")]
    Memory,
}

impl StoreError {
    /// Writes its code.
    pub fn write_code<W: fmt::Write>(&self, f: &mut fmt::Formatter<W>) -> fmt::Result
        ensures { WritesOnOk W.write_str_gives f.old result (store_code self.now) f.new }
    {
        match self {
            StoreError::TooManyRows => write!(f, "R2"),
            StoreError::Memory => write!(f, "memory"),
            _ => write!(f, "R3"),
        }
    }
}

impl From<sqlite::Error> for StoreError {
    ghost use Rattle.txc_rows.specs.StoreErrors.{IsRefusalBy};

    ghost from_gives = { IsRefusalBy };

    fn from(cause: sqlite::Error) -> StoreError {
        if cause == sqlite::Error::SqliteFailure(sqlite::ErrorCode::OutOfMemory) {
            return StoreError::StoreMemory;
        }
        StoreError::Store(cause)
    }
}

impl From<AllocError> for StoreError {
    ghost use Rattle.std.specs.Prelude.{◌≡◌};
    ghost use Rattle.txc_rows.specs.declared.store_error.StoreError.TheVariants.{Memory};

    ghost from_gives = { λ _ it. it ≡ Memory };

    fn from(_: AllocError) -> StoreError {
        StoreError::Memory
    }
}

impl<T: Drop> From<AllocFailed<T>> for StoreError {
    ghost use Rattle.std.specs.Prelude.{◌≡◌};
    ghost use Rattle.txc_rows.specs.declared.store_error.StoreError.TheVariants.{Memory};

    ghost from_gives = { λ _ it. it ≡ Memory };

    fn from(_: AllocFailed<T>) -> StoreError {
        StoreError::Memory
    }
}
