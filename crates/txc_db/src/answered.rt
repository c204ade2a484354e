//! Results of the calls of a shared database.
use crate::error::DbError;
use crate::history_front::HistoryFront;
use std::alloc::AllocError;
use std::fmt;
use thiserror::Error;
use txc_stamp::Stamp;

/// A result, with a front of the history that proves it.
#[derive(Drop)]
pub struct Answered<T> {
    pub answer: T,
    pub front: HistoryFront,
}

/// Errors of a commit.
#[derive(Drop, Error)]
pub enum CommitError {
    /// The commit conflicts with an event after the base that matches the tags read: the first such event, with
    /// a front that shows it.
    #[error("the commit conflicts with event {}, which changed what was read", .0.answer)]
    Conflict(Answered<Stamp>),
    /// Any other error of the database.
    #[error("{0}")]
    Database(DbError),
}

// The front of a conflict is left out.
impl fmt::Debug for CommitError {
    fn fmt<W: fmt::Write>(&self, f: &mut fmt::Formatter<W>) -> fmt::Result {
        match self {
            CommitError::Conflict(conflict) => write!(f, "Conflict({:?})", conflict.answer),
            CommitError::Database(refusal) => write!(f, "Database({refusal:?})"),
        }
    }
}

impl From<DbError> for CommitError {
    ghost use Rattle.std.specs.Prelude.{◌≡◌};
    ghost use Rattle.txc_db.specs.declared.answered.CommitError.TheVariants.{Database};

    ghost from_gives = { λ cause it. it ≡ Database cause };

    fn from(cause: DbError) -> CommitError {
        CommitError::Database(cause)
    }
}

impl From<AllocError> for CommitError {
    ghost use Rattle.std.specs.Prelude.{◌≡◌};
    ghost use Rattle.txc_db.specs.declared.answered.CommitError.TheVariants.{Database};
    ghost use Rattle.txc_db.specs.declared.error.DbError.TheVariants.{Memory};

    ghost from_gives = { λ _ it. it ≡ Database Memory };

    fn from(_: AllocError) -> CommitError {
        CommitError::Database(DbError::Memory)
    }
}
