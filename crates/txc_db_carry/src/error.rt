use thiserror::Error;
use txc_db::DbError;
use txc_rows::{MAX_MATCHING, MOST_MATCHING};
use txc_tags::{Table, Tag};

/// Errors of a rollover. After one there is no new database, and the old one is unchanged or vacuumed.
#[derive(Clone, Copy, Debug, PartialEq, Eq, Error)]
pub enum CarryError {
    /// The old database failed: it is broken, or memory cannot be allocated, or SQLite failed.
    #[error("the old database failed: {0}")]
    Old(DbError),
    /// Held stamps keep more versions of the row with that table and id than the database allows to match a
    /// query.
    #[error("too many versions of {} are kept: at most {MAX_MATCHING}, or up to {MOST_MATCHING} if so set, may match a query", Tag::id(*.0, *.1))]
    TooManyVersions(Table, u32),
    /// The new database failed: it has too little room, another record is in its event log, or memory cannot be
    /// allocated, or SQLite failed.
    #[error("the new database failed: {0}")]
    New(DbError),
}
