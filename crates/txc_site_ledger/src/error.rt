//! Errors of writing changes.
use crate::run_error::RunError;
use std::fmt;
use thiserror::Error;
use txc_db::{Answered, DbError};
use txc_stamp::Stamp;

/// Errors of writing a change. Nothing of it was committed, and the client can continue.
#[derive(Drop, Error)]
pub enum WriteError {
    /// Each of the tries ended with a conflict: for each the first event that matches what was read, with a
    /// front that shows it.
    #[error("the change conflicted at every try (tries: {})", .0.len())]
    Conflicts(Vec<Answered<Stamp>>),
    /// A transaction cannot begin.
    #[error("{0}")]
    Begin(DbError),
    /// The change failed, and its transaction was aborted.
    #[error("{0}")]
    Change(RunError),
    /// The commit failed, for another reason than a conflict.
    #[error("{0}")]
    Commit(DbError),
    /// Memory for the conflicts cannot be allocated. The change was not run.
    #[error("out of memory")]
    Memory,
}

// The fronts of the conflicts are left out.
impl fmt::Debug for WriteError {
    fn fmt<W: fmt::Write>(&self, f: &mut fmt::Formatter<W>) -> fmt::Result {
        match self {
            WriteError::Conflicts(conflicts) => write!(f, "Conflicts({})", conflicts.len()),
            WriteError::Begin(cause) => write!(f, "Begin({cause:?})"),
            WriteError::Change(cause) => write!(f, "Change({cause:?})"),
            WriteError::Commit(cause) => write!(f, "Commit({cause:?})"),
            WriteError::Memory => f.write_str("Memory"),
        }
    }
}
