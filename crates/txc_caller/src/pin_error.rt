//! Errors of pinning the newest state.

use thiserror::Error;
use txc_cushion::AddError;
use txc_db::DbError;

/// Errors of pinning the newest state.
#[derive(Clone, Copy, Debug, PartialEq, Eq, Error)]
pub enum PinError {
    /// The database cannot append the event of the pin, or hold its stamp.
    #[error("{0}")]
    Database(DbError),
    /// The pincushion cannot add the pin.
    #[error("{0}")]
    Pincushion(AddError),
}
