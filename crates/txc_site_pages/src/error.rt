//! Errors of reading pages.
use thiserror::Error;
use txc_site_ledger::RunError;

/// Errors of reading a page: memory to begin is missing, or the page failed. Nothing was changed, and the client
/// can continue.
#[derive(Clone, Copy, Debug, PartialEq, Eq, Error)]
pub enum ReadError {
    /// Memory to begin the transaction cannot be allocated. The page was not run.
    #[error("out of memory")]
    Memory,
    /// The page failed, and its transaction was aborted.
    #[error("{0}")]
    Page(RunError),
}
