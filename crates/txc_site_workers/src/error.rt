//! Errors of opening a site, and of reading its last state.
use std::alloc::AllocError;
use thiserror::Error;
use txc_site_keeper::SiteError;
use txc_site_ledger::WriteError;
use txc_site_pages::ReadError;

/// Errors of opening a site and running its threads.
#[derive(Drop, Debug, Error)]
pub enum OpenError {
    /// The site, or a client of a thread, cannot be made. No thread was started.
    #[error("{0}")]
    Site(SiteError),
    /// The opening was not written, and nothing of it was committed. No thread was started.
    #[error("the opening failed: {0}")]
    Opening(WriteError),
    /// Memory for the threads cannot be allocated. The opening was written. Some threads may have run, and
    /// their results are lost; others may not.
    #[error("out of memory for the threads")]
    Threads,
}

impl From<SiteError> for OpenError {
    ghost use Rattle.std.specs.Prelude.{◌≡◌};
    ghost use Rattle.txc_site_workers.specs.declared.error.OpenError.TheVariants.{Site};

    ghost from_gives = { λ cause it. it ≡ Site cause };

    fn from(cause: SiteError) -> OpenError {
        OpenError::Site(cause)
    }
}

impl From<AllocError> for OpenError {
    ghost use Rattle.std.specs.Prelude.{◌≡◌};
    ghost use Rattle.txc_site_workers.specs.declared.error.OpenError.TheVariants.{Site};
    ghost use Rattle.txc_site_keeper.specs.declared.error.SiteError.TheVariants.{Memory};

    ghost from_gives = { λ _ it. it ≡ Site Memory };

    fn from(_: AllocError) -> OpenError {
        OpenError::Site(SiteError::Memory)
    }
}

/// Errors of reading a page of the last state.
#[derive(Clone, Copy, Debug, PartialEq, Eq, Error)]
pub enum LastError {
    /// A client for it cannot be made.
    #[error("{0}")]
    Site(SiteError),
    /// The page was not read.
    #[error("{0}")]
    Page(ReadError),
}

impl From<SiteError> for LastError {
    ghost use Rattle.std.specs.Prelude.{◌≡◌};
    ghost use Rattle.txc_site_workers.specs.declared.error.LastError.TheVariants.{Site};

    ghost from_gives = { λ cause it. it ≡ Site cause };

    fn from(cause: SiteError) -> LastError {
        LastError::Site(cause)
    }
}

impl From<AllocError> for LastError {
    ghost use Rattle.std.specs.Prelude.{◌≡◌};
    ghost use Rattle.txc_site_workers.specs.declared.error.LastError.TheVariants.{Site};
    ghost use Rattle.txc_site_keeper.specs.declared.error.SiteError.TheVariants.{Memory};

    ghost from_gives = { λ _ it. it ≡ Site Memory };

    fn from(_: AllocError) -> LastError {
        LastError::Site(SiteError::Memory)
    }
}
