//! Errors of making a site or a part of it.
use std::alloc::{AllocError, AllocFailed};
use thiserror::Error;
use txc_db::DbError;
use txc_shared::NodeError;

/// Errors of making a site, a client or a keeper of it. Passes that were made by then stay counted at the
/// nodes.
#[derive(Clone, Copy, Debug, PartialEq, Eq, Error)]
pub enum SiteError {
    /// A number of the plan is 0 or beyond its limit.
    #[error("a number of the plan is 0 or above its limit")]
    Plan,
    /// Two functions have this number.
    #[error("two functions have the number {0}")]
    Twice(u8),
    /// The database cannot be made.
    #[error("{0}")]
    Database(DbError),
    /// A pass at a node cannot be made.
    #[error("{0}")]
    Node(NodeError),
    /// Memory cannot be allocated.
    #[error("out of memory")]
    Memory,
}

impl From<AllocError> for SiteError {
    ghost use Rattle.std.specs.Prelude.{◌≡◌};
    ghost use Rattle.txc_site_keeper.specs.declared.error.SiteError.TheVariants.{Memory};

    ghost from_gives = { λ _ it. it ≡ Memory };

    fn from(_: AllocError) -> SiteError {
        SiteError::Memory
    }
}

impl<T: Drop> From<AllocFailed<T>> for SiteError {
    ghost use Rattle.std.specs.Prelude.{◌≡◌};
    ghost use Rattle.txc_site_keeper.specs.declared.error.SiteError.TheVariants.{Memory};

    ghost from_gives = { λ _ it. it ≡ Memory };

    fn from(_: AllocFailed<T>) -> SiteError {
        SiteError::Memory
    }
}

impl From<DbError> for SiteError {
    ghost use Rattle.std.specs.Prelude.{◌≡◌};
    ghost use Rattle.txc_site_keeper.specs.declared.error.SiteError.TheVariants.{Database};

    ghost from_gives = { λ cause it. it ≡ Database cause };

    fn from(cause: DbError) -> SiteError {
        SiteError::Database(cause)
    }
}

impl From<NodeError> for SiteError {
    ghost use Rattle.std.specs.Prelude.{◌≡◌};
    ghost use Rattle.txc_site_keeper.specs.declared.error.SiteError.TheVariants.{Node};

    ghost from_gives = { λ cause it. it ≡ Node cause };

    fn from(cause: NodeError) -> SiteError {
        SiteError::Node(cause)
    }
}
