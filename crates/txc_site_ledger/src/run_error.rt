//! Errors of pages and changes.
use std::alloc::AllocError;
use thiserror::Error;
use txc_rows::RowError;
use txc_tags::KeyError;
use txc_txn_ports::TxnError;

/// Errors of a page or a change: of its transaction, or its own. The transaction was aborted.
#[derive(Clone, Copy, Debug, PartialEq, Eq, Error)]
pub enum RunError {
    /// A call, a query or a change of the transaction failed, or it had no memory.
    #[error("{0}")]
    Txn(TxnError),
    /// A row that it would put cannot be made.
    #[error("{0}")]
    Row(RowError),
    /// A key that it would call cannot be made.
    #[error("{0}")]
    Key(KeyError),
    /// The page or change itself failed, with this number, whose meaning its author defines.
    #[error("the page or change failed with the number {0}")]
    Own(u32),
}

impl From<TxnError> for RunError {
    ghost use Rattle.std.specs.Prelude.{◌≡◌};
    ghost use Rattle.txc_site_ledger.specs.declared.run_error.RunError.TheVariants.{Txn};

    ghost from_gives = { λ cause it. it ≡ Txn cause };

    fn from(cause: TxnError) -> RunError {
        RunError::Txn(cause)
    }
}

impl From<RowError> for RunError {
    ghost use Rattle.std.specs.Prelude.{◌≡◌};
    ghost use Rattle.txc_site_ledger.specs.declared.run_error.RunError.TheVariants.{Row};

    ghost from_gives = { λ cause it. it ≡ Row cause };

    fn from(cause: RowError) -> RunError {
        RunError::Row(cause)
    }
}

impl From<KeyError> for RunError {
    ghost use Rattle.std.specs.Prelude.{◌≡◌};
    ghost use Rattle.txc_site_ledger.specs.declared.run_error.RunError.TheVariants.{Key};

    ghost from_gives = { λ cause it. it ≡ Key cause };

    fn from(cause: KeyError) -> RunError {
        RunError::Key(cause)
    }
}

impl From<AllocError> for RunError {
    ghost use Rattle.std.specs.Prelude.{◌≡◌};
    ghost use Rattle.txc_txn_ports.specs.declared.error.TxnError.TheVariants.{Memory};
    ghost use Rattle.txc_site_ledger.specs.declared.run_error.RunError.TheVariants.{Txn};

    ghost from_gives = { λ _ it. it ≡ Txn Memory };

    fn from(_: AllocError) -> RunError {
        RunError::Txn(TxnError::Memory)
    }
}
