ghost use Rattle.std.specs.Fmt.{WritesOnOk};
ghost use Rattle.txc_txn_ports.specs.Codes.{transaction_code};

use std::alloc::AllocError;
use std::fmt;
use thiserror::Error;
use txc_call::CallError;
use txc_cushion::{AddError, MAX_PINS};
use txc_db::DbError;
use txc_stamp::Stamp;

/// Errors of a call or a query of a transaction. The transaction stays open, with its results so far.
#[derive(Clone, Copy, Debug, PartialEq, Eq, Error)]
pub enum TxnError {
    /// The call itself failed.
    #[error("{0}")]
    Call(CallError),
    /// The database failed at a query or a pin.
    #[error("{0}")]
    Database(DbError),
    /// The database no longer has the snapshot; its horizon is given.
    #[error("the snapshot is gone: the oldest that can be read has the stamp {0}")]
    SnapshotLost(Stamp),
    /// The pincushion did not take the pin of the present. The pin's event stays in the history, and its hold
    /// was released.
    #[error("the present cannot be pinned: the pincushion has {MAX_PINS} pins, or this stamp already")]
    PinsFull,
    /// The transaction has as many changes as it may buffer.
    #[error("the transaction has as many changes as it may buffer")]
    BufferFull,
    /// Memory cannot be allocated.
    #[error("out of memory")]
    Memory,
}

impl TxnError {
    /// Writes its code, and the numbers that go with it.
    pub fn write_code<W: fmt::Write>(&self, f: &mut fmt::Formatter<W>) -> fmt::Result
        ensures { WritesOnOk W.write_str_gives f.old result (transaction_code self.now) f.new }
    {
        match self {
            TxnError::Call(cause) => cause.write_code(f),
            TxnError::Database(cause) => cause.write_code(f),
            TxnError::SnapshotLost(horizon) => write!(f, "X3 {horizon}"),
            TxnError::PinsFull => write!(f, "X4"),
            TxnError::BufferFull => write!(f, "X5"),
            TxnError::Memory => write!(f, "memory"),
        }
    }
}

impl From<CallError> for TxnError {
    ghost use Rattle.std.specs.Prelude.{◌≡◌};
    ghost use Rattle.txc_txn_ports.specs.Refusals.{refused_call};

    ghost from_gives = { λ cause it. it ≡ refused_call cause };

    fn from(cause: CallError) -> TxnError {
        match cause {
            CallError::Memory => TxnError::Memory,
            cause => TxnError::Call(cause),
        }
    }
}

impl From<DbError> for TxnError {
    ghost use Rattle.std.specs.Prelude.{◌≡◌};
    ghost use Rattle.txc_txn_ports.specs.Refusals.{refused_request};

    ghost from_gives = { λ cause it. it ≡ refused_request cause };

    fn from(cause: DbError) -> TxnError {
        match cause {
            DbError::SnapshotGone(horizon) => TxnError::SnapshotLost(horizon),
            DbError::Memory => TxnError::Memory,
            cause => TxnError::Database(cause),
        }
    }
}

impl From<AddError> for TxnError {
    ghost use Rattle.std.specs.Prelude.{◌≡◌};
    ghost use Rattle.txc_txn_ports.specs.Refusals.{refused_pin};

    ghost from_gives = { λ cause it. it ≡ refused_pin cause };

    fn from(cause: AddError) -> TxnError {
        match cause {
            AddError::Full | AddError::Known(_) => TxnError::PinsFull,
            AddError::Memory => TxnError::Memory,
        }
    }
}

impl From<AllocError> for TxnError {
    ghost use Rattle.std.specs.Prelude.{◌≡◌};
    ghost use Rattle.txc_txn_ports.specs.declared.error.TxnError.TheVariants.{Memory};

    ghost from_gives = { λ _ it. it ≡ Memory };

    fn from(_: AllocError) -> TxnError {
        TxnError::Memory
    }
}
