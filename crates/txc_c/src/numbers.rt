//! The numbers of errors, which an export returns.
ghost use Rattle.std.specs.Prelude.{◌≡◌};
ghost use Rattle.txc_c.specs.Calls.{txn_number, change_number};
ghost use Rattle.txc_c.specs.Maintenance.{add_number, node_number, pin_number};
ghost use Rattle.txc_c.specs.BeginAndEnd.{database_number, write_number};

use txc_c_types::{CONFLICT, DONE, MID_CALL, NO_MEMORY, REFUSED};
use txc_caller::{PinError, WriteError};
use txc_cushion::AddError;
use txc_db::DbError;
use txc_shared::NodeError;
use txc_txn_ports::TxnError;

/// Returns the number of an error of a transaction.
pub(crate) fn txn_number(error: TxnError) -> u32
    ensures { result ≡ txn_number error }
{
    match error {
        TxnError::Memory => NO_MEMORY,
        _ => REFUSED,
    }
}

/// Returns the number of a change: buffered, or the error.
pub(crate) fn change_number(kept: Result<(), TxnError>) -> u32
    ensures { result ≡ change_number kept }
{
    match kept {
        Ok(()) => DONE,
        Err(error) => txn_number(error),
    }
}

/// Returns the number of an error of the node.
pub(crate) fn node_number(error: NodeError) -> u32
    ensures { result ≡ node_number error }
{
    match error {
        NodeError::Memory => NO_MEMORY,
        _ => REFUSED,
    }
}

/// Returns the number of an error of the pincushion.
pub(crate) fn add_number(error: AddError) -> u32
    ensures { result ≡ add_number error }
{
    match error {
        AddError::Memory => NO_MEMORY,
        _ => REFUSED,
    }
}

/// Returns the number of an error of pinning.
pub(crate) fn pin_number(error: PinError) -> u32
    ensures { result ≡ pin_number error }
{
    match error {
        PinError::Database(cause) => database_number(cause),
        PinError::Pincushion(cause) => add_number(cause),
    }
}

/// Returns the number of an error of the database.
pub(crate) fn database_number(error: DbError) -> u32
    ensures { result ≡ database_number error }
{
    match error {
        DbError::Conflict(_) => CONFLICT,
        DbError::Memory => NO_MEMORY,
        _ => REFUSED,
    }
}

/// Returns the number of an error of committing a read-write transaction.
pub(crate) fn write_number(error: WriteError) -> u32
    ensures { result ≡ write_number error }
{
    match error {
        WriteError::MidCall => MID_CALL,
        WriteError::Database(cause) => database_number(cause),
    }
}
