//! Transactions whose functions the caller computes: it requests calls, learns which functions it must compute,
//! and reports each function's requests and its value.
//!
//! A [`Caller`] has a database, a pincushion and a node. Any number of its transactions can be open at once:
//! each is a value of its own, a [`CallerTxn`] or a [`CallerWrite`], which is lent the caller for each act.
#![tactic(auto)]

mod call_ports;
mod caller;
mod caller_txn;
mod caller_write;
mod lent_txn;
mod nodes;
mod pin_error;
mod plain_ports;
mod ports;
mod ports_slot;
mod serving;
mod step;
mod writing;

pub use caller::Caller;
pub use caller_txn::CallerTxn;
pub use caller_write::CallerWrite;
pub use nodes::NodeTotals;
pub use pin_error::PinError;
pub use step::{CallerError, Step, WriteError, Written};
