//! Read-only transactions, as a core that makes one port request at a time.
#![tactic(auto)]

pub mod laws;
mod pinning;
mod receipt;
mod running_txn;
mod session;
mod txn_core;

pub use pinning::{PinStep, Pinning};
pub use receipt::{Receipt, Unfinished};
pub use running_txn::RunningTxn;
pub use session::Session;
pub use txn_core::TxnCore;
