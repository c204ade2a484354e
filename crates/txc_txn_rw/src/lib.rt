//! Read-write transactions, which use no cache.
//!
//! A transaction reads at its base, the newest stamp when it began, and buffers its changes until it commits.
//! It commits if no event after the base has changed what it read.
#![tactic(auto)]

mod calling;
mod finding;
mod given;
pub mod laws;
mod reading;
mod rw_core;
mod rw_txn;
mod uncached;

pub use given::Given;
pub use reading::Reading;
pub use rw_core::{MAX_CHANGES, RwCore};
pub use rw_txn::{Committed, RwTxn};
