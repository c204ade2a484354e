//! The ledger of a site, and the changes that are written to it.
//!
//! A [`Ledger`] has a database and its pincushion, which no code outside reaches. A [`Change`] is written in
//! one read-write transaction, and a [`CommitCounter`] counts the commits. Maintenance pins, retires and vacuums by
//! linear values that only the ledger makes and consumes.
#![tactic(auto)]

mod change;
mod error;
mod ledger;
mod node_history;
mod run_error;
mod writing;

pub use change::{Change, ChangeTxn};
pub use error::WriteError;
pub use ledger::{
    CommitCounter, CommitCounters, Horizon, Ledger, PresentPin, RefusedPin, RetiredPin,
    RetiredPins, UsedPin,
};
pub use node_history::NodeHistory;
pub use run_error::RunError;
pub use writing::{ChangeResult, write_change};
