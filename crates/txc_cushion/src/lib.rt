//! The pincushion: the pinned snapshots of a database's history, and the number of transactions that may use
//! each.
#![tactic(auto)]

mod cushion_core;
mod entry;
mod error;
mod handing;
pub mod laws;
mod limits;
mod locked;
mod pin;
mod pincushion;
mod pins;
mod places;
mod retiring;
mod users;

pub use cushion_core::CushionCore;
pub use entry::PinEntry;
pub use error::{AddError, UnknownPin};
pub use limits::{MAX_HANDED_OUT, MAX_PINS, MAX_USERS};
pub use pin::{Pin, pin_of};
pub use pincushion::Pincushion;
pub use pins::Pins;
