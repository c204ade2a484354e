//! Rollover: a database that begins with the newest state of another one, with room for more events.
#![tactic(auto)]

mod beginning;
mod carrying;
mod error;
mod laws;
mod renewing;

pub use beginning::new_database;
pub use carrying::carry;
pub use error::CarryError;
pub use laws::worked_order;
pub use renewing::renew;
