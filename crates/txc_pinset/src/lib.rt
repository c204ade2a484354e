//! The stamps at which a read-only transaction may still be serialised, and the lazy choice among them.
//!
//! A transaction begins with the pins that are fresh enough for it, and with the present. Each value that it
//! reads narrows this set, and a value that would leave it empty is not used. So all values that it has read
//! are true in one snapshot, which it need not choose before its end.
#![tactic(auto)]

mod choice;
pub mod laws;
mod pin_set;

pub use choice::Choice;
pub use pin_set::{PinSet, WouldEmpty};
