//! Calls of the library of transactions whose functions the caller computes, at the types of a program, to show
//! that their preconditions can be met. Nothing runs them.
//!
//! The function branches on its argument and on a row that it read. It is computed in a read-only transaction,
//! whose receipt states its value, and in a read-write one.
#![tactic(auto)]

mod labels;
mod reading;
mod writing;

pub use labels::Labels;
pub use reading::{Shown, read};
pub use writing::{copy, copy_shown};
