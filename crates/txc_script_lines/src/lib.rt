//! The common parts of the lines of a world's script and of a batch's: their names, their words, and the faults
//! of these.
#![tactic(auto)]

mod fault;
mod kinds;
mod name;
mod said;

pub use fault::OwnFault;
pub use name::{LineName, name_of};
pub use said::{LAST_MOMENT, change_of, query_of, read_after_name};
