//! Runs of scripts of every kind, with the program's functions: of a node, of a world, and of a batch.
#![tactic(auto)]

mod registries;
mod running;

pub use running::run;
pub use txc_script::{RunFault, Status, exit_of};
pub use txc_script_lines::OwnFault;
