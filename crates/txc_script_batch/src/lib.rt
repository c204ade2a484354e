//! Runs of a batch's scripts: changes and pins, and then jobs, which run in parallel after all lines.
#![tactic(auto)]

mod batch;
mod batch_result;
mod laws;
mod order;
mod outcomes;
mod plain_database;
mod player;
mod prepared;
mod reading;
mod running;
mod script;

pub use laws::nothing_is_wrong_with_an_order;
pub use script::run_batch_script;
