//! Batches of jobs: read-only transactions that clients run on threads of their own.
//!
//! The jobs of a batch go through one queue, from which each worker takes the next one after it is done with
//! the one before, and their results go through another. Workers share nothing else but the gate and whatever
//! their clients share.
#![tactic(auto)]

mod batch;
mod error;
mod gate;
mod job;
mod numbering;
mod queues;
mod running;
mod worker;

pub use batch::{MAX_CLIENTS, run_batch};
pub use error::BatchError;
pub use gate::Gate;
pub use job::{Job, Outcome, Receipted};
