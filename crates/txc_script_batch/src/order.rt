//! Orders: the meanings of the lines of a batch's script.
use std::marker::Model;
use txc_rows::Change;
use txc_tags::Key;

/// A queued job, without its number.
#[derive(Drop)]
pub struct Queued {
    pub(crate) now: u64,
    pub(crate) staleness: u64,
    pub(crate) keys: Vec<Key>,
}

impl Model for Queued {
    ghost use Rattle.txc_script_batch.specs.QueuedJobs.{QueuedValue};

    ghost Value = { QueuedValue };

    ghost view = { λ q. record { now = q.now; staleness = q.staleness; keys = q.keys.items } };
}

/// The meaning of a line.
#[derive(Drop)]
pub enum Order {
    /// A change, which is made at once.
    Write(Change),
    /// A pin at this wall-clock time, in milliseconds, which is made at once.
    Pin(u64),
    /// A job, which is run after all lines.
    Run(Queued),
}
