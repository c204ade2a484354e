use crate::error::NodeError;
use txc_stamp::Stamp;

/// Maximum number of events that a node takes under one lock.
pub const MAX_TOGETHER: usize = 64;

/// Result of an advance.
#[derive(Clone, Copy, Debug, PartialEq, Eq)]
pub enum Advanced {
    /// The node took the event of that stamp, and closed that many entries.
    Taken { stamp: Stamp, closed: usize },
    /// The node had taken every event that it has seen.
    Idle,
}

/// Reason for which a node stopped taking events.
#[derive(Clone, Copy, Debug, PartialEq, Eq)]
pub enum Ended {
    /// It has taken all events that it has seen.
    Idle,
    /// It has taken as many as it may in one call.
    Paused,
    /// It failed with this error at the next event. The events before it stay taken.
    Refused(NodeError),
}
