use txc_node::Record;
use txc_stream::{AppendToken, EventRow};

/// The history of a node that is not made yet.
#[derive(Drop)]
pub enum NodeHistory {
    /// Stored in a log, which any thread can read.
    Stored(EventRow<Record>),
    /// Ghost: it uses no memory and has no end.
    Unstored(AppendToken<Record>),
}
