ghost use Rattle.std.specs.Prelude.{◌≡◌, MatchOption, None, Some};

use crate::kept::Kept;
use txc_cushion::AddError;
use txc_db::{Answered, DbError, HistoryFront, Pinned};
use txc_node::HitValue;
use txc_validity::Found;

/// Reply of a port to the request of the same name.
#[derive(Drop)]
pub enum PortReply {
    /// The pin, or the error.
    Pin(Result<Pinned, DbError>),
    /// The pin, and whether it was added.
    AddPin(Pinned, Result<(), AddError>),
    /// Success if the hold was removed, or the error.
    Unpin(Result<(), DbError>),
    /// The node's entry of the call, with the history in which it is true. A node that fails has none.
    Lookup(Option<Answered<HitValue>>),
    /// The database's answer, with the history in which it holds, or the error.
    Query(Result<Answered<Found>, DbError>),
    /// The result of the insertion. A node that fails stores nothing.
    Insert(Option<Kept>),
}

impl PortReply {
    ghost use Rattle.txc_txn_ports.specs.Fronts.{front_of_reply};

    /// Returns the front of the history in the reply, if it has one.
    pub fn front(&self) -> Option<&HistoryFront>
        ensures { MatchOption result (front_of_reply self.now ≡ None)
            (λ front. front_of_reply self.now ≡ Some front.now) }
    {
        match self {
            PortReply::Pin(Ok(pinned)) => Some(&pinned.front),
            PortReply::AddPin(pinned, _) => Some(&pinned.front),
            PortReply::Lookup(Some(hit)) => Some(&hit.front),
            PortReply::Query(Ok(found)) => Some(&found.front),
            _ => None,
        }
    }
}
