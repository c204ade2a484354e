//! Laws about a client's calls in the histories of the nodes, and about a caller's reads in a session. Each is
//! a lemma without code.
ghost use Rattle.txc_txn_client.specs.Laws.{EachCallIsRecordedOnce};
ghost use Rattle.txc_txn_client.specs.Sessions.{BeginningNotesNothing, SessionsAreMonotonic};

/// For the requests of a transaction's call to a node, each hit is in that node's history once, and each miss
/// and each insertion at most once, since a node may fail. They are recorded under the client's pass in the
/// order of the requests, as far as the pass has seen. The pass has no other record there.
pub fn each_call_is_recorded_once()
    ensures { EachCallIsRecordedOnce }
{}

/// A caller that begins its read-only transactions in a session, and notes its receipts and the stamps of its
/// commits there, never reads a state older than one that it has read or made. All of these are of one
/// database, and of any of its clients.
pub fn sessions_are_monotonic()
    ensures never { SessionsAreMonotonic }
    ensures began { BeginningNotesNothing }
{}
