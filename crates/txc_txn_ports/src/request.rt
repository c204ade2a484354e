use txc_db::Pinned;
use txc_node::Entry;
use txc_rows::Query;
use txc_stamp::Stamp;
use txc_tags::Key;

/// Request of a transaction to a port. Nodes are numbered from 0.
#[derive(Drop)]
pub enum PortRequest {
    /// To the database: a pin at the wall-clock time `now`, in milliseconds, whose stamp is at least
    /// `at_least`.
    Pin {
        now: u64,
        at_least: Stamp,
    },
    /// To the pincushion: to add the pin, with one user.
    AddPin(Pinned),
    /// To the database: to remove one hold of the stamp.
    Unpin(Stamp),
    /// To a node: the entry that it has of the call at the stamps from `lo` to `hi`, both included.
    Lookup {
        node: usize,
        key: Key,
        lo: Stamp,
        hi: Stamp,
    },
    /// To the database: the answer of the query at the stamp.
    Query {
        query: Query,
        stamp: Stamp,
    },
    /// To a node: to store the entry, which is true in the history that the transaction has seen.
    Insert {
        node: usize,
        entry: Entry,
    },
}
