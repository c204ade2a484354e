use txc_node::HitValue;
use txc_validity::Found;

/// Reply to a need.
#[derive(Drop)]
pub enum Reply {
    /// To a lookup: no node has the call.
    Miss,
    /// To a lookup: the entry that a node has of the call.
    Hit(HitValue),
    /// To a query: the database's answer.
    Found(Found),
    /// To an insertion: it was made, or the entry was dropped.
    Inserted,
}
