use txc_stamp::Reach;

/// Result of an insertion at a node.
#[derive(Clone, Copy, Debug, PartialEq, Eq)]
pub enum Kept {
    /// The node stores the entry, over that reach.
    Stored(Reach),
    /// The node keeps the entry that it has of the same call and first stamp, which ends no earlier.
    Earlier,
}
