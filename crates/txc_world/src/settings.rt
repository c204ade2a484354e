/// Settings of a world.
#[derive(Clone, Copy, Debug, PartialEq, Eq)]
pub struct WorldSettings {
    /// The number of entries that a node stores, from 1 to [`txc_node::MAX_CAPACITY`].
    pub capacity: usize,
    /// The number of nodes, at least one.
    pub nodes: usize,
    /// The number of last events whose tags a node stores, from 1 to [`txc_node::MAX_RECENT`].
    pub recent: usize,
    /// The age in milliseconds beyond which a transaction renews its newest pin.
    pub renew_after: u64,
    /// The number of records that each history has room for, from 1 to [`txc_stream::MAX_CAPACITY`].
    pub row_cap: usize,
}
