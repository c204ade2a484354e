/// Settings of a node.
#[derive(Clone, Copy, Debug, PartialEq, Eq)]
pub struct NodeSettings {
    /// Its number among the nodes.
    pub number: usize,
    /// The most entries that it stores, from 1 to [`txc_node::MOST_CAPACITY`].
    pub capacity: usize,
    /// The number of last events whose tags it stores, from 1 to [`txc_node::MAX_RECENT`].
    pub recent: usize,
}
