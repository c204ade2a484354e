//! Modes of a run.

/// The mode of a script of one node: the lines that it has, and the output of a run.
#[derive(Clone, Copy, Debug, PartialEq, Eq)]
pub enum Mode {
    /// The steps of one node: `insert`, `lookup`, `event` and `sweep`. Each reply is written.
    Node,
    /// The same lines. Counts of the replies are written at the end, instead of the replies.
    Report,
}
