//! Kinds of scripts.
use crate::mode::Mode;

/// The kind of a script.
#[derive(Clone, Copy, Debug, PartialEq, Eq)]
pub enum Script {
    /// One node, in this mode.
    Node(Mode),
    /// A world: transactions of eight actors, and the keeper's work.
    World,
    /// A batch: jobs that run side by side.
    Batch,
}
