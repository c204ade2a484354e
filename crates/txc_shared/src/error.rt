ghost use Rattle.std.specs.Fmt.{WritesOnOk};
ghost use Rattle.txc_shared.specs.Codes.{node_code};

use crate::log::MAX_PASSES;
use std::alloc::{AllocError, AllocFailed};
use std::fmt;
use thiserror::Error;

/// Errors of a node. After an error the node is as it was, except that a call that finds it `Broken` leaves it
/// broken.
#[derive(Clone, Copy, Debug, PartialEq, Eq, Error)]
pub enum NodeError {
    /// Another record is in the node's log after its own. Every later call fails so.
    #[error("the node is broken: its log has another record")]
    Broken,
    /// The stamps of a lookup end before they begin.
    #[error("the range of stamps ends before it begins")]
    EmptyRange,
    /// The history has as many records as its log has cells.
    #[error("the node's history has no room for another record")]
    HistoryFull,
    /// There are [`crate::MAX_PASSES`] passes.
    #[error("the node has {MAX_PASSES} passes, and no more can be made")]
    PassesFull,
    /// Memory cannot be allocated.
    #[error("out of memory")]
    Memory,
}

impl NodeError {
    /// Writes its code.
    pub fn write_code<W: fmt::Write>(&self, f: &mut fmt::Formatter<W>) -> fmt::Result
        ensures { WritesOnOk W.write_str_gives f.old result (node_code self.now) f.new }
    {
        match self {
            NodeError::HistoryFull => write!(f, "H1"),
            NodeError::Broken => write!(f, "H2"),
            NodeError::PassesFull => write!(f, "H3"),
            NodeError::EmptyRange => write!(f, "N1"),
            NodeError::Memory => write!(f, "memory"),
        }
    }
}

impl From<AllocError> for NodeError {
    ghost use Rattle.std.specs.Prelude.{◌≡◌};
    ghost use Rattle.txc_shared.specs.declared.error.NodeError.TheVariants.{Memory};

    ghost from_gives = { λ _ it. it ≡ Memory };

    fn from(_: AllocError) -> NodeError {
        NodeError::Memory
    }
}

impl<T: Drop> From<AllocFailed<T>> for NodeError {
    ghost use Rattle.std.specs.Prelude.{◌≡◌};
    ghost use Rattle.txc_shared.specs.declared.error.NodeError.TheVariants.{Memory};

    ghost from_gives = { λ _ it. it ≡ Memory };

    fn from(_: AllocFailed<T>) -> NodeError {
        NodeError::Memory
    }
}
