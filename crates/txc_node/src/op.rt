//! Requests to a node.
ghost use Rattle.std.specs.Prelude.{◌≡◌, ◌≤◌, IfSome};
ghost use Rattle.txc_node.specs.Steps.{function_of};

use crate::entry::Entry;
use txc_stamp::Stamp;
use txc_tags::{Key, LAST_FUNCTION, TagSet};

/// A step of the cache.
#[derive(Debug, Drop)]
pub enum Op {
    /// Inserts an entry, as the caller made it.
    Insert(Entry),
    /// Looks a call up at the stamps from `lo` to `hi`, both included.
    Lookup { key: Key, lo: Stamp, hi: Stamp },
    /// Takes the event of that stamp.
    Event { stamp: Stamp, tags: TagSet },
    /// Drops the entries whose span ends at the horizon or before it.
    Sweep { horizon: Stamp },
    /// Keeps the longest prefix of the entries whose values have at most `most` bytes in all.
    Trim { most: usize },
}

impl Op {
    /// Returns the function whose call it looks up or inserts, and `None` for an event, a sweep and a trim.
    pub fn function(&self) -> Option<u8>
        ensures answer { result ≡ function_of self.now }
        ensures bound { IfSome result (λ f. f ≤ LAST_FUNCTION) }
    {
        match self {
            Op::Insert(entry) => Some(entry.key.function()),
            Op::Lookup { key, .. } => Some(key.function()),
            Op::Event { .. } => None,
            Op::Sweep { .. } => None,
            Op::Trim { .. } => None,
        }
    }
}
