//! The entries of a node that ends.
ghost use Rattle.std.specs.Prelude.{◌≡◌, ◌++◌, ◌∷◌, [], length, MatchOption};

use crate::entry::Entry;
use crate::stored::join_some;
use crate::weighed::WeighedEntries;
use std::marker::Model;

/// The entries of a node that ends, the most recently used first.
#[derive(Drop)]
pub struct RemainingEntries {
    pub(crate) cache: WeighedEntries,
}

impl Model for RemainingEntries {
    ghost use Rattle.std.specs.Prelude.{List};
    ghost use Rattle.txc_node.specs.declared.entry.Entry.{Entry};
    ghost use Rattle.txc_node.specs.IndexedEntries.{entries_of};

    ghost Value = { List Entry };

    ghost view = { λ l. entries_of l.cache.entries };
}

impl RemainingEntries {
    /// Returns how many entries are left.
    pub fn len(&self) -> usize
        ensures { result ≡ length self.now }
    {
        self.cache.len()
    }

    /// Removes the least recently used entry, and returns it. Does not allocate.
    pub fn next(&mut self) -> Option<Entry>
        ensures { MatchOption result
            ((self.old ≡ []) × (self.new ≡ []))
            (λ e. self.old ≡ self.new ++ e ∷ []) }
    {
        join_some(self.cache.pop_last())
    }
}
