ghost use Rattle.std.specs.Prelude.{◌≡◌};
ghost use Rattle.txc_shared.specs.Nodes.{insertion_of};

use txc_node::Inserted;
use txc_stamp::Reach;

/// Result of an insertion.
#[derive(Clone, Copy, Debug, PartialEq, Eq)]
pub enum Insertion {
    /// The entry is stored. This is its reach after the replay of the events that it missed, known up to the
    /// last stamp of its span.
    Stored(Reach),
    /// The node has an entry of the same call and first stamp that ends no earlier, and keeps it.
    Kept,
}

impl Insertion {
    /// Returns the result without the entries.
    pub(crate) fn of(inserted: &Inserted) -> Insertion
        ensures { result ≡ insertion_of inserted.now }
    {
        match inserted {
            Inserted::Stored { reach, .. } => Insertion::Stored(*reach),
            Inserted::Kept(_) => Insertion::Kept,
        }
    }
}
