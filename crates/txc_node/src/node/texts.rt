//! Texts of the results of insertions.

use crate::entry::Entry;
use crate::node::Inserted;
use std::fmt;

// The entry that was dropped, if one was, printed after the reach of the stored one.
#[derive(Drop)]
struct Evicted<'a>(&'a Option<Entry>);

impl fmt::Display for Evicted<'_> {
    ghost use Rattle.std.specs.Prelude.{Some};
    ghost use Rattle.txc_node.specs.Texts.{evicted_text};

    ghost output = { λ e. Some (evicted_text e.0.now) };

    fn fmt<W: fmt::Write>(&self, f: &mut fmt::Formatter<W>) -> fmt::Result {
        match self.0 {
            None => Ok(()),
            Some(entry) => {
                let key = &entry.key;
                let lo = entry.reach.lo();
                write!(f, " evicted {key}@{lo}")
            }
        }
    }
}

impl fmt::Display for Inserted {
    ghost use Rattle.std.specs.Prelude.{Some};
    ghost use Rattle.txc_node.specs.Texts.{inserted_text};

    ghost output = { λ i. Some (inserted_text i) };

    fn fmt<W: fmt::Write>(&self, f: &mut fmt::Formatter<W>) -> fmt::Result {
        match self {
            Inserted::Stored { reach, evicted } => {
                let evicted = Evicted(evicted);
                write!(f, "stored {reach}{evicted}")
            }
            Inserted::Kept(_) => write!(f, "kept"),
        }
    }
}
