//! Errors of steps.
ghost use Rattle.std.specs.Prelude.{◌≡◌};
ghost use Rattle.txc_node.specs.Steps.{refusal_by};

use crate::entry::EntryError;
use std::fmt;
use txc_stamp::Stamp;

/// Error of a step. It is printed as its code and, if it has one, its number.
#[derive(Clone, Copy, Debug, PartialEq, Eq)]
pub enum Refusal {
    /// The stamps of a lookup end before they begin.
    EmptyRange,
    /// The last known stamp of an entry is below its first.
    BadReach,
    /// An event does not directly follow the processed stamp.
    OutOfOrder(Stamp),
    /// A value has more bytes than it may.
    ValueTooLong,
    /// An insertion cannot allocate memory to store its entry.
    Memory,
}

impl Refusal {
    /// Returns the error of a step for an entry that cannot be made.
    pub fn of_entry(error: EntryError) -> Refusal
        ensures { result ≡ refusal_by error }
    {
        match error {
            EntryError::BadReach => Refusal::BadReach,
            EntryError::ValueTooLong => Refusal::ValueTooLong,
        }
    }
}

impl fmt::Display for Refusal {
    ghost use Rattle.std.specs.Prelude.{Some};
    ghost use Rattle.txc_node.specs.Texts.{refusal_text};

    ghost output = { λ r. Some (refusal_text r) };

    fn fmt<W: fmt::Write>(&self, f: &mut fmt::Formatter<W>) -> fmt::Result {
        match self {
            Refusal::EmptyRange => write!(f, "N1"),
            Refusal::BadReach => write!(f, "N2"),
            Refusal::OutOfOrder(processed) => write!(f, "N3 {processed}"),
            Refusal::ValueTooLong => write!(f, "N4"),
            Refusal::Memory => write!(f, "memory"),
        }
    }
}
