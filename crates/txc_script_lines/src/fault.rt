//! Faults that only lines of a world's and of a batch's script can have.
use std::fmt;

/// Fault of the words of a line, in addition to those of any script.
#[derive(Clone, Copy, Debug)]
pub enum OwnFault {
    /// The line ends before the word that determines the kinds of the others: the form of such a line.
    Usage(&'static str),
    /// Too few words are after the command.
    Few {
        /// The least number that it needs.
        least: usize,
        /// The number in the line.
        given: usize,
    },
    /// The line is at a wrong place: where such a line belongs.
    Misplaced(&'static str),
}

impl fmt::Display for OwnFault {
    fn fmt<W: fmt::Write>(&self, f: &mut fmt::Formatter<W>) -> fmt::Result {
        match self {
            OwnFault::Usage(form) => write!(f, "expected `{form}`"),
            OwnFault::Few { least, given } => {
                write!(
                    f,
                    "at least {least} words must follow the command, not {given}"
                )
            }
            OwnFault::Misplaced(place) => f.write_str(place),
        }
    }
}
