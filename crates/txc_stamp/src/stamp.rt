ghost use Rattle.std.specs.Prelude.{◌≡◌, ◌+◌, ◌≤◌, IfOk, OnOk, IfErr, MatchOption};
ghost use Rattle.txc_stamp.specs.Refusals.{IsStampRefusal};

use crate::error::StampError;
use std::fmt;
use std::marker::Model;

/// The greatest stamp of a stored history, and the greatest that [`Stamp::new`] makes of a number. Only a ghost
/// history, of which no records are stored, has later stamps.
pub const LAST_STAMP: u32 = 1_048_576;

/// The greatest stamp of any history.
pub const MOST_STAMP: u32 = 4_294_967_294;

/// Version number of a snapshot: the number of events before it. A contract sees the number.
#[derive(Clone, Copy, Debug, PartialEq, Eq, PartialOrd, Ord, Hash)]
pub struct Stamp {
    pub(crate) number: u32,
}

impl Model for Stamp {
    ghost use Rattle.std.specs.Prelude.{ℕ, ◌≤◌};
    ghost use Rattle.txc_stamp.specs.declared.stamp.TheConstants.{MOST_STAMP};

    ghost Value = { ℕ };

    ghost view = { λ s. s.number };

    ghost invariant = { λ s. s.number ≤ MOST_STAMP };

    ghost inverse = { λ n. record { number = n } };
}

impl Stamp {
    /// The stamp before the first event.
    pub const ZERO: Stamp = Stamp { number: 0 };

    /// Makes the stamp after `number` events. Fails if the number is beyond [`LAST_STAMP`].
    pub fn new(number: u32) -> Result<Stamp, StampError>
        ensures answer { IfOk result (λ s. s ≡ number) }
        ensures only_if { OnOk result (number ≤ LAST_STAMP) }
        ensures refused { IfErr result (IsStampRefusal number) }
    {
        if number > LAST_STAMP {
            return Err(StampError::TooLarge(number));
        }
        Ok(Stamp { number })
    }

    /// Makes the stamp after that many events, for a caller that has proved that there are at most
    /// [`MOST_STAMP`].
    pub fn after(events: usize) -> Stamp
        requires { events ≤ MOST_STAMP }
        ensures { result ≡ events }
    {
        Stamp {
            number: events as u32,
        }
    }

    /// Returns the number of events before it.
    pub fn number(self) -> u32
        ensures answer { result ≡ self }
        ensures bound { self ≤ MOST_STAMP }
    {
        self.number
    }

    /// Returns the stamp after one event more, or `None` after [`MOST_STAMP`].
    pub fn next(self) -> Option<Stamp>
        ensures { MatchOption result (self ≡ MOST_STAMP) (λ next. next ≡ self + 1) }
    {
        if self.number == MOST_STAMP {
            return None;
        }
        Some(Stamp {
            number: self.number + 1,
        })
    }
}

impl fmt::Display for Stamp {
    ghost use Rattle.std.specs.Prelude.{Some};
    ghost use Rattle.std.specs.Fmt.{decimal};

    ghost output = { λ stamp. Some (decimal stamp) };

    /// Writes its number.
    fn fmt<W: fmt::Write>(&self, f: &mut fmt::Formatter<W>) -> fmt::Result {
        let number = self.number();
        write!(f, "{number}")
    }
}
