ghost use Rattle.std.specs.Prelude.{◌≡◌, ◌+◌, ◌<◌, ◌≤◌, ◌↔◌, IfOk, OnOk, IfErr, IsTrue};
ghost use Rattle.txc_stamp.specs.Interval.{IsWithin};
ghost use Rattle.txc_stamp.specs.Refusals.{IsSpanRefusal};
ghost use Rattle.txc_stamp.specs.declared.stamp.TheConstants.{LAST_STAMP, MOST_STAMP};

use crate::error::StampError;
use crate::stamp::{LAST_STAMP, Stamp};
use std::fmt;
use std::marker::Model;

/// Range of stamps from a first one up to, and without, an end. It has at least one stamp.
#[derive(Clone, Copy, Debug, PartialEq, Eq)]
pub struct Span {
    pub(crate) lo: Stamp,
    pub(crate) end: u32,
}

impl Model for Span {
    ghost use Rattle.std.specs.Prelude.{◌+◌, ◌<◌, ◌≤◌};
    ghost use Rattle.txc_stamp.specs.Interval.{Bounds};
    ghost use Rattle.txc_stamp.specs.declared.stamp.TheConstants.{MOST_STAMP};

    ghost Value = { Bounds };

    ghost view = { λ s. record { lo = s.lo; end = s.end } };

    ghost invariant = { λ s. (s.lo < s.end) × (s.end ≤ MOST_STAMP + 1) };

    ghost inverse = { λ b. record { lo = b.lo; end = b.end } };
}

impl Span {
    /// Makes the span of the stamps from `lo` to `end - 1`. Fails if `lo` is beyond [`crate::LAST_STAMP`],
    /// `end` beyond the stamp after it, or `end` is at most `lo`.
    pub fn new(lo: u32, end: u32) -> Result<Span, StampError>
        ensures answer { IfOk result (λ s. s ≡ record { lo = lo; end = end }) }
        ensures only_if { OnOk result ((lo < end) × (end ≤ LAST_STAMP + 1)) }
        ensures refused { IfErr result (IsSpanRefusal lo end) }
    {
        let lo = Stamp::new(lo)?;
        if end > LAST_STAMP + 1 {
            return Err(StampError::TooLarge(end));
        }
        if end <= lo.number() {
            return Err(StampError::Empty);
        }
        Ok(Span { lo, end })
    }

    /// Returns the first stamp.
    pub fn lo(self) -> Stamp
        ensures answer { result ≡ self.lo }
        ensures below_end { self.lo < self.end }
    {
        self.lo
    }

    /// Returns the stamp after the last one. It can be one more than the greatest stamp.
    pub fn end(self) -> u32
        ensures answer { result ≡ self.end }
        ensures bound { self.end ≤ MOST_STAMP + 1 }
    {
        self.end
    }

    /// Returns `true` if the stamp is in the span.
    pub fn contains(self, stamp: Stamp) -> bool
        ensures { IsTrue result ↔ IsWithin self stamp }
    {
        stamp >= self.lo && stamp.number() < self.end
    }
}

impl fmt::Display for Span {
    ghost use Rattle.std.specs.Prelude.{Some};
    ghost use Rattle.txc_stamp.specs.Texts.{span_text};

    ghost output = { λ span. Some (span_text span) };

    /// Writes it as `[0,3)`.
    fn fmt<W: fmt::Write>(&self, f: &mut fmt::Formatter<W>) -> fmt::Result {
        let Span { lo, end } = *self;
        write!(f, "[{lo},{end})")
    }
}
