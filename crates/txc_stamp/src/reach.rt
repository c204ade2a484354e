ghost use Rattle.std.specs.Prelude.{◌≡◌, ◌+◌, ◌-◌, ◌<◌, ◌≤◌, ◌↔◌, IfOk, OnOk, IfErr, IsTrue};
ghost use Rattle.txc_stamp.specs.Interval.{end_at, span_of, shown, closed_at, Holds, meet_of};
ghost use Rattle.txc_stamp.specs.Refusals.{IsReachRefusal};
ghost use Rattle.txc_stamp.specs.declared.stamp.TheConstants.{LAST_STAMP, MOST_STAMP};

use crate::error::StampError;
use crate::span::Span;
use crate::stamp::Stamp;
use std::fmt;
use std::marker::Model;

/// Validity interval of a result: it is known to hold at every stamp from `lo` to `known`, both included. If it
/// is *still* valid, no later processed event has changed it, and its span grows with the processed events.
#[derive(Clone, Copy, Debug, PartialEq, Eq)]
pub struct Reach {
    lo: Stamp,
    known: Stamp,
    still: bool,
}

impl Model for Reach {
    ghost use Rattle.std.specs.Prelude.{◌≤◌};
    ghost use Rattle.txc_stamp.specs.Interval.{Interval};

    ghost Value = { Interval };

    ghost view = { λ r. record { lo = r.lo; known = r.known; still = r.still } };

    ghost invariant = { λ r. r.lo ≤ r.known };

    ghost inverse = { λ i. record { lo = i.lo; known = i.known; still = i.still } };
}

impl Reach {
    /// Makes the reach from the stamp `lo` to the stamp `known`, given as numbers. Fails if one is beyond
    /// [`crate::LAST_STAMP`], or if `known` is below `lo`.
    pub fn new(lo: u32, known: u32, still: bool) -> Result<Reach, StampError>
        ensures answer { IfOk result (λ r. r ≡ record { lo = lo; known = known; still = still }) }
        ensures only_if { OnOk result ((lo ≤ known) × (known ≤ LAST_STAMP)) }
        ensures refused { IfErr result (IsReachRefusal lo known) }
    {
        Reach::from_stamps(Stamp::new(lo)?, Stamp::new(known)?, still)
    }

    /// Makes the reach from `lo` to `known`. Fails if `known` is below `lo`.
    pub fn from_stamps(lo: Stamp, known: Stamp, still: bool) -> Result<Reach, StampError>
        ensures answer { IfOk result (λ r. r ≡ record { lo = lo; known = known; still = still }) }
        ensures only_if { OnOk result (lo ≤ known) }
        ensures refused { IfErr result (λ error. (error ≡ StampError.Empty) × (known < lo)) }
    {
        if known < lo {
            return Err(StampError::Empty);
        }
        Ok(Reach { lo, known, still })
    }

    /// Returns the first stamp at which the result is known to hold.
    pub fn lo(self) -> Stamp
        ensures { result ≡ self.lo }
    {
        self.lo
    }

    /// Returns the last stamp at which the result is known to hold.
    pub fn known(self) -> Stamp
        ensures answer { result ≡ self.known }
        ensures ordered { self.lo ≤ self.known }
    {
        self.known
    }

    /// Returns `true` if the result is still valid after `known`, as far as events were processed.
    pub fn is_still(self) -> bool
        ensures { result ≡ self.still }
    {
        self.still
    }

    /// Returns `true` if the result is known to hold at the stamp.
    pub fn holds(self, stamp: Stamp) -> bool
        ensures { IsTrue result ↔ Holds self stamp }
    {
        stamp >= self.lo && stamp <= self.known
    }

    /// Returns the intersection of both reaches, or `None` if they share no stamp. It is still valid if both
    /// are.
    pub fn meet(self, other: Reach) -> Option<Reach>
        ensures { result ≡ meet_of self other }
    {
        let lo = self.lo.max(other.lo);
        let known = self.known.min(other.known);
        Reach::from_stamps(lo, known, self.still && other.still).ok()
    }

    /// Returns the stamps at which the result holds once the events up to `processed` are processed.
    pub fn span(self, processed: Stamp) -> Span
        ensures { result ≡ span_of processed self }
    {
        Span {
            lo: self.lo,
            end: self.end(processed),
        }
    }

    /// Returns the end of [`Reach::span`]: the first stamp after it.
    pub fn end(self, processed: Stamp) -> u32
        ensures answer { result ≡ end_at processed self }
        ensures bound { result ≤ MOST_STAMP + 1 }
    {
        self.shown(processed).known.number() + 1
    }

    /// Returns the reach with `known` raised to the last stamp of its span, as a lookup returns it.
    pub fn shown(self, processed: Stamp) -> Reach
        ensures { result ≡ shown processed self }
    {
        if self.still {
            return Reach {
                known: self.known.max(processed),
                ..self
            };
        }
        self
    }

    /// Returns the reach with another last known stamp, at least `lo`.
    pub fn with_known(self, known: u32) -> Reach
        requires ordered { self.lo ≤ known }
        requires bound { known ≤ MOST_STAMP }
        ensures { result ≡ record self { known = known } }
    {
        Reach {
            known: Stamp { number: known },
            ..self
        }
    }

    /// Returns the reach, no longer valid after `known`.
    pub fn closed(self) -> Reach
        ensures { result ≡ closed_at self.known self }
    {
        Reach {
            still: false,
            ..self
        }
    }

    /// Returns the reach up to the stamp before `stamp`, no longer valid from `stamp` on.
    pub fn close_before(self, stamp: Stamp) -> Reach
        requires { self.known < stamp }
        ensures { result ≡ closed_at (stamp - 1) self }
    {
        self.with_known(stamp.number() - 1).closed()
    }
}

impl fmt::Display for Reach {
    ghost use Rattle.std.specs.Prelude.{Some};
    ghost use Rattle.txc_stamp.specs.Texts.{reach_text};

    ghost output = { λ reach. Some (reach_text reach) };

    /// Writes it as `[0,3) still` or `[0,3) closed`: the first known stamp, and the one after the last.
    fn fmt<W: fmt::Write>(&self, f: &mut fmt::Formatter<W>) -> fmt::Result {
        let lo = self.lo();
        let end = self.known().number() + 1;
        if self.is_still() {
            write!(f, "[{lo},{end}) still")
        } else {
            write!(f, "[{lo},{end}) closed")
        }
    }
}
