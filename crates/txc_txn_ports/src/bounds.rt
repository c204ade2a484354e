ghost use Rattle.std.specs.Prelude.{◌≡◌};

use txc_stamp::Stamp;

/// Limits of a read-only transaction's snapshot: the time of its pin is no more than `staleness` before `now`,
/// both in milliseconds, and its stamp is at least `at_least`.
#[derive(Clone, Copy, Debug, PartialEq, Eq)]
pub struct Bounds {
    pub now: u64,
    pub staleness: u64,
    pub at_least: Stamp,
}

impl Bounds {
    /// Limits the age of the snapshot to `staleness` at the wall-clock time `now`, both in milliseconds.
    pub fn fresh(now: u64, staleness: u64) -> Bounds
        ensures { result ≡ record { now = now; staleness = staleness; at_least = 0 } }
    {
        Bounds::fresh_since(now, staleness, Stamp::ZERO)
    }

    /// Limits its age in the same way, and its stamp to at least `at_least`.
    pub fn fresh_since(now: u64, staleness: u64, at_least: Stamp) -> Bounds
        ensures { result ≡ record { now = now; staleness = staleness; at_least = at_least } }
    {
        Bounds {
            now,
            staleness,
            at_least,
        }
    }
}
