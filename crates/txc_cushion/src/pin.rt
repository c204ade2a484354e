ghost use Rattle.std.specs.Prelude.{◌≡◌};
ghost use Rattle.txc_cushion.specs.Pin.{pin_of};

use txc_db::Pinned;
use txc_stamp::Stamp;

/// A pinned stamp of a history, and the wall-clock time of its pin in milliseconds.
#[derive(Clone, Copy, Debug, PartialEq, Eq)]
pub struct Pin {
    pub stamp: Stamp,
    pub moment: u64,
}

/// Returns the stamp and the time of a pin of the database.
pub fn pin_of(pinned: &Pinned) -> Pin
    ensures { result ≡ pin_of pinned.now }
{
    Pin {
        stamp: pinned.stamp,
        moment: pinned.moment,
    }
}

impl Pin {
    ghost use Rattle.txc_cushion.specs.Pin.{is_older};

    /// Returns `true` if its time is more than `age` before `now`, all in milliseconds. The sum may exceed 64
    /// bits.
    pub fn is_older(self, age: u64, now: u64) -> bool
        ensures { result ≡ is_older age now self }
    {
        u128::from(self.moment) + u128::from(age) < u128::from(now)
    }
}
