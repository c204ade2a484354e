ghost use Rattle.std.specs.Prelude.{◌≡◌};

use crate::limits::MAX_USERS;
use crate::pin::Pin;
use txc_stamp::Stamp;

/// A pin, and the number of transactions that may use it.
#[derive(Clone, Copy, Debug, PartialEq, Eq)]
pub struct PinEntry {
    pub pin: Pin,
    pub users: u16,
}

impl PinEntry {
    ghost use Rattle.txc_cushion.specs.Entries.{may_be_handed_out, is_retirable};

    /// Returns `true` if it is fresh enough, its stamp is at least `at_least`, and it may have one more user.
    pub(crate) fn may_be_handed_out(self, now: u64, staleness: u64, at_least: Stamp) -> bool
        ensures { result ≡ may_be_handed_out now staleness at_least self }
    {
        !self.pin.is_older(staleness, now) && at_least <= self.pin.stamp && self.users < MAX_USERS
    }

    /// Returns `true` if it has no user and is older than `age`.
    pub(crate) fn is_retirable(self, now: u64, age: u64) -> bool
        ensures { result ≡ is_retirable now age self }
    {
        self.users == 0 && self.pin.is_older(age, now)
    }
}
