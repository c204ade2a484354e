//! The held stamps, one for each hold, in ascending order.
ghost use Rattle.std.specs.Prelude.{◌≡◌, ◌<◌, ◌≤◌, true, false, length, IfSome, IfNone};
ghost use Rattle.std.specs.List.{remove, AllByRecursion};
ghost use Rattle.txc_db.specs.DatabaseValue.{least, without, is_held, StampsAscend};

use txc_stamp::Stamp;

/// The most holds at a time.
pub const MAX_HOLDS: usize = 65_536;

/// Returns the place of the first hold of the stamp.
pub(crate) fn place_of(holds: &[Stamp], stamp: Stamp) -> Option<usize>
    ensures within { IfSome result (λ at. at < length holds.now) }
    ensures held { IfSome result (λ at. is_held stamp holds.now ≡ true) }
    ensures place { IfSome result (λ at. remove holds.now at ≡ without stamp holds.now) }
    ensures none { IfNone result (is_held stamp holds.now ≡ false) }
{
    for (at, held) in holds.iter().enumerate() {
        if *held == stamp {
            return Some(at);
        }
    }
    None
}

/// Returns the least held stamp, or the newest stamp if none is held.
pub(crate) fn least_held(holds: &[Stamp], newest: Stamp) -> Stamp
    requires rising { StampsAscend holds.now }
    requires within { AllByRecursion (λ stamp. stamp ≤ newest) holds.now }
    ensures { result ≡ least newest holds.now }
{
    match holds.first() {
        Some(first) => *first,
        None => newest,
    }
}
