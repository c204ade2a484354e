ghost use Rattle.std.specs.Prelude.{◌≡◌, ◌≤◌, All, Some, length};
ghost use Rattle.txc_db.specs.History.{moment_at};
ghost use Rattle.txc_cushion.specs.Pin.{PinsDescend};
ghost use Rattle.txc_cushion.specs.declared.limits.TheConstants.{MAX_HANDED_OUT};

use crate::pin::Pin;
use txc_db::HistoryFront;

/// The pins issued to a transaction, the newest first, and a front of the history that shows each of them.
#[derive(Drop)]
pub struct Pins {
    pub pins: Vec<Pin>,
    pub front: HistoryFront,
    pub ghost shows: { All (λ p. moment_at front.history p.stamp ≡ Some p.moment) pins.items },
    pub ghost falls: { PinsDescend pins.items },
    pub ghost few: { length pins.items ≤ MAX_HANDED_OUT },
}
