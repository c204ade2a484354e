ghost use Rattle.std.specs.Prelude.{◌≡◌, Some};
ghost use Rattle.txc_db.specs.History.{moment_at};

use crate::history_front::HistoryFront;
use txc_stamp::Stamp;

/// A pin of the history, held at its stamp.
///
/// Its front proves it: the event of that stamp is a pin of that wall-clock time, in milliseconds.
#[derive(Drop)]
pub struct Pinned {
    pub stamp: Stamp,
    pub moment: u64,
    pub front: HistoryFront,
    pub ghost shows: { moment_at front.history stamp ≡ Some moment },
}
