//! A caller's least stamp in a history.
ghost use Rattle.std.specs.Prelude.{◌≡◌, ◌++◌, ◌∷◌, [], List, max};
ghost use Rattle.txc_db.specs.FrontsAndFeeds.{FrontValue};
ghost use Rattle.txc_txn.specs.Sessions.{floor_after, noted_commit, noted_receipt, SessionEvent, IsFloorOf};

use crate::receipt::Receipt;
use std::marker::Model;
use txc_cushion::Pin;
use txc_stamp::Stamp;

/// A caller's position in the history of a database. Its floor is the greatest stamp of the receipts and of the
/// commits that the caller noted; a transaction that begins in the session reads nothing older.
///
/// A session belongs to one database: a stamp of another one means nothing in this one. Any number of clients
/// of that database may use it, one after the other.
#[derive(Debug, Drop)]
pub struct Session {
    floor: Stamp,
}

impl Model for Session {
    ghost use Rattle.std.specs.Prelude.{ℕ};

    ghost Value = { ℕ };

    ghost view = { λ s. s.floor };
}

// Returns the greater of the two.
fn later(one: Stamp, other: Stamp) -> Stamp
    ensures { result ≡ max one other }
{
    if one < other { other } else { one }
}

impl Session {
    /// Makes the session of a caller that has noted nothing.
    pub fn new() -> Session
        ensures floor { result ≡ 0 }
        ensures nothing { IsFloorOf [] result }
    {
        Session { floor: Stamp::ZERO }
    }

    /// Returns the greatest noted stamp, or the first stamp if none was noted.
    pub fn floor(&self) -> Stamp
        ensures { result ≡ self.now }
    {
        self.floor
    }

    /// Notes the pin of a read-only transaction's receipt. A receipt without a pin changes nothing.
    pub fn note_receipt(&mut self, receipt: &Receipt)
        ensures floor { self.new ≡ floor_after self.old receipt.now.pin }
        ensures noted { (deeds : List SessionEvent) → IsFloorOf deeds self.old
            → IsFloorOf (deeds ++ noted_receipt receipt.now ∷ []) self.new }
    {
        self.note_pin(receipt.pin);
    }

    /// Notes the pin of a receipt, for a caller that has only the pin.
    pub fn note_pin(&mut self, pin: Option<Pin>)
        ensures { self.new ≡ floor_after self.old pin }
    {
        if let Some(pin) = pin {
            self.note_commit(pin.stamp);
        }
    }

    /// Notes the newest stamp after a commit of a read-write transaction.
    pub fn note_commit(&mut self, stamp: Stamp)
        ensures floor { self.new ≡ max self.old stamp }
        ensures noted { (deeds : List SessionEvent) (seen : FrontValue) → IsFloorOf deeds self.old
            → IsFloorOf (deeds ++ noted_commit stamp seen ∷ []) self.new }
    {
        self.floor = later(self.floor, stamp);
    }
}
