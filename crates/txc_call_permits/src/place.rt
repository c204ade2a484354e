ghost use Rattle.std.specs.Prelude.{◌≡◌, false};

use crate::word::{SeatOneMore, Word};
use atomic_table::Seat;

/// A seat at a pool's word. It may be dropped only without a permit, so that none is lost.
pub(crate) struct Place {
    pub(crate) seat: Seat<(), bool>,
}

impl Place {
    /// Makes another place at the same word.
    pub(crate) fn split(&mut self, word: &Word) -> Place
        requires table { (self.old.seat.table_id ≡ word.now.shared.table_id)
            × (word.now.shared.table_id.words ≡ 1) }
        requires free { self.old.seat.me.0 ≡ false }
        ensures unchanged { (self.new.seat.table_id ≡ self.old.seat.table_id) × (self.new.seat.me.0 ≡ false) }
        ensures answer { (result.seat.table_id ≡ self.old.seat.table_id) × (result.seat.me.0 ≡ false) }
    {
        let seat = word.shared.split_seat::<SeatOneMore>(&mut self.seat);
        Place { seat }
    }
}

impl Drop for Place {
    fn drop(self)
        requires { self.seat.me.0 ≡ false }
    {
        let Place { seat: _ } = self;
    }
}
