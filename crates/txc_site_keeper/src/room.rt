//! Room that is left in the histories.
ghost use Rattle.std.specs.Prelude.{◌≡◌, ◌+◌, length};
ghost use Rattle.txc_db.specs.Room.{events_room};
ghost use Rattle.txc_site_keeper.specs.Room.{IsRoomLeft};

use txc_db::{HistoryFront, Naming};
use txc_shared::NodePass;

/// Returns how many events there is room for after those that the front shows.
pub fn events_left(front: &HistoryFront) -> usize
    ensures { result + length front.now.history ≡ events_room front.now.events }
{
    front.room() - front.len()
}

/// Returns how many records there is room for after those that the pass has seen, or `None` if they are not
/// stored: such a history has no end.
pub fn records_left<J: Naming>(pass: &NodePass<J>) -> Option<usize>
    ensures { IsRoomLeft (J.node_histories pass.now.settings.number) pass.now.records result }
{
    let front = pass.records();
    let row = front.row()?;
    Some(row.capacity() - front.len())
}
