ghost use Rattle.std.specs.Prelude.{◌≡◌, length};

use crate::history_front::HistoryFront;
use crate::naming::Naming;
use std::marker::{Model, PhantomData};
use txc_stamp::Stamp;

/// A hold of a stamp, which was the newest when it was taken: no vacuum passes the stamp while it is held.
///
/// It is linear: [`Database::release`](crate::Database::release) must consume it, and code that drops it does
/// not compile. Contracts see the history up to the stamp.
pub struct Held<J: Naming> {
    stamp: Stamp,
    front: HistoryFront,
    of: PhantomData<J>,
}

impl<J: Naming> Model for Held<J> {
    ghost use Rattle.std.specs.Prelude.{◌≡◌, length};
    ghost use Rattle.txc_db.specs.History.{History};

    ghost Value = { History };

    ghost view = { λ h. h.front.history };

    ghost invariant = { λ h. (h.front.events ≡ J.database_history) × (h.stamp ≡ length h.front.history) };
}

impl<J: Naming> Held<J> {
    pub(crate) fn new(stamp: Stamp, front: HistoryFront) -> Held<J>
        requires named { front.events ≡ J.database_history }
        requires newest { stamp ≡ length front.history }
        ensures { result ≡ front.history }
    {
        Held {
            stamp,
            front,
            of: PhantomData,
        }
    }

    /// Returns the held stamp.
    pub fn stamp(&self) -> Stamp
        ensures { result ≡ length self.now }
    {
        self.stamp
    }

    /// Returns a front of the history up to the stamp.
    pub fn front(&self) -> &HistoryFront
        ensures named { result.now.events ≡ J.database_history }
        ensures history { result.now.history ≡ self.now }
    {
        &self.front
    }

    /// Consumes the hold, and returns its stamp.
    pub(crate) fn spend(self) -> Stamp
        ensures { result ≡ length self }
    {
        let Held {
            stamp,
            front: _,
            of: _,
        } = self;
        stamp
    }
}
