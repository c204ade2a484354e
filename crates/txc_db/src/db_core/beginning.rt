//! A new history over the rows of an old one.
ghost use Rattle.std.specs.Prelude.{◌≡◌, [], true, Err, OnOk, OnErr, IfErr};
ghost use Rattle.txc_stream.specs.Names.{unstored};
ghost use Rattle.txc_db.specs.DatabaseValue.{begun_anew, newest_state};
ghost use Rattle.txc_db.specs.Calls.{IsBeginRefused};

use crate::db_core::DbCore;
use crate::error::DbError;
use crate::event::Event;
use crate::history::History;
use std::alloc::Global;
use txc_rows::{net_changes_are_differences, states_are_maps};
use txc_stamp::Stamp;
use txc_stream::{AppendToken, GhostRecord, GhostRecords};

/// The event that makes the newest state of a database.
pub(crate) struct AsState;

impl GhostRecords<DbCore, Event> for AsState {
    ghost use Rattle.txc_db.specs.DatabaseValue.{newest_state};
    ghost use Rattle.txc_db.specs.History.{state_event};

    ghost record_of = { λ d. state_event (newest_state d) };
}

impl DbCore {
    /// Ends the history and its holds, and begins one to which `pen` appends, with the newest state as its
    /// single event. The rows stay where they are: it does the work of a vacuum up to the newest stamp, and
    /// none for each row.
    ///
    /// The new history can be read from that event on. Fails if the store has used half of its stamps or of its
    /// places.
    pub fn begin_anew(&mut self, alloc: Global, pen: AppendToken<Event>) -> Result<(), DbError>
        requires { pen.list ≡ [] }
        ensures after { OnOk result (self.new ≡ begun_anew self.old (unstored pen.number)) }
        ensures state { OnOk result (newest_state self.new ≡ newest_state self.old) }
        ensures unchanged { OnErr result (self.new ≡ self.old) }
        ensures refused { IfErr result (IsBeginRefused self.old) }
        ensures broken { self.old.broken ≡ true → result ≡ Err DbError.Broken }
    {
        states_are_maps();
        net_changes_are_differences();
        if self.broken {
            return Err(DbError::Broken);
        }
        let newest = self.told.newest();
        let draft = GhostRecord::of::<DbCore, AsState>(self);
        self.store.begin_at(newest)?;
        self.told = History::begun(alloc, pen, draft);
        self.horizon = Stamp::after(1);
        self.holds.clear();
        Ok(())
    }
}
