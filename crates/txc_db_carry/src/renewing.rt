//! Rollover in place.
ghost use Rattle.std.specs.Prelude.{◌≡◌, ◌≢◌, ◌⊎◌, ◌≤◌, [], true, false, length, max, Err, None, OnOk, OnErr, IfErr, IfSome};
ghost use Rattle.txc_db.specs.DatabaseValue.{newest, newest_state, after_vacuum};
ghost use Rattle.txc_db_carry.specs.Carry.{IsCarryRefused, IsNotTooMany};
ghost use Rattle.txc_db_carry.specs.Renewal.{IsRenewed};
ghost use Rattle.txc_db_carry.specs.Rooms.{IsHistoryFor, room_for};

use crate::carrying::carry;
use crate::error::CarryError;
use std::alloc::Global;
use txc_db::{DbCore, DbError};
use txc_stream::{AppendToken, MAX_CAPACITY};

/// Begins a new history in place, if it is a ghost one. Returns `false`, and changes nothing, if it is not, or
/// that fails.
fn begins_in_place(alloc: Global, core: &mut DbCore, room: Option<usize>) -> bool
    ensures begun { result ≡ true → IsRenewed room core.old core.new }
    ensures unchanged { result ≡ false → core.new ≡ core.old }
{
    match room {
        Some(_) => false,
        None => core.begin_anew(alloc, AppendToken::new()).is_ok(),
    }
}

/// Gives the database a new history that begins with its newest state: with an event log for `room` events, or,
/// if that is `None`, a ghost one. It allows as many versions to match a query as before.
///
/// If `room` is `None`, the rows stay in their store, and the new history begins with one event that puts them
/// all: that takes a vacuum, and no work for each row. If that fails, or if there is a `room`, it puts the rows
/// as [`carry`] does.
pub fn renew(alloc: Global, core: &mut DbCore, room: Option<usize>) -> Result<(), CarryError>
    requires { IfSome room (λ room. (1 ≤ room) × (room ≤ MAX_CAPACITY)) }
    ensures state { OnOk result (newest_state core.new ≡ newest_state core.old) }
    ensures whole { OnOk result (core.new.broken ≡ false) }
    ensures holds { OnOk result (core.new.holds ≡ []) }
    ensures kept { OnOk result (core.new.horizon ≤ 1) }
    ensures limit { OnOk result (core.new.most ≡ core.old.most) }
    ensures room { OnOk result (IsHistoryFor room core.new.events) }
    ensures few { OnOk result (newest core.new ≤ max 1 (length (newest_state core.new))) }
    ensures left { OnErr result ((core.new ≡ core.old) ⊎ (core.new ≡ after_vacuum core.old)) }
    ensures refused { IfErr result (IsCarryRefused core.new (room_for room)) }
    ensures broken { core.old.broken ≡ true → result ≡ Err (CarryError.Old DbError.Broken) }
    ensures taken { room ≡ None → result ≢ Err (CarryError.New DbError.Broken) }
    ensures one { core.old.holds ≡ [] → IfErr result IsNotTooMany }
{
    if begins_in_place(alloc, core, room) {
        return Ok(());
    }
    match carry(alloc, core, room) {
        Ok(new) => {
            *core = new;
            Ok(())
        }
        Err(refusal) => Err(refusal),
    }
}
