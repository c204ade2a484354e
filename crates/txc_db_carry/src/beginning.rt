//! Making empty databases.
ghost use Rattle.std.specs.Prelude.{◌≡◌, ◌≤◌, [], false, IfErr, IfOk, IfSome};
ghost use Rattle.txc_db.specs.Refusals.{IsWant};
ghost use Rattle.txc_rows.specs.declared.store_error.TheConstants.{MAX_MATCHING};
ghost use Rattle.txc_db_carry.specs.Rooms.{IsHistoryFor};

use std::alloc::Global;
use txc_db::{DbCore, DbError};
use txc_stream::{AppendToken, MAX_CAPACITY};

/// Makes an empty database with an event log for `room` events, or, if that is `None`, with a ghost history of
/// up to 4,294,967,294 events. Fails only if memory cannot be allocated or SQLite fails.
pub fn new_database(alloc: Global, room: Option<usize>) -> Result<DbCore, DbError>
    requires { IfSome room (λ room. (1 ≤ room) × (room ≤ MAX_CAPACITY)) }
    ensures history { IfOk result (λ d. d.history ≡ []) }
    ensures room { IfOk result (λ d. IsHistoryFor room d.events) }
    ensures kept { IfOk result (λ d. (d.versions ≡ []) × (d.horizon ≡ 0)) }
    ensures limit { IfOk result (λ d. d.most ≡ MAX_MATCHING) }
    ensures holds { IfOk result (λ d. (d.holds ≡ []) × (d.broken ≡ false)) }
    ensures refused { IfErr result IsWant }
{
    match room {
        Some(room) => DbCore::new(alloc, room),
        None => DbCore::unstored(alloc, AppendToken::new()),
    }
}
