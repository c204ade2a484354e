//! Histories for new nodes.
ghost use Rattle.std.specs.Prelude.{◌≡◌, ◌≤◌, All, IfOk, IfSome, vec_len};
ghost use Rattle.txc_stream.specs.declared.row.TheConstants.{MAX_CAPACITY as MAX_ROOM};
ghost use Rattle.txc_db_carry.specs.Rooms.{IsHistoryFor};
ghost use Rattle.txc_site_ledger.specs.Histories.{IsNew, history_name};

use std::alloc::{AllocError, Global};
use txc_site_ledger::NodeHistory;
use txc_stream::{AppendToken, EventRow};

/// Makes a history without records, which is stored if `room` is a number of records.
fn new_history(alloc: Global, room: Option<usize>) -> Result<NodeHistory, AllocError>
    requires { IfSome room (λ room. (1 ≤ room) × (room ≤ MAX_ROOM)) }
    ensures new { IfOk result IsNew }
    ensures stored_so { IfOk result (λ history. IsHistoryFor room (history_name history)) }
{
    match room {
        Some(room) => Ok(NodeHistory::Stored(EventRow::new(alloc, room)?)),
        None => Ok(NodeHistory::Unstored(AppendToken::new())),
    }
}

/// Makes a history for each of `nodes` nodes.
pub(crate) fn new_histories(
    alloc: Global,
    nodes: usize,
    room: Option<usize>,
) -> Result<Vec<NodeHistory>, AllocError>
    requires { IfSome room (λ room. (1 ≤ room) × (room ≤ MAX_ROOM)) }
    ensures each { IfOk result (λ histories. vec_len histories ≡ nodes) }
    ensures new { IfOk result (λ histories. All IsNew histories.items) }
    ensures stored_so { IfOk result (λ histories.
        All (λ history. IsHistoryFor room (history_name history)) histories.items) }
{
    let mut histories = Vec::with_capacity(alloc, nodes)?;
    for _ in 0..nodes {
        histories.push(new_history(alloc, room)?)?;
    }
    Ok(histories)
}
