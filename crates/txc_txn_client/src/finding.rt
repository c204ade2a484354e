//! Queries of transactions at the locked database.
ghost use Rattle.std.specs.Prelude.{◌≡◌, ◌∷◌, [], IfErr, IfOk};
ghost use Rattle.txc_rows.specs.RowTags.{query_tag};
ghost use Rattle.txc_db.specs.Calls.{IsQueryRefused};
ghost use Rattle.txc_db.specs.DatabaseReply.{IsQueryAnswer, MayAnswer, MayRefuse};
ghost use Rattle.txc_txn_ports.specs.PortRequests.{IsFoundOver};

use std::alloc::Global;
use std::sync::Wait;
use txc_db::{Answered, Database, DbError, Naming};
use txc_rows::Query;
use txc_stamp::Stamp;
use txc_validity::Found;

// Returns the answer of the query at the stamp, with the history in which it holds.
#[tactic(auto, using(txc_app::proofs::Claims::found_rows_hold))]
pub(crate) fn find<J: Naming>(
    rt: &impl Wait,
    alloc: Global,
    database: &Database<J>,
    query: &Query,
    stamp: Stamp,
) -> Result<Answered<Found>, DbError>
    ensures answer { IfOk result (λ found. IsFoundOver found.front.history query.now stamp found.answer) }
    ensures database { IfOk result (MayAnswer J.database_history (λ d. IsQueryAnswer d query.now stamp)) }
    ensures tag { IfOk result (λ found. found.answer.tags ≡ query_tag query.now ∷ []) }
    ensures row { IfOk result (λ found. found.front.events ≡ J.database_history) }
    ensures refused { IfErr result (MayRefuse J.database_history (λ d. IsQueryRefused d query.now stamp)) }
{
    database.query(rt, alloc, query, stamp)
}
