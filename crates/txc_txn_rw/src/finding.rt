//! Queries of a transaction at the locked database.
ghost use Rattle.std.specs.Prelude.{◌≡◌, ◌≤◌, length, IfErr, IfOk};
ghost use Rattle.txc_db.specs.Calls.{IsQueryRefused};
ghost use Rattle.txc_db.specs.DatabaseReply.{MayRefuse};
ghost use Rattle.txc_txn_rw.specs.RwCore.{IsFoundAt};

use std::alloc::Global;
use std::sync::Wait;
use txc_db::{Answered, Database, DbError, HistoryFront, Naming};
use txc_rows::Query;
use txc_stamp::Stamp;
use txc_validity::Found;

// Returns the database's answer to the query at a stamp that was seen.
#[tactic(auto, using(txc_db::proofs::Histories::states_stay))]
pub(crate) fn find<J: Naming>(
    rt: &impl Wait,
    alloc: Global,
    database: &Database<J>,
    seen: &HistoryFront,
    query: &Query,
    stamp: Stamp,
) -> Result<Found, DbError>
    requires named { seen.now.events ≡ J.database_history }
    requires shown { stamp ≤ length seen.now.history }
    ensures answer { IfOk result (IsFoundAt seen.now.history stamp query.now) }
    ensures refused { IfErr result (MayRefuse J.database_history (λ d. IsQueryRefused d query.now stamp)) }
{
    let Answered { answer, front } = database.query(rt, alloc, query, stamp)?;
    seen.agree(&front);
    Ok(answer)
}
