//! Calls and queries of a transaction, run to their end at the locked database.
ghost use Rattle.std.specs.Prelude.{◌≡◌, ◌≤◌, ◌++◌, ◌∷◌, [], length, IfErr, IfOk, IsNone, IsSome, None, Err, OnErr};
ghost use Rattle.txc_db.specs.History.{state_at};
ghost use Rattle.txc_app.specs.Eval.{Next};
ghost use Rattle.txc_call_registry.specs.Objects.{activity_of, numbers_of, Objects};
ghost use Rattle.txc_call.specs.declared.error.CallError.TheVariants.{NoFunction};
ghost use Rattle.txc_call.specs.CallMachine.{started};
ghost use Rattle.txc_txn_rw.specs.RwCore.{IsRw, IsRwIdle, RwHolds};
ghost use Rattle.txc_txn_rw.specs.Transitions.{standing_of, IsQueryLeft, IsQueryRefusal, IsUncachedRun};

use crate::finding::find;
use crate::given::Given;
use crate::rw_core::RwCore;
use std::alloc::Global;
use std::sync::Wait;
use txc_app::App;
use txc_call_registry::{Cacheable, Registry};
use txc_db::{Database, HistoryFront, Naming};
use txc_node::Value;
use txc_rows::{Query, Row};
use txc_tags::Key;
use txc_txn_ports::{Turn, TxnError};

// Makes a call of the transaction: it makes each query that the call needs at the database, until the call has
// its value.
pub(crate) fn call_at<J: Naming, A: App, C: Cacheable>(
    rt: &impl Wait,
    alloc: Global,
    database: &Database<J>,
    seen: &HistoryFront,
    registry: &mut Registry<A, C>,
    core: &mut RwCore,
    key: Key,
) -> Result<Value, TxnError>
    requires named { seen.now.events ≡ J.database_history }
    requires fits { IsRw A.next registry.old core.old }
    requires idle { core.old.reading ≡ None }
    requires shown { core.old.base ≤ length seen.now.history }
    ensures fits { IsRw A.next registry.new core.new }
    ensures idle { IsRwIdle core.new }
    ensures holds { RwHolds A.next seen.now.history registry.old core.old
        → RwHolds A.next seen.now.history registry.new core.new }
    ensures after { IfOk result (λ value.
        core.new.answers ≡ core.old.answers ++ Given.Value key value ∷ []) }
    ensures unchanged { OnErr result (core.new.answers ≡ core.old.answers) }
    ensures run { IsSome (activity_of registry.old key.function)
        → IsUncachedRun A.next J.database_history (state_at seen.now.history core.old.base)
        (standing_of (started key) registry.old) core.old core.new registry.new result }
    ensures missing { IsNone (activity_of registry.old key.function)
        → result ≡ Err (TxnError.Call (NoFunction key.function)) }
    ensures missing_left { IsNone (activity_of registry.old key.function) → core.new ≡ core.old }
    ensures missing_same { IsNone (activity_of registry.old key.function) → registry.new ≡ registry.old }
    ensures functions { numbers_of registry.new ≡ numbers_of registry.old }
    ensures same { core.new ≡ record core.old {
      queried = core.new.queried;
      answers = core.new.answers;
      call = core.new.call;
      reading = None;
    } }
{
    let mut turn = core.start(alloc, registry, key);
    loop {
        match turn {
            Turn::Ask(query) => {
                let found = find(rt, alloc, database, seen, &query, core.base());
                turn = core.reply(alloc, registry, found);
                core.is_within_budget();
            }
            Turn::Ended(result) => return result,
        }
    }
}

// Makes a query of the transaction's own at the database.
pub(crate) fn query_at<J: Naming>(
    rt: &impl Wait,
    alloc: Global,
    database: &Database<J>,
    seen: &HistoryFront,
    core: &mut RwCore,
    query: Query,
) -> Result<Vec<Row>, TxnError>
    requires named { seen.now.events ≡ J.database_history }
    requires idle { IsRwIdle core.old }
    requires shown { core.old.base ≤ length seen.now.history }
    ensures holds { (next : Next) (objects : Objects) → RwHolds next seen.now.history objects core.old
        → RwHolds next seen.now.history objects core.new }
    ensures after { IfOk result (λ rows. core.new
        ≡ record core.old {
          queried = core.old.queried ++ query ∷ [];
          answers = core.old.answers ++ Given.Rows query rows.items ∷ [];
        }) }
    ensures refused { IfErr result (IsQueryRefusal J.database_history core.old.base query) }
    ensures left { IfErr result (IsQueryLeft core.old query core.new) }
{
    core.ask(alloc, &query)?;
    let found = find(rt, alloc, database, seen, &query, core.base());
    core.answer(alloc, found)
}
