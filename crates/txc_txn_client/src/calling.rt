//! A call of a transaction, run to its end at the locked ports.
ghost use Rattle.std.specs.Prelude.{◌≡◌, ◌≢◌, [], Err, IsNone, Some, length};
ghost use mathlib.Core.List.{IsPrefix};
ghost use Rattle.txc_call_registry.specs.Objects.{activity_of, numbers_of};
ghost use Rattle.txc_call.specs.declared.error.CallError.TheVariants.{NoFunction};
ghost use Rattle.txc_txn.specs.TxnCore.{recorded_after, IsIdle, KeepsSettings};
ghost use Rattle.txc_txn_client.specs.Ports.{HaveGrown};
ghost use Rattle.txc_txn_client.specs.Run.{HasRun};

use crate::ports::Ports;
use std::alloc::Global;
use std::sync::Wait;
use txc_app::App;
use txc_call_registry::Cacheable;
use txc_db::Naming;
use txc_node::Value;
use txc_tags::Key;
use txc_txn::RunningTxn;
use txc_txn_ports::{Turn, TxnError};

// Makes a call of the transaction. Each of its requests is one locked call, until the call has a value or
// fails.
pub(crate) fn call_at<A: App, C: Cacheable, J: Naming>(
    rt: &impl Wait,
    alloc: Global,
    ports: &mut Ports<'_, A, J>,
    txn: &mut RunningTxn<A, C>,
    key: Key,
) -> Result<Value, TxnError>
    requires idle { IsIdle txn.old.core }
    requires events { txn.old.core.seen.events ≡ J.database_history }
    requires nodes { txn.old.core.nodes ≡ length ports.old }
    ensures passes { HaveGrown ports.old ports.new }
    ensures idle { IsIdle txn.new.core }
    ensures recorded { txn.new.core.recorded ≡ recorded_after txn.old.core.recorded (Turn.Ended result) (Some key) }
    ensures settings { KeepsSettings txn.old.core txn.new.core }
    ensures events { txn.new.core.seen.events ≡ J.database_history }
    ensures longer { IsPrefix txn.old.core.seen.history txn.new.core.seen.history }
    ensures functions { numbers_of txn.new.objects ≡ numbers_of txn.old.objects }
    ensures run { HasRun A.next J.database_history J.node_histories
        (record { txn = txn.old; passes = ports.old }) key
        (record { txn = txn.new; passes = ports.new }) result }
    ensures missing { txn.old.core.pins.members ≢ [] → IsNone (activity_of txn.old.objects key.function)
        → result ≡ Err (TxnError.Call (NoFunction key.function)) }
{
    let mut turn = txn.start(alloc, key);
    loop {
        match turn {
            Turn::Ask(request) => {
                txn.is_kept();
                let reply = ports.ask(rt, alloc, txn.core().seen(), request);
                turn = txn.next(alloc, reply);
                txn.is_kept();
            }
            Turn::Ended(result) => return result,
        }
    }
}
