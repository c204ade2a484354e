//! A job's transaction.
ghost use Rattle.std.specs.Prelude.{◌≡◌, [], IfErr, OnOk};
ghost use Rattle.txc_call_registry.specs.Objects.{numbers_of};
ghost use Rattle.txc_work.specs.Batches.{keys_of, IsRefusedAt, Meets};

use crate::gate::Gate;
use crate::job::{Job, Outcome, Receipted};
use std::alloc::Global;
use std::sync::Wait;
use txc_app::App;
use txc_call_registry::Cacheable;
use txc_db::Naming;
use txc_tags::Key;
use txc_txn_client::{Client, RoTxn};
use txc_txn_ports::TxnError;

/// Runs the job between the two calls of the gate.
pub(crate) fn run_job<'a, A: App, C: Cacheable, J: Naming, G: Gate>(
    rt: &impl Wait,
    alloc: Global,
    client: Client<'a, A, C, J>,
    gate: &G,
    job: Job,
) -> (Receipted, Client<'a, A, C, J>)
    ensures number { result.0.number ≡ job.number }
    ensures met { Meets A.next J.database_history J.node_histories (numbers_of client.entry.objects)
        job result.0.outcome }
    ensures functions { result.1.objects ≡ client.entry.objects }
{
    gate.before(&job);
    let (outcome, client) = transact(rt, alloc, client, &job);
    gate.after(&job);
    let told = Receipted {
        number: job.number,
        outcome,
    };
    (told, client)
}

// Makes the job's transaction.
fn transact<'a, A: App, C: Cacheable, J: Naming>(
    rt: &impl Wait,
    alloc: Global,
    client: Client<'a, A, C, J>,
    job: &Job,
) -> (Outcome, Client<'a, A, C, J>)
    ensures met { Meets A.next J.database_history J.node_histories (numbers_of client.entry.objects) job.now result.0 }
    ensures functions { result.1.objects ≡ client.entry.objects }
{
    let mut txn = match client.begin_ro(rt, alloc, job.bounds) {
        Ok(txn) => txn,
        Err((_, client)) => return (Outcome::Refused(TxnError::Memory), client),
    };
    match call_each(rt, alloc, &mut txn, &job.keys) {
        Ok(()) => {
            let (receipt, client) = txn.commit(rt);
            (Outcome::Receipt(receipt), client)
        }
        Err(error) => (Outcome::Refused(error), txn.abort(rt)),
    }
}

// Makes the calls in order, up to the first that fails.
fn call_each<A: App, C: Cacheable, J: Naming>(
    rt: &impl Wait,
    alloc: Global,
    txn: &mut RoTxn<'_, A, C, J>,
    keys: &[Key],
) -> Result<(), TxnError>
    requires { txn.old.txn.core.recorded ≡ [] }
    ensures bounds { txn.new.txn.core.bounds ≡ txn.old.txn.core.bounds }
    ensures functions { txn.new.txn.objects ≡ txn.old.txn.objects }
    ensures answered { OnOk result (keys_of txn.new.txn.core.recorded ≡ keys.now) }
    ensures refused { IfErr result (IsRefusedAt A.next J.database_history J.node_histories
        (numbers_of txn.old.txn.objects) txn.old.txn.core.bounds keys.now) }
{
    for key in keys {
        txn.is_kept();
        txn.call(rt, alloc, key.copy())?;
    }
    Ok(())
}
