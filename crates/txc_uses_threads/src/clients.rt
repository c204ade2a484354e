//! Clients, and read-write transactions, with the program's functions.
ghost use Rattle.std.specs.Prelude.{◌≡◌, ◌≤◌, length, IfOk};
ghost use Rattle.txcache_functions.specs.AnyFunction.{ALL_NUMBERS};
ghost use Rattle.txc_call_registry.specs.Objects.{numbers_of, AllIdle};

use anyhow::{Result, bail};
use std::alloc::Global;
use std::sync::Wait;
use txc_call_permits::PermitPool;
use txc_call_registry::Registry;
use txc_cushion::Pincushion;
use txc_db::{Database, Naming};
use txc_rows::Query;
use txc_shared::SharedNode;
use txc_stamp::Stamp;
use txc_tags::{Key, Table};
use txc_txn::Session;
use txc_txn_client::Client;
use txc_txn_ports::Bounds;
use txc_txn_rw::RwTxn;
use txcache_functions::{Object, Program, registry};

/// Bounds that a pin of the last half second meets.
pub const BOUNDS: Bounds = Bounds {
    now: 1000,
    staleness: 500,
    at_least: Stamp::ZERO,
};

/// Returns the program's functions.
fn functions(alloc: Global) -> Result<Registry<Program, Object>>
    ensures idle { IfOk result AllIdle }
    ensures numbers { IfOk result (λ registry. numbers_of registry ≡ ALL_NUMBERS) }
{
    let mut pool = PermitPool::new(alloc, 4)?;
    Ok(registry(alloc, &mut pool)?)
}

/// Makes a client with the program's functions.
pub fn client<'a, J: Naming>(
    rt: &impl Wait,
    alloc: Global,
    database: &'a Database<J>,
    cushion: &'a Pincushion<J>,
    nodes: &'a [SharedNode<Program, J>],
) -> Result<Client<'a, Program, Object, J>>
    requires { 1 ≤ length nodes.now }
    ensures { IfOk result (λ client. numbers_of client.objects ≡ ALL_NUMBERS) }
{
    let functions = functions(alloc)?;
    let client = Client::new(rt, alloc, database, cushion, nodes, functions, 5000)?;
    Ok(client)
}

/// Runs a transaction of a client in a session.
fn page<'a, J: Naming>(
    rt: &impl Wait,
    alloc: Global,
    client: Client<'a, Program, Object, J>,
) -> Result<Client<'a, Program, Object, J>> {
    let key = Key::read(b"f0(7)")?;
    let mut session = Session::new();
    let Ok(mut txn) = client.begin_in(rt, alloc, &session, 1000, 500) else {
        bail!("out of memory");
    };
    let is_read = txn.call(rt, alloc, key).is_ok() && txn.answers().is_empty();
    let is_new = txn.has_present() && txn.members().is_empty() && txn.seen().is_empty();
    let (receipt, client) = txn.commit(rt);
    session.note_receipt(&receipt);
    if is_read || is_new {
        bail!("nothing was answered");
    }
    Ok(client)
}

/// Runs a transaction with kept pins, and returns these.
fn page_keeping<'a, J: Naming>(
    rt: &impl Wait,
    alloc: Global,
    client: Client<'a, Program, Object, J>,
) -> Client<'a, Program, Object, J> {
    let kept = client.lease(100);
    let (begun, kept) = client.begin_leased(rt, alloc, BOUNDS, kept);
    let client = match begun {
        Ok(txn) => txn.abort(rt),
        Err((_, client)) => client,
    };
    let _ = kept.give_back(rt);
    client
}

/// Runs a transaction of a client in a session, one with kept pins, and one that is aborted.
pub fn pages<J: Naming>(
    rt: &impl Wait,
    alloc: Global,
    client: Client<'_, Program, Object, J>,
) -> Result<usize> {
    let client = page_keeping(rt, alloc, page(rt, alloc, client)?);
    let mut client = match client.begin_ro(rt, alloc, BOUNDS) {
        Ok(txn) => txn.abort(rt),
        Err((_, client)) => client,
    };
    let is_counted = client.counts(0).is_some() || client.node_counts(rt, 0).is_some();
    Ok(client.node_count().max(usize::from(is_counted)))
}

/// Runs a read-write transaction.
pub fn update<J: Naming>(rt: &impl Wait, alloc: Global, database: &Database<J>) -> Result<usize> {
    let functions = functions(alloc)?;
    let key = Key::read(b"f0(7)")?;
    let Ok(mut txn) = RwTxn::begin(rt, alloc, database, functions) else {
        bail!("refused");
    };
    txn.is_right();
    let called = txn.call(rt, alloc, key).is_ok();
    let query = Query::All(Table::new(1).unwrap());
    let found = txn.query(rt, alloc, query).is_ok() && txn.base() == Stamp::ZERO;
    let count = txn.answers().len().max(usize::from(called && found));
    match txn.commit(rt, alloc) {
        Ok((committed, _)) => Ok(committed.answers.len().max(count)),
        Err((txn, error)) => {
            let _functions = txn.abort(rt);
            Err(error.into())
        }
    }
}
