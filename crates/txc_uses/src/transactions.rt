//! Transactions, with replies made by hand.
ghost use Rattle.std.specs.Prelude.{◌≡◌, [], IfOk};
ghost use Rattle.txc_txn.specs.TxnCore.{IsIdle};

use crate::functions::functions;
use anyhow::{Result, bail};
use std::alloc::Global;
use txc_cushion::Pins;
use txc_db::{DbCore, DbError};
use txc_pinset::{Choice, PinSet};
use txc_rows::Query;
use txc_stamp::{Reach, Stamp};
use txc_tags::{Key, Table};
use txc_txn::{RunningTxn, TxnCore};
use txc_txn_ports::{Bounds, PortReply, PortRequest, Turn};
use txc_txn_rw::RwCore;
use txcache_functions::{Object, Program};

/// Bounds that a pin of the last half second meets.
const BOUNDS: Bounds = Bounds {
    now: 1000,
    staleness: 500,
    at_least: Stamp::ZERO,
};

/// Returns no pins.
fn no_pins(alloc: Global) -> Result<Pins>
    ensures { IfOk result (λ pins. pins.pins.items ≡ []) }
{
    let front = DbCore::new(alloc, 4)?.front()?;
    let pins = Vec::new(alloc);
    Ok(Pins { pins, front })
}

/// Makes a pin set, and a reach that would empty it.
pub fn pin_set(alloc: Global) -> Result<bool> {
    let mut set = PinSet::begin(alloc, &no_pins(alloc)?)?;
    set.is_pin_set();
    let is_empty = set.bounds().is_none() && set.members().is_empty();
    let is_present = matches!(set.choose(1000, 500), Choice::Present) && set.has_present();
    let is_narrow = set.narrow(Reach::new(0, 4, true)?).is_ok();
    Ok(is_empty && is_present && !is_narrow)
}

/// Begins a transaction with its functions.
fn begun(alloc: Global) -> Result<RunningTxn<Program, Object>>
    ensures { IfOk result (λ txn. IsIdle txn.core) }
{
    let registry = functions(alloc)?;
    match TxnCore::begin(alloc, 1, 5000, BOUNDS, no_pins(alloc)?) {
        Ok(core) => Ok(RunningTxn::new(core, registry)),
        Err(_) => bail!("out of memory"),
    }
}

/// Runs a transaction to its end, and one whose call finds the database full.
pub fn running(alloc: Global) -> Result<usize> {
    let (receipt, stamps, _) = begun(alloc)?.finish();
    let mut txn = begun(alloc)?;
    txn.is_kept();
    let turn = txn.start(alloc, Key::read(b"f0(7)")?);
    if let Turn::Ask(PortRequest::Pin { .. }) = turn {
        let _turn = txn.next(alloc, PortReply::Pin(Err(DbError::Full)));
    }
    let members = txn.core().members().len();
    let (left, _) = txn.cancel();
    let given = left.give_back.len().max(stamps.len());
    Ok(given.max(members).max(receipt.answers.len()))
}

/// Runs a core to its end.
pub fn finished(alloc: Global) -> Result<usize> {
    match TxnCore::begin(alloc, 1, 5000, BOUNDS, no_pins(alloc)?) {
        Ok(core) => {
            let shown = core.seen().len();
            let (receipt, stamps) = core.finish();
            Ok(shown.max(stamps.len()).max(receipt.answers.len()))
        }
        Err(_) => bail!("out of memory"),
    }
}

/// Runs a core that is lent a registry, and whose call finds the database full.
pub fn given_up(alloc: Global) -> Result<usize> {
    let mut registry = functions(alloc)?;
    let key = Key::read(b"f0(7)")?;
    match TxnCore::begin(alloc, 1, 5000, BOUNDS, no_pins(alloc)?) {
        Ok(mut core) => {
            let turn = core.start(alloc, &mut registry, key);
            if let Turn::Ask(PortRequest::Pin { .. }) = turn {
                let full = PortReply::Pin(Err(DbError::Full));
                let _turn = core.next(alloc, &mut registry, full);
            }
            Ok(core.cancel(&mut registry).give_back.len())
        }
        Err(_) => bail!("out of memory"),
    }
}

/// Runs read-write transactions: one that makes a query, and one that is aborted in a call.
pub fn updates(alloc: Global) -> Result<usize> {
    let mut registry = functions(alloc)?;
    let mut asking = RwCore::begin(alloc, Stamp::ZERO);
    let query = Query::All(Table::new(1).unwrap());
    let _asked = asking.ask(alloc, &query);
    let mut core = RwCore::begin(alloc, Stamp::ZERO);
    core.is_within_budget();
    let turn = core.start(alloc, &mut registry, Key::read(b"f0(7)")?);
    if let Turn::Ask(_) = turn {
        let _turn = core.reply(alloc, &mut registry, Err(DbError::Full));
        return Ok(core.answers().len());
    }
    let _request = core.cancel(&mut registry);
    Ok(0)
}
