//! The exports of a site and its transactions.
ghost use Rattle.std.specs.Prelude.{◌≡◌, ◌≢◌, None};
ghost use Rattle.txc_app.specs.declared.ask.Ask.TheVariants as asks;
ghost use Rattle.txc_c_types.specs.CacheViews.{named_call};
ghost use Rattle.txc_c.specs.Calls.{SiteCallTransition, SiteFinishTransition, SiteGiveUpTransition, LastOf, MemberOf, SitePutTransition, SiteQueryTransition, ReadStampOf, SiteRemoveTransition, RowOf};
ghost use Rattle.txc_c.specs.Exports.{open_site_number, SiteTransition, HasNewSite, HeldAsksNext, Shows};
ghost use Rattle.txc_c.specs.Maintenance.{SiteKeepTransition, SitePinTransition};
ghost use Rattle.txc_c.specs.Handles.{close_number};
ghost use Rattle.txc_c.specs.OpenTransactions.{CountTold, OldestTold};
ghost use Rattle.txc_c.specs.Receipts.{query_of};
ghost use Rattle.txc_c.specs.HeldSite.{site_held};
ghost use Rattle.txc_c.specs.Sites.{open_at};
ghost use Rattle.txc_c.specs.SiteReply.{buffer};
ghost use Rattle.txc_c.specs.Trim.{TotalsTold, SiteTrimTransition};
ghost use Rattle.txc_c.specs.BeginAndEnd.{SiteAbortTransition, SiteBeginTransition, SiteBeginWriteAtTransition, SiteBeginWriteTransition, SiteCommitTransition, SiteCommitWriteTransition};

use crate::kept::TxcKept;
use crate::receipts::{TxcQuery, TxcReceipt, TxcRow};
use crate::site::Site;
use crate::site_handle::TxcSite;
use crate::site_settings::TxcSiteSettings;
use crate::totals::TxcTotals;
use std::alloc::Global;
use txc_c_types::{ALREADY_OPEN, BAD_ARGUMENT, CLOSED, DONE, NO_MEMORY, TxcKey};

/// The version of the header that this library implements. It rises with each change of an export or a struct.
pub const ABI: u32 = 4;

/// Returns the version of the header that this library implements.
#[unsafe(no_mangle)]
pub extern "C" fn txc_abi() -> u32
    ensures { result ≡ ABI }
{
    ABI
}

/// Makes a site by the settings. If this does not return `DONE`, the handle is unchanged.
#[unsafe(no_mangle)]
pub extern "C" fn txc_site_open(
    alloc: Global,
    handle: &mut TxcSite,
    settings: &TxcSiteSettings,
) -> u32
    ensures number { result ≢ NO_MEMORY → result ≡ open_site_number (site_held handle.old) settings.now }
    ensures no_memory { result ≡ NO_MEMORY → open_site_number (site_held handle.old) settings.now ≡ DONE }
    ensures opened { result ≡ DONE → HasNewSite settings.now (site_held handle.new) }
    ensures unchanged { result ≢ DONE → site_held handle.new ≡ site_held handle.old }
{
    if handle.is_open() {
        return ALREADY_OPEN;
    }
    if !settings.are_settings() {
        return BAD_ARGUMENT;
    }
    let Ok(site) = Site::new(alloc, settings) else {
        return NO_MEMORY;
    };
    let Ok(site) = Box::new(alloc, site) else {
        return NO_MEMORY;
    };
    handle.put(site);
    DONE
}

/// Closes the site, and frees all that it has.
#[unsafe(no_mangle)]
pub extern "C" fn txc_site_close(alloc: Global, handle: &mut TxcSite) -> u32
    ensures number { result ≡ close_number (site_held handle.old) }
    ensures after { site_held handle.new ≡ None }
{
    match handle.take(alloc) {
        None => CLOSED,
        Some(_site) => DONE,
    }
}

/// Begins a read-only transaction, and writes its number.
#[unsafe(no_mangle)]
pub extern "C" fn txc_begin(
    alloc: Global,
    handle: &mut TxcSite,
    now: u64,
    staleness: u64,
    at_least: u32,
    txn: &mut u64,
) -> u32
    ensures { SiteTransition (SiteBeginTransition now staleness at_least txn.old txn.new) (txn.new ≡ txn.old)
        (site_held handle.old) result (site_held handle.new) }
{
    let Some(mut site) = handle.take(alloc) else {
        return CLOSED;
    };
    let number = site.begin(alloc, now, staleness, at_least, txn);
    handle.put(site);
    number
}

/// Requests the value of a call: an outermost one, or for the function being computed. Writes its value, if it
/// has one.
#[unsafe(no_mangle)]
pub extern "C" fn txc_call(
    alloc: Global,
    handle: &mut TxcSite,
    txn: u64,
    key: &TxcKey,
    value: &mut [u8],
    len: &mut usize,
) -> u32
    requires { HeldAsksNext (asks.Call (named_call key.now)) txn (site_held handle.old) }
    ensures { SiteTransition (SiteCallTransition key.now (buffer value.old len.old) (buffer value.new len.new) txn) ((value.new ≡ value.old) × (len.new ≡ len.old))
        (site_held handle.old) result (site_held handle.new) }
{
    let Some(mut site) = handle.take(alloc) else {
        return CLOSED;
    };
    let number = site.call(alloc, txn, key, value, len);
    handle.put(site);
    number
}

/// Requests the rows of a query, and writes how many they are.
#[unsafe(no_mangle)]
pub extern "C" fn txc_query_rows(
    alloc: Global,
    handle: &mut TxcSite,
    txn: u64,
    query: &TxcQuery,
    count: &mut usize,
) -> u32
    requires { HeldAsksNext (asks.Query (query_of query.now)) txn (site_held handle.old) }
    ensures { SiteTransition (SiteQueryTransition query.now count.old count.new txn) (count.new ≡ count.old)
        (site_held handle.old) result (site_held handle.new) }
{
    let Some(mut site) = handle.take(alloc) else {
        return CLOSED;
    };
    let number = site.query(alloc, txn, query, count);
    handle.put(site);
    number
}

/// Writes one of the rows that were read last.
#[unsafe(no_mangle)]
pub extern "C" fn txc_row_at(
    alloc: Global,
    handle: &mut TxcSite,
    txn: u64,
    at: usize,
    row: &mut TxcRow,
    body: &mut [u8],
    len: &mut usize,
) -> u32
    ensures { Shows (λ s number. RowOf at row.old row.new (buffer body.old len.old) (buffer body.new len.new) (open_at s txn) number) ((row.new ≡ row.old) × (body.new ≡ body.old) × (len.new ≡ len.old))
        (site_held handle.old) result (site_held handle.new) }
{
    let Some(site) = handle.take(alloc) else {
        return CLOSED;
    };
    let number = site.row_at(txn, at, row, body, len);
    handle.put(site);
    number
}

/// Writes the last result again.
#[unsafe(no_mangle)]
pub extern "C" fn txc_answer(
    alloc: Global,
    handle: &mut TxcSite,
    txn: u64,
    value: &mut [u8],
    len: &mut usize,
) -> u32
    ensures { Shows (λ s number. LastOf (buffer value.old len.old) (buffer value.new len.new) (open_at s txn) number) ((value.new ≡ value.old) × (len.new ≡ len.old))
        (site_held handle.old) result (site_held handle.new) }
{
    let Some(site) = handle.take(alloc) else {
        return CLOSED;
    };
    let number = site.answer(txn, value, len);
    handle.put(site);
    number
}

/// Ends the function being computed with these bytes as its value.
#[unsafe(no_mangle)]
pub extern "C" fn txc_finish(
    alloc: Global,
    handle: &mut TxcSite,
    txn: u64,
    bytes: &[u8],
    value: &mut [u8],
    len: &mut usize,
) -> u32
    requires { HeldAsksNext (asks.Done bytes.now) txn (site_held handle.old) }
    ensures { SiteTransition (SiteFinishTransition bytes.now (buffer value.old len.old) (buffer value.new len.new) txn) ((value.new ≡ value.old) × (len.new ≡ len.old))
        (site_held handle.old) result (site_held handle.new) }
{
    let Some(mut site) = handle.take(alloc) else {
        return CLOSED;
    };
    let number = site.finish(alloc, txn, bytes, value, len);
    handle.put(site);
    number
}

/// Cancels the whole open call.
#[unsafe(no_mangle)]
pub extern "C" fn txc_give_up(alloc: Global, handle: &mut TxcSite, txn: u64) -> u32
    ensures { SiteTransition (SiteGiveUpTransition txn) (Unit {0})
        (site_held handle.old) result (site_held handle.new) }
{
    let Some(mut site) = handle.take(alloc) else {
        return CLOSED;
    };
    let number = site.give_up(txn);
    handle.put(site);
    number
}

/// Writes the stamp of the state that the next query reads.
#[unsafe(no_mangle)]
pub extern "C" fn txc_read_stamp(
    alloc: Global,
    handle: &mut TxcSite,
    txn: u64,
    stamp: &mut u32,
) -> u32
    ensures { Shows (λ s number. ReadStampOf stamp.old stamp.new (open_at s txn) number) (stamp.new ≡ stamp.old)
        (site_held handle.old) result (site_held handle.new) }
{
    let Some(site) = handle.take(alloc) else {
        return CLOSED;
    };
    let number = site.read_stamp(txn, stamp);
    handle.put(site);
    number
}

/// Writes one of the pins at which every result is correct.
#[unsafe(no_mangle)]
pub extern "C" fn txc_member_at(
    alloc: Global,
    handle: &mut TxcSite,
    txn: u64,
    at: usize,
    stamp: &mut u32,
    moment: &mut u64,
) -> u32
    ensures { Shows (λ s number. MemberOf at (stamp.old, moment.old) (stamp.new, moment.new) (open_at s txn) number) ((stamp.new ≡ stamp.old) × (moment.new ≡ moment.old))
        (site_held handle.old) result (site_held handle.new) }
{
    let Some(site) = handle.take(alloc) else {
        return CLOSED;
    };
    let number = site.member_at(txn, at, stamp, moment);
    handle.put(site);
    number
}

/// Ends the read-only transaction, and writes its receipt.
#[unsafe(no_mangle)]
pub extern "C" fn txc_commit(
    alloc: Global,
    handle: &mut TxcSite,
    txn: u64,
    receipt: &mut TxcReceipt,
) -> u32
    ensures { SiteTransition (SiteCommitTransition receipt.old receipt.new txn) (receipt.new ≡ receipt.old)
        (site_held handle.old) result (site_held handle.new) }
{
    let Some(mut site) = handle.take(alloc) else {
        return CLOSED;
    };
    let number = site.commit(txn, receipt);
    handle.put(site);
    number
}

/// Aborts the transaction.
#[unsafe(no_mangle)]
pub extern "C" fn txc_abort(alloc: Global, handle: &mut TxcSite, txn: u64) -> u32
    ensures { SiteTransition (SiteAbortTransition txn) (Unit {0})
        (site_held handle.old) result (site_held handle.new) }
{
    let Some(mut site) = handle.take(alloc) else {
        return CLOSED;
    };
    let number = site.abort(txn);
    handle.put(site);
    number
}

/// Begins a read-write transaction at the newest state, and writes its number.
#[unsafe(no_mangle)]
pub extern "C" fn txc_begin_write(alloc: Global, handle: &mut TxcSite, txn: &mut u64) -> u32
    ensures { SiteTransition (SiteBeginWriteTransition txn.old txn.new) (txn.new ≡ txn.old)
        (site_held handle.old) result (site_held handle.new) }
{
    let Some(mut site) = handle.take(alloc) else {
        return CLOSED;
    };
    let number = site.begin_write(alloc, txn);
    handle.put(site);
    number
}

/// Begins a read-write transaction at the state of that stamp, and writes its number.
#[unsafe(no_mangle)]
pub extern "C" fn txc_begin_write_at(
    alloc: Global,
    handle: &mut TxcSite,
    stamp: u32,
    txn: &mut u64,
) -> u32
    ensures { SiteTransition (SiteBeginWriteAtTransition stamp txn.old txn.new) (txn.new ≡ txn.old)
        (site_held handle.old) result (site_held handle.new) }
{
    let Some(mut site) = handle.take(alloc) else {
        return CLOSED;
    };
    let number = site.begin_write_at(alloc, stamp, txn);
    handle.put(site);
    number
}

/// Buffers a put of a row.
#[unsafe(no_mangle)]
pub extern "C" fn txc_put(
    alloc: Global,
    handle: &mut TxcSite,
    txn: u64,
    table: u8,
    id: u32,
    group: u32,
    body: &[u8],
) -> u32
    ensures { SiteTransition (SitePutTransition (record { table = table; id = id; group = group; body = body.now }) txn) (Unit {0})
        (site_held handle.old) result (site_held handle.new) }
{
    let Some(mut site) = handle.take(alloc) else {
        return CLOSED;
    };
    let number = site.put(alloc, txn, table, id, group, body);
    handle.put(site);
    number
}

/// Buffers the removal of a row.
#[unsafe(no_mangle)]
pub extern "C" fn txc_remove(
    alloc: Global,
    handle: &mut TxcSite,
    txn: u64,
    table: u8,
    id: u32,
) -> u32
    ensures { SiteTransition (SiteRemoveTransition table id txn) (Unit {0})
        (site_held handle.old) result (site_held handle.new) }
{
    let Some(mut site) = handle.take(alloc) else {
        return CLOSED;
    };
    let number = site.remove(txn, table, id);
    handle.put(site);
    number
}

/// Commits the changes, and writes the newest stamp.
#[unsafe(no_mangle)]
pub extern "C" fn txc_commit_write(
    alloc: Global,
    handle: &mut TxcSite,
    txn: u64,
    stamp: &mut u32,
) -> u32
    ensures { SiteTransition (SiteCommitWriteTransition stamp.old stamp.new txn) (stamp.new ≡ stamp.old)
        (site_held handle.old) result (site_held handle.new) }
{
    let Some(mut site) = handle.take(alloc) else {
        return CLOSED;
    };
    let number = site.commit_write(alloc, txn, stamp);
    handle.put(site);
    number
}

/// Pins the newest state at that wall-clock time, in milliseconds, and writes its stamp.
#[unsafe(no_mangle)]
pub extern "C" fn txc_pin(alloc: Global, handle: &mut TxcSite, moment: u64, stamp: &mut u32) -> u32
    ensures { SiteTransition (SitePinTransition moment stamp.old stamp.new) (stamp.new ≡ stamp.old)
        (site_held handle.old) result (site_held handle.new) }
{
    let Some(mut site) = handle.take(alloc) else {
        return CLOSED;
    };
    let number = site.pin(alloc, moment, stamp);
    handle.put(site);
    number
}

/// Runs the maintenance: retires unused pins older than `age` milliseconds before `now`, and drops the versions
/// and entries that no transaction can read.
#[unsafe(no_mangle)]
pub extern "C" fn txc_keep(
    alloc: Global,
    handle: &mut TxcSite,
    now: u64,
    age: u64,
    kept: &mut TxcKept,
) -> u32
    ensures { SiteTransition (SiteKeepTransition now age kept.old kept.new) (kept.new ≡ kept.old)
        (site_held handle.old) result (site_held handle.new) }
{
    let Some(mut site) = handle.take(alloc) else {
        return CLOSED;
    };
    let number = site.keep(alloc, now, age, kept);
    handle.put(site);
    number
}

/// Writes how many transactions are open.
#[unsafe(no_mangle)]
pub extern "C" fn txc_open_transactions(
    alloc: Global,
    handle: &mut TxcSite,
    count: &mut usize,
) -> u32
    ensures { Shows (λ s number. CountTold count.new s number) (count.new ≡ count.old)
        (site_held handle.old) result (site_held handle.new) }
{
    let Some(site) = handle.take(alloc) else {
        return CLOSED;
    };
    let number = site.open_transactions(count);
    handle.put(site);
    number
}

/// Writes the number of the open transaction that began first.
#[unsafe(no_mangle)]
pub extern "C" fn txc_oldest_open(alloc: Global, handle: &mut TxcSite, txn: &mut u64) -> u32
    ensures { Shows (λ s number. OldestTold txn.old txn.new s number) (txn.new ≡ txn.old)
        (site_held handle.old) result (site_held handle.new) }
{
    let Some(site) = handle.take(alloc) else {
        return CLOSED;
    };
    let number = site.oldest_open(txn);
    handle.put(site);
    number
}

/// Trims the node to the longest prefix of its entries, the most recently used first, whose values have at most
/// `most` bytes in all. Transactions may be open. Writes the number of entries dropped.
#[unsafe(no_mangle)]
pub extern "C" fn txc_site_trim(
    alloc: Global,
    handle: &mut TxcSite,
    most: usize,
    dropped: &mut usize,
) -> u32
    ensures { SiteTransition (SiteTrimTransition most dropped.old dropped.new) (dropped.new ≡ dropped.old)
        (site_held handle.old) result (site_held handle.new) }
{
    let Some(mut site) = handle.take(alloc) else {
        return CLOSED;
    };
    let number = site.trim(alloc, most, dropped);
    handle.put(site);
    number
}

/// Writes the number of the node's entries, the bytes of their values in all, and the number of entries that
/// trims have dropped.
#[unsafe(no_mangle)]
pub extern "C" fn txc_site_totals(
    alloc: Global,
    handle: &mut TxcSite,
    totals: &mut TxcTotals,
) -> u32
    ensures { Shows (λ s number. TotalsTold totals.new s number) (totals.new ≡ totals.old)
        (site_held handle.old) result (site_held handle.new) }
{
    let Some(mut site) = handle.take(alloc) else {
        return CLOSED;
    };
    let number = site.totals(totals);
    handle.put(site);
    number
}
