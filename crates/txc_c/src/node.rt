//! The exports of a node.
ghost use Rattle.std.specs.Prelude.{◌≡◌, ◌≢◌, Some, None, length, if◌then◌else◌, IfOk};
ghost use Rattle.txc_node.specs.declared.value.TheConstants.{MOST_VALUE_LEN};
ghost use Rattle.txc_node.specs.declared.op.Op.TheVariants as steps;
ghost use Rattle.txc_node.specs.Steps.{entry_refusal};
ghost use Rattle.txc_c.specs.CountedNode.{CallLeaves, HasOpened};
ghost use Rattle.txc_c_types.specs.CacheViews.{asked_entry, event_asked, insert_asked, lookup_asked, sweep_asked};
ghost use Rattle.txc_c.specs.HeldNode.{held};
ghost use Rattle.txc_c.specs.Handles.{close_number, count_number, counts_told, open_number, totals_number, totals_told};
ghost use Rattle.txc_c.specs.Numbers.{call_number};
ghost use Rattle.txc_c.specs.NodeReply.{call_reply, reach_told, len_told, bytes_told, StoredTold, closed_told, swept_told, trimmed_told, processed_told};

use crate::counted::CountedNode;
use crate::handle::TxcNode;
use crate::totals::TxcTotals;
use std::alloc::{AllocError, Global};
use txc_c_types::{
    ALREADY_OPEN, BAD_ARGUMENT, BAD_REACH, CLOSED, DONE, NO_MEMORY, TxcCounts, TxcKey, TxcReach,
    TxcStored, TxcTag, VALUE_TOO_LONG, are_sizes, are_tags, is_insertion, stamp_of, tags_of,
};
use txc_node::{Entry, MOST_VALUE_LEN};
use txc_tags::LAST_FUNCTION;

/// Makes a node for at most `capacity` entries, which stores the tags of the last `recent` events. Returns
/// `DONE`, `ALREADY_OPEN`, `BAD_ARGUMENT` or `NO_MEMORY`; only `DONE` changes the handle.
#[unsafe(no_mangle)]
pub extern "C" fn txc_node_open(
    alloc: Global,
    handle: &mut TxcNode,
    capacity: usize,
    recent: usize,
) -> u32
    ensures number { result ≢ NO_MEMORY → result ≡ open_number (held handle.old) capacity recent }
    ensures no_memory { result ≡ NO_MEMORY → open_number (held handle.old) capacity recent ≡ DONE }
    ensures opened { result ≡ DONE → HasOpened capacity recent (held handle.new) }
    ensures unchanged { result ≢ DONE → held handle.new ≡ held handle.old }
{
    if handle.is_open() {
        return ALREADY_OPEN;
    }
    if !are_sizes(capacity, recent) {
        return BAD_ARGUMENT;
    }
    let Ok(node) = CountedNode::new(alloc, capacity, recent) else {
        return NO_MEMORY;
    };
    let Ok(node) = Box::new(alloc, node) else {
        return NO_MEMORY;
    };
    handle.put(node);
    DONE
}

/// Closes the node, and frees all that it has.
#[unsafe(no_mangle)]
pub extern "C" fn txc_node_close(alloc: Global, handle: &mut TxcNode) -> u32
    ensures number { result ≡ close_number (held handle.old) }
    ensures after { held handle.new ≡ None }
{
    match handle.take(alloc) {
        None => CLOSED,
        Some(_node) => DONE,
    }
}

fn lookup(
    node: &mut CountedNode,
    key: &TxcKey,
    lo: u32,
    hi: u32,
    reach: &mut TxcReach,
    value: &mut [u8],
    len: &mut usize,
) -> u32
    ensures number { result ≡ call_number (length value.old) (Some node.old) (lookup_asked key.now lo hi) }
    ensures after { CallLeaves (Some node.old) (lookup_asked key.now lo hi) (Some node.new) }
    ensures reach { reach.new
        ≡ reach_told (call_reply (Some node.old) (lookup_asked key.now lo hi)) reach.old }
    ensures len { len.new ≡ len_told (call_reply (Some node.old) (lookup_asked key.now lo hi)) len.old }
    ensures bytes { value.new
        ≡ bytes_told (call_reply (Some node.old) (lookup_asked key.now lo hi)) value.old }
{
    let Some(key) = key.key() else {
        return BAD_ARGUMENT;
    };
    let (Some(lo), Some(hi)) = (stamp_of(lo), stamp_of(hi)) else {
        return BAD_ARGUMENT;
    };
    node.lookup(&key, lo, hi, reach, value, len)
}

/// Looks a key up at the stamps from `lo` to `hi`, both included. A hit writes its reach and the length of its
/// value, and the value if the buffer has room for it.
#[unsafe(no_mangle)]
pub extern "C" fn txc_node_lookup(
    alloc: Global,
    handle: &mut TxcNode,
    key: &TxcKey,
    lo: u32,
    hi: u32,
    reach: &mut TxcReach,
    value: &mut [u8],
    len: &mut usize,
) -> u32
    ensures number { result ≡ call_number (length value.old) (held handle.old) (lookup_asked key.now lo hi) }
    ensures after { CallLeaves (held handle.old) (lookup_asked key.now lo hi) (held handle.new) }
    ensures reach { reach.new ≡ reach_told (call_reply (held handle.old) (lookup_asked key.now lo hi)) reach.old }
    ensures len { len.new ≡ len_told (call_reply (held handle.old) (lookup_asked key.now lo hi)) len.old }
    ensures bytes { value.new ≡ bytes_told (call_reply (held handle.old) (lookup_asked key.now lo hi)) value.old }
{
    let Some(mut node) = handle.take(alloc) else {
        return CLOSED;
    };
    let number = lookup(&mut node, key, lo, hi, reach, value, len);
    handle.put(node);
    number
}

/// Makes the entry of an insertion. Fails if memory cannot be allocated, or an argument is out of its range.
fn entry_of(
    alloc: Global,
    key: &TxcKey,
    reach: &TxcReach,
    tags: &[TxcTag],
    value: &[u8],
) -> Result<Entry, AllocError>
    ensures asked { IfOk result (λ e. insert_asked key.now reach.now tags.now value.now ≡ Some (steps.Insert e)) }
    ensures can_be { IfOk result (λ e. entry_refusal MOST_VALUE_LEN e ≡ None) }
{
    let Some(key) = key.key() else {
        return Err(AllocError);
    };
    let (Some(lo), Some(known)) = (stamp_of(reach.lo), stamp_of(reach.known)) else {
        return Err(AllocError);
    };
    if !are_tags(tags) {
        return Err(AllocError);
    }
    let tags = tags_of(alloc, tags)?;
    let value = value.to_vec(alloc)?;
    match Entry::up_to(MOST_VALUE_LEN, key, value, lo, known, reach.is_still, tags) {
        Ok(entry) => Ok(entry),
        Err(_) => Err(AllocError),
    }
}

fn insert(
    alloc: Global,
    node: &mut CountedNode,
    key: &TxcKey,
    reach: &TxcReach,
    tags: &[TxcTag],
    value: &[u8],
    stored: &mut TxcStored,
) -> u32
    ensures number { result ≢ NO_MEMORY
        → result ≡ call_number 0 (Some node.old) (insert_asked key.now reach.now tags.now value.now) }
    ensures after { result ≢ NO_MEMORY
        → CallLeaves (Some node.old) (insert_asked key.now reach.now tags.now value.now) (Some node.new) }
    ensures told { result ≢ NO_MEMORY
        → StoredTold (call_reply (Some node.old) (insert_asked key.now reach.now tags.now value.now))
        stored.old stored.new }
    ensures no_memory { result ≡ NO_MEMORY
        → (insert_asked key.now reach.now tags.now value.now ≢ None)
        × (entry_refusal MOST_VALUE_LEN (asked_entry key.now reach.now tags.now value.now) ≡ None) }
    ensures refused { result ≡ NO_MEMORY → (node.new ≡ node.old) × (stored.new ≡ stored.old) }
{
    if !is_insertion(key, reach, tags) {
        return BAD_ARGUMENT;
    }
    if reach.known < reach.lo {
        return BAD_REACH;
    }
    if value.len() > MOST_VALUE_LEN {
        return VALUE_TOO_LONG;
    }
    let Ok(entry) = entry_of(alloc, key, reach, tags, value) else {
        return NO_MEMORY;
    };
    node.insert(entry, stored)
}

/// Inserts an entry, and writes the stored one's reach. If this returns `NO_MEMORY`, nothing has changed.
#[unsafe(no_mangle)]
pub extern "C" fn txc_node_insert(
    alloc: Global,
    handle: &mut TxcNode,
    key: &TxcKey,
    reach: &TxcReach,
    tags: &[TxcTag],
    value: &[u8],
    stored: &mut TxcStored,
) -> u32
    ensures number { result ≢ NO_MEMORY
        → result ≡ call_number 0 (held handle.old) (insert_asked key.now reach.now tags.now value.now) }
    ensures after { result ≢ NO_MEMORY
        → CallLeaves (held handle.old) (insert_asked key.now reach.now tags.now value.now) (held handle.new) }
    ensures told { result ≢ NO_MEMORY
        → StoredTold (call_reply (held handle.old) (insert_asked key.now reach.now tags.now value.now))
        stored.old stored.new }
    ensures no_memory { result ≡ NO_MEMORY
        → (call_reply (held handle.old) (insert_asked key.now reach.now tags.now value.now) ≢ None)
        × (entry_refusal MOST_VALUE_LEN (asked_entry key.now reach.now tags.now value.now) ≡ None) }
    ensures refused { result ≡ NO_MEMORY → (held handle.new ≡ held handle.old) × (stored.new ≡ stored.old) }
{
    let Some(mut node) = handle.take(alloc) else {
        return CLOSED;
    };
    let number = insert(alloc, &mut node, key, reach, tags, value, stored);
    handle.put(node);
    number
}

fn event(
    alloc: Global,
    node: &mut CountedNode,
    stamp: u32,
    tags: &[TxcTag],
    closed: &mut usize,
) -> u32
    ensures number { result ≢ NO_MEMORY
        → result ≡ call_number 0 (Some node.old) (event_asked stamp tags.now) }
    ensures after { result ≢ NO_MEMORY
        → CallLeaves (Some node.old) (event_asked stamp tags.now) (Some node.new) }
    ensures closed { result ≢ NO_MEMORY
        → closed.new ≡ closed_told (call_reply (Some node.old) (event_asked stamp tags.now)) closed.old }
    ensures no_memory { result ≡ NO_MEMORY → event_asked stamp tags.now ≢ None }
    ensures refused { result ≡ NO_MEMORY → (node.new ≡ node.old) × (closed.new ≡ closed.old) }
{
    let Some(stamp) = stamp_of(stamp) else {
        return BAD_ARGUMENT;
    };
    if !are_tags(tags) {
        return BAD_ARGUMENT;
    }
    let Ok(tags) = tags_of(alloc, tags) else {
        return NO_MEMORY;
    };
    node.event(stamp, tags, closed)
}

/// Takes the next event, and writes how many entries it closed. For every open node it writes the stamp of the
/// last event that was taken.
#[unsafe(no_mangle)]
pub extern "C" fn txc_node_event(
    alloc: Global,
    handle: &mut TxcNode,
    stamp: u32,
    tags: &[TxcTag],
    closed: &mut usize,
    processed: &mut u32,
) -> u32
    ensures number { result ≢ NO_MEMORY
        → result ≡ call_number 0 (held handle.old) (event_asked stamp tags.now) }
    ensures after { result ≢ NO_MEMORY → CallLeaves (held handle.old) (event_asked stamp tags.now) (held handle.new) }
    ensures closed { result ≢ NO_MEMORY
        → closed.new ≡ closed_told (call_reply (held handle.old) (event_asked stamp tags.now)) closed.old }
    ensures processed { processed.new ≡ processed_told (held handle.new) processed.old }
    ensures no_memory { result ≡ NO_MEMORY → call_reply (held handle.old) (event_asked stamp tags.now) ≢ None }
    ensures refused { result ≡ NO_MEMORY → (held handle.new ≡ held handle.old) × (closed.new ≡ closed.old) }
{
    let Some(mut node) = handle.take(alloc) else {
        return CLOSED;
    };
    let number = event(alloc, &mut node, stamp, tags, closed);
    *processed = node.processed().number();
    handle.put(node);
    number
}

/// Drops the entries whose span ends at the horizon or before it, and writes how many.
#[unsafe(no_mangle)]
pub extern "C" fn txc_node_sweep(
    alloc: Global,
    handle: &mut TxcNode,
    horizon: u32,
    swept: &mut usize,
) -> u32
    ensures number { result ≡ call_number 0 (held handle.old) (sweep_asked horizon) }
    ensures after { CallLeaves (held handle.old) (sweep_asked horizon) (held handle.new) }
    ensures told { swept.new ≡ swept_told (call_reply (held handle.old) (sweep_asked horizon)) swept.old }
{
    let Some(mut node) = handle.take(alloc) else {
        return CLOSED;
    };
    let number = match stamp_of(horizon) {
        Some(horizon) => node.sweep(horizon, swept),
        None => BAD_ARGUMENT,
    };
    handle.put(node);
    number
}

/// Keeps the longest prefix of the entries, the most recently used first, whose values have at most `most`
/// bytes in all. Writes how many entries it dropped.
#[unsafe(no_mangle)]
pub extern "C" fn txc_node_trim(
    alloc: Global,
    handle: &mut TxcNode,
    most: usize,
    dropped: &mut usize,
) -> u32
    ensures number { result ≡ call_number 0 (held handle.old) (Some (steps.Trim most)) }
    ensures after { CallLeaves (held handle.old) (Some (steps.Trim most)) (held handle.new) }
    ensures told { dropped.new ≡ trimmed_told (call_reply (held handle.old) (Some (steps.Trim most))) dropped.old }
{
    let Some(mut node) = handle.take(alloc) else {
        return CLOSED;
    };
    let number = node.trim(most, dropped);
    handle.put(node);
    number
}

/// Writes how many entries there are, how many bytes their values have in all, and how many entries trims have
/// dropped.
#[unsafe(no_mangle)]
pub extern "C" fn txc_node_totals(
    alloc: Global,
    handle: &mut TxcNode,
    totals: &mut TxcTotals,
) -> u32
    ensures number { result ≡ totals_number (held handle.old) }
    ensures unchanged { held handle.new ≡ held handle.old }
    ensures told { totals.new ≡ totals_told (held handle.old) totals.old }
{
    let Some(node) = handle.take(alloc) else {
        return CLOSED;
    };
    *totals = node.totals();
    handle.put(node);
    DONE
}

/// Writes the counts of the replies about the calls of a function.
#[unsafe(no_mangle)]
pub extern "C" fn txc_node_count(
    alloc: Global,
    handle: &mut TxcNode,
    function: u8,
    counts: &mut TxcCounts,
) -> u32
    ensures number { result ≡ count_number (held handle.old) function }
    ensures unchanged { held handle.new ≡ held handle.old }
    ensures told { counts.new ≡ counts_told (held handle.old) function counts.old }
{
    let Some(node) = handle.take(alloc) else {
        return CLOSED;
    };
    let number = if function > LAST_FUNCTION {
        BAD_ARGUMENT
    } else {
        *counts = TxcCounts::of(node.counts(function));
        DONE
    };
    handle.put(node);
    number
}
