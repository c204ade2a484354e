//! Issuing pins.
ghost use Rattle.std.specs.Prelude.{◌≡◌, ◌+◌, ◌≤◌, ◌++◌, ◌∷◌, [], map, filter, take, nat_lt, ◌&&◌, if◌then◌else◌, length, IfOk, OnOk, OnErr, vec_capacity};
ghost use Rattle.txc_cushion.specs.Entries.{EntriesDescend, pins_of, may_be_handed_out, with_user};
ghost use Rattle.txc_cushion.specs.declared.limits.TheConstants.{MAX_HANDED_OUT};

use crate::entry::PinEntry;
use crate::limits::MAX_HANDED_OUT;
use crate::pin::Pin;
use std::alloc::{AllocError, Global};
use txc_stamp::Stamp;

// Issues the pin of the entry, and counts one more user, if it may be issued and fewer than the maximum are.
fn hand_out_one(
    entry: &mut PinEntry,
    pins: &mut Vec<Pin>,
    now: u64,
    staleness: u64,
    at_least: Stamp,
)
    requires { MAX_HANDED_OUT ≤ vec_capacity pins.old }
    ensures room { MAX_HANDED_OUT ≤ vec_capacity pins.new }
    ensures users { entry.new
        ≡ (if nat_lt (length pins.old.items) MAX_HANDED_OUT && may_be_handed_out now staleness at_least entry.old
        then record entry.old { users = entry.old.users + 1 } else entry.old) }
    ensures pins { pins.new.items
        ≡ (if nat_lt (length pins.old.items) MAX_HANDED_OUT && may_be_handed_out now staleness at_least entry.old
        then pins.old.items ++ entry.old.pin ∷ [] else pins.old.items) }
{
    if pins.len() < MAX_HANDED_OUT && entry.may_be_handed_out(now, staleness, at_least) {
        pins.push(entry.pin).unwrap();
        entry.users += 1;
    }
}

// Issues the newest pins that may be issued, in one pass.
fn hand_out_each(
    entries: &mut [PinEntry],
    pins: &mut Vec<Pin>,
    now: u64,
    staleness: u64,
    at_least: Stamp,
)
    requires falls { EntriesDescend entries.old }
    requires none { pins.old.items ≡ [] }
    requires room { MAX_HANDED_OUT ≤ vec_capacity pins.old }
    ensures pins { pins.new.items
        ≡ pins_of (take MAX_HANDED_OUT (filter (may_be_handed_out now staleness at_least) entries.old)) }
    ensures users { entries.new ≡ map (with_user (pins_of (take MAX_HANDED_OUT
        (filter (may_be_handed_out now staleness at_least) entries.old)))) entries.old }
{
    for entry in entries.iter_mut() {
        hand_out_one(entry, pins, now, staleness, at_least);
    }
}

/// Issues the newest of the pins that may be issued, at most [`MAX_HANDED_OUT`], and counts one more user for
/// each. Fails, and changes nothing, only if memory cannot be allocated.
pub(crate) fn hand_out(
    alloc: Global,
    entries: &mut Vec<PinEntry>,
    now: u64,
    staleness: u64,
    at_least: Stamp,
) -> Result<Vec<Pin>, AllocError>
    requires { EntriesDescend entries.old.items }
    ensures pins { IfOk result (λ pins. pins.items ≡ pins_of (take MAX_HANDED_OUT
        (filter (may_be_handed_out now staleness at_least) entries.old.items))) }
    ensures users { OnOk result (entries.new.items ≡ map (with_user (pins_of (take MAX_HANDED_OUT
        (filter (may_be_handed_out now staleness at_least) entries.old.items)))) entries.old.items) }
    ensures unchanged { OnErr result (entries.new.items ≡ entries.old.items) }
{
    let mut pins = Vec::with_capacity(alloc, MAX_HANDED_OUT)?;
    hand_out_each(entries, &mut pins, now, staleness, at_least);
    Ok(pins)
}
