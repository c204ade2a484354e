//! The entries of a node, with the indexes that find them.
ghost use Rattle.std.specs.Prelude.{◌≡◌, ◌∷◌, [], ◌-◌, ◌≤◌, length, map, take, not, true, false, OnOk, OnErr, IfOk, IfErr, IfSome, Some, slice_get};
ghost use Rattle.std.specs.List.{find, filter, count_by};
ghost use Rattle.std.specs.NonZero.{non_zero_usize_get};
ghost use Rattle.txc_node.specs.declared.entry.Entry.{Entry};
ghost use Rattle.txc_node.specs.Places.{place_of, equal_places};
ghost use Rattle.txc_node.specs.Entries.{others, same_place};
ghost use Rattle.txc_node.specs.Cache.{bytes_of, is_invalidated, entry_after, has_ended, longest_within, staying_count};
ghost use Rattle.txc_node.specs.IndexedEntries.{IndexesTags, IsFound, IsListed, KeepsListed, entries_under, entry_of, reaches_under, with_first};

use crate::closing::Closing;
use crate::entry::Entry;
use crate::keyed::KeyedEntries;
use crate::node::MOST_CAPACITY;
use crate::place::Place;
use crate::remaining_entries::RemainingEntries;
use crate::stored::{Stored, in_reach, split};
use crate::sweeping::Sweep;
use crate::tag_index::TagIndex;
use crate::versions::Found;
use std::alloc::{AllocError, AllocFailed, Global};
use std::fmt;
use std::marker::Model;
use std::num::NonZeroUsize;
use txc_stamp::{Reach, Stamp};
use txc_tags::{Key, TagSet};

/// Up to `capacity` entries, the most recently used first, found by their key and by their tags.
#[derive(Drop)]
pub(crate) struct IndexedEntries {
    entries: KeyedEntries,
    tags: TagIndex,
}

impl Model for IndexedEntries {
    ghost use Rattle.txc_node.specs.IndexedEntries.{HeldEntries, IndexesTags};

    ghost Value = { HeldEntries };

    ghost view = { λ x. x.entries };

    ghost invariant = { λ x. IndexesTags x.tags.tables.items x.entries.entries };
}

impl fmt::Debug for IndexedEntries {
    // Shows the entries only, since the indexes follow from them.
    fn fmt<W: fmt::Write>(&self, f: &mut fmt::Formatter<W>) -> fmt::Result {
        self.entries.fmt(f)
    }
}

// Lists a still valid entry under its tags.
fn list_still(index: &mut TagIndex, place: &Place, stored: &Stored) -> Result<(), AllocError>
    ensures listed { OnOk result (IsListed index.new.tables.items place.now stored.now) }
    ensures kept { KeepsListed (λ t q. Unit {0}) index.old.tables.items index.new.tables.items }
{
    if stored.reach.is_still() {
        index.list(&stored.tags, place)?;
    }
    Ok(())
}

// Unlists a place under each of these tags that the entry stored there does not have.
fn unlist_left(entries: &KeyedEntries, index: &mut TagIndex, place: &Place, tags: &TagSet)
    ensures { IndexesTags index.old.tables.items entries.now.entries
        → IndexesTags index.new.tables.items entries.now.entries }
{
    let _len = entries.len();
    match entries.get(place) {
        None => index.unlist(tags, place),
        Some(stored) => index.unlist_others(tags, &stored.tags, place),
    }
}

// Unlists a replaced entry under the tags that the new one does not have.
fn unlist_replaced(entries: &KeyedEntries, index: &mut TagIndex, gone: &Option<Entry>)
    ensures { IndexesTags index.old.tables.items entries.now.entries
        → IndexesTags index.new.tables.items entries.now.entries }
{
    if let Some(gone) = gone {
        let place = Place::new(&gone.key, gone.reach.lo());
        unlist_left(entries, index, &place, &gone.tags);
    }
}

// Unlists an entry for which there was no room: its place is empty.
fn unlist_evicted(index: &mut TagIndex, evicted: &Option<Entry>)
    ensures { KeepsListed (λ t q. IfSome evicted.now (λ e. equal_places (place_of e) q ≡ false))
        index.old.tables.items index.new.tables.items }
{
    if let Some(entry) = evicted {
        let place = Place::new(&entry.key, entry.reach.lo());
        index.unlist(&entry.tags, &place);
    }
}

// Inserts a new entry at the front. Of the entries at other places, those that the capacity allows stay.
fn put(
    entries: &mut KeyedEntries,
    index: &mut TagIndex,
    found: &Option<Found>,
    place: Place,
    stored: Stored,
) -> Result<Option<Entry>, AllocFailed<(Place, Stored)>>
    requires indexed { IndexesTags index.old.tables.items entries.old.entries }
    requires placed { place ≡ place_of (entry_of (place, stored)) }
    requires found { let e = entry_of (place, stored) in IsFound (entries_under e.key entries.old.entries)
        (find (λ o. same_place o e) entries.old.entries) found.now }
    ensures indexed { IndexesTags index.new.tables.items entries.new.entries }
    ensures entries { OnOk result (entries.new.entries
        ≡ take entries.old.capacity (with_first (entry_of (place, stored)) entries.old.entries)) }
    ensures evicted { IfOk result (λ r. r
        ≡ slice_get (with_first (entry_of (place, stored)) entries.old.entries) entries.old.capacity) }
    ensures capacity { entries.new.capacity ≡ entries.old.capacity }
    ensures unchanged { OnErr result (entries.new ≡ entries.old) }
    ensures handed_back { IfErr result (λ e. e.value ≡ (place, stored)) }
{
    let _len = entries.len();
    let Ok(()) = list_still(index, &place, &stored) else {
        unlist_left(entries, index, &place, &stored.tags);
        return Err(AllocFailed {
            value: (place, stored),
        });
    };
    match found {
        None => match entries.add(place, stored) {
            Ok(evicted) => {
                unlist_evicted(index, &evicted);
                Ok(evicted)
            }
            Err(failed) => {
                unlist_left(entries, index, &failed.value.0, &failed.value.1.tags);
                Err(failed)
            }
        },
        Some(found) => {
            let before = entries.replace(found.at, place, stored);
            unlist_replaced(entries, index, &before);
            Ok(None)
        }
    }
}

impl IndexedEntries {
    /// Makes an empty list with room for `capacity` entries.
    pub(crate) fn new(alloc: Global, capacity: NonZeroUsize) -> Result<IndexedEntries, AllocError>
        requires { non_zero_usize_get capacity ≤ MOST_CAPACITY }
        ensures { IfOk result (λ x. x
            ≡ record { entries = []; capacity = non_zero_usize_get capacity }) }
    {
        let tags = TagIndex::new(alloc)?;
        let entries = KeyedEntries::new(alloc, capacity)?;
        Ok(IndexedEntries { entries, tags })
    }

    /// Returns how many entries there are.
    pub(crate) fn len(&self) -> usize
        ensures { result ≡ length self.now.entries }
    {
        self.entries.len()
    }

    /// Returns the number of bytes of their values in all.
    pub(crate) fn bytes(&self) -> usize
        ensures { result ≡ bytes_of self.now.entries }
    {
        self.entries.bytes()
    }

    /// Returns the entries of a node that ends, without the indexes.
    pub(crate) fn drain(self) -> RemainingEntries
        ensures { result ≡ self.entries }
    {
        let IndexedEntries { entries, tags: _ } = self;
        entries.drain()
    }

    /// Returns the entries with the index of their keys.
    pub(crate) fn keyed(&self) -> &KeyedEntries
        ensures { result.now ≡ self.now }
    {
        &self.entries
    }

    /// Moves an entry that was found to the front.
    pub(crate) fn bring_first(&mut self, key: &Key, found: Found)
        requires { slice_get (reaches_under key.now self.old.entries) found.at ≡ Some found.reach }
        ensures entries { (e : Entry)
            → slice_get (entries_under key.now self.old.entries) found.at ≡ Some e
            → self.new.entries ≡ e ∷ others e self.old.entries }
        ensures capacity { self.new.capacity ≡ self.old.capacity }
    {
        self.entries.bring_first(key, found);
    }

    /// Inserts a new entry at the front, in its new reach, and drops the last one if the capacity is exceeded.
    /// Returns the entry that was dropped. Fails, and returns the new entry, if there is no memory for it.
    pub(crate) fn put(
        &mut self,
        found: &Option<Found>,
        entry: Entry,
        reach: Reach,
    ) -> Result<Option<Entry>, AllocFailed<Entry>>
        requires found { IsFound (entries_under entry.key self.old.entries)
            (find (λ o. same_place o entry) self.old.entries) found.now }
        requires lo { reach.lo ≡ entry.reach.lo }
        ensures entries { OnOk result (self.new.entries ≡ take self.old.capacity
            (record entry { reach = reach } ∷ others entry self.old.entries)) }
        ensures evicted { IfOk result (λ r. r ≡ slice_get
            (record entry { reach = reach } ∷ others entry self.old.entries) self.old.capacity) }
        ensures capacity { self.new.capacity ≡ self.old.capacity }
        ensures unchanged { OnErr result (self.new ≡ self.old) }
        ensures handed_back { IfErr result (λ e. e.value ≡ entry) }
    {
        let (place, stored, before) = split(entry, reach);
        match put(&mut self.entries, &mut self.tags, found, place, stored) {
            Ok(evicted) => Ok(evicted),
            Err(failed) => {
                let (place, stored) = failed.value;
                Err(AllocFailed {
                    value: in_reach(place, stored, before),
                })
            }
        }
    }

    /// Closes the entries that an event invalidates just below its stamp, and returns how many.
    pub(crate) fn invalidate(&mut self, stamp: Stamp, tags: &TagSet) -> usize
        ensures entries { self.new.entries ≡ map (entry_after stamp tags.now) self.old.entries }
        ensures capacity { self.new.capacity ≡ self.old.capacity }
        ensures count { result ≡ count_by (is_invalidated stamp tags.now) self.old.entries }
    {
        let closing = Closing { stamp, tags };
        let count = self.tags.close(&mut self.entries, &closing);
        let _len = self.entries.len();
        count
    }

    /// Drops the entries whose span ends at the horizon or before it, and returns how many.
    pub(crate) fn drop_ended(&mut self, processed: Stamp, horizon: Stamp) -> usize
        ensures entries { self.new.entries
            ≡ filter (λ e. not (has_ended processed horizon e)) self.old.entries }
        ensures capacity { self.new.capacity ≡ self.old.capacity }
        ensures count { result ≡ count_by (has_ended processed horizon) self.old.entries }
    {
        let before = self.len();
        let sweep = Sweep { processed, horizon };
        self.entries.drop_ended(&mut self.tags, &sweep);
        before - self.len()
    }

    // Drops the least recently used entry, if there is one.
    fn drop_last(&mut self)
        ensures entries { self.new.entries ≡ take (length self.old.entries - 1) self.old.entries }
        ensures capacity { self.new.capacity ≡ self.old.capacity }
    {
        let _len = self.entries.len();
        let last = self.entries.drop_last();
        unlist_evicted(&mut self.tags, &last);
    }

    /// Keeps the longest prefix of the entries whose values have at most `most` bytes in all. Returns the
    /// number of entries dropped.
    pub(crate) fn trim(&mut self, most: usize) -> usize
        ensures entries { self.new.entries ≡ longest_within most self.old.entries }
        ensures capacity { self.new.capacity ≡ self.old.capacity }
        ensures count { result ≡ length self.old.entries - staying_count most self.old.entries }
    {
        let held = self.len();
        while self.bytes() > most {
            self.drop_last();
        }
        held - self.len()
    }
}
