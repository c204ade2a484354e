//! The entries of a node by their place and by their key.
ghost use Rattle.std.specs.Prelude.{List, ◌≡◌, ◌-◌, ◌≤◌, ◌∷◌, [], take, length, not, remove, None, Some, OnOk, OnErr, IfOk, IfErr, slice_get, option_copied};
ghost use Rattle.std.specs.List.{find, filter};
ghost use Rattle.std.specs.Option.{option_map};
ghost use Rattle.std.specs.NonZero.{non_zero_usize_get};
ghost use Rattle.txc_tags.specs.Keys.{Call};
ghost use Rattle.txc_node.specs.declared.entry.Entry.{Entry};
ghost use Rattle.txc_node.specs.Places.{place_of};
ghost use Rattle.txc_node.specs.Entries.{is_best, others, same_place};
ghost use Rattle.txc_node.specs.Cache.{bytes_of, has_ended};
ghost use Rattle.txc_node.specs.IndexedEntries.{AreOf, Closes, HoldsApart, IndexesTags, IsFound, IsSpared, Relists, StandsUnder, entries_under, entry_at, entry_of, is_live, listed, reaches_under, stored_of, with_first};

use crate::closing::Closing;
use crate::entry::Entry;
use crate::key_index::KeyIndex;
use crate::node::MOST_CAPACITY;
use crate::place::Place;
use crate::remaining_entries::RemainingEntries;
use crate::stored::{Stored, join, join_some};
use crate::sweeping::Sweep;
use crate::tag_index::TagIndex;
use crate::versions::{Found, Versions};
use crate::weighed::WeighedEntries;
use std::alloc::{AllocError, AllocFailed, Global};
use std::fmt;
use std::marker::Model;
use std::num::NonZeroUsize;
use txc_stamp::{Reach, Stamp};
use txc_tags::Key;

/// Up to `capacity` entries, the most recently used first, found by their place and by their key.
#[derive(Drop)]
pub(crate) struct KeyedEntries {
    cache: WeighedEntries,
    keys: KeyIndex,
}

impl Model for KeyedEntries {
    ghost use Rattle.txc_node.specs.IndexedEntries.{AreTied, HeldEntries, entries_of};

    ghost Value = { HeldEntries };

    ghost view = { λ x. record { entries = entries_of x.cache.entries; capacity = x.cache.cap } };

    ghost invariant = { λ x. AreTied x.cache.entries x.keys.versions.entries };
}

impl fmt::Debug for KeyedEntries {
    // Shows the entries only, since the index follows from them.
    fn fmt<W: fmt::Write>(&self, f: &mut fmt::Formatter<W>) -> fmt::Result {
        self.cache.fmt(f)
    }
}

// Puts the reach of an entry that was found first among those of its key.
fn bring_found(keys: &mut KeyIndex, key: &Key, found: Found)
    requires { slice_get (listed keys.old.versions.entries key.now) found.at ≡ Some found.reach }
    ensures { Relists key.now (found.reach ∷ remove (listed keys.old.versions.entries key.now) found.at)
        keys.old.versions.entries keys.new.versions.entries }
{
    if found.at > 0 {
        keys.bring_first(key, found.at, found.reach);
    }
}

impl KeyedEntries {
    /// Makes an empty list with room for `capacity` entries.
    pub(crate) fn new(alloc: Global, capacity: NonZeroUsize) -> Result<KeyedEntries, AllocError>
        requires { non_zero_usize_get capacity ≤ MOST_CAPACITY }
        ensures { IfOk result (λ x. x
            ≡ record { entries = []; capacity = non_zero_usize_get capacity }) }
    {
        let cache = WeighedEntries::new(alloc, capacity)?;
        Ok(KeyedEntries {
            cache,
            keys: KeyIndex::new(alloc),
        })
    }

    /// Returns how many entries there are.
    pub(crate) fn len(&self) -> usize
        ensures len { result ≡ length self.now.entries }
        ensures apart { HoldsApart self.now }
    {
        self.cache.len()
    }

    /// Returns the number of bytes of their values in all.
    pub(crate) fn bytes(&self) -> usize
        ensures { result ≡ bytes_of self.now.entries }
    {
        self.cache.bytes()
    }

    /// Returns the entries of a node that ends, without the index.
    pub(crate) fn drain(self) -> RemainingEntries
        ensures { result ≡ self.entries }
    {
        let KeyedEntries { cache, keys: _ } = self;
        RemainingEntries { cache }
    }

    /// Returns the entry of the key whose span meets the stamps from `lo` to `hi` and that lasts longest, and
    /// how many entries were looked at.
    pub(crate) fn best(
        &self,
        processed: Stamp,
        key: &Key,
        lo: Stamp,
        hi: Stamp,
    ) -> (Option<Found>, usize)
        ensures found { IsFound (entries_under key.now self.now.entries)
            (find (is_best processed key.now lo hi self.now.entries) self.now.entries) result.0 }
        ensures looked { result.1 ≡ length (entries_under key.now self.now.entries) }
    {
        match self.keys.get(key) {
            None => (None, 0),
            Some(versions) => (best_of(versions, processed, lo, hi), versions.len()),
        }
    }

    /// Returns the entry that has the key and the first stamp of this one.
    pub(crate) fn standing(&self, e: &Entry) -> Option<Found>
        ensures { IsFound (entries_under e.now.key self.now.entries)
            (find (λ o. same_place o e.now) self.now.entries) result }
    {
        match self.keys.get(&e.key) {
            None => None,
            Some(versions) => begins_at(versions, e.reach.lo()),
        }
    }

    /// Returns the entry at a place.
    pub(crate) fn get(&self, place: &Place) -> Option<&Stored>
        ensures { option_copied result ≡ option_map stored_of (entry_at self.now.entries place.now) }
    {
        self.cache.peek(place)
    }

    /// Returns the most recently used entry.
    pub(crate) fn first(&self) -> Option<&Stored>
        ensures { option_copied result ≡ option_map stored_of (slice_get self.now.entries 0) }
    {
        match self.cache.first() {
            None => None,
            Some((_, stored)) => Some(stored),
        }
    }

    /// Closes the entry at a place just below an event that invalidates it. Returns how many it closed, 0 or 1,
    /// and whether the entry there is still valid now.
    pub(crate) fn close_at(&mut self, place: &Place, closing: &Closing<'_>) -> (usize, bool)
        ensures closes { Closes closing.now.stamp closing.now.tags.now self.old self.new result.0 }
        ensures spared { IsSpared closing.now.stamp closing.now.tags.now self.new.entries place.now }
        ensures live { result.1 ≡ is_live self.new.entries place.now }
    {
        let (closed, is_live) = self.cache.close(place, closing);
        match closed {
            None => (0, is_live),
            Some(reach) => {
                self.keys.set(&place.key, reach);
                (1, is_live)
            }
        }
    }

    /// Moves an entry that was found to the front.
    pub(crate) fn bring_first(&mut self, key: &Key, found: Found)
        requires { slice_get (reaches_under key.now self.old.entries) found.at ≡ Some found.reach }
        ensures entries { (e : Entry)
            → slice_get (entries_under key.now self.old.entries) found.at ≡ Some e
            → self.new.entries ≡ e ∷ others e self.old.entries }
        ensures capacity { self.new.capacity ≡ self.old.capacity }
    {
        let place = Place::new(key, found.reach.lo());
        self.cache.promote(&place);
        bring_found(&mut self.keys, key, found);
    }

    /// Drops the entries that a sweep drops, and unlists them in the index of the tags.
    pub(crate) fn drop_ended(&mut self, index: &mut TagIndex, sweep: &Sweep)
        requires { IndexesTags index.old.tables.items self.old.entries }
        ensures entries { self.new.entries
            ≡ filter (λ e. not (has_ended sweep.now.processed sweep.now.horizon e)) self.old.entries }
        ensures capacity { self.new.capacity ≡ self.old.capacity }
        ensures listed { IndexesTags index.new.tables.items self.new.entries }
    {
        sweep.at_all(&mut self.cache, index, &self.keys.versions);
        self.keys.keep_lasting(sweep);
    }

    /// Inserts a new entry at the front, at an empty place. Returns the entry that was dropped if there was no
    /// room. Fails, and returns the new entry, if there is no memory for it.
    pub(crate) fn add(
        &mut self,
        place: Place,
        stored: Stored,
    ) -> Result<Option<Entry>, AllocFailed<(Place, Stored)>>
        requires placed { place ≡ place_of (entry_of (place, stored)) }
        requires absent { find (λ o. same_place o (entry_of (place, stored))) self.old.entries ≡ None }
        ensures entries { OnOk result (self.new.entries
            ≡ take self.old.capacity (with_first (entry_of (place, stored)) self.old.entries)) }
        ensures evicted { IfOk result (λ r. r
            ≡ slice_get (with_first (entry_of (place, stored)) self.old.entries) self.old.capacity) }
        ensures capacity { self.new.capacity ≡ self.old.capacity }
        ensures unchanged { OnErr result (self.new ≡ self.old) }
        ensures handed_back { IfErr result (λ e. e.value ≡ (place, stored)) }
    {
        let _len = self.cache.len();
        let Ok(()) = self.keys.add(&place.key, stored.reach) else {
            return Err(AllocFailed {
                value: (place, stored),
            });
        };
        match self.cache.push(place, stored) {
            Err(failed) => {
                let (place, stored) = failed.value;
                self.keys.drop_first(&place.key);
                Err(AllocFailed {
                    value: (place, stored),
                })
            }
            Ok(None) => Ok(None),
            Ok(Some((place, stored))) => {
                self.keys.drop_last(&place.key);
                Ok(Some(join(place, stored)))
            }
        }
    }

    /// Removes the least recently used entry, and returns it.
    pub(crate) fn drop_last(&mut self) -> Option<Entry>
        ensures last { result ≡ slice_get self.old.entries (length self.old.entries - 1) }
        ensures entries { self.new.entries ≡ take (length self.old.entries - 1) self.old.entries }
        ensures capacity { self.new.capacity ≡ self.old.capacity }
    {
        match self.cache.pop_last() {
            None => None,
            Some((place, stored)) => {
                self.keys.drop_last(&place.key);
                Some(join(place, stored))
            }
        }
    }

    /// Replaces the entry at this place by a new one, which becomes the most recently used. Returns the old
    /// one.
    pub(crate) fn replace(&mut self, at: usize, place: Place, stored: Stored) -> Option<Entry>
        requires placed { place ≡ place_of (entry_of (place, stored)) }
        requires there { StandsUnder (entry_of (place, stored)) self.old.entries at }
        ensures before { result ≡ entry_at self.old.entries place }
        ensures entries { self.new.entries ≡ with_first (entry_of (place, stored)) self.old.entries }
        ensures capacity { self.new.capacity ≡ self.old.capacity }
    {
        self.keys.bring_first(&place.key, at, stored.reach);
        join_some(self.cache.push(place, stored).unwrap())
    }
}

// Returns which of these lasts longest among those whose span meets the stamps from `lo` to `hi`.
fn best_of(versions: &Versions, processed: Stamp, lo: Stamp, hi: Stamp) -> Option<Found>
    ensures { (key : Call) (es : List Entry) → AreOf key es versions.now
        → IsFound es (find (is_best processed key lo hi es) es) result }
{
    match versions.best(processed, lo, hi) {
        None => None,
        Some(at) => {
            let reach = versions.get(at);
            Some(Found { at, reach })
        }
    }
}

// Returns which of these begins at a stamp.
fn begins_at(versions: &Versions, lo: Stamp) -> Option<Found>
    ensures { (e : Entry) (es : List Entry) → AreOf e.key es versions.now → lo ≡ e.reach.lo
        → IsFound es (find (λ o. same_place o e) es) result }
{
    match versions.position(lo) {
        None => None,
        Some(at) => {
            let reach = versions.get(at);
            Some(Found { at, reach })
        }
    }
}
