//! Entries by their places, with the number of bytes of their values.
ghost use Rattle.std.specs.Prelude.{◌≡◌, ◌-◌, ◌≤◌, [], length, take, slice_get, is_some, option_map, option_copied, IfOk, IfErr, OnOk, OnErr, IsSome, IsOk};
ghost use Rattle.std.specs.Map.{lookup, remove_entry};
ghost use Rattle.std.specs.Map.Iter.{deref_pair};
ghost use Rattle.std.specs.NonZero.{non_zero_usize_get};
ghost use Rattle.lru.specs.LruCache.{IsValid, lru_cache, last_entry, promoted, put_entries, displaced};
ghost use Rattle.txc_node.specs.Places.{equal_places};
ghost use Rattle.txc_node.specs.Cache.{bytes_of};
ghost use Rattle.txc_node.specs.IndexedEntries.{after_at, closed_reach, entries_of, stays_live};
ghost use Rattle.txc_node.specs.WeighedEntries.{value_len_in};

use crate::closing::Closing;
use crate::node::MOST_CAPACITY;
use crate::place::Place;
use crate::stored::Stored;
use lru::LruCache;
use std::alloc::{AllocError, AllocFailed, Global};
use std::fmt;
use std::marker::Model;
use std::num::NonZeroUsize;
use txc_stamp::Reach;

/// Entries by their places, the most recently used first, with the number of bytes of their values in all.
#[derive(Drop)]
pub(crate) struct WeighedEntries {
    cache: LruCache<Place, Stored>,
    bytes: usize,
}

impl Model for WeighedEntries {
    ghost use Rattle.lru.specs.LruCache.{LruCache as Pairs};
    ghost use Rattle.txc_node.specs.declared.place.Place.{Place};
    ghost use Rattle.txc_node.specs.declared.stored.Stored.{Stored};
    ghost use Rattle.txc_node.specs.WeighedEntries.{IsWeighed};

    ghost Value = { Pairs Place Stored };

    ghost view = { λ w. w.cache };

    ghost invariant = { λ w. IsWeighed w.cache w.bytes };
}

impl fmt::Debug for WeighedEntries {
    fn fmt<W: fmt::Write>(&self, f: &mut fmt::Formatter<W>) -> fmt::Result {
        f.debug_map().entries(self.cache.iter()).finish()
    }
}

// Returns the number of bytes of a pair's value, and 0 if there is no pair.
fn value_len_in(pair: &Option<(Place, Stored)>) -> usize
    ensures { result ≡ value_len_in pair.now }
{
    match pair {
        None => 0,
        Some((_, stored)) => stored.value.bytes().len(),
    }
}

// Closes the entry at a place just below an event that invalidates it. Returns its new reach, and whether the
// entry there is still valid now.
fn close_in(
    cache: &mut LruCache<Place, Stored>,
    place: &Place,
    closing: &Closing<'_>,
) -> (Option<Reach>, bool)
    ensures entries { cache.new.entries
        ≡ after_at closing.now.stamp closing.now.tags.now place.now cache.old.entries }
    ensures cap { cache.new.cap ≡ cache.old.cap }
    ensures reach { result.0 ≡ closed_reach closing.now.stamp closing.now.tags.now
        (lookup (equal_places place.now) cache.old.entries) }
    ensures live { result.1 ≡ stays_live closing.now.stamp closing.now.tags.now
        (lookup (equal_places place.now) cache.old.entries) }
{
    match cache.peek_mut(place) {
        None => (None, false),
        Some(stored) => {
            if !closing.close(stored) {
                return (None, stored.reach.is_still());
            }
            (Some(stored.reach), false)
        }
    }
}

impl WeighedEntries {
    /// Makes an empty list with room for `capacity` entries. Fails only if memory cannot be allocated.
    pub(crate) fn new(alloc: Global, capacity: NonZeroUsize) -> Result<WeighedEntries, AllocError>
        requires { non_zero_usize_get capacity ≤ MOST_CAPACITY }
        ensures { IfOk result (λ w. w ≡ lru_cache [] (non_zero_usize_get capacity)) }
    {
        let cache = LruCache::sparse(alloc, capacity)?;
        Ok(WeighedEntries { cache, bytes: 0 })
    }

    /// Returns how many entries there are.
    pub(crate) fn len(&self) -> usize
        ensures len { result ≡ length self.now.entries }
        ensures valid { IsValid equal_places self.now }
    {
        self.cache.len()
    }

    /// Returns the number of bytes of their values in all.
    pub(crate) fn bytes(&self) -> usize
        ensures { result ≡ bytes_of (entries_of self.now.entries) }
    {
        self.bytes
    }

    /// Returns the entry stored at a place.
    pub(crate) fn peek(&self, place: &Place) -> Option<&Stored>
        ensures { option_copied result ≡ lookup (equal_places place.now) self.now.entries }
    {
        self.cache.peek(place)
    }

    /// Returns the most recently used entry, with its place.
    pub(crate) fn first(&self) -> Option<(&Place, &Stored)>
        ensures { option_map deref_pair result ≡ slice_get self.now.entries 0 }
    {
        self.cache.peek_mru()
    }

    /// Moves the entry at a place to the front. Returns `true` if there is one.
    pub(crate) fn promote(&mut self, place: &Place) -> bool
        ensures value { result ≡ is_some (lookup (equal_places place.now) self.old.entries) }
        ensures entries { self.new
            ≡ lru_cache (promoted (equal_places place.now) self.old.entries) self.old.cap }
    {
        self.cache.promote(place)
    }

    /// Closes the entry at a place just below an event that invalidates it. Returns its new reach, and whether
    /// the entry there is still valid now.
    pub(crate) fn close(&mut self, place: &Place, closing: &Closing<'_>) -> (Option<Reach>, bool)
        ensures entries { self.new.entries
            ≡ after_at closing.now.stamp closing.now.tags.now place.now self.old.entries }
        ensures cap { self.new.cap ≡ self.old.cap }
        ensures reach { result.0 ≡ closed_reach closing.now.stamp closing.now.tags.now
            (lookup (equal_places place.now) self.old.entries) }
        ensures live { result.1 ≡ stays_live closing.now.stamp closing.now.tags.now
            (lookup (equal_places place.now) self.old.entries) }
    {
        close_in(&mut self.cache, place, closing)
    }

    /// Removes the entry stored at a place, and returns it.
    pub(crate) fn pop(&mut self, place: &Place) -> Option<Stored>
        ensures value { result ≡ lookup (equal_places place.now) self.old.entries }
        ensures entries { self.new
            ≡ lru_cache (remove_entry (equal_places place.now) self.old.entries) self.old.cap }
    {
        match self.cache.pop(place) {
            None => None,
            Some(stored) => {
                self.bytes -= stored.value.bytes().len();
                Some(stored)
            }
        }
    }

    /// Removes the least recently used entry, and returns it.
    pub(crate) fn pop_last(&mut self) -> Option<(Place, Stored)>
        ensures value { result ≡ last_entry self.old.entries }
        ensures entries { self.new
            ≡ lru_cache (take (length self.old.entries - 1) self.old.entries) self.old.cap }
    {
        let last = self.cache.pop_lru();
        self.bytes -= value_len_in(&last);
        last
    }

    /// Puts an entry first. Returns the entry that it replaced, or the last entry if that was dropped for want
    /// of room. Fails, and returns the new entry, if there is no memory for it.
    pub(crate) fn push(
        &mut self,
        place: Place,
        stored: Stored,
    ) -> Result<Option<(Place, Stored)>, AllocFailed<(Place, Stored)>>
        ensures old { IfOk result (λ old. old ≡ displaced equal_places self.old place stored) }
        ensures entries { OnOk result
            (self.new ≡ lru_cache (put_entries equal_places self.old place stored) self.old.cap) }
        ensures value_returned { IfErr result (λ e. e.value ≡ (place, stored)) }
        ensures err { OnErr result (self.new ≡ self.old) }
        ensures succeeds { IsSome (lookup (equal_places place) self.old.entries) → IsOk result }
    {
        let _len = self.cache.len();
        let more = stored.value.bytes().len();
        match self.cache.push(place, stored) {
            Err(failed) => Err(failed),
            Ok(displaced) => {
                self.bytes = self.bytes + more - value_len_in(&displaced);
                Ok(displaced)
            }
        }
    }
}
