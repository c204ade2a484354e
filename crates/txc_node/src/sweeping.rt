//! Applying a sweep to the entries.
ghost use Rattle.std.specs.Prelude.{◌≡◌};
ghost use Rattle.std.specs.List.{AllByRecursion};
ghost use Rattle.txc_tags.specs.Keys.{Call};
ghost use Rattle.txc_node.specs.IndexedEntries.{entries_of, listed};
ghost use Rattle.txc_node.specs.Sweep.{AreStored, AreGoneAt, HasReach, IsGone, Sheds, elsewhere, ends_by};

use crate::call_key::CallKey;
use crate::place::Place;
use crate::tag_index::TagIndex;
use crate::versions::Versions;
use crate::weighed::WeighedEntries;
use indexmap::IndexMap;
use txc_stamp::{Reach, Stamp};
use txc_tags::Key;

/// A sweep that is being applied: it drops the entries whose span ends at the horizon or before it, and moves
/// no other. It reads the reaches in the index of the keys, and goes to an entry only to drop it.
#[derive(Clone, Copy)]
pub(crate) struct Sweep {
    pub(crate) processed: Stamp,
    pub(crate) horizon: Stamp,
}

// Removes the entry at a place, and unlists it under its tags, if there is one.
fn take_out(cache: &mut WeighedEntries, index: &mut TagIndex, place: &Place)
    requires stored { AreStored index.old.tables.items cache.old.entries }
    ensures stored { AreStored index.new.tables.items cache.new.entries }
    ensures cap { cache.new.cap ≡ cache.old.cap }
    ensures left { entries_of cache.new.entries ≡ elsewhere place.now (entries_of cache.old.entries) }
{
    if let Some(stored) = cache.pop(place) {
        index.unlist(&stored.tags, place);
    }
}

impl Sweep {
    /// Returns `true` if a span ends at the horizon or before it.
    pub(crate) fn ends(&self, reach: Reach) -> bool
        ensures { result ≡ ends_by self.now.processed self.now.horizon reach }
    {
        reach.end(self.processed) <= self.horizon.number()
    }

    // Removes the entry of a key with a reach, if that has ended.
    fn at_reach(&self, cache: &mut WeighedEntries, index: &mut TagIndex, key: &Key, reach: Reach)
        requires stored { AreStored index.old.tables.items cache.old.entries }
        requires reach { HasReach (entries_of cache.old.entries) key.now reach }
        ensures stored { AreStored index.new.tables.items cache.new.entries }
        ensures cap { cache.new.cap ≡ cache.old.cap }
        ensures sheds { Sheds self.now.processed self.now.horizon (entries_of cache.old.entries)
            (entries_of cache.new.entries) }
        ensures gone { IsGone self.now.processed self.now.horizon (entries_of cache.new.entries) key.now reach }
    {
        if self.ends(reach) {
            take_out(cache, index, &Place::new(key, reach.lo()));
        }
    }

    // Removes the ended entries at the reaches of a key.
    fn at_key(
        &self,
        cache: &mut WeighedEntries,
        index: &mut TagIndex,
        key: &Key,
        versions: &Versions,
    )
        requires stored { AreStored index.old.tables.items cache.old.entries }
        requires reaches { AllByRecursion (HasReach (entries_of cache.old.entries) key.now) versions.now }
        ensures stored { AreStored index.new.tables.items cache.new.entries }
        ensures cap { cache.new.cap ≡ cache.old.cap }
        ensures sheds { Sheds self.now.processed self.now.horizon (entries_of cache.old.entries)
            (entries_of cache.new.entries) }
        ensures gone { AllByRecursion (IsGone self.now.processed self.now.horizon (entries_of cache.new.entries) key.now)
            versions.now }
    {
        for i in 0..versions.len() {
            self.at_reach(cache, index, key, versions.get(i));
        }
    }

    // Removes the ended entries of the key at an index.
    fn at_index(
        &self,
        cache: &mut WeighedEntries,
        index: &mut TagIndex,
        keys: &IndexMap<CallKey, Versions>,
        i: usize,
    )
        requires stored { AreStored index.old.tables.items cache.old.entries }
        requires reaches { (key : Call) → AllByRecursion (HasReach (entries_of cache.old.entries) key)
            (listed keys.now.entries key) }
        ensures stored { AreStored index.new.tables.items cache.new.entries }
        ensures cap { cache.new.cap ≡ cache.old.cap }
        ensures sheds { Sheds self.now.processed self.now.horizon (entries_of cache.old.entries)
            (entries_of cache.new.entries) }
        ensures gone { AreGoneAt self.now.processed self.now.horizon (entries_of cache.new.entries) keys.now.entries i }
    {
        match keys.get_index(i) {
            None => (),
            Some((call, versions)) => self.at_key(cache, index, call.key(), versions),
        }
    }

    /// Removes the ended entries, by the reaches of all keys.
    pub(crate) fn at_all(
        &self,
        cache: &mut WeighedEntries,
        index: &mut TagIndex,
        keys: &IndexMap<CallKey, Versions>,
    )
        requires stored { AreStored index.old.tables.items cache.old.entries }
        requires reaches { (key : Call) → AllByRecursion (HasReach (entries_of cache.old.entries) key)
            (listed keys.now.entries key) }
        ensures stored { AreStored index.new.tables.items cache.new.entries }
        ensures cap { cache.new.cap ≡ cache.old.cap }
        ensures sheds { Sheds self.now.processed self.now.horizon (entries_of cache.old.entries)
            (entries_of cache.new.entries) }
        ensures gone { (key : Call)
            → AllByRecursion (IsGone self.now.processed self.now.horizon (entries_of cache.new.entries) key)
            (listed keys.now.entries key) }
    {
        for i in 0..keys.len() {
            self.at_index(cache, index, keys, i);
        }
    }
}
