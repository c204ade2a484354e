//! The node: its entries, and the tags of the last events.
ghost use Rattle.std.specs.Prelude.{List, Option, None, option_copied, slice_get, if◌then◌else◌, is_some, ◌≡◌, ◌+◌, ◌<◌, ◌≤◌, ◌↔◌, length, [], IsTrue, Ok, Err, IfOk, IfErr, OnOk, OnErr, IsOk, MatchResult, false};
ghost use Rattle.std.specs.Option.{option_map};
ghost use Rattle.std.specs.Borrow.{sem};
ghost use Rattle.std.specs.Io.BufRead.{Rests};
ghost use Rattle.txc_node.specs.contracts.node.NodeCore.{the_row};
ghost use Rattle.txc_node.specs.declared.entry.Entry.{Entry};
ghost use Rattle.txc_node.specs.Cache.{ends_no_earlier, shown_of, empty_cache, empty_cache_at, found, lookup_answer, after_lookup, is_kept, after_insert, outcome, after_event, closed_count, after_sweep, swept_count, bytes_of, after_trim, trimmed_count};
ghost use Rattle.txc_node.specs.Hit.{seen};
ghost use Rattle.txc_node.specs.IndexedEntries.{IsFound, IsSearchOf, shown_as};

mod texts;

use crate::entry::Entry;
use crate::hit::Hit;
use crate::indexed::IndexedEntries;
use crate::place::Place;
use crate::remaining_entries::RemainingEntries;
use crate::replay::replay_for;
use crate::search::Search;
use crate::stored::Stored;
use crate::versions::Found;
use circular_buffer::HeapCircularBuffer;
use std::alloc::{AllocError, AllocFailed, Global};
use std::marker::Model;
use std::num::NonZeroUsize;
use thiserror::Error;
use txc_stamp::{Reach, Stamp};
use txc_tags::{Key, TagSet};

/// The greatest capacity that the settings of a node may ask for.
pub const MAX_CAPACITY: usize = 65_536;

/// The greatest capacity of any node, in entries.
pub const MOST_CAPACITY: usize = 1_048_576;

/// The greatest number of events whose tags a node may be made to store.
pub const MAX_RECENT: usize = 4_096;

/// The range of stamps of a lookup is empty: it ends before it begins.
#[derive(Clone, Copy, Debug, PartialEq, Eq, Error)]
#[error("the range of stamps ends before it begins")]
pub struct EmptyRange;

/// The event is not the one after the processed stamp.
#[derive(Clone, Copy, Debug, PartialEq, Eq, Error)]
#[error("the event does not directly follow the last one, of stamp {processed}")]
pub struct OutOfOrder {
    /// The stamp of the last event that the node took.
    pub processed: Stamp,
}

/// Result of an insertion.
#[derive(Debug, Drop)]
pub enum Inserted {
    /// The entry was stored, at the front.
    Stored {
        /// Its reach after the replay, known up to the last stamp of its span.
        reach: Reach,
        /// The entry that was dropped to make room for it, if one was.
        evicted: Option<Entry>,
    },
    /// The node has an entry with the same key and first stamp that ends no earlier, and keeps it. Returns the
    /// new entry.
    Kept(Entry),
}

/// The versioned cache of one node.
#[derive(Debug)]
pub struct NodeCore {
    entries: IndexedEntries,
    processed: Stamp,
    recent: HeapCircularBuffer<TagSet>,
}

// Not derived, since a derived one would be proved again in each crate above.
impl Drop for NodeCore {
    fn drop(self) {
        let NodeCore {
            entries: _,
            processed: _,
            recent: _,
        } = self;
    }
}

impl Model for NodeCore {
    ghost use Rattle.txc_node.specs.Cache.{Cache, IsBounded};

    ghost Value = { Cache };

    ghost view = { λ n. record {
      entries = n.entries.entries;
      processed = n.processed;
      recent = n.recent.items;
      capacity = n.entries.capacity;
      depth = n.recent.capacity;
    } };

    ghost invariant = { λ n. IsBounded (record {
      entries = n.entries.entries;
      processed = n.processed;
      recent = n.recent.items;
      capacity = n.entries.capacity;
      depth = n.recent.capacity;
    }) };
}

// Lends the parts of an entry.
fn hit_of(stored: Option<&Stored>, processed: Stamp) -> Option<Hit<'_>>
    ensures { option_map seen result ≡ option_map (shown_as processed) (option_copied stored.entry) }
{
    let stored = stored?;
    let _known = stored.reach.known();
    let last = stored.reach.end(processed) - 1;
    Some(Hit {
        stored: &stored.reach,
        last,
        value: &stored.value,
        tags: &stored.tags,
    })
}

// Returns the hit of the most recently used entry, if there is one.
fn hit_first(entries: &IndexedEntries, processed: Stamp, is_hit: bool) -> Option<Hit<'_>>
    ensures { option_map seen result
        ≡ (if is_hit then option_map (shown_of processed) (slice_get entries.now.entries 0) else None) }
{
    if !is_hit {
        return None;
    }
    hit_of(entries.keyed().first(), processed)
}

// Returns `true` if there is a reach that ends no earlier than a new one.
fn ends_no_earlier(found: &Option<Found>, reach: Reach, processed: Stamp) -> bool
    ensures { (e : Entry) (es : List Entry) (o : Option Entry) → IsFound es o found.now
        → result ≡ ends_no_earlier processed (record e { reach = reach }) o }
{
    match found {
        None => false,
        Some(old) => reach.end(processed) <= old.reach.end(processed),
    }
}

// Fails if the last stamp is below the first.
fn check_range(lo: Stamp, hi: Stamp) -> Result<(), EmptyRange>
    ensures only_if { OnOk result (lo ≤ hi) }
    ensures refused { OnErr result (hi < lo) }
{
    if hi < lo {
        return Err(EmptyRange);
    }
    Ok(())
}

impl NodeCore {
    /// Makes an empty node for at most `capacity` entries, which stores the tags of the last `recent` events.
    /// It allocates the space for these tags now, so that no event allocates. Fails only if memory cannot be
    /// allocated.
    pub fn new(alloc: Global, capacity: usize, recent: usize) -> Result<NodeCore, AllocError>
        requires capacity { (1 ≤ capacity) × (capacity ≤ MOST_CAPACITY) }
        requires recent { (1 ≤ recent) × (recent ≤ MAX_RECENT) }
        ensures { IfOk result (λ n. n ≡ empty_cache capacity recent) }
    {
        NodeCore::beginning_at(alloc, capacity, recent, Stamp::ZERO)
    }

    /// Makes an empty node as if it had taken the events up to stamp `from`. An inserted entry that is known
    /// only below `from` is closed at its last known stamp, since the node does not have the events in between.
    /// Fails only if memory cannot be allocated.
    pub fn beginning_at(
        alloc: Global,
        capacity: usize,
        recent: usize,
        from: Stamp,
    ) -> Result<NodeCore, AllocError>
        requires capacity { (1 ≤ capacity) × (capacity ≤ MOST_CAPACITY) }
        requires recent { (1 ≤ recent) × (recent ≤ MAX_RECENT) }
        ensures { IfOk result (λ n. n ≡ empty_cache_at capacity recent from) }
    {
        let room = NonZeroUsize::new(capacity).unwrap();
        let entries = IndexedEntries::new(alloc, room)?;
        let recent = HeapCircularBuffer::with_capacity(alloc, recent)?;
        Ok(NodeCore {
            entries,
            processed: from,
            recent,
        })
    }

    /// Returns the entries of a node that is no longer used. Does not allocate.
    pub fn drain(self) -> RemainingEntries
        ensures { result ≡ self.entries }
    {
        let NodeCore {
            entries,
            processed: _,
            recent: _,
        } = self;
        entries.drain()
    }

    /// Returns the stamp of the last event that it took.
    pub fn processed(&self) -> Stamp
        ensures { result ≡ self.now.processed }
    {
        self.processed
    }

    /// Returns how many entries it has.
    pub fn len(&self) -> usize
        ensures { result ≡ length self.now.entries }
    {
        self.entries.len()
    }

    /// Returns the number of bytes of its entries' values in all.
    pub fn bytes(&self) -> usize
        ensures { result ≡ bytes_of self.now.entries }
    {
        self.entries.bytes()
    }

    /// Returns `true` if it has no entry.
    pub fn is_empty(&self) -> bool
        ensures { IsTrue result ↔ (self.now.entries ≡ []) }
    {
        self.len() == 0
    }

    /// Searches for the entry that [`NodeCore::lookup`] would lend, and changes nothing. It looks only at the
    /// entries of the key. [`NodeCore::hit`] then lends the entry, and [`NodeCore::mark_used`] completes the
    /// lookup. Fails if `hi` is below `lo`. Does not allocate.
    pub fn search(&self, key: &Key, lo: Stamp, hi: Stamp) -> Result<Search, EmptyRange>
        ensures only_if { OnOk result (lo ≤ hi) }
        ensures refused { OnErr result (hi < lo) }
        ensures stamps { IfOk result (λ s. (s.lo ≡ lo) × (s.hi ≡ hi)) }
        ensures found { IfOk result (IsSearchOf self.now key.now) }
    {
        check_range(lo, hi)?;
        let (found, looked) = self.entries.keyed().best(self.processed, key, lo, hi);
        Ok(Search {
            lo,
            hi,
            found,
            looked: looked as u64,
        })
    }

    /// Lends the entry that the search found, as [`NodeCore::lookup`] does. Does not allocate.
    pub fn hit(&self, key: &Key, search: &Search) -> Option<Hit<'_>>
        requires { IsSearchOf self.now key.now search.now }
        ensures { option_map seen result ≡ lookup_answer self.now key.now search.now.lo search.now.hi }
    {
        let Some(found) = search.found else {
            return None;
        };
        let place = Place::new(key, found.reach.lo());
        hit_of(self.entries.keyed().get(&place), self.processed)
    }

    /// Makes the entry that the search found the most recently used, as [`NodeCore::lookup`] does. Does not
    /// allocate.
    pub fn mark_used(&mut self, key: &Key, search: &Search)
        requires { IsSearchOf self.old key.now search.now }
        ensures { self.new ≡ after_lookup self.old key.now search.now.lo search.now.hi }
    {
        if let Some(found) = search.found {
            self.entries.bring_first(key, found);
        }
    }

    // Looks an entry up and moves it to the front. Returns `true` if there is one.
    fn touch(&mut self, key: &Key, lo: Stamp, hi: Stamp) -> Result<bool, EmptyRange>
        ensures only_if { OnOk result (lo ≤ hi) }
        ensures refused { OnErr result (hi < lo) }
        ensures unchanged { OnErr result (self.new ≡ self.old) }
        ensures after { OnOk result (self.new ≡ after_lookup self.old key.now lo hi) }
        ensures is_hit { IfOk result (λ r. r ≡ is_some (found self.old key.now lo hi)) }
    {
        let search = self.search(key, lo, hi)?;
        self.mark_used(key, &search);
        Ok(search.found.is_some())
    }

    /// Looks up the call of `key` at the stamps from `lo` to `hi`, both included. Among the entries of the key
    /// whose span meets them, it lends the one whose span ends latest; of several such, the one that begins
    /// latest. That entry becomes the most recently used. `None` is a miss, which changes nothing. Fails if
    /// `hi` is below `lo`. Does not allocate.
    pub fn lookup(&mut self, key: &Key, lo: Stamp, hi: Stamp) -> Result<Option<Hit<'_>>, EmptyRange>
        ensures only_if { OnOk result (lo ≤ hi) }
        ensures refused { OnErr result (hi < lo) }
        ensures answer { IfOk result (λ r. option_map seen r ≡ lookup_answer self.old key.now lo hi) }
        // after an Ok the node is that after the lookup, and after an Err as it was
        ensures* after { sem 𝓛 (Rests the_row self.entry (λ new. MatchResult result
            (λ _. new ≡ after_lookup self.old key.now lo hi)
            (λ _. new ≡ self.old))) }
    {
        let is_hit = self.touch(key, lo, hi)?;
        let processed = self.processed;
        Ok(hit_first(&self.entries, processed, is_hit))
    }

    /// Takes the next event: closes, just below its stamp, the still valid entries that were known below it and
    /// have a tag that it matches. Returns how many. No entry moves. Fails if `stamp` does not directly follow
    /// the last event. Does not allocate.
    pub fn event(&mut self, stamp: Stamp, tags: TagSet) -> Result<usize, OutOfOrder>
        ensures only_if { IsOk result ↔ (stamp ≡ self.old.processed + 1) }
        ensures refused { IfErr result (λ e. e.processed ≡ self.old.processed) }
        ensures unchanged { OnErr result (self.new ≡ self.old) }
        ensures after { OnOk result (self.new ≡ after_event self.old stamp tags) }
        ensures answer { IfOk result (λ n. n ≡ closed_count self.old stamp tags) }
    {
        if stamp.number() != self.processed.number() + 1 {
            return Err(OutOfOrder {
                processed: self.processed,
            });
        }
        let count = self.entries.invalidate(stamp, &tags);
        self.processed = stamp;
        self.recent.push_back(tags);
        Ok(count)
    }

    /// Inserts an entry, after replaying the events after its last known stamp. It goes to the front. A full
    /// node drops its last entry for it. An entry with the same key and first stamp is replaced if it ends
    /// earlier, and kept otherwise. Fails, and returns the entry, only if memory cannot be allocated, and never
    /// if the old entry is kept.
    pub fn insert(&mut self, entry: Entry) -> Result<Inserted, AllocFailed<Entry>>
        ensures after { OnOk result (self.new ≡ after_insert self.old entry) }
        ensures answer { IfOk result (λ r. r ≡ outcome self.old entry) }
        ensures refused { OnErr result (is_kept self.old entry ≡ false) }
        ensures unchanged { OnErr result (self.new ≡ self.old) }
        ensures handed_back { IfErr result (λ e. e.value ≡ entry) }
    {
        let reach = replay_for(&entry, self.processed, &self.recent);
        let found = self.entries.keyed().standing(&entry);
        if ends_no_earlier(&found, reach, self.processed) {
            return Ok(Inserted::Kept(entry));
        }
        let evicted = self.entries.put(&found, entry, reach)?;
        let reach = reach.shown(self.processed);
        Ok(Inserted::Stored { reach, evicted })
    }

    /// Drops exactly the entries whose span ends at the horizon or before it, and returns how many. The others
    /// keep their order. Does not allocate.
    pub fn sweep(&mut self, horizon: Stamp) -> usize
        ensures after { self.new ≡ after_sweep self.old horizon }
        ensures answer { result ≡ swept_count self.old horizon }
    {
        self.entries.drop_ended(self.processed, horizon)
    }

    /// Keeps the longest prefix of the entries whose values have at most `most` bytes in all. Returns how many
    /// it dropped. Does not allocate.
    pub fn trim(&mut self, most: usize) -> usize
        ensures after { self.new ≡ after_trim self.old most }
        ensures answer { result ≡ trimmed_count self.old most }
    {
        self.entries.trim(most)
    }
}
