//! Applying an event to the entries.
ghost use Rattle.std.specs.Prelude.{◌≡◌, true};
ghost use Rattle.std.specs.List.{AllByRecursion};
ghost use Rattle.txc_tags.specs.declared.tag.Rows.{Rows};
ghost use Rattle.txc_node.specs.declared.place.Place.{Place};
ghost use Rattle.txc_node.specs.IndexedEntries.{AreSparedAt, Closes, IsSpared, is_stale, lists_rows, stored_after};

use crate::bucket::Bucket;
use crate::keyed::KeyedEntries;
use crate::place::Place;
use crate::stored::Stored;
use crate::tag_index::Buckets;
use txc_stamp::Stamp;
use txc_tags::TagSet;

/// An event that is being applied. It closes, just below its stamp, the still valid entries that were known
/// below it and have a tag that it matches.
#[derive(Clone, Copy)]
pub(crate) struct Closing<'a> {
    pub(crate) stamp: Stamp,
    pub(crate) tags: &'a TagSet,
}

impl Closing<'_> {
    // Returns `true` if it invalidates the stored entry.
    fn is_stale(&self, stored: &Stored) -> bool
        ensures { result ≡ is_stale self.now.stamp self.now.tags.now stored.now }
    {
        stored.reach.is_still()
            && stored.reach.known() < self.stamp
            && self.tags.matches(&stored.tags)
    }

    /// Closes the stored entry if it invalidates it, and returns `true` if it does.
    pub(crate) fn close(&self, stored: &mut Stored) -> bool
        ensures stored { stored.new ≡ stored_after self.now.stamp self.now.tags.now stored.old }
        ensures is_stale { result ≡ is_stale self.now.stamp self.now.tags.now stored.old }
    {
        let stale = self.is_stale(stored);
        if stale {
            stored.reach = stored.reach.close_before(self.stamp);
        }
        stale
    }

    /// Closes the entries at these places that it invalidates, and returns how many.
    pub(crate) fn at_each(&self, entries: &mut KeyedEntries, places: &[Place]) -> usize
        ensures closes { Closes self.now.stamp self.now.tags.now entries.old entries.new result }
        ensures spared { AllByRecursion (IsSpared self.now.stamp self.now.tags.now entries.new.entries)
            places.now }
    {
        let _len = entries.len();
        let mut count: usize = 0;
        for i in 0..places.len() {
            let (closed, _) = entries.close_at(&places[i], self);
            count += closed;
        }
        count
    }

    // Closes the entries that it invalidates at places that are listed together, and returns how many.
    fn in_bucket(&self, entries: &mut KeyedEntries, bucket: &Bucket) -> usize
        ensures closes { Closes self.now.stamp self.now.tags.now entries.old entries.new result }
        ensures spared { AllByRecursion (IsSpared self.now.stamp self.now.tags.now entries.new.entries)
            bucket.now }
    {
        let _len = entries.len();
        let (first, others) = bucket.parts();
        let (count, _) = entries.close_at(first, self);
        count + self.at_each(entries, others)
    }

    // Closes the entries that it invalidates under the rows at an index of a table, and returns how many.
    fn at_index(&self, entries: &mut KeyedEntries, buckets: &Buckets, i: usize) -> usize
        ensures closes { Closes self.now.stamp self.now.tags.now entries.old entries.new result }
        ensures spared { AreSparedAt self.now.stamp self.now.tags.now entries.new.entries
            buckets.now.entries i }
    {
        match buckets.get_index(i) {
            None => 0,
            Some((_, bucket)) => self.in_bucket(entries, bucket),
        }
    }

    /// Closes the entries that it invalidates under all rows of a table, and returns how many.
    pub(crate) fn in_table(&self, entries: &mut KeyedEntries, buckets: &Buckets) -> usize
        ensures closes { Closes self.now.stamp self.now.tags.now entries.old entries.new result }
        ensures spared { (r : Rows) (q : Place) → lists_rows buckets.now.entries r q ≡ true
            → IsSpared self.now.stamp self.now.tags.now entries.new.entries q }
    {
        let _len = entries.len();
        let mut count: usize = 0;
        for i in 0..buckets.len() {
            count += self.at_index(entries, buckets, i);
        }
        count
    }
}
