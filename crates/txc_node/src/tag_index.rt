//! The index of the still valid entries by their tags.
ghost use Rattle.std.specs.Prelude.{vec_len, ◌≡◌, true, false, OnOk};
ghost use Rattle.std.specs.List.{AllByRecursion};
ghost use Rattle.txc_tags.specs.declared.tag.Tag.{Tag};
ghost use Rattle.txc_tags.specs.declared.tag.Rows.{Rows};
ghost use Rattle.txc_node.specs.declared.place.Place.{Place};
ghost use Rattle.txc_tags.specs.Tags.{same_tag, has_tag, rows_match};
ghost use Rattle.txc_node.specs.Places.{equal_places};
ghost use Rattle.txc_node.specs.IndexedEntries.{AreSparedBy, Closes, IsSpared, KeepsListed, equal_rows, is_live, lists, lists_rows};

use crate::bucket::Bucket;
use crate::closing::Closing;
use crate::keyed::KeyedEntries;
use crate::place::Place;
use indexmap::IndexMap;
use std::alloc::{AllocError, Global};
use txc_tags::{LAST_TABLE, Rows, Tag, TagSet};

/// The places of entries by the rows of one table that they depend on.
pub(crate) type Buckets = IndexMap<Rows, Bucket>;

/// Number of tables.
const TABLES: usize = LAST_TABLE as usize + 1;

/// The places of the still valid entries by their tags: a map for each table. A place may stay listed after its
/// entry was closed, until an event has the tag or the entry is dropped.
#[derive(Debug, Drop)]
pub(crate) struct TagIndex {
    alloc: Global,
    pub(crate) tables: Vec<Buckets>,
    ghost whole: { vec_len tables ≡ 16 },
}

// Lists a place under rows of a table.
fn list(buckets: &mut Buckets, alloc: Global, rows: Rows, place: &Place) -> Result<(), AllocError>
    ensures listed { OnOk result (lists_rows buckets.new.entries rows place.now ≡ true) }
    ensures kept { (r : Rows) (q : Place) → lists_rows buckets.old.entries r q ≡ true
        → lists_rows buckets.new.entries r q ≡ true }
{
    match buckets.get_mut(&rows) {
        Some(bucket) => bucket.add(alloc, place),
        None => {
            buckets.insert(rows, Bucket::one(place.copy()))?;
            Ok(())
        }
    }
}

// Unlists a place under rows of a table.
fn unlist(buckets: &mut Buckets, rows: Rows, place: &Place)
    ensures places { (r : Rows) (q : Place) → equal_places place.now q ≡ false
        → lists_rows buckets.old.entries r q ≡ true → lists_rows buckets.new.entries r q ≡ true }
    ensures rows { (r : Rows) (q : Place) → equal_rows rows r ≡ false
        → lists_rows buckets.old.entries r q ≡ true → lists_rows buckets.new.entries r q ≡ true }
{
    let stays = match buckets.get_mut(&rows) {
        None => true,
        Some(bucket) => bucket.remove(place),
    };
    if !stays {
        buckets.swap_remove(&rows);
    }
}

// Keeps under rows of a table the places of still valid entries.
fn clean_rows(buckets: &mut Buckets, rows: Rows, entries: &KeyedEntries)
    ensures kept { (r : Rows) (q : Place) → is_live entries.now.entries q ≡ true
        → lists_rows buckets.old.entries r q ≡ true → lists_rows buckets.new.entries r q ≡ true }
{
    let stays = match buckets.get_mut(&rows) {
        None => true,
        Some(bucket) => bucket.clean(entries),
    };
    if !stays {
        buckets.swap_remove(&rows);
    }
}

// Keeps under all rows of a table the places of still valid entries.
fn clean_all(buckets: &mut Buckets, entries: &KeyedEntries)
    ensures kept { (r : Rows) (q : Place) → is_live entries.now.entries q ≡ true
        → lists_rows buckets.old.entries r q ≡ true → lists_rows buckets.new.entries r q ≡ true }
{
    for i in (0..buckets.len()).rev() {
        let rows = match buckets.get_index(i) {
            None => Rows::All,
            Some((rows, _)) => *rows,
        };
        clean_rows(buckets, rows, entries);
    }
}

// Closes the entries that an event invalidates at the places under rows of a table, and returns how many. It
// keeps the places of still valid entries.
fn close_rows(
    buckets: &mut Buckets,
    rows: Rows,
    entries: &mut KeyedEntries,
    closing: &Closing<'_>,
) -> usize
    ensures closes { Closes closing.now.stamp closing.now.tags.now entries.old entries.new result }
    ensures spared { (q : Place) → lists_rows buckets.old.entries rows q ≡ true
        → IsSpared closing.now.stamp closing.now.tags.now entries.new.entries q }
    ensures kept { (r : Rows) (q : Place) → is_live entries.new.entries q ≡ true
        → lists_rows buckets.old.entries r q ≡ true → lists_rows buckets.new.entries r q ≡ true }
{
    let Some(bucket) = buckets.get_mut(&rows) else {
        return 0;
    };
    let (count, stays) = bucket.close(entries, closing);
    if !stays {
        buckets.swap_remove(&rows);
    }
    count
}

// Closes the entries that an event invalidates at the places under all rows of a table, and returns how many.
// It keeps the places of still valid entries.
fn close_table(buckets: &mut Buckets, entries: &mut KeyedEntries, closing: &Closing<'_>) -> usize
    ensures closes { Closes closing.now.stamp closing.now.tags.now entries.old entries.new result }
    ensures spared { (r : Rows) (q : Place) → lists_rows buckets.old.entries r q ≡ true
        → IsSpared closing.now.stamp closing.now.tags.now entries.new.entries q }
    ensures kept { (r : Rows) (q : Place) → is_live entries.new.entries q ≡ true
        → lists_rows buckets.old.entries r q ≡ true → lists_rows buckets.new.entries r q ≡ true }
{
    let count = closing.in_table(entries, buckets);
    clean_all(buckets, entries);
    count
}

// Closes the entries that an event invalidates at the places under rows that match a tag of its table, and
// returns how many. It keeps the places of still valid entries.
fn close_by(
    buckets: &mut Buckets,
    tag: &Tag,
    entries: &mut KeyedEntries,
    closing: &Closing<'_>,
) -> usize
    ensures closes { Closes closing.now.stamp closing.now.tags.now entries.old entries.new result }
    ensures spared { (r : Rows) (q : Place) → rows_match tag.now.rows r ≡ true
        → lists_rows buckets.old.entries r q ≡ true
        → IsSpared closing.now.stamp closing.now.tags.now entries.new.entries q }
    ensures kept { (r : Rows) (q : Place) → is_live entries.new.entries q ≡ true
        → lists_rows buckets.old.entries r q ≡ true → lists_rows buckets.new.entries r q ≡ true }
{
    let _len = entries.len();
    if tag.is_wildcard() {
        return close_table(buckets, entries, closing);
    }
    let count = close_rows(buckets, tag.rows, entries, closing);
    count + close_rows(buckets, Rows::All, entries, closing)
}

// Returns `true` if a set has a tag.
fn has_tag(tags: &TagSet, tag: &Tag) -> bool
    ensures { result ≡ has_tag tags.now tag.now }
{
    tags.tags().contains(tag)
}

impl TagIndex {
    /// Makes an empty index. Fails only if memory cannot be allocated.
    pub(crate) fn new(alloc: Global) -> Result<TagIndex, AllocError> {
        let mut tables = Vec::with_capacity(alloc, TABLES)?;
        for i in 0..TABLES {
            tables.push(IndexMap::new(alloc))?;
        }
        Ok(TagIndex { alloc, tables })
    }

    // Lists a place under a tag.
    fn list_one(&mut self, tag: &Tag, place: &Place) -> Result<(), AllocError>
        ensures listed { OnOk result (lists self.new.tables.items tag.now place.now ≡ true) }
        ensures kept { KeepsListed (λ t q. Unit {0}) self.old.tables.items self.new.tables.items }
    {
        let at = tag.table.number() as usize;
        list(&mut self.tables[at], self.alloc, tag.rows, place)
    }

    // Unlists a place under a tag.
    fn unlist_one(&mut self, tag: &Tag, place: &Place)
        ensures places { KeepsListed (λ t q. equal_places place.now q ≡ false)
            self.old.tables.items self.new.tables.items }
        ensures tags { KeepsListed (λ t q. same_tag t tag.now ≡ false)
            self.old.tables.items self.new.tables.items }
    {
        let at = tag.table.number() as usize;
        unlist(&mut self.tables[at], tag.rows, place);
    }

    /// Lists a place under each of these tags. Fails if there is no memory for it; listed places stay.
    pub(crate) fn list(&mut self, tags: &TagSet, place: &Place) -> Result<(), AllocError>
        ensures listed { OnOk result
            (AllByRecursion (λ t. lists self.new.tables.items t place.now ≡ true) tags.now) }
        ensures kept { KeepsListed (λ t q. Unit {0}) self.old.tables.items self.new.tables.items }
    {
        for tag in tags.tags() {
            self.list_one(tag, place)?;
        }
        Ok(())
    }

    /// Unlists a place under each of these tags.
    pub(crate) fn unlist(&mut self, tags: &TagSet, place: &Place)
        ensures { KeepsListed (λ t q. equal_places place.now q ≡ false)
            self.old.tables.items self.new.tables.items }
    {
        for tag in tags.tags() {
            self.unlist_one(tag, place);
        }
    }

    // Unlists a place under a tag that is not one of the others.
    fn unlist_other(&mut self, tag: &Tag, others: &TagSet, place: &Place)
        ensures places { KeepsListed (λ t q. equal_places place.now q ≡ false)
            self.old.tables.items self.new.tables.items }
        ensures tags { KeepsListed (λ t q. has_tag others.now t ≡ true)
            self.old.tables.items self.new.tables.items }
    {
        if !has_tag(others, tag) {
            self.unlist_one(tag, place);
        }
    }

    /// Unlists a place under each of these tags that is not one of the others.
    pub(crate) fn unlist_others(&mut self, tags: &TagSet, others: &TagSet, place: &Place)
        ensures places { KeepsListed (λ t q. equal_places place.now q ≡ false)
            self.old.tables.items self.new.tables.items }
        ensures tags { KeepsListed (λ t q. has_tag others.now t ≡ true)
            self.old.tables.items self.new.tables.items }
    {
        for tag in tags.tags() {
            self.unlist_other(tag, others, place);
        }
    }

    // Closes the entries that an event invalidates at the places under tags that match this one, and returns
    // how many. It keeps the places of still valid entries.
    fn close_one(&mut self, tag: &Tag, entries: &mut KeyedEntries, closing: &Closing<'_>) -> usize
        ensures closes { Closes closing.now.stamp closing.now.tags.now entries.old entries.new result }
        ensures spared { AreSparedBy closing.now.stamp closing.now.tags.now entries.new.entries
            self.old.tables.items tag.now }
        ensures kept { KeepsListed (λ t q. is_live entries.new.entries q ≡ true)
            self.old.tables.items self.new.tables.items }
    {
        let at = tag.table.number() as usize;
        close_by(&mut self.tables[at], tag, entries, closing)
    }

    /// Closes the entries that an event invalidates at the places under tags that match one of its own, and
    /// returns how many. It keeps the places of still valid entries.
    pub(crate) fn close(&mut self, entries: &mut KeyedEntries, closing: &Closing<'_>) -> usize
        ensures closes { Closes closing.now.stamp closing.now.tags.now entries.old entries.new result }
        ensures spared { AllByRecursion (AreSparedBy closing.now.stamp closing.now.tags.now entries.new.entries
            self.old.tables.items) closing.now.tags.now }
        ensures kept { KeepsListed (λ t q. is_live entries.new.entries q ≡ true)
            self.old.tables.items self.new.tables.items }
    {
        let _len = entries.len();
        let mut count: usize = 0;
        for tag in closing.tags.tags() {
            count += self.close_one(tag, entries, closing);
        }
        count
    }
}
