ghost use Rattle.std.specs.Prelude.{◌≡◌, ◌≤◌, true, [], ◌==◌, IsOk, IfOk, OnOk, OnErr, length};
ghost use Rattle.std.specs.List.{list_all};
ghost use Rattle.txc_tags.specs.Tags.{sets_match, covers, with_tag, with_tags, is_in_order, IsCanonical};

use crate::adding::{add_all, add_tag, covers_all, covers_tag};
use crate::tag::Tag;
use std::alloc::{AllocError, Global};
use std::marker::Model;

/// The tags that a result depends on, or that an event changed: at most sixteen of each table, or its wildcard
/// only.
///
/// A contract sees the list of the tags in order: by table; in a table the wildcard only, or the ids by number
/// and then the groups by number. So sets of the same tags are equal, whatever the order in which the tags were
/// added.
#[derive(Debug, Drop)]
pub struct TagSet {
    tags: Vec<Tag>,
}

impl Model for TagSet {
    ghost use Rattle.std.specs.Prelude.{List};
    ghost use Rattle.txc_tags.specs.declared.tag.Tag.{Tag};
    ghost use Rattle.txc_tags.specs.Tags.{IsCanonical};

    ghost Value = { List Tag };

    ghost view = { λ s. s.tags.items };

    ghost invariant = { λ s. IsCanonical s.tags.items };
}

impl TagSet {
    /// Makes the empty set. Does not allocate.
    pub fn new(alloc: Global) -> TagSet
        ensures { result ≡ [] }
    {
        TagSet {
            tags: Vec::new(alloc),
        }
    }

    /// Returns the tags in their order.
    pub fn tags(&self) -> &[Tag]
        ensures answer { result.now ≡ self.now }
        ensures canonical { IsCanonical self.now }
    {
        &self.tags
    }

    /// Returns `true` if it has no tag.
    pub fn is_empty(&self) -> bool
        ensures { result ≡ (length self.now == 0) }
    {
        self.tags.is_empty()
    }

    /// Returns `true` if it has the tag or the wildcard of the tag's table.
    pub fn covers(&self, tag: Tag) -> bool
        ensures { result ≡ covers self.now tag }
    {
        covers_tag(&self.tags, &tag)
    }

    /// Returns `true` if a tag of one set matches a tag of the other. Does not allocate.
    pub fn matches(&self, other: &TagSet) -> bool
        ensures { result ≡ sets_match self.now other.now }
    {
        slices_match(&self.tags, &other.tags)
    }

    /// Adds a tag. A covered tag changes nothing; a wildcard, and a seventeenth tag of a table, replaces the
    /// table's tags. Fails, and changes nothing, if memory for a growing set cannot be allocated.
    pub fn add(&mut self, tag: Tag) -> Result<(), AllocError>
        ensures after { OnOk result (self.new ≡ with_tag tag self.old) }
        ensures unchanged { OnErr result (self.new ≡ self.old) }
        ensures no_memory { length (with_tag tag self.old) ≤ length self.old → IsOk result }
    {
        add_tag(&mut self.tags, tag)
    }

    /// Adds the other set's tags one after the other. Fails, and changes nothing, only if memory cannot be
    /// allocated; it allocates none if each of them is covered.
    pub fn join(&mut self, other: &TagSet) -> Result<(), AllocError>
        ensures after { OnOk result (self.new ≡ with_tags other.now self.old) }
        ensures unchanged { OnErr result (self.new ≡ self.old) }
        ensures no_memory { list_all (covers self.old) other.now ≡ true → IsOk result }
    {
        if covers_all(&self.tags, &other.tags) {
            return Ok(());
        }
        self.tags.reserve(other.tags.len())?;
        add_all(&mut self.tags, &other.tags);
        Ok(())
    }

    /// Returns an equal set. Fails only if memory cannot be allocated.
    pub fn copy(&self, alloc: Global) -> Result<TagSet, AllocError>
        ensures { IfOk result (λ set. set ≡ self.now) }
    {
        let tags = self.tags.to_vec(alloc)?;
        Ok(TagSet { tags })
    }
}

/// Returns `true` if a tag of one list matches a tag of the other, in one pass over both.
fn slices_match(a: &[Tag], b: &[Tag]) -> bool
    requires first { is_in_order a.now ≡ true }
    requires second { is_in_order b.now ≡ true }
    ensures { result ≡ sets_match a.now b.now }
{
    let (mut i, mut j) = (0, 0);
    while i < a.len() && j < b.len() {
        let (x, y) = (a[i], b[j]);
        if x.matches(&y) {
            return true;
        }
        if x.comes_before(&y) {
            i += 1;
        } else {
            j += 1;
        }
    }
    false
}
