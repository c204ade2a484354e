//! Adding a tag to the list of a set.
ghost use Rattle.std.specs.Prelude.{◌≡◌, ◌+◌, ◌≤◌, ◌<◌, ◌==◌, ◌||◌, not, true, false, IsOk, OnOk, OnErr, length, filter, count_by, vec_len, vec_capacity};
ghost use Rattle.std.specs.List.{list_all};
ghost use Rattle.txc_tags.specs.Tags.{wildcard, is_wildcard, has_tag, covers, is_of, is_full, tag_before, put_in, wildcarded, with_tag, with_tags, IsCanonical};

use crate::tag::{Rows, Table, Tag};
use std::alloc::AllocError;

/// The most tags of one table in a set.
pub const MAX_TAGS: usize = 16;

/// Adds the tag to the tags of a set. Fails, and changes nothing, if there is no memory for it; it needs none
/// if the list does not grow or has room for one more.
pub fn add_tag(tags: &mut Vec<Tag>, tag: Tag) -> Result<(), AllocError>
    requires { IsCanonical tags.old.items }
    ensures after { OnOk result (tags.new.items ≡ with_tag tag tags.old.items) }
    ensures unchanged { OnErr result (tags.new.items ≡ tags.old.items) }
    ensures no_memory { length (with_tag tag tags.old.items) ≤ length tags.old.items → IsOk result }
    ensures room { vec_len tags.old < vec_capacity tags.old → IsOk result }
    ensures capacity { vec_capacity tags.old ≤ vec_capacity tags.new }
    ensures grows { vec_len tags.new ≤ vec_len tags.old + 1 }
{
    if covers_tag(tags, &tag) {
        return Ok(());
    }
    if becomes_wildcard(tags, &tag) {
        return put_wildcard(tags, tag.table);
    }
    put_tag(tags, tag)
}

fn has(tags: &[Tag], tag: &Tag) -> bool
    ensures { result ≡ has_tag tags.now tag.now }
{
    tags.iter().any(|t| tag == t)
}

/// Returns `true` if the tags have this tag or the wildcard of its table.
pub fn covers_tag(tags: &[Tag], tag: &Tag) -> bool
    ensures { result ≡ covers tags.now tag.now }
{
    has(tags, tag) || has(tags, &Tag::wildcard(tag.table))
}

/// Returns `true` if the tags have each of the other tags or the wildcard of its table.
pub fn covers_all(tags: &[Tag], others: &[Tag]) -> bool
    ensures { result ≡ list_all (covers tags.now) others.now }
{
    others.iter().all(|t| covers_tag(tags, t))
}

fn count_of(tags: &[Tag], table: Table) -> usize
    ensures { result ≡ count_by (is_of table) tags.now }
{
    tags.iter().filter(|t| t.table == table).count()
}

/// Returns `true` if adding the tag leaves its table's wildcard only.
fn becomes_wildcard(tags: &[Tag], tag: &Tag) -> bool
    ensures { result ≡ is_wildcard tag.now || is_full tag.now.table tags.now }
{
    tag.is_wildcard() || count_of(tags, tag.table) >= MAX_TAGS
}

/// Returns the number of tags that come before this one.
fn place_of(tags: &[Tag], tag: &Tag) -> usize
    ensures value { result ≡ count_by (λ x. tag_before x tag.now) tags.now }
    ensures bound { result ≤ length tags.now }
{
    tags.iter().filter(|t| *t < tag).count()
}

/// Inserts the tag, which is not in the list, at its place.
fn put_tag(tags: &mut Vec<Tag>, tag: Tag) -> Result<(), AllocError>
    requires canonical { IsCanonical tags.old.items }
    requires absent { has_tag tags.old.items tag ≡ false }
    ensures after { OnOk result (tags.new.items ≡ put_in tag tags.old.items) }
    ensures unchanged { OnErr result (tags.new.items ≡ tags.old.items) }
    ensures room { vec_len tags.old < vec_capacity tags.old → IsOk result }
    ensures capacity { vec_capacity tags.old ≤ vec_capacity tags.new }
    ensures grows { vec_len tags.new ≤ vec_len tags.old + 1 }
{
    let place = place_of(tags, &tag);
    tags.insert(place, tag)?;
    Ok(())
}

/// Removes the tags of the table.
fn take_out(tags: &mut Vec<Tag>, table: Table)
    ensures others { tags.new.items ≡ filter (λ x. not (x.table == table)) tags.old.items }
    ensures bound { vec_len tags.new ≤ vec_len tags.old }
    ensures capacity { vec_capacity tags.new ≡ vec_capacity tags.old }
{
    tags.retain(|t| t.table != table);
}

/// Makes room for the table's wildcard instead of its tags.
fn make_room(tags: &mut Vec<Tag>, table: Table) -> Result<(), AllocError>
    ensures same { tags.new.items ≡ tags.old.items }
    ensures after { OnOk result
        (length (filter (λ x. not (x.table == table)) tags.old.items) < vec_capacity tags.new) }
    ensures no_memory { 0 < count_by (is_of table) tags.old.items → IsOk result }
    ensures room { vec_len tags.old < vec_capacity tags.old → IsOk result }
    ensures capacity { vec_capacity tags.old ≤ vec_capacity tags.new }
{
    if count_of(tags, table) > 0 {
        return Ok(());
    }
    tags.reserve(1)
}

/// Replaces the tags of the table by its wildcard.
fn put_wildcard(tags: &mut Vec<Tag>, table: Table) -> Result<(), AllocError>
    requires canonical { IsCanonical tags.old.items }
    ensures after { OnOk result (tags.new.items ≡ wildcarded table tags.old.items) }
    ensures unchanged { OnErr result (tags.new.items ≡ tags.old.items) }
    ensures no_memory { length (wildcarded table tags.old.items) ≤ length tags.old.items → IsOk result }
    ensures room { vec_len tags.old < vec_capacity tags.old → IsOk result }
    ensures capacity { vec_capacity tags.old ≤ vec_capacity tags.new }
    ensures grows { vec_len tags.new ≤ vec_len tags.old + 1 }
{
    make_room(tags, table)?;
    take_out(tags, table);
    let wildcard = Tag {
        table,
        rows: Rows::All,
    };
    let place = place_of(tags, &wildcard);
    tags.insert(place, wildcard)?;
    Ok(())
}

/// Adds the tags one after the other. The list has room for all of them.
pub fn add_all(tags: &mut Vec<Tag>, more: &[Tag])
    requires canonical { IsCanonical tags.old.items }
    requires room { vec_len tags.old + length more.now ≤ vec_capacity tags.old }
    ensures { tags.new.items ≡ with_tags more.now tags.old.items }
{
    for tag in more {
        match add_tag(tags, *tag) {
            Ok(()) => {}
            Err(_) => unreachable!(),
        }
    }
}
