//! The last change of each table and id in a list of changes, by table and id.
ghost use Rattle.std.specs.Prelude.{◌≡◌, ◌≤◌, ◌∷◌, [], ℕ, OnOk, IfOk, MatchOption, length, flat_map};
ghost use Rattle.std.specs.List.{insert, list_any};
ghost use Rattle.txc_tags.specs.Tags.{with_tags};
ghost use Rattle.txc_rows.specs.declared.query.Query.TheVariants.{ById};
ghost use Rattle.txc_rows.specs.States.{State, answer};
ghost use Rattle.txc_rows.specs.Values.{same_row};
ghost use Rattle.txc_rows.specs.RowTags.{tags_of_row};
ghost use Rattle.txc_rows.specs.Net.{change_table, change_id, key_before, changes_state, placed, settled, puts_of};

use std::alloc::{AllocError, Global};
use txc_rows::{Change, Row};
use txc_tags::{Tag, TagSet};

fn is_key_before(one: &Change, other: &Change) -> bool
    ensures { result ≡ key_before one.now other.now }
{
    let (table, other_table) = (one.table(), other.table());
    table < other_table || table == other_table && one.id() < other.id()
}

/// Returns the change's place among the settled later ones, or `None` if one of them has its table and id.
fn place_of(change: &Change, settled: &[Change]) -> Option<usize>
    ensures { MatchOption result (placed change.now settled.now ≡ settled.now)
        (λ at. (at ≤ length settled.now)
        × (insert settled.now at change.now ≡ placed change.now settled.now)) }
{
    for (at, other) in settled.iter().enumerate() {
        if change.has_same_key(other) {
            return None;
        }
        if is_key_before(change, other) {
            return Some(at);
        }
    }
    Some(settled.len())
}

/// Returns the last change of each table and id, by table and id. Fails only if memory cannot be allocated.
pub(crate) fn settle(alloc: Global, changes: &[Change]) -> Result<Vec<Change>, AllocError>
    ensures { IfOk result (λ last. last.items ≡ settled changes.now) }
{
    let mut last = Vec::new(alloc);
    let mut left = changes.len();
    while left > 0 {
        left -= 1;
        let change = &changes[left];
        if let Some(at) = place_of(change, &last) {
            last.insert(at, change.copy(alloc)?)?;
        }
    }
    Ok(last)
}

fn has_row(rows: &[Row], row: &Row) -> bool
    ensures { result ≡ list_any (same_row row.now) rows.now }
{
    rows.iter().any(|old| row == old)
}

/// Returns `true` if the change makes another state, given the rows at its table and id.
pub(crate) fn makes_another(change: &Change, rows: &[Row]) -> bool
    ensures { (s : State) → rows.now ≡ answer (ById (change_table change.now) (change_id change.now)) s
        → result ≡ changes_state s change.now }
{
    match change {
        Change::Put(row) => !has_row(rows, row),
        Change::Remove(_, _) => !rows.is_empty(),
    }
}

/// Adds the tags of a row: its id's and its group's. Fails only if memory cannot be allocated.
fn add_row(tags: &mut TagSet, row: &Row) -> Result<(), AllocError>
    ensures { OnOk result (tags.new ≡ with_tags (tags_of_row row.now) tags.old) }
{
    tags.add(Tag::id(row.table(), row.id()))?;
    tags.add(Tag::group(row.table(), row.group()))?;
    Ok(())
}

/// Adds the tags of the rows. Fails only if memory cannot be allocated.
pub(crate) fn add_rows(tags: &mut TagSet, rows: &[Row]) -> Result<(), AllocError>
    ensures { OnOk result (tags.new ≡ with_tags (flat_map tags_of_row rows.now) tags.old) }
{
    for row in rows {
        add_row(tags, row)?;
    }
    Ok(())
}

fn add_put(tags: &mut TagSet, change: &Change) -> Result<(), AllocError>
    ensures { OnOk result (tags.new ≡ with_tags (flat_map tags_of_row (puts_of (change.now ∷ []))) tags.old) }
{
    match change {
        Change::Put(row) => add_row(tags, row),
        Change::Remove(_, _) => Ok(()),
    }
}

/// Adds the tags of the rows that the changes put. Fails only if memory cannot be allocated.
pub(crate) fn add_puts(tags: &mut TagSet, changes: &[Change]) -> Result<(), AllocError>
    ensures { OnOk result (tags.new ≡ with_tags (flat_map tags_of_row (puts_of changes.now)) tags.old) }
{
    for change in changes {
        add_put(tags, change)?;
    }
    Ok(())
}
