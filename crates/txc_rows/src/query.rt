ghost use Rattle.std.specs.Prelude.{◌≡◌, IfOk};
ghost use Rattle.txc_rows.specs.States.{query_table, matches};
ghost use Rattle.txc_rows.specs.RowTags.{query_tag};
ghost use Rattle.txc_rows.specs.Net.{change_table, change_id, same_key};

use crate::row::Row;
use std::alloc::{AllocError, Global};
use txc_tags::{Table, Tag};

/// A query of a state. Its answer is the rows that match, by id.
#[derive(Clone, Copy, Debug, PartialEq, Eq)]
pub enum Query {
    /// The row of the table with that id.
    ById(Table, u32),
    /// The rows of the table in that group.
    ByGroup(Table, u32),
    /// Every row of the table.
    All(Table),
    /// The rows of the table with ids from the first to the second, both included.
    Range(Table, u32, u32),
}

impl Query {
    /// Returns the table that it reads.
    pub fn table(&self) -> Table
        ensures { result ≡ query_table self.now }
    {
        match *self {
            Query::ById(table, _) => table,
            Query::ByGroup(table, _) => table,
            Query::All(table) => table,
            Query::Range(table, _, _) => table,
        }
    }

    /// Returns `true` if the query selects the row.
    pub fn matches(&self, row: &Row) -> bool
        ensures { result ≡ matches self.now row.now }
    {
        match *self {
            Query::ById(table, id) => row.table() == table && row.id() == id,
            Query::ByGroup(table, group) => row.table() == table && row.group() == group,
            Query::All(table) => row.table() == table,
            Query::Range(table, first, last) => {
                row.table() == table && first <= row.id() && row.id() <= last
            }
        }
    }

    /// Returns the single tag on which the query's answer depends.
    pub fn tag(&self) -> Tag
        ensures { result ≡ query_tag self.now }
    {
        match *self {
            Query::ById(table, id) => Tag::id(table, id),
            Query::ByGroup(table, group) => Tag::group(table, group),
            Query::All(table) => Tag::wildcard(table),
            Query::Range(table, _, _) => Tag::wildcard(table),
        }
    }
}

/// One change of a state.
#[derive(Debug, Drop)]
pub enum Change {
    /// Puts the row at its table and id, replacing the row there.
    Put(Row),
    /// Removes the row at the table and id, if there is one.
    Remove(Table, u32),
}

impl Change {
    /// Returns an equal change. Fails only if memory cannot be allocated.
    pub fn copy(&self, alloc: Global) -> Result<Change, AllocError>
        ensures { IfOk result (λ c. c ≡ self.now) }
    {
        match self {
            Change::Put(row) => Ok(Change::Put(row.copy(alloc)?)),
            Change::Remove(table, id) => Ok(Change::Remove(*table, *id)),
        }
    }

    /// Returns the table whose row it changes.
    pub fn table(&self) -> Table
        ensures { result ≡ change_table self.now }
    {
        match self {
            Change::Put(row) => row.table(),
            Change::Remove(table, _) => *table,
        }
    }

    /// Returns the id of the row that it changes.
    pub fn id(&self) -> u32
        ensures { result ≡ change_id self.now }
    {
        match self {
            Change::Put(row) => row.id(),
            Change::Remove(_, id) => *id,
        }
    }

    /// Returns `true` if both change the row of one table and id.
    pub fn has_same_key(&self, other: &Change) -> bool
        ensures { result ≡ same_key self.now other.now }
    {
        self.table() == other.table() && self.id() == other.id()
    }
}
