ghost use Rattle.std.specs.Prelude.{◌≡◌, ◌≤◌, IsSome, IfSome, ◌↔◌};
ghost use Rattle.txc_tags.specs.Tags.{wildcard, id_tag, group_tag, are_all, is_wildcard, rows_match, tags_match, tag_before};

use std::marker::Model;

/// The greatest number of a table. The first one is 0.
pub const LAST_TABLE: u8 = 15;

/// Number of a table, 0 to [`LAST_TABLE`]; a contract sees the number.
#[derive(Clone, Copy, Debug, PartialEq, Eq, PartialOrd, Ord, Hash)]
pub struct Table {
    number: u8,
}

impl Model for Table {
    ghost use Rattle.std.specs.Prelude.{ℕ, ◌≤◌};
    ghost use Rattle.txc_tags.specs.declared.tag.TheConstants.{LAST_TABLE};

    ghost Value = { ℕ };

    ghost view = { λ t. t.number };

    ghost invariant = { λ t. t.number ≤ LAST_TABLE };

    ghost inverse = { λ n. record { number = n } };
}

impl Table {
    /// Makes the table of that number. Returns `None` if the number is beyond [`LAST_TABLE`].
    pub fn new(number: u8) -> Option<Table>
        ensures only_if { IsSome result ↔ (number ≤ LAST_TABLE) }
        ensures answer { IfSome result (λ t. t ≡ number) }
    {
        if number <= LAST_TABLE {
            Some(Table { number })
        } else {
            None
        }
    }

    /// Returns its number.
    pub fn number(self) -> u8
        ensures answer { result ≡ self }
        ensures bound { self ≤ LAST_TABLE }
    {
        self.number
    }
}

/// Rows of a table, in the order in which a set has them.
#[derive(Clone, Copy, Debug, PartialEq, Eq, PartialOrd, Ord, Hash)]
pub enum Rows {
    /// Every row: `?`.
    All,
    /// The row with that id: `id=7`.
    Id(u32),
    /// The rows of that group: `grp=2`.
    Group(u32),
}

impl Rows {
    /// Returns `true` if they are every row.
    fn are_all(&self) -> bool
        ensures { result ≡ are_all self.now }
    {
        match *self {
            Rows::All => true,
            Rows::Id(_) | Rows::Group(_) => false,
        }
    }

    fn matches(&self, other: &Rows) -> bool
        ensures { result ≡ rows_match self.now other.now }
    {
        self.are_all() || other.are_all() || self == other
    }
}

/// Rows of a table that a result depends on, or that an event changed.
///
/// Tags are ordered by table, and in a table the wildcard, the ids and the groups, each by number.
#[derive(Clone, Copy, Debug, PartialEq, Eq, PartialOrd, Ord, Hash)]
pub struct Tag {
    /// The table.
    pub table: Table,
    /// The rows of the table.
    pub rows: Rows,
}

impl Tag {
    /// Makes the wildcard, every row of the table: `t1:?`.
    pub fn wildcard(table: Table) -> Tag
        ensures { result ≡ wildcard table }
    {
        Tag {
            table,
            rows: Rows::All,
        }
    }

    /// Makes the tag of the row with that id: `t1:id=7`.
    pub fn id(table: Table, id: u32) -> Tag
        ensures { result ≡ id_tag table id }
    {
        Tag {
            table,
            rows: Rows::Id(id),
        }
    }

    /// Makes the tag of the rows of that group: `t1:grp=2`.
    pub fn group(table: Table, group: u32) -> Tag
        ensures { result ≡ group_tag table group }
    {
        Tag {
            table,
            rows: Rows::Group(group),
        }
    }

    /// Returns `true` if it covers every row of its table.
    pub fn is_wildcard(&self) -> bool
        ensures { result ≡ is_wildcard self.now }
    {
        self.rows.are_all()
    }

    /// Returns `true` if both are of one table, and one of them is its wildcard or they are equal. Does not
    /// allocate.
    pub fn matches(&self, other: &Tag) -> bool
        ensures { result ≡ tags_match self.now other.now }
    {
        self.table == other.table && self.rows.matches(&other.rows)
    }

    /// Returns `true` if it comes before the other in a set.
    pub(crate) fn comes_before(&self, other: &Tag) -> bool
        ensures { result ≡ tag_before self.now other.now }
    {
        self < other
    }
}
