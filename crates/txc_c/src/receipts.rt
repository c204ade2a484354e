//! Rows, queries and receipts, as structs of numbers.
ghost use Rattle.std.specs.Prelude.{◌≡◌, IfSome, is_some};
ghost use Rattle.txc_c.specs.Receipts.{crossing_receipt, crossing_row, is_query, query_of};

use txc_cushion::Pin;
use txc_rows::{Query, Row};
use txc_tags::Table;

/// A row without its body.
#[repr(C)]
#[derive(Clone, Copy)]
pub struct TxcRow {
    pub table: u8,
    pub id: u32,
    pub group: u32,
}

/// A query. Kind 0 is all rows of the table, 1 the row with the id `first`, 2 the rows of the group `first`, 3
/// the rows with ids from `first` to `last`.
#[repr(C)]
#[derive(Clone, Copy)]
pub struct TxcQuery {
    pub table: u8,
    pub kind: u8,
    pub first: u32,
    pub last: u32,
}

/// A receipt: the number of values that it explains, and the pin at which they are correct, if there is one.
#[repr(C)]
#[derive(Clone, Copy)]
pub struct TxcReceipt {
    pub answers: usize,
    pub has_pin: bool,
    pub stamp: u32,
    pub moment: u64,
}

impl TxcRow {
    pub(crate) fn of(row: &Row) -> TxcRow
        ensures { result ≡ crossing_row row.now }
    {
        TxcRow {
            table: row.table().number(),
            id: row.id(),
            group: row.group(),
        }
    }
}

impl TxcQuery {
    /// Returns the query, or `None` if there is no such table or no such kind.
    pub(crate) fn query(&self) -> Option<Query>
        ensures asked { IfSome result (λ query. query ≡ query_of self.now) }
        ensures there { is_some result ≡ is_query self.now }
    {
        let table = Table::new(self.table)?;
        match self.kind {
            0 => Some(Query::All(table)),
            1 => Some(Query::ById(table, self.first)),
            2 => Some(Query::ByGroup(table, self.first)),
            3 => Some(Query::Range(table, self.first, self.last)),
            _ => None,
        }
    }
}

impl TxcReceipt {
    pub(crate) fn of(pin: Option<Pin>, answers: usize) -> TxcReceipt
        ensures { result ≡ crossing_receipt pin answers }
    {
        match pin {
            Some(pin) => TxcReceipt {
                answers,
                has_pin: true,
                stamp: pin.stamp.number(),
                moment: pin.moment,
            },
            None => TxcReceipt {
                answers,
                has_pin: false,
                stamp: 0,
                moment: 0,
            },
        }
    }
}
