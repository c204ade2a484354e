ghost use Rattle.std.specs.Prelude.{◌≡◌, ◌↔◌, IsTrue, IfOk, IsOk, IsErrOf};
ghost use Rattle.txc_rows.specs.Values.{RowValue, AreBytes, IsBody, IsRow};

use std::alloc::{AllocError, Global};
use std::marker::Model;
use thiserror::Error;
use txc_tags::Table;

/// The most bytes of a body that scripts can write.
pub const MAX_BODY_LEN: usize = 256;

/// The most bytes of any body.
pub const MAX_BYTES_LEN: usize = 65_536;

/// The first and the last byte that the body of a script's row may have: printable ones without the blank.
pub const FIRST_BODY_BYTE: u8 = 0x21;

pub const LAST_BODY_BYTE: u8 = 0x7e;

/// Errors of making a row.
#[derive(Clone, Copy, Debug, PartialEq, Eq, Error)]
pub enum RowError {
    /// The body is empty, longer than [`MAX_BODY_LEN`], or has a byte outside [`FIRST_BODY_BYTE`] to
    /// [`LAST_BODY_BYTE`].
    #[error("the body is not 1 to {MAX_BODY_LEN} bytes, each from 0x21 to 0x7E")]
    BadBody,
    /// The body is longer than [`MAX_BYTES_LEN`].
    #[error("the body has more than {MAX_BYTES_LEN} bytes")]
    LongBody,
}

/// A row of a table, with its id in the table, its group and its body.
#[derive(Debug, Drop)]
pub struct Row {
    table: Table,
    id: u32,
    group: u32,
    body: Vec<u8>,
}

impl Model for Row {
    ghost use Rattle.txc_rows.specs.Values.{RowValue, IsRow};

    ghost Value = { RowValue };

    ghost view = { λ r.
        record { table = r.table; id = r.id; group = r.group; body = r.body.items } };

    ghost invariant = { λ r.
        IsRow (record { table = r.table; id = r.id; group = r.group; body = r.body.items }) };
}

fn is_body(body: &[u8]) -> bool
    ensures { IsTrue result ↔ IsBody body.now }
{
    if body.is_empty() || body.len() > MAX_BODY_LEN {
        return false;
    }
    body.iter()
        .all(|byte| *byte >= FIRST_BODY_BYTE && *byte <= LAST_BODY_BYTE)
}

impl Row {
    /// Makes a row with a body that scripts can write. Fails, and drops the body, if it is empty, longer than
    /// [`MAX_BODY_LEN`], or has another byte.
    pub fn new(table: Table, id: u32, group: u32, body: Vec<u8>) -> Result<Row, RowError>
        ensures answer { IfOk result (λ r. r
            ≡ record { table = table; id = id; group = group; body = body.items }) }
        ensures only_if { IsOk result ↔ IsBody body.items }
        ensures refused { IsErrOf result RowError.BadBody ↔ (¬ IsBody body.items) }
    {
        if !is_body(&body) {
            return Err(RowError::BadBody);
        }
        Ok(Row {
            table,
            id,
            group,
            body,
        })
    }

    /// Makes a row with a body of any bytes. Fails, and drops the body, if it is longer than [`MAX_BYTES_LEN`].
    pub fn of_bytes(table: Table, id: u32, group: u32, body: Vec<u8>) -> Result<Row, RowError>
        ensures answer { IfOk result (λ r. r
            ≡ record { table = table; id = id; group = group; body = body.items }) }
        ensures only_if { IsOk result ↔ AreBytes body.items }
        ensures refused { IsErrOf result RowError.LongBody ↔ (¬ AreBytes body.items) }
    {
        if body.len() > MAX_BYTES_LEN {
            return Err(RowError::LongBody);
        }
        Ok(Row {
            table,
            id,
            group,
            body,
        })
    }

    /// Returns its table.
    pub fn table(&self) -> Table
        ensures { result ≡ self.now.table }
    {
        self.table
    }

    /// Returns its number in the table.
    pub fn id(&self) -> u32
        ensures { result ≡ self.now.id }
    {
        self.id
    }

    /// Returns the number of its group.
    pub fn group(&self) -> u32
        ensures { result ≡ self.now.group }
    {
        self.group
    }

    /// Returns the bytes of its body.
    pub fn body(&self) -> &[u8]
        ensures answer { result.now ≡ self.now.body }
        ensures bounds { IsRow self.now }
    {
        &self.body
    }

    /// Returns an equal row. Fails only if memory cannot be allocated.
    pub fn copy(&self, alloc: Global) -> Result<Row, AllocError>
        ensures { IfOk result (λ r. r ≡ self.now) }
    {
        Ok(Row {
            table: self.table,
            id: self.id,
            group: self.group,
            body: Vec::from_slice(alloc, &self.body)?,
        })
    }
}

impl PartialEq for Row {
    ghost use Rattle.std.proofs.Common.{rules};
    ghost use Rattle.std.specs.Cmp.Rules.{comparing};
    ghost use Rattle.txc_rows.specs.Values.{same_row};

    ghost eq = { same_row };

    ghost laws = { Prim.search (comparing, rules) };

    fn eq(&self, other: &Row) -> bool {
        let (table, id, group, body) = (self.table(), self.id(), self.group(), self.body());
        table == other.table() && id == other.id() && group == other.group() && body == other.body()
    }
}

impl Eq for Row {
    ghost use Rattle.std.proofs.Common.{rules};
    ghost use Rattle.std.specs.Cmp.Rules.{comparing};

    ghost laws = { Prim.search (comparing, rules) };
}
