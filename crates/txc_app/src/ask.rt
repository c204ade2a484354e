//! Requests of a function, and the answers that it gets.
ghost use Rattle.std.specs.Prelude.{◌≡◌};

use std::marker::Model;
use txc_node::Value;
use txc_rows::{Query, Row};
use txc_tags::Key;

/// Bytes, which a contract sees as a list.
#[derive(Debug, Drop)]
pub struct Bytes {
    items: Vec<u8>,
}

impl Model for Bytes {
    ghost use Rattle.std.specs.Prelude.{List, ℕ};

    ghost Value = { List ℕ };

    ghost view = { λ b. b.items.items };
}

impl Bytes {
    pub fn new(items: Vec<u8>) -> Bytes
        ensures { result ≡ items.items }
    {
        Bytes { items }
    }

    pub fn as_slice(&self) -> &[u8]
        ensures { result.now ≡ self.now }
    {
        &self.items
    }

    /// Returns the bytes as a `Vec`. Does not allocate.
    pub fn into_vec(self) -> Vec<u8>
        ensures { result.items ≡ self }
    {
        let Bytes { items } = self;
        items
    }
}

/// Rows of a query, which a contract sees as a list.
#[derive(Debug, Drop)]
pub struct Rows {
    items: Vec<Row>,
}

impl Model for Rows {
    ghost use Rattle.std.specs.Prelude.{List};
    ghost use Rattle.txc_rows.specs.Values.{RowValue};

    ghost Value = { List RowValue };

    ghost view = { λ r. r.items.items };
}

impl Rows {
    pub fn new(items: Vec<Row>) -> Rows
        ensures { result ≡ items.items }
    {
        Rows { items }
    }

    pub fn as_slice(&self) -> &[Row]
        ensures { result.now ≡ self.now }
    {
        &self.items
    }

    /// Returns the rows as a `Vec`. Does not allocate.
    pub fn into_vec(self) -> Vec<Row>
        ensures { result.items ≡ self }
    {
        let Rows { items } = self;
        items
    }
}

/// The next step of an activation of a function: a request, or its value.
#[derive(Debug, Drop)]
pub enum Ask {
    /// Requests the rows of a query.
    Query(Query),
    /// Requests the value of another call.
    Call(Key),
    /// Ends the activation with this value.
    Done(Bytes),
}

/// Answer to a request of an activation.
#[derive(Debug, Drop)]
pub enum Answer {
    /// The rows of the requested query.
    Rows(Rows),
    /// The value of the requested call.
    Value(Value),
}
