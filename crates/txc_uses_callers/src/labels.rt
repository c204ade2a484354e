//! A function that the caller computes: the label of a row.
ghost use Rattle.std.specs.Prelude.{◌≡◌, ◌∷◌, [], IfOk};
ghost use Rattle.std.specs.Option.{ForSome};
ghost use Rattle.txc_rows.specs.declared.query.Query.TheVariants.{ById};
ghost use Rattle.txc_uses_callers.specs.Labels.{first_body, first_group, label_call, rows_told};

use anyhow::{Result, bail};
use std::alloc::{AllocError, Global};
use txc_app::{Answer, App, Limits};
use txc_rows::{Query, Row};
use txc_tags::{Key, Table};

/// The application of a caller whose functions each return the label of a row.
pub struct Labels;

impl App for Labels {
    ghost use Rattle.txc_uses_callers.specs.Labels.{labels};

    ghost next = { labels };

    fn limits() -> Limits {
        Limits::SMALL
    }
}

/// Returns the table of the rows.
pub(crate) fn table() -> Table
    ensures { result ≡ 1 }
{
    let Some(table) = Table::new(1) else {
        unreachable!()
    };
    table
}

/// Returns the call of the label of a row.
pub(crate) fn key(id: u32) -> Key
    ensures { result ≡ label_call id }
{
    let Ok(key) = Key::new(0, &[id]) else {
        unreachable!()
    };
    key
}

/// Returns the id of the row whose label the function of this call returns.
pub(crate) fn argument(key: Option<&Key>) -> Result<u32>
    ensures { IfOk result (λ id. ForSome key.entry (λ k. k.now.args ≡ id ∷ [])) }
{
    let Some(key) = key else {
        bail!("no function is computed");
    };
    let [id] = key.args() else {
        bail!("no such call");
    };
    Ok(*id)
}

/// Returns the query for a row.
pub(crate) fn query(id: u32) -> Query
    ensures { result ≡ ById 1 id }
{
    Query::ById(table(), id)
}

fn rows(answer: &Answer) -> &[Row]
    ensures { result.now ≡ rows_told answer.now }
{
    match answer {
        Answer::Rows(rows) => rows.as_slice(),
        Answer::Value(_) => &[],
    }
}

/// Returns the body of the first row of an answer, or no bytes if it has none.
pub(crate) fn body(alloc: Global, answer: &Answer) -> Result<Vec<u8>, AllocError>
    ensures { IfOk result (λ bytes. bytes.items ≡ first_body (rows_told answer.now)) }
{
    match rows(answer).first() {
        Some(row) => Vec::from_slice(alloc, row.body()),
        None => Ok(Vec::new(alloc)),
    }
}

/// Returns the group of the first row of an answer, or 0 if it has none.
pub(crate) fn group(answer: &Answer) -> u32
    ensures { result ≡ first_group (rows_told answer.now) }
{
    match rows(answer).first() {
        Some(row) => row.group(),
        None => 0,
    }
}
