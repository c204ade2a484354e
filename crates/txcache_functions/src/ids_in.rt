ghost use Rattle.std.specs.Prelude.{◌≡◌, IfOk};
ghost use Rattle.txcache_functions.specs.Program.{ids_of, rows_in};

use crate::body_at::table;
use std::alloc::{AllocError, Global};
use std::fmt;
use txc_app::{Answer, Ask, Bytes};
use txc_call_definition::Definition;
use txc_rows::{Query, Row};

/// Function 6: the ids of the rows from one id to another, in decimal, with a comma between two of them.
#[derive(Drop)]
pub struct IdsIn;

/// The ids of the rows, with a comma between two of them.
#[derive(Drop)]
struct Ids<'a>(&'a [Row]);

impl fmt::Display for Ids<'_> {
    ghost use Rattle.std.specs.Prelude.{Some};
    ghost use Rattle.txcache_functions.specs.Program.{ids_of};

    ghost output = { λ ids. Some (ids_of ids.0.now) };

    fn fmt<W: fmt::Write>(&self, f: &mut fmt::Formatter<W>) -> fmt::Result {
        let Some((first, others)) = self.0.split_first() else {
            return Ok(());
        };
        let first = first.id();
        write!(f, "{first}")?;
        for row in others {
            let id = row.id();
            write!(f, ",{id}")?;
        }
        Ok(())
    }
}

fn joined(alloc: Global, rows: &[Row]) -> Result<Bytes, AllocError>
    ensures { IfOk result (λ bytes. bytes ≡ ids_of rows.now) }
{
    let ids = Ids(rows);
    let text = format!(in alloc; "{ids}")?;
    Ok(Bytes::new(text.into_bytes()))
}

fn ids_of_answer(alloc: Global, answer: &Answer) -> Result<Bytes, AllocError>
    ensures { IfOk result (λ bytes. bytes ≡ ids_of (rows_in answer.now)) }
{
    match answer {
        Answer::Rows(rows) => joined(alloc, rows.as_slice()),
        Answer::Value(_) => joined(alloc, &[]),
    }
}

impl Definition for IdsIn {
    ghost use Rattle.txcache_functions.specs.Program.{ids_in};

    ghost number = { λ _. 6 };

    ghost says = { λ _. ids_in };

    fn number(&self) -> u8 {
        6
    }

    fn accepts(&self, args: &[u32]) -> bool {
        matches!(args, [_, _])
    }

    fn first(&self, _alloc: Global, args: &[u32]) -> Result<Ask, AllocError> {
        let [first, last] = args else { unreachable!() };
        Ok(Ask::Query(Query::Range(table(), *first, *last)))
    }

    fn next(
        &self,
        alloc: Global,
        args: &[u32],
        answers: &[Answer],
        answer: &Answer,
    ) -> Result<Ask, AllocError> {
        let [_first, _last] = args else {
            unreachable!()
        };
        let [] = answers else { unreachable!() };
        Ok(Ask::Done(ids_of_answer(alloc, answer)?))
    }
}
