ghost use Rattle.std.specs.Prelude.{◌≡◌, length, IfOk};
ghost use Rattle.std.specs.Fmt.{decimal};
ghost use Rattle.txcache_functions.specs.Program.{rows_in};

use crate::body_at::table;
use std::alloc::{AllocError, Global};
use txc_app::{Answer, Ask, Bytes};
use txc_call_definition::Definition;
use txc_rows::Query;

/// Function 3: the number of rows, in decimal.
#[derive(Drop)]
pub struct RowCount;

fn count_of(answer: &Answer) -> usize
    ensures { result ≡ length (rows_in answer.now) }
{
    match answer {
        Answer::Rows(rows) => rows.as_slice().len(),
        Answer::Value(_) => 0,
    }
}

fn digits(alloc: Global, count: usize) -> Result<Bytes, AllocError>
    ensures { IfOk result (λ bytes. bytes ≡ decimal count) }
{
    let text = format!(in alloc; "{count}")?;
    Ok(Bytes::new(text.into_bytes()))
}

impl Definition for RowCount {
    ghost use Rattle.txcache_functions.specs.Program.{row_count};

    ghost number = { λ _. 3 };

    ghost says = { λ _. row_count };

    fn number(&self) -> u8 {
        3
    }

    fn accepts(&self, args: &[u32]) -> bool {
        args.is_empty()
    }

    fn first(&self, _alloc: Global, args: &[u32]) -> Result<Ask, AllocError> {
        let [] = args else { unreachable!() };
        Ok(Ask::Query(Query::All(table())))
    }

    fn next(
        &self,
        alloc: Global,
        args: &[u32],
        answers: &[Answer],
        answer: &Answer,
    ) -> Result<Ask, AllocError> {
        let [] = args else { unreachable!() };
        let [] = answers else { unreachable!() };
        Ok(Ask::Done(digits(alloc, count_of(answer))?))
    }
}
