ghost use Rattle.std.specs.Prelude.{◌≡◌, IfOk};
ghost use Rattle.txcache_functions.specs.Program.{bodies_of, rows_in};

use crate::body_at::table;
use std::alloc::{AllocError, Global};
use txc_app::{Answer, Ask, Bytes};
use txc_call_definition::Definition;
use txc_rows::{Query, Row};

/// Function 1: the bodies of a group by id, with a comma between two of them.
#[derive(Drop)]
pub struct BodiesIn;

fn joined(alloc: Global, rows: &[Row]) -> Result<Bytes, AllocError>
    ensures { IfOk result (λ bytes. bytes ≡ bodies_of rows.now) }
{
    let mut bytes = Vec::new(alloc);
    let Some((first, others)) = rows.split_first() else {
        return Ok(Bytes::new(bytes));
    };
    bytes.extend_from_slice(first.body())?;
    for row in others {
        bytes.push(b',')?;
        bytes.extend_from_slice(row.body())?;
    }
    Ok(Bytes::new(bytes))
}

fn bodies(alloc: Global, answer: &Answer) -> Result<Bytes, AllocError>
    ensures { IfOk result (λ bytes. bytes ≡ bodies_of (rows_in answer.now)) }
{
    match answer {
        Answer::Rows(rows) => joined(alloc, rows.as_slice()),
        Answer::Value(_) => joined(alloc, &[]),
    }
}

impl Definition for BodiesIn {
    ghost use Rattle.txcache_functions.specs.Program.{bodies_in};

    ghost number = { λ _. 1 };

    ghost says = { λ _. bodies_in };

    fn number(&self) -> u8 {
        1
    }

    fn accepts(&self, args: &[u32]) -> bool {
        matches!(args, [_])
    }

    fn first(&self, _alloc: Global, args: &[u32]) -> Result<Ask, AllocError> {
        let [group] = args else { unreachable!() };
        Ok(Ask::Query(Query::ByGroup(table(), *group)))
    }

    fn next(
        &self,
        alloc: Global,
        args: &[u32],
        answers: &[Answer],
        answer: &Answer,
    ) -> Result<Ask, AllocError> {
        let [_group] = args else { unreachable!() };
        let [] = answers else { unreachable!() };
        Ok(Ask::Done(bodies(alloc, answer)?))
    }
}
