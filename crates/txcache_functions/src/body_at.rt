ghost use Rattle.std.specs.Prelude.{◌≡◌, ◌++◌, IfOk, OnOk, OnErr};
ghost use Rattle.txcache_functions.specs.Program.{body_of, rows_in, TABLE};

use std::alloc::{AllocError, Global};
use txc_app::{Answer, Ask, Bytes};
use txc_call_definition::Definition;
use txc_rows::Query;
use txc_tags::Table;

/// Returns the table that the program's functions read.
pub(crate) fn table() -> Table
    ensures { result ≡ TABLE }
{
    let Some(table) = Table::new(1) else {
        unreachable!()
    };
    table
}

/// Appends the body of the answer's first row, if there is one. Fails only if memory cannot be allocated.
pub(crate) fn append_body(bytes: &mut Vec<u8>, answer: &Answer) -> Result<(), AllocError>
    ensures { OnOk result (bytes.new.items ≡ bytes.old.items ++ body_of (rows_in answer.now)) }
{
    if let Answer::Rows(rows) = answer {
        if let Some(row) = rows.as_slice().first() {
            bytes.extend_from_slice(row.body())?;
        }
    }
    Ok(())
}

/// Function 0: the body at an id, or no byte.
#[derive(Drop)]
pub struct BodyAt;

impl Definition for BodyAt {
    ghost use Rattle.txcache_functions.specs.Program.{body_at};

    ghost number = { λ _. 0 };

    ghost says = { λ _. body_at };

    fn number(&self) -> u8 {
        0
    }

    fn accepts(&self, args: &[u32]) -> bool {
        matches!(args, [_])
    }

    fn first(&self, _alloc: Global, args: &[u32]) -> Result<Ask, AllocError> {
        let [id] = args else { unreachable!() };
        Ok(Ask::Query(Query::ById(table(), *id)))
    }

    fn next(
        &self,
        alloc: Global,
        args: &[u32],
        answers: &[Answer],
        answer: &Answer,
    ) -> Result<Ask, AllocError> {
        let [_id] = args else { unreachable!() };
        let [] = answers else { unreachable!() };
        let mut bytes = Vec::new(alloc);
        append_body(&mut bytes, answer)?;
        Ok(Ask::Done(Bytes::new(bytes)))
    }
}
