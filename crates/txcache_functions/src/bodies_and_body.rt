ghost use Rattle.std.specs.Prelude.{◌≡◌, ◌++◌, ◌∷◌, IfOk};
ghost use Rattle.txcache_functions.specs.Program.{body_of, bytes_in, rows_in};

use crate::body_at::{append_body, table};
use std::alloc::{AllocError, Global};
use txc_app::{Answer, Ask, Bytes};
use txc_call_definition::Definition;
use txc_rows::Query;
use txc_tags::Key;

/// Function 2: the value of function 1 at a group, a semicolon, and the body at an id.
#[derive(Drop)]
pub struct BodiesAndBody;

fn joined(alloc: Global, bodies: &Answer, row: &Answer) -> Result<Bytes, AllocError>
    ensures { IfOk result (λ bytes. bytes ≡ bytes_in bodies.now ++ 59 ∷ body_of (rows_in row.now)) }
{
    let mut bytes = Vec::new(alloc);
    if let Answer::Value(value) = bodies {
        bytes.extend_from_slice(value.bytes())?;
    }
    bytes.push(b';')?;
    append_body(&mut bytes, row)?;
    Ok(Bytes::new(bytes))
}

impl Definition for BodiesAndBody {
    ghost use Rattle.txcache_functions.specs.Program.{bodies_and_body};

    ghost number = { λ _. 2 };

    ghost says = { λ _. bodies_and_body };

    fn number(&self) -> u8 {
        2
    }

    fn accepts(&self, args: &[u32]) -> bool {
        matches!(args, [_, _])
    }

    fn first(&self, _alloc: Global, args: &[u32]) -> Result<Ask, AllocError> {
        let [group, _id] = args else { unreachable!() };
        let Ok(key) = Key::new(1, &[*group]) else {
            unreachable!()
        };
        Ok(Ask::Call(key))
    }

    fn next(
        &self,
        alloc: Global,
        args: &[u32],
        answers: &[Answer],
        answer: &Answer,
    ) -> Result<Ask, AllocError> {
        let [_group, id] = args else { unreachable!() };
        match answers {
            [] => Ok(Ask::Query(Query::ById(table(), *id))),
            [bodies] => Ok(Ask::Done(joined(alloc, bodies, answer)?)),
            _ => unreachable!(),
        }
    }
}
