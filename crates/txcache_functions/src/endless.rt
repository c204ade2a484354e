//! Functions that never return a value.
use crate::body_at::table;
use std::alloc::{AllocError, Global};
use txc_app::{Answer, Ask};
use txc_call_definition::Definition;
use txc_rows::Query;
use txc_tags::Key;

/// Function 4: calls itself.
#[derive(Drop)]
pub struct Itself;

impl Definition for Itself {
    ghost use Rattle.txcache_functions.specs.Program.{itself};

    ghost number = { λ _. 4 };

    ghost says = { λ _. itself };

    fn number(&self) -> u8 {
        4
    }

    fn accepts(&self, args: &[u32]) -> bool {
        args.is_empty()
    }

    fn first(&self, _alloc: Global, args: &[u32]) -> Result<Ask, AllocError> {
        let [] = args else { unreachable!() };
        let Ok(key) = Key::new(4, args) else {
            unreachable!()
        };
        Ok(Ask::Call(key))
    }

    fn next(
        &self,
        alloc: Global,
        args: &[u32],
        _answers: &[Answer],
        _answer: &Answer,
    ) -> Result<Ask, AllocError> {
        self.first(alloc, args)
    }
}

/// Function 5: requests the row of an id again and again.
#[derive(Drop)]
pub struct Again;

impl Definition for Again {
    ghost use Rattle.txcache_functions.specs.Program.{again};

    ghost number = { λ _. 5 };

    ghost says = { λ _. again };

    fn number(&self) -> u8 {
        5
    }

    fn accepts(&self, args: &[u32]) -> bool {
        matches!(args, [_])
    }

    fn first(&self, _alloc: Global, args: &[u32]) -> Result<Ask, AllocError> {
        let [id] = args else { unreachable!() };
        Ok(Ask::Query(Query::ById(table(), *id)))
    }

    fn next(
        &self,
        alloc: Global,
        args: &[u32],
        _answers: &[Answer],
        _answer: &Answer,
    ) -> Result<Ask, AllocError> {
        self.first(alloc, args)
    }
}
