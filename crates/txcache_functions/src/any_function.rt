use crate::bodies_and_body::BodiesAndBody;
use crate::bodies_in::BodiesIn;
use crate::body_at::BodyAt;
use crate::endless::{Again, Itself};
use crate::ids_in::IdsIn;
use crate::row_count::RowCount;
use std::alloc::{AllocError, Global};
use txc_app::{Answer, Ask};
use txc_call_definition::Definition;

/// One of the program's functions.
#[derive(Drop)]
pub enum AnyFunction {
    BodyAt(BodyAt),
    BodiesIn(BodiesIn),
    BodiesAndBody(BodiesAndBody),
    RowCount(RowCount),
    Itself(Itself),
    Again(Again),
    IdsIn(IdsIn),
}

impl Definition for AnyFunction {
    ghost use Rattle.txcache_functions.specs.AnyFunction.{number_of, says_of};

    ghost number = { number_of };

    ghost says = { says_of };

    fn number(&self) -> u8 {
        match self {
            AnyFunction::BodyAt(_) => 0,
            AnyFunction::BodiesIn(_) => 1,
            AnyFunction::BodiesAndBody(_) => 2,
            AnyFunction::RowCount(_) => 3,
            AnyFunction::Itself(_) => 4,
            AnyFunction::Again(_) => 5,
            AnyFunction::IdsIn(_) => 6,
        }
    }

    fn accepts(&self, args: &[u32]) -> bool {
        match self {
            AnyFunction::BodyAt(function) => function.accepts(args),
            AnyFunction::BodiesIn(function) => function.accepts(args),
            AnyFunction::BodiesAndBody(function) => function.accepts(args),
            AnyFunction::RowCount(function) => function.accepts(args),
            AnyFunction::Itself(function) => function.accepts(args),
            AnyFunction::Again(function) => function.accepts(args),
            AnyFunction::IdsIn(function) => function.accepts(args),
        }
    }

    fn first(&self, alloc: Global, args: &[u32]) -> Result<Ask, AllocError> {
        match self {
            AnyFunction::BodyAt(function) => function.first(alloc, args),
            AnyFunction::BodiesIn(function) => function.first(alloc, args),
            AnyFunction::BodiesAndBody(function) => function.first(alloc, args),
            AnyFunction::RowCount(function) => function.first(alloc, args),
            AnyFunction::Itself(function) => function.first(alloc, args),
            AnyFunction::Again(function) => function.first(alloc, args),
            AnyFunction::IdsIn(function) => function.first(alloc, args),
        }
    }

    fn next(
        &self,
        alloc: Global,
        args: &[u32],
        answers: &[Answer],
        answer: &Answer,
    ) -> Result<Ask, AllocError> {
        match self {
            AnyFunction::BodyAt(function) => function.next(alloc, args, answers, answer),
            AnyFunction::BodiesIn(function) => function.next(alloc, args, answers, answer),
            AnyFunction::BodiesAndBody(function) => function.next(alloc, args, answers, answer),
            AnyFunction::RowCount(function) => function.next(alloc, args, answers, answer),
            AnyFunction::Itself(function) => function.next(alloc, args, answers, answer),
            AnyFunction::Again(function) => function.next(alloc, args, answers, answer),
            AnyFunction::IdsIn(function) => function.next(alloc, args, answers, answer),
        }
    }
}
