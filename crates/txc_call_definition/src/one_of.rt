use crate::definition::Definition;
use std::alloc::{AllocError, Global};
use txc_app::{Answer, Ask};

/// One of two definitions, as one type. For more of them, nest it: `OneOf<A, OneOf<B, C>>`.
#[derive(Drop)]
pub enum OneOf<D: Definition, E: Definition> {
    One(D),
    Other(E),
}

impl<D: Definition, E: Definition> Definition for OneOf<D, E> {
    ghost use Rattle.txc_call_definition.specs.OneOf.{either};

    ghost number = { either D.number E.number };

    ghost says = { either D.says E.says };

    fn number(&self) -> u8 {
        match self {
            OneOf::One(function) => function.number(),
            OneOf::Other(function) => function.number(),
        }
    }

    fn accepts(&self, args: &[u32]) -> bool {
        match self {
            OneOf::One(function) => function.accepts(args),
            OneOf::Other(function) => function.accepts(args),
        }
    }

    fn first(&self, alloc: Global, args: &[u32]) -> Result<Ask, AllocError> {
        match self {
            OneOf::One(function) => function.first(alloc, args),
            OneOf::Other(function) => function.first(alloc, args),
        }
    }

    fn next(
        &self,
        alloc: Global,
        args: &[u32],
        answers: &[Answer],
        answer: &Answer,
    ) -> Result<Ask, AllocError> {
        match self {
            OneOf::One(function) => function.next(alloc, args, answers, answer),
            OneOf::Other(function) => function.next(alloc, args, answers, answer),
        }
    }
}
