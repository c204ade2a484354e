ghost use Rattle.std.specs.Prelude.{◌≡◌, ◌+◌, ◌<◌, ℕ, List, [], ◌∷◌, ◌++◌, length, slice_get, Some, IfOk};
ghost use Rattle.txc_app.specs.declared.ask.Answer.{Answer};
ghost use Rattle.txc_app.specs.declared.ask.Ask.{Ask};

use crate::definition::Definition;
use std::alloc::{AllocError, Global};
use txc_app::{Answer, Ask, Bytes};

/// A function whose requests follow from its arguments alone. It does not take arguments for which it would
/// request nothing. [`Sequential`] makes its definition.
pub trait FixedAsks: Drop {
    // The number of the function.
    ghost number: { Self → ℕ };

    // Its requests, in turn, by its arguments.
    ghost asks: { Self → List ℕ → List Ask };

    // Its value, by its arguments and all answers.
    ghost gives: { Self → List ℕ → List Answer → List ℕ };

    /// Returns the number of the function.
    fn number(&self) -> u8
        ensures { result ≡ number self.now };

    /// Returns how many requests it makes.
    fn count(&self, args: &[u32]) -> usize
        ensures { result ≡ length (asks self.now args.now) };

    /// Returns the request at a place, counted from 0. Fails only if memory cannot be allocated.
    fn ask(&self, alloc: Global, args: &[u32], at: usize) -> Result<Ask, AllocError>
        requires { at < length (asks self.now args.now) }
        ensures { IfOk result (λ ask. slice_get (asks self.now args.now) at ≡ Some ask) };

    /// Returns its value, by all answers: those before the last one, and that one. Fails only if memory cannot
    /// be allocated.
    fn give(
        &self,
        alloc: Global,
        args: &[u32],
        answers: &[Answer],
        last: &Answer,
    ) -> Result<Bytes, AllocError>
        requires { length answers.now + 1 ≡ length (asks self.now args.now) }
        ensures { IfOk result (λ bytes. bytes ≡ gives self.now args.now (answers.now ++ last.now ∷ [])) };
}

/// The definition of a function whose requests follow from its arguments: it makes them in turn, and then
/// returns its value.
#[derive(Drop)]
pub struct Sequential<S: FixedAsks>(pub S);

impl<S: FixedAsks> Definition for Sequential<S> {
    ghost use Rattle.txc_call_definition.specs.FixedAsks.{in_turn};

    ghost number = { λ f. S.number f.0 };

    ghost says = { λ f. in_turn (S.asks f.0) (S.gives f.0) };

    fn number(&self) -> u8 {
        self.0.number()
    }

    fn accepts(&self, args: &[u32]) -> bool {
        self.0.count(args) != 0
    }

    fn first(&self, alloc: Global, args: &[u32]) -> Result<Ask, AllocError> {
        self.0.ask(alloc, args, 0)
    }

    fn next(
        &self,
        alloc: Global,
        args: &[u32],
        answers: &[Answer],
        answer: &Answer,
    ) -> Result<Ask, AllocError> {
        let asked = answers.len() + 1;
        if asked < self.0.count(args) {
            return self.0.ask(alloc, args, asked);
        }
        Ok(Ask::Done(self.0.give(alloc, args, answers, answer)?))
    }
}
