ghost use Rattle.std.specs.Prelude.{◌≡◌, ◌≢◌, ◌↔◌, ℕ, false, [], ◌∷◌, ◌++◌, None, Some, IfOk};
ghost use Rattle.txc_call_registry.specs.Activity.{Says, WantsAnswer};

use std::alloc::{AllocError, Global};
use txc_app::{Answer, Ask};

/// A function without state: its next step by its arguments and the answers so far.
pub trait Definition: Drop {
    // The number of the function.
    ghost number: { Self → ℕ };

    // Its next step: a request, or its value. None if it does not take the arguments.
    ghost says: { Self → Says };

    /// Returns the number of the function.
    fn number(&self) -> u8
        ensures { result ≡ number self.now };

    /// Returns `true` if it takes these arguments.
    fn accepts(&self, args: &[u32]) -> bool
        ensures { (result ≡ false) ↔ (says self.now args.now [] ≡ None) };

    /// Returns its first step. Fails only if memory cannot be allocated.
    fn first(&self, alloc: Global, args: &[u32]) -> Result<Ask, AllocError>
        requires { says self.now args.now [] ≢ None }
        ensures { IfOk result (λ ask. says self.now args.now [] ≡ Some ask) };

    /// Returns its step after these answers and one more. Fails only if memory cannot be allocated.
    fn next(
        &self,
        alloc: Global,
        args: &[u32],
        answers: &[Answer],
        answer: &Answer,
    ) -> Result<Ask, AllocError>
        requires { WantsAnswer (says self.now args.now answers.now) }
        ensures { IfOk result (λ ask. says self.now args.now (answers.now ++ answer.now ∷ []) ≡ Some ask) };
}
