ghost use Rattle.std.specs.Prelude.{◌≡◌, [], ◌∷◌, ◌++◌, IfOk, OnOk, OnErr, Some};
ghost use Rattle.txc_call_registry.specs.Activity.{WantsAnswer};

use crate::definition::Definition;
use std::alloc::{AllocError, Global};
use txc_app::{Answer, Ask};
use txc_call_permits::Grant;

/// The state of a running object: its permit, its arguments and the answers so far. It is linear, since the
/// permit must be returned.
pub struct Held {
    pub(crate) grant: Grant,
    pub(crate) args: Vec<u32>,
    pub(crate) answers: Vec<Answer>,
}

impl Held {
    pub(crate) fn new(alloc: Global, grant: Grant, args: Vec<u32>) -> Held
        ensures grant { result.grant ≡ grant }
        ensures args { result.args.items ≡ args.items }
        ensures answers { result.answers.items ≡ [] }
    {
        Held {
            grant,
            args,
            answers: Vec::new(alloc),
        }
    }

    /// Frees the memory, and returns the permit to its pool.
    pub(crate) fn give_back(self) {
        let Held {
            grant,
            args: _,
            answers: _,
        } = self;
        grant.give_back();
    }

    /// Returns the step after one more answer, which it keeps only if this succeeds. Fails only if memory
    /// cannot be allocated.
    pub(crate) fn go_on<D: Definition>(
        &mut self,
        definition: &D,
        alloc: Global,
        answer: Answer,
    ) -> Result<Ask, AllocError>
        requires { WantsAnswer (D.says definition.now self.old.args.items self.old.answers.items) }
        ensures answer { IfOk result (λ ask.
            D.says definition.now self.old.args.items (self.old.answers.items ++ answer ∷ []) ≡ Some ask) }
        ensures after { OnOk result (self.new.answers.items ≡ self.old.answers.items ++ answer ∷ []) }
        ensures unchanged { OnErr result (self.new.answers.items ≡ self.old.answers.items) }
        ensures same_args { self.new.args.items ≡ self.old.args.items }
        ensures same_grant { self.new.grant ≡ self.old.grant }
    {
        let ask = definition.next(
            alloc,
            self.args.as_slice(),
            self.answers.as_slice(),
            &answer,
        )?;
        self.answers.push(answer)?;
        Ok(ask)
    }
}
