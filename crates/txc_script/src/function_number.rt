//! The numbers of functions.
ghost use Rattle.std.specs.Prelude.{◌≡◌, ◌≤◌, ◌↔◌, IsSome, IfSome};
ghost use Rattle.txc_tags.specs.declared.key.TheConstants.{LAST_FUNCTION};

use std::marker::Model;
use txc_tags::LAST_FUNCTION;

/// The number of a function, from 0 to [`LAST_FUNCTION`]; a contract sees the number.
#[derive(Clone, Copy, Debug, PartialEq, Eq)]
pub struct FunctionNumber {
    number: u8,
}

impl Model for FunctionNumber {
    ghost use Rattle.std.specs.Prelude.{ℕ, ◌≤◌};
    ghost use Rattle.txc_tags.specs.declared.key.TheConstants.{LAST_FUNCTION};

    ghost Value = { ℕ };

    ghost view = { λ f. f.number };

    ghost invariant = { λ f. f.number ≤ LAST_FUNCTION };

    ghost inverse = { λ n. record { number = n } };
}

impl FunctionNumber {
    /// Makes the number of a function, or returns `None` if no function has it.
    pub fn new(number: u8) -> Option<FunctionNumber>
        ensures only_if { IsSome result ↔ (number ≤ LAST_FUNCTION) }
        ensures answer { IfSome result (λ f. f ≡ number) }
    {
        if number <= LAST_FUNCTION {
            Some(FunctionNumber { number })
        } else {
            None
        }
    }

    /// Returns the number.
    pub fn number(self) -> u8
        ensures answer { result ≡ self }
        ensures bound { self ≤ LAST_FUNCTION }
    {
        self.number
    }
}
