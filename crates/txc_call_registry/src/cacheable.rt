ghost use Rattle.std.specs.Prelude.{◌≡◌, ◌↔◌, ℕ, None, Some, IfErr, IfOk, OnErr, OnOk};
ghost use Rattle.txc_call_registry.specs.Activity.{Activity, Says, answered, activation_in, begun, idle, next_of, running, IsAsking};

use thiserror::Error;
use txc_app::{Answer, Ask};

/// Errors of beginning or continuing an activation.
#[derive(Clone, Copy, Debug, PartialEq, Eq, Error)]
pub enum CallFault {
    /// Memory cannot be allocated.
    #[error("out of memory")]
    Memory,
    /// No permit is left.
    #[error("no permit to run a function is left")]
    Busy,
    /// The function does not take these arguments.
    #[error("the function does not take these arguments")]
    Args,
}

/// A function of an application, as an object that runs step by step.
pub trait Cacheable: Drop {
    // The number of the function.
    ghost number: { Self → ℕ };

    // The state of the object. Only the calls below change it.
    ghost activity: { Self → Activity };

    // The function's next step, by its arguments and answers: a request, or its value. No call changes it.
    ghost says: { Self → Says };

    /// Returns the number of the function.
    fn number(&self) -> u8
        ensures { result ≡ number self.now };

    /// Begins an activation, and returns the function's first step. Fails if the function does not take the
    /// arguments; otherwise only if there is no permit or no memory.
    fn begin(&mut self, args: &[u32]) -> Result<Ask, CallFault>
        requires idle { activity self.old ≡ idle }
        ensures answer { IfOk result (λ ask. next_of (says self.old) (begun args.now) ≡ Some ask) }
        ensures after { OnOk result (activity self.new ≡ running (begun args.now)) }
        ensures refused { (result ≡ Err CallFault.Args) ↔ (next_of (says self.old) (begun args.now) ≡ None) }
        ensures unchanged { OnErr result (activity self.new ≡ activity self.old) }
        ensures same_number { number self.new ≡ number self.old }
        ensures same_meaning { says self.new ≡ says self.old };

    /// Continues with the answer to the last request, and returns the function's next step. Fails, and drops
    /// the answer, only if memory cannot be allocated.
    fn resume(&mut self, answer: Answer) -> Result<Ask, CallFault>
        requires asking { IsAsking (says self.old) (activity self.old) }
        ensures answer { IfOk result (λ ask.
            next_of (says self.old) (answered (activation_in (activity self.old)) answer) ≡ Some ask) }
        ensures after { OnOk result
            (activity self.new ≡ running (answered (activation_in (activity self.old)) answer)) }
        ensures refused { IfErr result (λ fault. fault ≡ CallFault.Memory) }
        ensures unchanged { OnErr result (activity self.new ≡ activity self.old) }
        ensures same_number { number self.new ≡ number self.old }
        ensures same_meaning { says self.new ≡ says self.old };

    /// Ends the activation, if there is one. The object frees its memory and returns its permit.
    fn release(&mut self)
        ensures after { activity self.new ≡ idle }
        ensures same_number { number self.new ≡ number self.old }
        ensures same_meaning { says self.new ≡ says self.old };
}
