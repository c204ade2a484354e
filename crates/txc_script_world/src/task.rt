//! Tasks: the meanings of the lines of a world's script.
use txc_script::FunctionNumber;
use txc_world::Step;

/// The meaning of a line.
#[derive(Drop)]
pub enum Task {
    /// This step; its reply is written.
    One(Step),
    /// The keeper pins the present, adds the pin and removes its user.
    Pin(u64),
    /// Requests of the actor's open call, until it has ended.
    Finish(usize),
    /// The stamps at which the actor's transaction may be serialised. It makes no step.
    Pins(usize),
    /// The actor ends its transaction, and makes the remaining request.
    Commit(usize),
    /// The actor aborts its transaction, and makes the remaining request.
    Abort(usize),
    /// The keeper removes the old pins and their holds, and drops the versions that no hold needs.
    Tidy {
        now: u64,
        age: u64,
    },
    /// The counts of a function at the node of that number. It makes no step.
    Counts {
        node: usize,
        function: FunctionNumber,
    },
}
