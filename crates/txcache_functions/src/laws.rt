//! Lemmas about the definition of the program. They have no code: each contract is a law.
ghost use Rattle.txcache_functions.specs.WorkedCalls.{WorkedCalls, WorkedRefusals};
ghost use Rattle.txcache_functions.specs.WorkedEntries.{WorkedEntries};

/// The values of calls of the program's functions in the states of a history worked by hand, and the longest
/// value.
pub fn worked_calls()
    ensures calls { WorkedCalls }
    ensures refusals { WorkedRefusals }
{}

/// The true entries of these functions in that history, and some false ones.
pub fn worked_entries()
    ensures { WorkedEntries }
{}
