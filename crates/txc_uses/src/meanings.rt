//! Worked examples of pin sets, over the functions of the program.
ghost use Rattle.txc_uses.specs.WorkedPinSets.{WorkedMeanings};

/// The correct pin sets of a history, as worked examples.
pub fn worked_meanings()
    ensures { WorkedMeanings }
{}
