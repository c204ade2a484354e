//! Lemmas about the definitions. They have no code.
ghost use Rattle.txc_validity.specs.Laws.{SameWithin, DiffersBelow, DiffersAbove, OneValidity, KeptAnswersDecide, AroundIsValid};

/// The answer is the same throughout a validity and another just outside, and there is only one such range.
/// Versions that show the answers around a stamp have the validity of the answers.
pub fn validity_is_the_largest()
    ensures within { SameWithin }
    ensures below { DiffersBelow }
    ensures above { DiffersAbove }
    ensures one { OneValidity }
    ensures kept { KeptAnswersDecide }
    ensures around { AroundIsValid }
{}
