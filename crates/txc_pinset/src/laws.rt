//! Effects of the calls of a pin set. Each is a lemma without code.
ghost use Rattle.txc_pinset.specs.Laws.{KeepsExactlyTheHeld, OnlyThePresentJoins, NeverIsEmpty, TakesThePresentWhenDue};

/// A narrowed set has exactly the members that the reach holds.
pub fn narrowing_keeps_exactly_the_held()
    ensures { KeepsExactlyTheHeld }
{}

/// Only the pin of the present is ever added to the members.
pub fn only_the_present_joins()
    ensures { OnlyThePresentJoins }
{}

/// From its beginning on, and after each call, a pin set has a member or the present, and its members descend
/// from the newest.
pub fn a_pin_set_is_never_empty()
    ensures { NeverIsEmpty }
{}

/// The present is chosen exactly if there is no member, or if the set has the present and the newest member is
/// too old.
pub fn the_present_is_chosen_when_due()
    ensures { TakesThePresentWhenDue }
{}
