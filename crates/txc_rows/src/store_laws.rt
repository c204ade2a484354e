//! Lemmas about stores of versions. They have no code.
ghost use Rattle.txc_rows.specs.StoreHistory.{UsesAnswer, KeepsNothing, KeepsAgreed, KeepsQuiet};

/// The versions found in a store give the answers at every stamp from the last horizon on, if the store was
/// written at ascending stamps and purged at ascending horizons.
pub fn versions_answer()
    ensures { UsesAnswer }
{}

/// A store keeps the states of a history while nothing is done to it.
pub fn versions_keep_states()
    ensures nothing { KeepsNothing }
    ensures agreed { KeepsAgreed }
    ensures quiet { KeepsQuiet }
{}
