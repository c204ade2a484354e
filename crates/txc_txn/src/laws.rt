//! Lemmas about the meaning of a pin set. They have no code.
ghost use Rattle.txc_txn.specs.Laws.{MeaningStays, MeaningBegins, FindingNarrows, QueryLeavesAMember};
ghost use Rattle.txc_txn.specs.Laws.{PresentJoins, PresentIsFresh, FewerMembersMeanTheSame, CallBegins};
ghost use Rattle.txc_txn.specs.Laws.{CallIsGivenUp, ValueIsRecorded, OpenAnswersAreRight};
ghost use Rattle.txc_txn.specs.Laws.{UnreachedAnswersAreValues, NewestExplains};

/// A pin set that is correct in a history is correct in each longer one.
pub fn meaning_stays()
    ensures { MeaningStays }
{}

/// A transaction begins with a correct pin set, and it stays correct while calls begin and are cancelled.
pub fn meaning_begins()
    ensures begins { MeaningBegins }
    ensures call { CallBegins }
    ensures given_up { CallIsGivenUp }
{}

/// A hit narrows the pin set by its reach, and the answer of a query leaves a member in it.
pub fn findings_narrow()
    ensures narrows { FindingNarrows }
    ensures query { QueryLeavesAMember }
{}

/// The present's pin may be added, and members may be removed.
pub fn members_come_and_go()
    ensures joins { PresentJoins }
    ensures fresh { PresentIsFresh }
    ensures fewer { FewerMembersMeanTheSame }
{}

/// The value of a call is recorded, and the newest member explains all recorded values.
pub fn answers_are_explained()
    ensures recorded { ValueIsRecorded }
    ensures frames { OpenAnswersAreRight }
    ensures values { UnreachedAnswersAreValues }
    ensures newest { NewestExplains }
{}
