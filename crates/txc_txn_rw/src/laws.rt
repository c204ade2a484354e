//! Lemmas about the definitions. They have no code.
ghost use Rattle.txc_txn_rw.specs.Laws.{AnswersAreRight, CommitsAreRight, EventCommitsAreRight, HoldsAtFirst, HoldsInLonger, QuietCommitsAreRight, TagsCoverQueries};

/// A transaction that has just begun is correct, and it stays correct while the history grows.
pub fn transactions_stay_right()
    ensures first { HoldsAtFirst }
    ensures longer { HoldsInLonger }
{}

/// The tags against which a commit is checked cover each answered query.
pub fn tags_cover_queries()
    ensures { TagsCoverQueries }
{}

/// Every result is correct at the base. Once the transaction is committed, it is also correct at the stamp
/// before its event, or, if it has no event, at the newest stamp.
pub fn answers_are_right()
    ensures base { AnswersAreRight }
    ensures quiet { QuietCommitsAreRight }
    ensures event { EventCommitsAreRight }
    ensures committed { CommitsAreRight }
{}
