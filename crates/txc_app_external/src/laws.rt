//! Laws of a service's own database. Each is a theorem without code.
ghost use Rattle.txc_app_external.specs.Laws.{FoundInEachSuchSnapshot, CachedIsUncached, BeginningsFollow, PinsShowVersionTables};
ghost use Rattle.txc_app_external.specs.WorkedSnapshots.{WorkedSnapshots, WorkedValues, WorkedFollowing, MissingNote, PinWithinStep};

/// A read has the same result in all snapshots in which the tags that it covers have the same versions.
pub fn versions_decide_a_read()
    ensures { FoundInEachSuchSnapshot }
{}

/// A value that the cache returns over the version table of a snapshot is the uncached value in that snapshot.
pub fn cached_is_uncached()
    ensures { CachedIsUncached }
{}

/// Each prefix of a history that follows the snapshots follows them too.
pub fn beginnings_follow()
    ensures { BeginningsFollow }
{}

/// Each pin of a history that follows the snapshots shows the version table of one of them.
pub fn pins_show_version_tables()
    ensures { PinsShowVersionTables }
{}

/// A worked example: three snapshots, two functions of which one calls the other, and a tag that is noted
/// twice.
pub fn worked_snapshots()
    ensures snapshots { WorkedSnapshots }
    ensures calls { WorkedValues }
    ensures history { WorkedFollowing }
{}

/// Without the premise, a cached value may be the uncached one of no snapshot.
pub fn the_premise_is_needed()
    ensures { MissingNote }
{}

/// A pin between two commits of one step may show the version table of no snapshot.
pub fn pins_within_steps_are_torn()
    ensures { PinWithinStep }
{}
