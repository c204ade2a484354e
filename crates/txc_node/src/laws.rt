//! Laws of the steps of the cache, each the contract of a function that does nothing.
ghost use Rattle.txc_node.specs.Laws.{FindsTheLongest, MissesOnlyWhereNone, MeetsAtAStamp, ShowsNothingBeyond, ClosesExactlyTheHit, ReplaysAsIfItHadBeenThere, TrustsNoLostEvent, InsertsWithinBounds, InsertionKeepsTheLonger, InsertionDropsTheLast, SweepDropsTheEnded, ChangesNoLaterAnswer, TrimKeepsTheFirst, StepsKeepCaches};
ghost use Rattle.txc_node.specs.Examples.{ClosesAtTheMatch, ReplaysWhatIsKept, WaitsForItsEnd, DropsTheLeastRecentlyUsed, PrefersTheLaterBegin};

/// A lookup finds the entry of the key whose span meets the range such that no other such entry ends later, nor
/// ends equally and begins later. It misses only if no entry of the key meets the range.
pub fn lookup_finds_the_longest()
    ensures longest { FindsTheLongest }
    ensures miss { MissesOnlyWhereNone }
{}

/// The span of an entry meets a range exactly if they share a stamp.
pub fn span_meets_range_at_a_stamp()
    ensures { MeetsAtAStamp }
{}

/// A hit shows no stamp beyond the greater of the last known one and the processed one.
pub fn hit_shows_nothing_beyond()
    ensures { ShowsNothingBeyond }
{}

/// An event closes exactly the still valid entries known below it whose tags match, and no entry moves.
pub fn event_closes_exactly_the_hit()
    ensures { ClosesExactlyTheHit }
{}

/// A late entry is stored as if it had been in the node when the events came that it missed. If the tags of one
/// of them are no longer stored, the entry is closed at its last known stamp.
pub fn insertion_replays_what_was_missed()
    ensures kept { ReplaysAsIfItHadBeenThere }
    ensures lost { TrustsNoLostEvent }
{}

/// An insertion leaves at most one entry for a key and a first stamp, and never more than the capacity.
pub fn insertion_stays_within_bounds()
    ensures { InsertsWithinBounds }
{}

/// An insertion keeps the old entry of its key and first stamp exactly if that one ends no earlier.
pub fn insertion_keeps_the_longer()
    ensures { InsertionKeepsTheLonger }
{}

/// An insertion drops nothing if it replaces an entry or if there is room, and otherwise exactly the least
/// recently used entry.
pub fn insertion_drops_the_last()
    ensures { InsertionDropsTheLast }
{}

/// A sweep drops exactly the entries whose span ends at the horizon or before it. Lookups from the horizon on
/// find the same as before.
pub fn sweep_drops_the_ended()
    ensures ended { SweepDropsTheEnded }
    ensures later { ChangesNoLaterAnswer }
{}

/// A trim keeps the longest prefix of the entries whose values have at most `most` bytes in all.
pub fn trim_keeps_the_first()
    ensures { TrimKeepsTheFirst }
{}

/// Every step leaves a valid cache: one entry for a key and a first stamp, no more than the capacity, and the
/// tags of the last events.
pub fn steps_keep_caches()
    ensures { StepsKeepCaches }
{}

/// Results of the steps on worked examples.
pub fn worked_examples()
    ensures closes_at_the_match { ClosesAtTheMatch }
    ensures replays_what_is_kept { ReplaysWhatIsKept }
    ensures waits_for_its_end { WaitsForItsEnd }
    ensures drops_the_least_recently_used { DropsTheLeastRecentlyUsed }
    ensures prefers_the_later_begin { PrefersTheLaterBegin }
{}
