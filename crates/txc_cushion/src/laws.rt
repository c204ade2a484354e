//! Effects of the calls of a pincushion, stamp by stamp. Each is a lemma without code.
ghost use Rattle.txc_cushion.specs.Laws.{PinsEachStampOnce, FreshCountsUsers, HandsOutTheNewest, AddCountsOnePin, GiveBackCountsUsers, RetireCountsTheUnused};

/// No stamp is pinned twice, and one that is not pinned has no users.
pub fn each_stamp_is_pinned_once()
    ensures { PinsEachStampOnce }
{}

/// Each issued stamp has one more user, no other has, and no pin is added or removed.
pub fn fresh_counts_users()
    ensures { FreshCountsUsers }
{}

/// A pin that may be issued and is not is older than all issued ones, and the maximum of pins was issued.
pub fn fresh_hands_out_the_newest()
    ensures { HandsOutTheNewest }
{}

/// The stamp of an added pin has one more pin and one more user, and no other stamp has.
pub fn add_counts_one_pin()
    ensures { AddCountsOnePin }
{}

/// Each returned stamp has one user fewer for each time that it is in the list, and no pin is added or removed.
pub fn give_back_counts_users()
    ensures { GiveBackCountsUsers }
{}

/// The retired stamps are those whose pins are removed. They had no users, and no stamp loses one.
pub fn retire_counts_the_unused()
    ensures { RetireCountsTheUnused }
{}
