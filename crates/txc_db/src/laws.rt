//! Lemmas about the definitions. They have no code.
ghost use Rattle.txc_db.specs.Laws.{EventTagsAreSound, StatesStay, TagsStay, PinsChangeNothing, OneHoldLess};
ghost use Rattle.txc_db.specs.WorkedHistory.{WorkedHistory};

use txc_rows::states_are_maps;

/// If an event's tags do not match a set that covers a query, the query's answer is the same before and after
/// the event.
pub fn tags_are_sound()
    ensures { EventTagsAreSound }
{
    states_are_maps();
    txc_rows::tags_are_sound();
}

/// A longer history has the same states and the same tags.
pub fn states_stay()
    ensures states { StatesStay }
    ensures tags { TagsStay }
{}

/// A pin has no tags and leaves the state as it was.
pub fn pins_change_nothing()
    ensures { PinsChangeNothing }
{
    txc_rows::tags_are_sound();
}

/// Removing one hold removes exactly one.
pub fn one_hold_less()
    ensures { OneHoldLess }
{}

/// The states, tags, times and net changes of a history worked by hand.
pub fn worked_history()
    ensures { WorkedHistory }
{}
