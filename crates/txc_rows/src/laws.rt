//! Lemmas about the definitions. They have no code.
ghost use Rattle.txc_rows.specs.Laws.{StatesAreRows, ChangedIsState, ChangeUpdates, PutsMakeState, NetTransition, NetIsDifference, NetTags, TagsAreSound, NoTagsBetween, SaysNothing, SaysAgree, SaysWritten, SaysQuiet, SaysPurged, SaysAnswer, NetIsWritable};

/// States are finite maps from (table, id) to (group, body), and changes update them.
pub fn states_are_maps()
    ensures rows { StatesAreRows }
    ensures states { ChangedIsState }
    ensures updates { ChangeUpdates }
    ensures puts { PutsMakeState }
{}

/// The net changes of a list of changes are what differs between the states before and after it.
pub fn net_changes_are_differences()
    ensures transition { NetTransition }
    ensures differences { NetIsDifference }
    ensures tags { NetTags }
{}

/// The tags between two states cover every query whose answer differs in them.
pub fn tags_are_sound()
    ensures sound { TagsAreSound }
    ensures none { NoTagsBetween }
{}

/// Versions continue to describe the states through writes, stamps without changes, and purges.
pub fn versions_say_states()
    ensures nothing { SaysNothing }
    ensures agree { SaysAgree }
    ensures writable { NetIsWritable }
    ensures written { SaysWritten }
    ensures quiet { SaysQuiet }
    ensures purged { SaysPurged }
    ensures answer { SaysAnswer }
{}
