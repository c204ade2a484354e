//! Entries as a cache stores them: without their keys, which only the places have.
ghost use Rattle.std.specs.Prelude.{◌≡◌};
ghost use Rattle.std.specs.Option.{option_map};
ghost use Rattle.txc_node.specs.Places.{place_of};
ghost use Rattle.txc_node.specs.IndexedEntries.{entry_of};

use crate::entry::Entry;
use crate::place::Place;
use crate::value::Value;
use txc_stamp::Reach;
use txc_tags::TagSet;

/// An entry without its key.
#[derive(Debug, Drop)]
pub(crate) struct Stored {
    pub(crate) value: Value,
    pub(crate) reach: Reach,
    pub(crate) tags: TagSet,
}

/// Splits an entry into its place, the rest of it with another reach, and the reach that it had.
pub(crate) fn split(entry: Entry, reach: Reach) -> (Place, Stored, Reach)
    requires lo { reach.lo ≡ entry.reach.lo }
    ensures entry { entry_of (result.0, result.1) ≡ record entry { reach = reach } }
    ensures place { result.0 ≡ place_of entry }
    ensures before { result.2 ≡ entry.reach }
{
    let Entry {
        key,
        value,
        reach: before,
        tags,
    } = entry;
    let place = Place {
        key,
        lo: reach.lo(),
    };
    (place, Stored { value, reach, tags }, before)
}

/// Joins a place and a stored entry.
pub(crate) fn join(place: Place, stored: Stored) -> Entry
    ensures { result ≡ entry_of (place, stored) }
{
    let Place { key, .. } = place;
    let Stored { value, reach, tags } = stored;
    Entry {
        key,
        value,
        reach,
        tags,
    }
}

/// Joins a pair of a place and a stored entry, if there is one.
pub(crate) fn join_some(pair: Option<(Place, Stored)>) -> Option<Entry>
    ensures { result ≡ option_map entry_of pair }
{
    match pair {
        None => None,
        Some((place, stored)) => Some(join(place, stored)),
    }
}

/// Joins a place and a stored entry, with another reach.
pub(crate) fn in_reach(place: Place, stored: Stored, reach: Reach) -> Entry
    ensures { result ≡ record (entry_of (place, stored)) { reach = reach } }
{
    let Place { key, .. } = place;
    let Stored { value, tags, .. } = stored;
    Entry {
        key,
        value,
        reach,
        tags,
    }
}
