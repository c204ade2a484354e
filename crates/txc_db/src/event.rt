ghost use Rattle.std.specs.Prelude.{◌≡◌};
ghost use Rattle.txc_db.specs.Facts.{net_of};

use crate::naming::Naming;
use std::marker::{Model, PhantomData};
use std::sync::Arc;
use txc_rows::Change;
use txc_stream::{Publishes, Witnessed};
use txc_tags::TagSet;

/// The fact that an event records.
#[derive(Drop)]
pub enum What {
    /// A commit, with its net changes by table and id.
    Commit(Vec<Change>),
    /// A pin of the newest state, at a wall-clock time in milliseconds.
    Pin(u64),
}

/// An event of the history, with the tags of the rows that it changed. A pin has none.
#[derive(Drop)]
pub struct Event {
    pub what: What,
    pub tags: TagSet,
}

impl Model for Event {
    ghost use Rattle.txc_db.specs.Facts.{EventValue, fact_of};

    ghost Value = { EventValue };

    ghost view = { λ e. record { fact = fact_of e.what; tags = e.tags } };
}

impl Event {
    /// Returns the changes that it made; a pin made none.
    pub fn net(&self) -> &[Change]
        ensures { result.now ≡ net_of self.now.fact }
    {
        match &self.what {
            What::Commit(net) => net,
            What::Pin(_) => &[],
        }
    }
}

/// The note of an event that is not stored: its tags.
pub struct EventTags;

impl Witnessed<Event, Arc<TagSet>> for EventTags {
    ghost use Rattle.std.specs.Prelude.{◌≡◌};
    ghost use Rattle.std.specs.Arc.{arc_value};

    ghost notes = { λ event tags. arc_value tags ≡ event.tags };
}

/// The note that is posted of each event of the named history: its tags, unless the history is stored.
pub struct PostedTags<J: Naming> {
    of: PhantomData<J>,
}

impl<J: Naming> Publishes<Event, Option<Arc<TagSet>>> for PostedTags<J> {
    ghost use Rattle.std.specs.Prelude.{◌≡◌, ◌≤◌, length, IfSome};
    ghost use Rattle.std.specs.Arc.{arc_value};
    ghost use Rattle.txc_db.specs.History.{AreTagged, tags_at};
    ghost use Rattle.txc_db.specs.Room.{events_room};

    ghost history = { J.database_history };

    ghost notes = { λ L note. AreTagged L × (length L ≤ events_room J.database_history)
        × IfSome note (λ tags. arc_value tags ≡ tags_at L (length L)) };
}
