//! Events for which all memory is allocated.
ghost use Rattle.std.specs.Prelude.{◌≡◌};
ghost use Rattle.std.specs.Arc.{arc_value};
ghost use Rattle.txc_db.specs.Facts.{net_of};

use crate::event::Event;
use crate::net::Net;
use std::sync::Arc;
use txc_rows::Change;
use txc_stream::{GhostRecord, GhostRecords};
use txc_tags::TagSet;

/// The event of a commit, made of its net changes.
pub(crate) struct AsCommit;

impl GhostRecords<Net, Event> for AsCommit {
    ghost use Rattle.txc_db.specs.Facts.{commit};

    ghost record_of = { λ net. record { fact = commit net.changes.items; tags = net.tags } };
}

/// The event of a pin, made of its wall-clock time.
pub(crate) struct AsPin;

impl GhostRecords<u64, Event> for AsPin {
    ghost use Rattle.txc_db.specs.History.{pin_event};

    ghost record_of = { λ moment. pin_event moment };
}

/// An event that is not stored: the parts that the database and its readers need, and the ghost event.
#[derive(Drop)]
pub(crate) struct Loose {
    pub(crate) changes: Vec<Change>,
    pub(crate) tags: Arc<TagSet>,
    pub(crate) draft: GhostRecord<Event>,
    ghost made: { changes.items ≡ net_of draft.value.fact },
    ghost noted: { arc_value tags ≡ draft.value.tags },
}

/// An event for which all memory is allocated.
#[derive(Drop)]
pub(crate) enum Prepared {
    Stored(Box<Event>),
    Unstored(Loose),
}

impl Prepared {
    ghost use Rattle.txc_db.specs.HeldHistory.{event_in};

    /// Returns the changes that it makes; a pin makes none.
    pub(crate) fn net(&self) -> &[Change]
        ensures { result.now ≡ net_of (event_in self.now).fact }
    {
        match self {
            Prepared::Stored(event) => event.net(),
            Prepared::Unstored(next) => &next.changes,
        }
    }
}
