//! A database, its pincushion and a node, and the open transactions over them, whose functions the caller
//! computes.
ghost use Rattle.std.specs.Prelude.{◌≡◌, IfErr, IfOk, MatchOption, None, Some, true};
ghost use Rattle.txc_db.specs.Refusals.{IsWant};
ghost use Rattle.txc_c.specs.Settings.{are_settings};
ghost use Rattle.txc_c.specs.Sites.{may_begin, open_at, IsNewSite};

mod asking;
mod changing;
mod keeping;
mod listing;
mod trimming;
mod turning;

use crate::opaque::Opaque;
use crate::opened::{MAX_OPEN, MOST_BEGUN, Open, Opened, place_of};
use crate::site_settings::TxcSiteSettings;
use slab::Slab;
use std::alloc::Global;
use std::marker::Model;
use txc_caller::Caller;
use txc_db::DbError;

/// A caller, and its open transactions.
#[derive(Drop)]
pub(crate) struct Site {
    caller: Caller<Opaque>,
    // The open transactions. Each is at the place that its number determines.
    opened: Slab<Opened>,
    // The number of transactions that have begun.
    begun: u64,
}

impl Model for Site {
    ghost use Rattle.txc_c.specs.Sites.{IsSite, SiteValue};

    ghost Value = { SiteValue };

    ghost view = { λ s. record { caller = s.caller; opened = s.opened; begun = s.begun } };

    ghost invariant = { λ s. IsSite (record { caller = s.caller; opened = s.opened; begun = s.begun }) };
}

impl Site {
    /// Makes an empty database with the room of the settings, an empty pincushion and an empty node, without
    /// open transactions.
    pub(crate) fn new(alloc: Global, settings: &TxcSiteSettings) -> Result<Site, DbError>
        requires { are_settings settings.now ≡ true }
        ensures made { IfOk result (IsNewSite settings.now) }
        ensures refused { IfErr result IsWant }
    {
        let caller = Caller::new(
            alloc,
            settings.row_store(),
            settings.room(),
            settings.node(),
            settings.budget(),
            settings.renew_after(),
        )?;
        Ok(Site {
            caller,
            opened: Slab::new(alloc),
            begun: 0,
        })
    }

    /// Returns `true` if one more transaction may begin.
    pub(crate) fn has_place(&self) -> bool
        ensures { result ≡ may_begin self.now }
    {
        (self.opened.len() as u64) < MAX_OPEN && self.begun < MOST_BEGUN
    }

    /// Returns the transaction of that number, if it is open.
    pub(crate) fn opened(&self, number: u64) -> Option<&Open>
        ensures { MatchOption result (open_at self.now number ≡ None) (λ x. open_at self.now number ≡ Some x.now) }
    {
        match self.opened.get(place_of(number)) {
            Some(it) if it.number == number => Some(&it.txn),
            _ => None,
        }
    }
}
