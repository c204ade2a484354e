//! The maintenance of a site.
//!
//! A [`Keeper`] pins the present, lets the nodes take events, drops what no transaction can read, and reports
//! how much room is left. A site with automatic maintenance does so at a [`Clock`], with the settings of a
//! [`KeeperSettings`], until its worker threads have ended ([`run_keeper`]).
#![tactic(auto)]

mod clock;
mod error;
mod keeper;
mod keeper_node;
mod room;
mod site_keeper;

pub use clock::{Clock, CountedClock, SharedClock, StopFlag, SystemClock};
pub use error::SiteError;
pub use keeper::{KeepReport, Keeper, MAX_TAKEN, NodeReport, retire};
pub use room::{events_left, records_left};
pub use site_keeper::{KeeperSettings, KeeperTotals, run_keeper};
