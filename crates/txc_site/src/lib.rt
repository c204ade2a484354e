//! A complete service: a database, its pincushion and its nodes, the clients that read and write over them, and
//! their maintenance.
//!
//! [`with_site`] makes all of it by a [`Plan`], writes an opening, and starts threads. A [`Worker`] is the
//! work of each thread, by a [`SiteClient`] of its own: that runs a [`Page`] in one read-only transaction and a
//! [`Change`] in one read-write transaction, which it tries again after a conflict. A [`Keeper`] pins the
//! present, lets the nodes take events, drops what no transaction can read, and reports how much room is left.
//!
//! It is the only library that a service must list: it passes on the types of the libraries below that pages,
//! changes and functions use, and the definitions that a clause may name.
//!
//! [`with_generations`] does so again and again, for workers that are [`Recurring`], as long as they want
//! another generation: each [`Generation`] has a new history, which begins with the state of the one before,
//! and new nodes. If no records are stored, these begin with the entries that were still valid.
#![tactic(auto)]

mod error;
mod generations;
mod opening;
mod recurring;

pub use error::GenerationError;
pub use generations::{GenerationsResult, OpeningCommit, with_generations, with_generations_at};
pub use opening::{SiteResult, with_clock, with_site};
pub use recurring::{Generation, Recurring};
pub use txc_app::{Answer, App, Ask, Bytes, Limits};
pub use txc_call_definition::{Definition, FixedAsks, Function, OneOf, Sequential};
pub use txc_cushion::Pin;
pub use txc_db::{Answered, DbError, HistoryFront, Naming};
pub use txc_node::{Counts, Value};
pub use txc_rows::{Query, Row, RowError};
pub use txc_shared::{Ended, NodeError};
pub use txc_site_keeper::{
    Clock, CountedClock, KeepReport, Keeper, KeeperSettings, KeeperTotals, MAX_TAKEN, NodeReport,
    SiteError, SystemClock, events_left, records_left,
};
pub use txc_site_ledger::{Change, ChangeResult, ChangeTxn, Horizon, RunError, WriteError};
pub use txc_site_pages::{Begun, OneCall, Page, PageResult, PageTxn, ReadError, laws};
pub use txc_site_workers::{
    FinalState, FunctionTable, LastError, MAX_NODES, OpenError, Plan, SiteClient, SiteStats, Worker,
};
pub use txc_stamp::Stamp;
pub use txc_tags::{Key, KeyError, Table};
pub use txc_txn::Receipt;
pub use txc_txn_client::PinLease;
pub use txc_txn_ports::{Bounds, Recorded, TxnError};
pub use txc_txn_rw::{Committed, Given, RwTxn};
