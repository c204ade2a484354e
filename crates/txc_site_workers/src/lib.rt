//! Worker threads of a site, each with a client of its own.
//!
//! [`over_new_histories`] makes a site of a database by a [`Plan`], and starts the threads. A [`Worker`] is
//! the work of each thread, by a [`SiteClient`], which reads pages and writes changes. Once all have ended, the
//! last state can be read ([`FinalState`]). If a site continues another one ([`GenerationKind`]), the entries of the
//! nodes are carried over ([`CarriedEntries`]).
#![tactic(auto)]

mod carried_entries;
mod client;
mod error;
mod final_state;
mod function_table;
mod histories;
mod node_histories;
mod plan;
mod site_parts;
mod site_stats;
mod threads;
mod worker;

pub use carried_entries::{CarriedEntries, GenerationKind};
pub use client::SiteClient;
pub use error::{LastError, OpenError};
pub use final_state::FinalState;
pub use function_table::{FunctionTable, registry};
pub use histories::{WorkerResults, over_new_histories};
pub use plan::{MAX_NODES, Plan};
pub use site_stats::SiteStats;
pub use worker::Worker;
