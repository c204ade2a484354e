//! Every interleaving of transactions and of the keeper's work, as a list of steps over the plain database,
//! pincushion and nodes.
//!
//! Many actors have a transaction open at a time, each in the middle of a call or not. One step is one request
//! of one of them, or one piece of maintenance by the keeper. The steps of a list stand for the atomic steps of
//! as many threads, in one of their orders.
#![tactic(auto)]

mod acting;
mod actor;
mod keeping;
mod nodes;
mod port_outcome;
mod ports;
mod reply;
mod sessions;
mod settings;
mod step;
mod world;
mod writing;

pub use port_outcome::{PortOutcome, RowsFound};
pub use reply::{Refusal, Reply};
pub use settings::WorldSettings;
pub use step::{ActorStep, KeeperStep, Step};
pub use world::{Members, World};
