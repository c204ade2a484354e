//! Clients: read-only transactions over the locked database, the locked pincushion and the shared nodes.
//!
//! A client belongs to one thread. Clients share the database, the pincushion and the nodes, each under a lock
//! of its own; each request of a transaction is one locked call, and no call holds two locks.
#![tactic(auto)]

mod calling;
mod client;
mod finding;
mod handed;
pub mod laws;
mod pin_lease;
mod ports;
mod ro_txn;

pub use client::Client;
pub use pin_lease::PinLease;
pub use ro_txn::RoTxn;
