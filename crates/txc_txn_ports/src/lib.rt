//! Requests of a transaction to the database, the pincushion and the nodes, one at a time, and their replies.
//! An error is a reply too.
//!
//! A transaction itself calls none of them. Its runner makes each request and gives it the reply.
#![tactic(auto)]

mod bounds;
mod error;
mod kept;
mod recorded;
mod reply;
mod request;
mod turn;

pub use bounds::Bounds;
pub use error::TxnError;
pub use kept::Kept;
pub use recorded::Recorded;
pub use reply::PortReply;
pub use request::PortRequest;
pub use turn::Turn;
