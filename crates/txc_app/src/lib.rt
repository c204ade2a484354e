//! Meaning of calls: the requests and answers of a function, and the value of a call without a cache.
#![tactic(auto)]

mod app;
mod ask;
pub mod laws;

pub use app::{App, Limits, MAX_ASKS, MOST_ASKS};
pub use ask::{Answer, Ask, Bytes, Rows};
