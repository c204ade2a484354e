//! Calls: frames of nested activations, and the machine that runs them over a registry.
#![tactic(auto)]

mod error;
mod frame;
mod frames;
pub mod laws;
mod machine;
mod need;
mod pump;
mod reply;
mod settling;
mod stack;

pub use error::CallError;
pub use frame::Frame;
pub use frames::MAX_CALL_ASKS;
pub use machine::CallMachine;
pub use need::{HeldAnswer, Need, Outcome};
pub use reply::Reply;
