//! A pool of permits, of which at most a fixed number are out at once.
//!
//! One word counts the permits that are out. A [`Grant`] is a permit from the [`PermitPool::grant`] that issued
//! it until it is returned, on any thread; it is linear: code that drops it does not compile. A [`Permit`]
//! returns its own when it is dropped. No call waits, and only `new` allocates. That a permit is issued
//! whenever one is left is not claimed.
#![tactic(auto)]

mod place;
mod pool;
mod word;

pub use pool::{Grant, MAX_PERMITS, Permit, PermitPool};
pub use word::CountsPermits;
