//! The functions of an application as boxed objects, and the registry of those that a client runs.
//!
//! A function runs step by step: [`Cacheable::begin`] starts an activation and returns the function's first
//! request, [`Cacheable::resume`] gives it an answer and returns the next request, and [`Cacheable::release`]
//! ends the activation. The arguments and the answers so far determine each step.
//!
//! A [`Registry`] is generic in its objects, since no type can state what the boxes in it compute. A caller
//! makes the boxes, adds each to a list by [`enlist`], and works with a `Registry<A, Box<dyn Cacheable +
//! Send>>`.
#![tactic(auto)]

mod boxed;
mod cacheable;
mod registry;

pub use cacheable::{Cacheable, CallFault};
pub use registry::{Registry, Twice, enlist};
