//! Calls of the libraries of single threads at the types of a program. `txc_uses_threads` calls those that
//! threads share.
//!
//! A contract is proved of each function by itself, and a generic one from its bounds only. Here callers show
//! that the preconditions can be met, that each bound has a type that meets it, and that each value can be
//! consumed. A function without type parameters that a library above calls has its caller there. Nothing runs
//! these functions, and no other code uses them.
//!
//! A law about pin sets has a worked example here too, because the example is of the program's functions.
#![tactic(auto)]

pub mod functions;
pub mod meanings;
pub mod nodes;
pub mod transactions;
pub mod values;
pub mod worlds;
