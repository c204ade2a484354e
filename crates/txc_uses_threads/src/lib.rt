//! Calls of the libraries that threads share, at the types of a program: those with locks, and those built on
//! them. `txc_uses` calls the others, and has the reason for both.
#![tactic(auto)]

pub mod clients;
pub mod databases;
pub mod nodes;
pub mod rows;
