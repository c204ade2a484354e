//! Receipts over versions of a service's own database: each is explained by one snapshot.
#![tactic(auto)]

pub mod laws;
