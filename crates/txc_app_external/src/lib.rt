//! A service's own database behind the cache: snapshots, the versions of tags, and the law about both.
//!
//! The cache's own rows are only versions: under each tag the number of the last step that noted it. A function
//! asks for the versions of the tags that its read covers, and then reads in a snapshot that has them.
#![tactic(auto)]

pub mod laws;
