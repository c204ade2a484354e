//! A `Box` taken apart into its pointer and its allocator, for a type that keeps what it owns behind a pointer
//! of another type.
#![tactic(auto)]

mod parts;

pub use parts::Parts;
