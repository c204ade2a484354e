//! Functions that a program defines, as objects with a permit while they run.
//!
//! A [`Definition`] specifies the requests and the value of a function, and has no state. A [`Function`] is its
//! object: it takes a permit of its pool when an activation begins, keeps the arguments and the answers, and
//! returns all when the activation ends. A function whose requests follow from its arguments alone is
//! [`FixedAsks`], and [`Sequential`] makes its definition; [`OneOf`] makes one type of two definitions, and so of many.
#![tactic(auto)]

mod definition;
mod fixed_asks;
mod function;
mod held;
mod one_of;

pub use definition::Definition;
pub use fixed_asks::{FixedAsks, Sequential};
pub use function::Function;
pub use one_of::OneOf;
