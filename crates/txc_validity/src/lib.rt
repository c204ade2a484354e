//! The answer of a query at a kept stamp, and its validity: the stamps around it on which the answer stays the
//! same.
//!
//! A result is cached with the exact range of stamps on which it holds: the range on which all returned rows
//! are visible (result tuple validity), without the stamps at which others would be (invalidity mask). The idea
//! is that of Ports, Clements, Zhang, Madden and Liskov (OSDI 2010).
#![tactic(auto)]

mod answer;
mod error;
mod laws;

pub use answer::{Counted, Found, answer_at, answer_counted, rows_at};
pub use error::ValidityError;
pub use laws::validity_is_the_largest;
