//! The functions of the program, as objects with a permit while they run.
//!
//! A [`Definition`] specifies the requests and the value of a function, and has no state. A [`Function`] is its
//! object: it takes a permit of its pool when an activation begins, keeps the arguments and the answers, and
//! returns all when the activation ends. [`registries`] makes registries with an object of each.
#![tactic(auto)]

mod any_function;
mod bodies_and_body;
mod bodies_in;
mod body_at;
mod endless;
mod ids_in;
pub mod laws;
mod objects;
mod program;
mod row_count;

pub use any_function::AnyFunction;
pub use bodies_and_body::BodiesAndBody;
pub use bodies_in::BodiesIn;
pub use body_at::BodyAt;
pub use endless::{Again, Itself};
pub use ids_in::IdsIn;
pub use objects::{Object, object_of_each, registries, registry};
pub use program::Program;
pub use row_count::RowCount;
