//! Ghost objects of functions, for a caller that runs the functions of its calls itself.
//!
//! A function that its caller runs has no object in a registry. The contracts of calls state the answers that
//! each open function got as the state of such objects. A [`GhostObjects`] is these objects. It is zero-sized.
#![tactic(auto)]

mod ghost_objects;

pub use ghost_objects::{AsIdle, AsNew, AsRan, GhostObjects, Ran, Reads};
