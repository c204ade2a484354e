ghost use Rattle.std.specs.Prelude.{◌≡◌, ◌≤◌};
ghost use Rattle.txc_node.specs.declared.value.TheConstants.{MOST_VALUE_LEN};
ghost use Rattle.txc_app.specs.Eval.{Next};

use txc_node::MAX_VALUE_LEN;

/// The most steps of one activation by [`Limits::SMALL`]. Returning a value counts as a step.
pub const MAX_ASKS: usize = 64;

/// The greatest limit on the steps of one activation that an application may set.
pub const MOST_ASKS: usize = 4_096;

/// Limits of an application.
#[derive(Clone, Copy, Debug, PartialEq, Eq)]
pub struct Limits {
    /// The most bytes of a value, at most [`txc_node::MOST_VALUE_LEN`].
    pub value: usize,
    /// The most steps of one activation, at most [`MOST_ASKS`]. Returning a value counts as a step.
    pub asks: usize,
}

impl Limits {
    /// Values of at most [`MAX_VALUE_LEN`] bytes, and at most [`MAX_ASKS`] steps of an activation: the limits
    /// of the program.
    pub const SMALL: Limits = Limits {
        value: MAX_VALUE_LEN,
        asks: MAX_ASKS,
    };
}

/// An application, specified by what its functions compute.
pub trait App {
    // The next step of a function, by its number, its arguments and its answers so far: a query, a call, or its
    // value. None if it does not take the arguments. And the limits of the functions.
    ghost next: { Next };

    /// Returns the limits of its functions.
    fn limits() -> Limits
        ensures answer { result ≡ next.limits }
        ensures value { result.value ≤ MOST_VALUE_LEN }
        ensures asks { result.asks ≤ MOST_ASKS };
}
