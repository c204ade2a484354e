use txc_app::{App, Limits, MOST_ASKS};
use txc_node::MOST_VALUE_LEN;

/// The application of a caller in C. No proof knows the requests and values of its functions: these are the
/// caller's.
pub(crate) struct Opaque;

impl App for Opaque {
    ghost use Rattle.txc_c.specs.Opaque.{opaque_next};

    ghost next = { opaque_next };

    fn limits() -> Limits {
        Limits {
            value: MOST_VALUE_LEN,
            asks: MOST_ASKS,
        }
    }
}
