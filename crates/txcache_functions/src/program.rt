use txc_app::{App, Limits};

/// The program's application: functions 0 to 6 over table 1.
pub struct Program;

impl App for Program {
    ghost use Rattle.txcache_functions.specs.Program.{program};

    ghost next = { program };

    fn limits() -> Limits {
        Limits::SMALL
    }
}
