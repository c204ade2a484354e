//! Runs of a world's scripts: the tasks of their lines, the steps of these tasks, and the output of the
//! replies.
#![tactic(auto)]

mod laws;
mod outcome;
mod player;
mod playing;
mod printed;
mod reading;
mod refusing;
mod script;
mod task;

pub use laws::{a_line_of_a_world_is_written_one_way, nothing_is_wrong_with_a_good_line};
pub use printed::Printed;
pub use script::{run_world, world_settings};
pub use task::Task;
pub use txc_script::FunctionNumber;
