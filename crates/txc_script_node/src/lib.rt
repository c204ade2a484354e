//! Runs of a node's scripts: lines, replies and reports.
#![tactic(auto)]

mod laws;
mod node;
mod output;
mod reply_sink;
mod report;
mod running;
mod step;

pub use laws::{a_line_is_one_thing, lines_are_answered_one_way};
pub use running::run;
pub use txc_script::{
    CommandFault, Excerpt, LineFault, MAX_READS, MAX_SHOWN, MalformedLine, RunFault, Status,
    WordFault, WordKind, exit_of,
};
