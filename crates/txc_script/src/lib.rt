//! Scripts: lines and their words, the faults of malformed lines, and runs of any kind of script.
#![tactic(auto)]

mod excerpt;
mod fault;
mod finding;
mod function_line;
mod function_number;
mod hex;
mod kind;
mod line;
mod line_fault;
mod parsed_word;
mod piece;
mod reading;
mod reads;
mod row;
mod run;
mod running;
mod scan;
mod unread;
mod word;
mod words;
mod writer;

pub use excerpt::{Excerpt, MAX_SHOWN};
pub use fault::{RunFault, Status, exit_of};
pub use finding::{change_name, query_name};
pub use function_line::FunctionLine;
pub use function_number::FunctionNumber;
pub use kind::Script;
pub use line::MAX_LINE_LEN;
pub use line_fault::{CommandFault, LineFault, MalformedLine, WordFault, WordKind};
pub use parsed_word::{ChangeName, ParsedWord, QueryName, TextWord};
pub use reading::{read_each, read_words};
pub use reads::MAX_READS;
pub use row::{Row, read_row};
pub use run::run_script;
pub use unread::LineError;
pub use word::Word;
pub use words::{WordsLeft, all_words, count_words};
pub use writer::write_text;
