//! The command line of the program.
#![tactic(auto)]

mod arguments;
mod words;

pub use arguments::{Arguments, read_arguments};
pub use words::{NotText, WordsError, read_words};
