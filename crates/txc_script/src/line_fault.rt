//! Faults of malformed lines.
use crate::excerpt::Excerpt;
use crate::line::MAX_LINE_LEN;
use std::fmt;
use txc_stamp::LAST_STAMP;
use txc_tags::{LAST_FUNCTION, LAST_NUMBER, LAST_TABLE};

/// The kind of a word.
#[derive(Clone, Copy, Debug, PartialEq, Eq)]
pub enum WordKind {
    /// A key: `f3(1,2)`.
    Key,
    /// A stamp: a number of at most the last one.
    Stamp,
    /// `still` or `closed`.
    Reach,
    /// Tags: `-`, or `t1:id=7,t2:?`.
    Tags,
    /// Bytes: `-`, or two lower-case hexadecimal digits for each.
    Bytes,
    /// The number of a table.
    Table,
    /// An id or a group.
    Id,
    /// The number of a function.
    Function,
    /// A number of at most this one.
    Number(u64),
    /// A text of at most that many bytes, all printable.
    Text(usize),
    /// The name of a query: `by-id`, `by-group`, `all` or `range`.
    QueryName,
    /// The name of a change: `put` or `remove`.
    ChangeName,
}

/// Fault of a word that is not of its kind.
#[derive(Debug, Drop)]
pub struct WordFault {
    /// Its number among the words after the command, counted from 1.
    pub number: usize,
    pub kind: WordKind,
    /// For a key and for tags: the number of valid bytes before the first wrong or missing one.
    pub at: Option<usize>,
    pub text: Excerpt,
}

/// Fault of the words of a line: the first one.
#[derive(Debug, Drop)]
pub enum CommandFault<F> {
    /// There is no command of this name.
    Unknown(Excerpt),
    /// The command has another number of words after it.
    Count {
        /// The number that the command needs.
        wanted: usize,
        /// The number in the line.
        given: usize,
    },
    Word(WordFault),
    /// A fault that only lines of this kind of script can have.
    Own(F),
}

/// Fault of a malformed line: the first one.
#[derive(Debug, Drop)]
pub enum LineFault<F> {
    /// It has more than 4,096 bytes.
    TooLong,
    /// A byte outside 0x20 to 0x7E.
    Byte {
        /// The number of bytes before it.
        at: usize,
        byte: u8,
    },
    /// A blank is at an end, or next to another.
    Blanks,
    /// The words are not a command.
    Command(CommandFault<F>),
}

/// A malformed line of a script.
#[derive(Debug, Drop)]
pub struct MalformedLine<F> {
    /// Its number among all lines, counted from 1.
    pub number: u64,
    pub fault: LineFault<F>,
}

fn write_number<W: fmt::Write>(f: &mut fmt::Formatter<W>, most: u64) -> fmt::Result {
    write!(f, "a number from 0 to {most}, without leading zeros")
}

impl fmt::Display for WordKind {
    fn fmt<W: fmt::Write>(&self, f: &mut fmt::Formatter<W>) -> fmt::Result {
        match self {
            WordKind::Key => f.write_str("a key such as `f1(2,3)`"),
            WordKind::Stamp => write!(f, "a stamp from 0 to {}, without leading zeros", LAST_STAMP),
            WordKind::Reach => f.write_str("`still` or `closed`"),
            WordKind::Tags => f.write_str("tags such as `t1:id=7,t2:?`, or `-`"),
            WordKind::Bytes => f.write_str(
                "bytes as pairs of lower-case hexadecimal digits, or `-`",
            ),
            WordKind::Table => write_number(f, u64::from(LAST_TABLE)),
            WordKind::Id => write_number(f, LAST_NUMBER),
            WordKind::Function => write_number(f, u64::from(LAST_FUNCTION)),
            WordKind::Number(most) => write_number(f, *most),
            WordKind::Text(most) => write!(f, "1 to {most} bytes"),
            WordKind::QueryName => f.write_str("`by-id`, `by-group`, `all` or `range`"),
            WordKind::ChangeName => f.write_str("`put` or `remove`"),
        }
    }
}

impl fmt::Display for WordFault {
    fn fmt<W: fmt::Write>(&self, f: &mut fmt::Formatter<W>) -> fmt::Result {
        write!(
            f,
            "word {} after the command: expected {}, found `{}`",
            self.number, self.kind, self.text
        )?;
        let Some(at) = self.at else {
            return Ok(());
        };
        if at < self.text.text_len() {
            write!(f, ", wrong at byte {}", at + 1)
        } else {
            f.write_str(", which ends too early")
        }
    }
}

impl<F: fmt::Display> fmt::Display for CommandFault<F> {
    fn fmt<W: fmt::Write>(&self, f: &mut fmt::Formatter<W>) -> fmt::Result {
        match self {
            CommandFault::Unknown(name) => write!(f, "unknown command `{name}`"),
            CommandFault::Count { wanted, given } => {
                let words = if *wanted == 1 { "word" } else { "words" };
                write!(f, "{wanted} {words} must follow the command, not {given}")
            }
            CommandFault::Word(fault) => write!(f, "{fault}"),
            CommandFault::Own(fault) => write!(f, "{fault}"),
        }
    }
}

impl<F: fmt::Display> fmt::Display for LineFault<F> {
    fn fmt<W: fmt::Write>(&self, f: &mut fmt::Formatter<W>) -> fmt::Result {
        match self {
            LineFault::TooLong => write!(f, "longer than {} bytes", MAX_LINE_LEN),
            LineFault::Byte { at, byte } => {
                let number = at.saturating_add(1);
                write!(f, "byte {number}, 0x{byte:02X}, is not printable ASCII")
            }
            LineFault::Blanks => {
                f.write_str("a blank at the start or the end, or two blanks in a row")
            }
            LineFault::Command(fault) => write!(f, "{fault}"),
        }
    }
}

impl<F: fmt::Display> fmt::Display for MalformedLine<F> {
    fn fmt<W: fmt::Write>(&self, f: &mut fmt::Formatter<W>) -> fmt::Result {
        write!(f, "line {}: {}", self.number, self.fault)
    }
}
