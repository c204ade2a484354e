//! The report's line of a function.
use std::fmt;
use txc_node::FunctionCounts;

/// The counts of a function. It is printed as a report's line, without the line feed.
#[derive(Clone, Copy, Debug, PartialEq, Eq)]
pub struct FunctionLine {
    pub function: u8,
    pub counts: FunctionCounts,
}

impl fmt::Display for FunctionLine {
    ghost use Rattle.std.specs.Prelude.{Some};
    ghost use Rattle.txc_script.specs.FunctionLines.{function_line};

    ghost output = { λ l. Some (function_line l.function l.counts) };

    fn fmt<W: fmt::Write>(&self, f: &mut fmt::Formatter<W>) -> fmt::Result {
        let FunctionLine { function, counts } = *self;
        let FunctionCounts {
            lookups,
            hits,
            stored,
            kept,
            evicted,
        } = counts;
        write!(f, "f{function} lookups {lookups} hits {hits}")?;
        write!(f, " stored {stored} kept {kept} evicted {evicted}")
    }
}
