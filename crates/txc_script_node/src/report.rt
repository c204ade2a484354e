//! Reports: counts of replies, instead of the replies.
ghost use Rattle.std.specs.Prelude.{◌≡◌, ◌≤◌, ◌++◌, [], ◌∷◌, List, All, IfOk, OnOk, IfSome, string_bytes, None};
ghost use Rattle.txc_node.specs.Steps.{function_of, seen_reply, is_refusal};
ghost use Rattle.txc_node.specs.Counts.{counts_of};
ghost use Rattle.txc_node.specs.declared.op.Op.{Op};
ghost use Rattle.txc_node.specs.declared.record.Record.{Record};
ghost use Rattle.txc_tags.specs.declared.key.TheConstants.{LAST_FUNCTION};
ghost use Rattle.txc_script.specs.FunctionLines.{function_line};
ghost use Rattle.txc_script_node.specs.Reports.{IsReportOf, functions_text, step_by, steps_report, total_line, with_name};

use crate::reply_sink::{ReplySink, out_of_memory};
use indexmap::IndexSet;
use std::alloc::{AllocError, Global};
use txc_node::{Counts, FunctionCounts, Hit, Reply};
use txc_script::{FunctionLine, LineError};
use txc_tags::LAST_FUNCTION;

/// Number of functions.
const FUNCTIONS: usize = LAST_FUNCTION as usize + 1;

/// A report of the replies so far.
#[derive(Drop)]
pub struct Report {
    counts: Counts,
    /// The number of counted replies.
    replies: u64,
    /// The functions of the lookups and insertions that did not fail, in the order of their first occurrence.
    functions: IndexSet<u8>,
    ghost in_range: { All (λ f. f ≤ LAST_FUNCTION) functions.keys },
    ghost counted: { counts.replies ≡ replies },
}

/// Returns the line of the counts in all.
fn total_line(alloc: Global, events: u64, closed: u128, swept: u128) -> Result<String, AllocError>
    ensures { IfOk result (λ line. string_bytes line ≡ total_line events closed swept) }
{
    format!(in alloc; "total events {events} closed {closed} swept {swept}\n")
}

/// Returns the line of a function.
fn line_of(alloc: Global, function: u8, counts: FunctionCounts) -> Result<String, AllocError>
    ensures { IfOk result (λ line. string_bytes line ≡ function_line function counts ++ 10 ∷ []) }
{
    let line = FunctionLine { function, counts };
    format!(in alloc; "{line}\n")
}

impl Report {
    /// Makes a report of no replies, with room for all functions. Fails only if memory cannot be allocated.
    pub fn new(alloc: Global) -> Result<Report, AllocError>
        ensures { IfOk result (λ r. IsReportOf [] r.functions.keys r.counts) }
    {
        Ok(Report {
            counts: Counts::new(),
            replies: 0,
            functions: IndexSet::with_capacity(alloc, FUNCTIONS)?,
        })
    }

    /// Notes that a function occurred.
    fn name(&mut self, function: Option<u8>) -> Result<(), AllocError>
        requires { IfSome function (λ f. f ≤ LAST_FUNCTION) }
        ensures after { OnOk result (self.new.functions.keys ≡ with_name function self.old.functions.keys) }
        ensures unchanged { self.new.counts ≡ self.old.counts }
    {
        match function {
            None => Ok(()),
            Some(function) => match self.functions.insert(function) {
                Ok(_) => Ok(()),
                Err(_) => Err(AllocError),
            },
        }
    }

    /// Counts the reply to a step of that function, or of none. Fails after 2^64 - 1 replies.
    pub fn count(&mut self, function: Option<u8>, reply: &Reply<Hit<'_>>) -> Result<(), AllocError>
        requires { IfSome function (λ f. f ≤ LAST_FUNCTION) }
        ensures { OnOk result ((steps : List Record) (op : Op) → function ≡ function_of op
            → IsReportOf steps self.old.functions.keys self.old.counts
            → IsReportOf (steps ++ step_by op (seen_reply reply.now) ∷ [])
            self.new.functions.keys self.new.counts) }
    {
        if self.replies == u64::MAX {
            return Err(AllocError);
        }
        self.replies += 1;
        self.counts.count(function, reply);
        self.name(function)
    }

    /// Returns the lines of the functions.
    fn function_lines(&self, alloc: Global) -> Result<String, AllocError>
        ensures { IfOk result (λ text. string_bytes text
            ≡ functions_text (counts_of self.now.counts.functions) self.now.functions.keys) }
    {
        let mut text = String::new(alloc);
        for function in &self.functions {
            let line = line_of(alloc, *function, self.counts.of(*function))?;
            text.push_str(line.as_str())?;
        }
        Ok(text)
    }

    /// Returns the text of the report: a line for each function, and a line for all.
    pub fn text(&self, alloc: Global) -> Result<String, AllocError>
        ensures { (steps : List Record) → IsReportOf steps self.now.functions.keys self.now.counts
            → IfOk result (λ text. string_bytes text ≡ steps_report steps) }
    {
        let mut text = self.function_lines(alloc)?;
        let total = total_line(
            alloc,
            self.counts.events(),
            self.counts.closed(),
            self.counts.swept(),
        )?;
        text.push_str(total.as_str())?;
        Ok(text)
    }
}

impl ReplySink for Report {
    ghost use Rattle.std.specs.Prelude.{[]};
    ghost use Rattle.txc_script_node.specs.ReportProgress.{Counts};

    ghost takes = { Counts };

    ghost text = { λ _. [] };

    fn take<F: Drop>(
        &mut self,
        alloc: Global,
        function: Option<u8>,
        reply: &Reply<Hit<'_>>,
        why: &mut LineError<F>,
    ) -> Option<bool> {
        if reply.is_refusal() {
            return Some(true);
        }
        match self.count(function, reply) {
            Ok(()) => Some(false),
            Err(_) => out_of_memory(why),
        }
    }
}
