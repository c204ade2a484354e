//! Texts of the results of jobs.
ghost use Rattle.std.specs.Fmt.{WritesOnOk};
ghost use Rattle.std.specs.List.{flat_map};
ghost use Rattle.txc_script_batch.specs.OutcomeTexts.{outcome_text, result_text};

use crate::batch_result::BatchResult;
use std::fmt;
use txc_work::Outcome;

/// Writes the values of a job's calls, or the error of one.
fn write_outcome<W: fmt::Write>(f: &mut fmt::Formatter<W>, outcome: &Outcome) -> fmt::Result
    ensures { WritesOnOk W.write_str_gives f.old result (outcome_text outcome.now) f.new }
{
    match outcome {
        Outcome::Receipt(receipt) => {
            for answer in &receipt.answers {
                let value = &answer.value;
                write!(f, " {value}")?;
            }
            Ok(())
        }
        Outcome::Refused(error) => {
            write!(f, " refused ")?;
            error.write_code(f)
        }
    }
}

/// The lines of its jobs.
impl fmt::Display for BatchResult {
    ghost use Rattle.std.specs.Prelude.{Some};
    ghost use Rattle.std.specs.List.{flat_map};
    ghost use Rattle.txc_script_batch.specs.OutcomeTexts.{result_text};

    ghost output = { λ ran. Some (flat_map result_text ran.results) };

    fn fmt<W: fmt::Write>(&self, f: &mut fmt::Formatter<W>) -> fmt::Result {
        for told in self.results() {
            let number = told.number;
            write!(f, "job {number}")?;
            write_outcome(f, &told.outcome)?;
            writeln!(f)?;
        }
        Ok(())
    }
}
