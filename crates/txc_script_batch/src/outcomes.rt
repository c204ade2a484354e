//! Texts of the outcomes of jobs.
ghost use Rattle.std.specs.Prelude.{◌≡◌, ◌≢◌, ◌++◌, Err, IfOk, OnOk, OnErr};
ghost use Rattle.std.specs.List.{flat_map, list_any};
ghost use Rattle.txc_script_batch.specs.OutcomeTexts.{batch_text, is_refused_batch, is_refused_outcome, result_text};

use crate::batch_result::BatchResult;
use std::alloc::{AllocError, Global};
use txc_work::{BatchError, Outcome};

fn is_refused(outcome: &Outcome) -> bool
    ensures { result ≡ is_refused_outcome outcome.now }
{
    match outcome {
        Outcome::Receipt(_) => false,
        Outcome::Refused(_) => true,
    }
}

/// Appends the lines of jobs. Returns whether one of them has a refusal.
fn push_results(alloc: Global, text: &mut Vec<u8>, ran: &BatchResult) -> Result<bool, AllocError>
    ensures text { OnOk result (text.new.items ≡ text.old.items ++ flat_map result_text ran.now.results) }
    ensures refusal { IfOk result (λ refused.
        refused ≡ list_any (λ told. is_refused_outcome told.outcome) ran.now.results) }
    ensures unchanged { OnErr result (text.new.items ≡ text.old.items) }
{
    let lines = format!(in alloc; "{ran}")?;
    text.extend_from_slice(lines.as_bytes())?;
    Ok(ran.results().iter().any(|told| is_refused(&told.outcome)))
}

/// Appends the output of a batch. Returns whether it has a refusal. It writes nothing for a batch that failed
/// for want of memory.
pub fn push_batch(
    alloc: Global,
    text: &mut Vec<u8>,
    batch: &Result<BatchResult, BatchError>,
) -> Result<bool, AllocError>
    ensures text { OnOk result (text.new.items ≡ text.old.items ++ batch_text batch.now) }
    ensures refusal { IfOk result (λ refused. refused ≡ is_refused_batch batch.now) }
    ensures memory { OnOk result (batch.now ≢ Err BatchError.Memory) }
    ensures unchanged { OnErr result (text.new.items ≡ text.old.items) }
{
    match batch {
        Ok(ran) => push_results(alloc, text, ran),
        Err(BatchError::Missing(number)) => {
            let line = format!(in alloc; "refused J1 {number}\n")?;
            text.extend_from_slice(line.as_bytes())?;
            Ok(true)
        }
        Err(BatchError::Twice(number)) => {
            let line = format!(in alloc; "refused J2 {number}\n")?;
            text.extend_from_slice(line.as_bytes())?;
            Ok(true)
        }
        Err(BatchError::Memory) => Err(AllocError),
    }
}
