//! Reading the orders of a batch's script.
ghost use Rattle.std.specs.Prelude.{◌≡◌, IfOk, IfErr, IfSome, IfNone, length};
ghost use Rattle.std.specs.List.{filter_map};
ghost use Rattle.txc_script.specs.LineFaults.{IsWrong};
ghost use Rattle.txc_script.specs.Words.{words_left, words_of};
ghost use Rattle.txc_script_lines.specs.declared.name.LineName.{LineName};
ghost use Rattle.txc_script_lines.specs.Names.{name_text};
ghost use Rattle.txc_script_lines.specs.LineWords.{AreBodies};
ghost use Rattle.txc_script_batch.specs.BatchFaults.{IsBatchFault, IsJobFault};
ghost use Rattle.txc_script_batch.specs.Orders.{AreJobWords, AsksFor, IsPreparing, job_said, key_said, order_said};

use crate::order::{Order, Queued};
use std::alloc::{AllocError, Global};
use txc_script::{
    ChangeName, CommandFault, Excerpt, LineError, ParsedWord, WordKind, WordsLeft, all_words,
    count_words, read_each,
};
use txc_script_lines::{LAST_MOMENT, LineName, OwnFault, change_of, read_after_name};
use txc_tags::Key;
use txc_work::Job;

/// The least number of words after a job's name.
pub const LEAST_WORDS: usize = 3;

/// The wall-clock time of a job and its staleness limit. Its other words are keys.
static MOMENTS: [WordKind; 2] = [WordKind::Number(LAST_MOMENT), WordKind::Number(LAST_MOMENT)];

/// The places of changes and pins.
const EARLY: &str = "changes and pins stand before the first job";

/// Returns the keys that words mean.
fn keys_of(alloc: Global, said: &[ParsedWord<'_>]) -> Result<Vec<Key>, AllocError>
    ensures { IfOk result (λ keys. keys.items ≡ filter_map key_said said.now) }
{
    said.iter()
        .filter_map(|value| match value {
            ParsedWord::Key(key) => Some(key.copy()),
            _ => None,
        })
        .collect(alloc)
}

/// Returns the job that words mean.
fn job_of(alloc: Global, said: &[ParsedWord<'_>]) -> Result<Option<Queued>, AllocError>
    ensures { IfOk result (λ job. job ≡ job_said said.now) }
{
    match said {
        [now, staleness, keys @ ..] => match (now, staleness) {
            (ParsedWord::Number(now), ParsedWord::Number(staleness)) => Ok(Some(Queued {
                now: *now,
                staleness: *staleness,
                keys: keys_of(alloc, keys)?,
            })),
            _ => Ok(None),
        },
        _ => Ok(None),
    }
}

/// Reads a job from the `count` words after its name, or returns their fault.
fn read_queued(
    alloc: Global,
    words: WordsLeft<'_>,
    count: usize,
) -> Result<Queued, LineError<OwnFault>>
    requires { length (words_left words) ≡ count }
    ensures answer { IfOk result (AreJobWords (words_left words.entry)) }
    ensures refused { IfErr result (IsWrong (IsJobFault (words_left words.entry))) }
{
    if count < LEAST_WORDS {
        return Err(LineError::Wrong(CommandFault::Own(OwnFault::Few {
            least: LEAST_WORDS,
            given: count,
        })));
    }
    let said = read_each(alloc, MOMENTS.as_slice(), WordKind::Key, words, count)?;
    match job_of(alloc, said.as_slice())? {
        Some(job) => Ok(job),
        None => unreachable!(),
    }
}

/// Returns the name of a change or of a pin that the word is, if it is one.
fn preparing_name(word: &[u8]) -> Option<LineName>
    ensures answer { IfSome result (λ name. word.now ≡ name_text name) }
    ensures preparing { IfSome result IsPreparing }
    ensures refused { IfNone result ((name : LineName) → IsPreparing name → word.now ≡ name_text name → ⊥) }
{
    match word {
        b"put" => Some(LineName::Put),
        b"remove" => Some(LineName::Remove),
        b"pin" => Some(LineName::Pin),
        _ => None,
    }
}

/// Returns the order that the words after the name of a change or of a pin mean.
fn order_of(
    alloc: Global,
    name: LineName,
    said: &[ParsedWord<'_>],
) -> Result<Option<Order>, AllocError>
    requires { AreBodies said.now }
    ensures { IfOk result (λ order. order ≡ order_said name said.now) }
{
    match name {
        LineName::Put => match change_of(alloc, ChangeName::Put, said)? {
            Some(change) => Ok(Some(Order::Write(change))),
            None => Ok(None),
        },
        LineName::Remove => match change_of(alloc, ChangeName::Remove, said)? {
            Some(change) => Ok(Some(Order::Write(change))),
            None => Ok(None),
        },
        LineName::Pin => match said {
            [now] => match now {
                ParsedWord::Number(now) => Ok(Some(Order::Pin(*now))),
                _ => Ok(None),
            },
            _ => Ok(None),
        },
        _ => Ok(None),
    }
}

/// Reads the order of a line, after lines that queued these jobs, or returns the fault of its words.
pub fn read_order(alloc: Global, jobs: &[Job], line: &[u8]) -> Result<Order, LineError<OwnFault>>
    ensures answer { IfOk result (AsksFor jobs.now line.now) }
    ensures refused { IfErr result (IsWrong (IsBatchFault jobs.now (words_of line.now))) }
{
    let count = count_words(line) - 1;
    let mut words = all_words(line);
    let word = words.next();
    if word == b"job".as_slice() {
        return Ok(Order::Run(read_queued(alloc, words, count)?));
    }
    let Some(name) = preparing_name(word) else {
        return Err(LineError::Wrong(CommandFault::Unknown(Excerpt::new(word))));
    };
    if !jobs.is_empty() {
        return Err(LineError::Wrong(CommandFault::Own(OwnFault::Misplaced(EARLY))));
    }
    let said = read_after_name(alloc, name, words, count)?;
    match order_of(alloc, name, said.as_slice())? {
        Some(order) => Ok(order),
        None => unreachable!(),
    }
}
