//! Writing the results of steps, and the last result again, for the caller.
ghost use Rattle.std.specs.Prelude.{◌≡◌, length};
ghost use Rattle.txc_caller.specs.ComputedFunctions.{told_answer};
ghost use Rattle.txc_c.specs.Opened.{calling_of};
ghost use Rattle.txc_c.specs.SiteReply.{answer_bytes, answer_len, answer_number, buffer, error_number, last_answer_of, last_outside, rows_found, rows_of_last, step_bytes, step_len, step_number, LastTold};

use crate::opened::Open;
use txc_app::Answer;
use txc_c_types::{ANSWERED, COMPUTE, DONE, MISS, NOT_OPEN, REFUSED, write_value};
use txc_caller::{CallerError, Step};
use txc_rows::Row;
use txc_txn_rw::Given;

// Writes the value of a call, with this number if there is room for it, or how many rows there are.
fn write_answer(number: u32, answer: &Answer, value: &mut [u8], len: &mut usize) -> u32
    ensures number { result ≡ answer_number number (length value.old) answer.now }
    ensures len { len.new ≡ answer_len answer.now }
    ensures bytes { value.new ≡ answer_bytes answer.now value.old }
{
    match answer {
        Answer::Value(given) => write_value(number, given.bytes(), value, len),
        Answer::Rows(rows) => {
            *len = rows.as_slice().len();
            ANSWERED
        }
    }
}

// Returns the number of an error.
fn error_number(error: CallerError) -> u32
    ensures { result ≡ error_number error }
{
    match error {
        CallerError::Txn(_) => REFUSED,
        CallerError::NoFunction => NOT_OPEN,
    }
}

/// Writes the result of a step in the transaction.
pub(crate) fn write_step(
    txn: &Open,
    step: Result<Step, CallerError>,
    value: &mut [u8],
    len: &mut usize,
) -> u32
    ensures number { result ≡ step_number (length value.old) (told_answer (calling_of txn.now)) step }
    ensures len { len.new ≡ step_len (told_answer (calling_of txn.now)) step len.old }
    ensures bytes { value.new ≡ step_bytes (told_answer (calling_of txn.now)) step value.old }
{
    match step {
        Ok(Step::Compute) => COMPUTE,
        Ok(Step::Value(got)) => write_value(DONE, got.bytes(), value, len),
        Ok(Step::Answered) => match txn.told() {
            Some(answer) => write_answer(ANSWERED, answer, value, len),
            None => ANSWERED,
        },
        Err(error) => error_number(error),
    }
}

// Writes the last result outside of all functions.
fn write_outside(txn: &Open, value: &mut [u8], len: &mut usize) -> u32
    ensures { LastTold (last_outside txn.now) result (buffer value.old len.old) (buffer value.new len.new) }
{
    match txn {
        Open::Reading(reading) => match reading.answers().last() {
            Some(recorded) => write_value(DONE, recorded.value.bytes(), value, len),
            None => MISS,
        },
        Open::Writing(write) => match write.answers().last() {
            Some(Given::Value(_, given)) => write_value(DONE, given.bytes(), value, len),
            Some(Given::Rows(_, rows)) => {
                *len = rows.as_slice().len();
                ANSWERED
            }
            None => MISS,
        },
    }
}

/// Writes the last result: the answer of the function being computed, or otherwise the last one outside of all
/// functions.
pub(crate) fn write_last(txn: &Open, value: &mut [u8], len: &mut usize) -> u32
    ensures { LastTold (last_answer_of txn.now) result (buffer value.old len.old) (buffer value.new len.new) }
{
    if !txn.is_computing() {
        return write_outside(txn, value, len);
    }
    match txn.told() {
        Some(answer) => write_answer(ANSWERED, answer, value, len),
        None => MISS,
    }
}

// Returns the rows that a transaction read itself, if they are its last result outside of all functions.
fn rows_outside(txn: &Open) -> &[Row]
    ensures { result.now ≡ rows_of_last (last_outside txn.now) }
{
    match txn {
        Open::Reading(_) => &[],
        Open::Writing(write) => match write.answers().last() {
            Some(Given::Rows(_, rows)) => rows.as_slice(),
            _ => &[],
        },
    }
}

/// Returns the rows that were read last, if they are the last result.
pub(crate) fn rows_found(txn: &Open) -> &[Row]
    ensures { result.now ≡ rows_found txn.now }
{
    if !txn.is_computing() {
        return rows_outside(txn);
    }
    match txn.told() {
        Some(Answer::Rows(rows)) => rows.as_slice(),
        _ => &[],
    }
}
