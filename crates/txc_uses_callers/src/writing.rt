//! The label of a row, in a read-write transaction.
ghost use Rattle.std.specs.Prelude.{◌≡◌, ◌++◌, ◌∷◌, [], IfOk, None};
ghost use Rattle.txc_db.specs.DatabaseValue.{newest};
ghost use Rattle.txc_db.specs.History.{state_at};
ghost use Rattle.txc_txn_rw.specs.declared.given.Given.TheVariants as given;
ghost use Rattle.txc_caller.specs.ComputedFunctions.{HaveAllFunctions};
ghost use Rattle.txc_caller.specs.CallerWrite.{IsWriteOf};
ghost use Rattle.txc_uses_callers.specs.Labels.{label_call, label_in, labels, BeginsLabel};

use crate::labels::{Labels, argument, body, group, key, query, table};
use crate::reading::{Shown, value};
use anyhow::{Context, Result, bail};
use std::alloc::Global;
use txc_caller::{Caller, CallerWrite, Step};
use txc_node::Value;
use txc_rows::Row;

/// Computes the function.
fn computed(
    alloc: Global,
    caller: &mut Caller<Labels>,
    write: &mut CallerWrite<Labels>,
    asked: u32,
) -> Result<Value>
    requires of_caller { IsWriteOf labels caller.old write.old }
    requires begins { BeginsLabel asked write.old.core.call }
    requires functions { HaveAllFunctions write.old.objects }
    ensures of_caller { IsWriteOf labels caller.new write.new }
    ensures caller { caller.new ≡ caller.old }
    ensures base { write.new.core.base ≡ write.old.core.base }
    ensures answers { IfOk result (λ value. write.new.core.answers
        ≡ write.old.core.answers ++ given.Value (label_call asked) value ∷ []) }
{
    let id = argument(write.computed())?;
    if id == 0 {
        return value(write.finish(alloc, caller, Vec::new(alloc))?);
    }
    let Step::Answered = write.query(alloc, caller, query(id))? else {
        bail!("another function is to be computed");
    };
    let Some(answer) = write.answer() else {
        bail!("no answer");
    };
    let other = group(answer);
    let bytes = body(alloc, answer)?;
    if other == 0 {
        return value(write.finish(alloc, caller, bytes)?);
    }
    let Step::Answered = write.query(alloc, caller, query(other))? else {
        bail!("another function is to be computed");
    };
    let Some(answer) = write.answer() else {
        bail!("no answer");
    };
    let bytes = body(alloc, answer)?;
    value(write.finish(alloc, caller, bytes)?)
}

/// Calls the function, and computes it.
fn called(
    alloc: Global,
    caller: &mut Caller<Labels>,
    write: &mut CallerWrite<Labels>,
    id: u32,
) -> Result<Value>
    requires of_caller { IsWriteOf labels caller.old write.old }
    requires idle { write.old.core.call.need ≡ None }
    requires functions { HaveAllFunctions write.old.objects }
    ensures of_caller { IsWriteOf labels caller.new write.new }
    ensures caller { caller.new ≡ caller.old }
    ensures base { write.new.core.base ≡ write.old.core.base }
    ensures answers { IfOk result (λ value. write.new.core.answers
        ≡ write.old.core.answers ++ given.Value (label_call id) value ∷ []) }
{
    match write.call(alloc, caller, key(id))? {
        Step::Value(value) => Ok(value),
        Step::Compute => computed(alloc, caller, write, id),
        Step::Answered => bail!("no function asked"),
    }
}

/// Calls the function, and buffers a put of its label under another id.
fn copied(
    alloc: Global,
    caller: &mut Caller<Labels>,
    write: &mut CallerWrite<Labels>,
    from: u32,
    to: u32,
) -> Result<Value>
    requires of_caller { IsWriteOf labels caller.old write.old }
    requires idle { write.old.core.call.need ≡ None }
    requires functions { HaveAllFunctions write.old.objects }
    ensures of_caller { IsWriteOf labels caller.new write.new }
    ensures base { write.new.core.base ≡ write.old.core.base }
    ensures answers { IfOk result (λ value. write.new.core.answers
        ≡ write.old.core.answers ++ given.Value (label_call from) value ∷ []) }
{
    let label = called(alloc, caller, write, from)?;
    let body = Vec::from_slice(alloc, label.bytes())?;
    let Ok(row) = Row::of_bytes(table(), to, 0, body) else {
        bail!("a long label");
    };
    let Ok(()) = write.put(row) else {
        bail!("too many changes");
    };
    Ok(label)
}

/// Copies the label of one row to another, and ends the transaction.
fn committed(
    alloc: Global,
    caller: &mut Caller<Labels>,
    mut write: CallerWrite<Labels>,
    from: u32,
    to: u32,
) -> Result<Value>
    requires of_caller { IsWriteOf labels caller.old write }
    requires idle { write.core.call.need ≡ None }
    requires functions { HaveAllFunctions write.objects }
    requires new { write.core.answers ≡ [] }
    ensures copied { IfOk result (λ label. label
        ≡ label_in (state_at caller.new.ports.database.history write.core.base) from) }
{
    let label = match copied(alloc, caller, &mut write, from, to) {
        Ok(label) => label,
        Err(error) => {
            write.abort(caller);
            return Err(error);
        }
    };
    match write.commit(alloc, caller) {
        Ok(_written) => Ok(label),
        Err((error, write)) => {
            write.abort(caller);
            Err(error.into())
        }
    }
}

/// Copies the label that one row has in the newest state to another row, if it has not changed by then.
pub fn copy(alloc: Global, caller: &mut Caller<Labels>, from: u32, to: u32) -> Result<Value>
    ensures copied { IfOk result (λ label. label ≡ label_in
        (state_at caller.new.ports.database.history (newest caller.old.ports.database)) from) }
{
    let write = caller.begin_write(alloc)?;
    committed(alloc, caller, write, from, to)
}

/// Copies the label that one row has in the state of a receipt to another row, if it has not changed since.
pub fn copy_shown(
    alloc: Global,
    caller: &mut Caller<Labels>,
    shown: &Shown,
    from: u32,
    to: u32,
) -> Result<Value> {
    let pin = shown.receipt.pin.context("nothing was shown")?;
    let write = caller.begin_write_at(alloc, pin.stamp)?;
    committed(alloc, caller, write, from, to)
}
