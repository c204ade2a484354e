//! The label of a row, in a read-only transaction.
ghost use Rattle.std.specs.Prelude.{◌≡◌, ◌++◌, ◌∷◌, [], IfOk, None};
ghost use Rattle.txc_caller.specs.CallerTxn.{recorded_as, IsOf};
ghost use Rattle.txc_caller.specs.ComputedFunctions.{HaveAllFunctions};
ghost use Rattle.txc_uses_callers.specs.Labels.{label_call, BeginsLabel, ShowsLabel};
ghost use Rattle.txc_caller.specs.declared.step.Step.TheVariants.{Value as ValueStep};

use crate::labels::{Labels, argument, body, group, key, query};
use anyhow::{Result, bail};
use std::alloc::Global;
use txc_caller::{Caller, CallerTxn, Step};
use txc_node::Value;
use txc_txn::Receipt;
use txc_txn_ports::Bounds;

/// A label, and the receipt that explains it.
#[derive(Drop)]
pub struct Shown {
    pub label: Value,
    pub receipt: Receipt,
}

/// Returns the value with which the outermost call has ended.
pub(crate) fn value(step: Step) -> Result<Value>
    ensures { IfOk result (λ value. step ≡ ValueStep value) }
{
    match step {
        Step::Value(value) => Ok(value),
        Step::Compute => bail!("another function is to be computed"),
        Step::Answered => bail!("another function goes on"),
    }
}

/// Computes the function.
fn computed(
    alloc: Global,
    caller: &mut Caller<Labels>,
    txn: &mut CallerTxn<Labels>,
    asked: u32,
) -> Result<Value>
    requires of_caller { IsOf caller.old txn.old }
    requires begins { BeginsLabel asked txn.old.core.call }
    requires functions { HaveAllFunctions txn.old.objects }
    ensures of_caller { IsOf caller.new txn.new }
    ensures recorded { IfOk result (λ value. txn.new.core.recorded
        ≡ txn.old.core.recorded ++ recorded_as (label_call asked) value ∷ []) }
{
    let id = argument(txn.computed())?;
    if id == 0 {
        return value(txn.finish(alloc, caller, Vec::new(alloc))?);
    }
    let Step::Answered = txn.query(alloc, caller, query(id))? else {
        bail!("another function is to be computed");
    };
    let Some(answer) = txn.answer() else {
        bail!("no answer");
    };
    let other = group(answer);
    let bytes = body(alloc, answer)?;
    if other == 0 {
        return value(txn.finish(alloc, caller, bytes)?);
    }
    let Step::Answered = txn.query(alloc, caller, query(other))? else {
        bail!("another function is to be computed");
    };
    let Some(answer) = txn.answer() else {
        bail!("no answer");
    };
    let bytes = body(alloc, answer)?;
    value(txn.finish(alloc, caller, bytes)?)
}

/// Calls the function, and computes it if the node has no label of the row.
fn called(
    alloc: Global,
    caller: &mut Caller<Labels>,
    txn: &mut CallerTxn<Labels>,
    id: u32,
) -> Result<Value>
    requires of_caller { IsOf caller.old txn.old }
    requires idle { txn.old.core.call.need ≡ None }
    requires functions { HaveAllFunctions txn.old.objects }
    ensures of_caller { IsOf caller.new txn.new }
    ensures recorded { IfOk result (λ value. txn.new.core.recorded
        ≡ txn.old.core.recorded ++ recorded_as (label_call id) value ∷ []) }
{
    match txn.call(alloc, caller, key(id))? {
        Step::Value(value) => Ok(value),
        Step::Compute => computed(alloc, caller, txn, id),
        Step::Answered => bail!("no function asked"),
    }
}

/// Returns the label of a row, as it is in the single state that the receipt names.
pub fn read(alloc: Global, caller: &mut Caller<Labels>, bounds: Bounds, id: u32) -> Result<Shown>
    ensures shown { IfOk result (λ it. ShowsLabel id it.receipt it.label) }
{
    let mut txn = caller.begin(alloc, bounds)?;
    let label = match called(alloc, caller, &mut txn, id) {
        Ok(label) => label,
        Err(error) => {
            txn.abort(caller);
            return Err(error);
        }
    };
    match txn.commit(caller) {
        Ok(receipt) => Ok(Shown { label, receipt }),
        Err(txn) => {
            txn.abort(caller);
            bail!("a call is open")
        }
    }
}
