//! Writing changes.
ghost use Rattle.std.specs.Prelude.{◌≡◌, ◌+◌, ◌≤◌, ◌<◌, IfErr, IfOk, OnErr, OnOk, vec_len};
ghost use Rattle.txc_call_registry.specs.Objects.{AllIdle};
ghost use Rattle.txc_site_ledger.specs.Attempts.{CountsAttempt, IsAttempted};
ghost use Rattle.txc_site_ledger.specs.CommitCounter.{counted_again, counted_on};
ghost use Rattle.txc_site_ledger.specs.ChangeResult.{AreConflicts, IsRunSoOften, IsWritten, IsSiteWriteRefused};

use crate::change::Change;
use crate::error::WriteError;
use crate::ledger::{CommitCounter, Ledger};
use std::alloc::Global;
use std::sync::Wait;
use txc_app::App;
use txc_call_definition::{Definition, Function};
use txc_call_registry::Registry;
use txc_db::{Answered, CommitError, Naming};
use txc_stamp::Stamp;
use txc_txn_rw::Committed;

/// Result of a change, with the commit of its transaction, and the conflicts of the runs before.
#[derive(Drop)]
pub struct ChangeResult<T> {
    pub output: T,
    pub committed: Committed,
    pub conflicts: Vec<Answered<Stamp>>,
}

/// Result of one run of a change.
pub(crate) enum Attempt<T> {
    Done(T, Committed),
    Conflict(Answered<Stamp>),
    Refused(WriteError),
}

/// Runs the change once, in a transaction of its own.
fn run_once<A: App, D: Definition, J: Naming, C: Change<A, D>, R: Wait>(
    rt: &R,
    alloc: Global,
    ledger: &Ledger<J>,
    registry: Registry<A, Function<D>>,
    committer: &mut CommitCounter<J>,
    change: &C,
) -> (Attempt<C::Output>, Registry<A, Function<D>>)
    requires { AllIdle registry }
    ensures attempted { IsAttempted A.next J.database_history (C.makes change.now) (C.refuses change.now) result.0 }
    ensures registry { result.1 ≡ registry }
    ensures counted { CountsAttempt result.0 committer.old committer.new }
{
    let mut update = match ledger.update(rt, alloc, registry, committer) {
        Ok(update) => update,
        Err((cause, registry)) => return (Attempt::Refused(WriteError::Begin(cause)), registry),
    };
    let output = match update.make(rt, alloc, change) {
        Ok(output) => output,
        Err(cause) => return (
            Attempt::Refused(WriteError::Change(cause)),
            update.abort(rt),
        ),
    };
    match update.commit(rt, alloc, committer) {
        Ok((committed, registry)) => (Attempt::Done(output, committed), registry),
        Err((update, cause)) => {
            let attempt = match cause {
                CommitError::Conflict(conflict) => Attempt::Conflict(conflict),
                CommitError::Database(cause) => Attempt::Refused(WriteError::Commit(cause)),
            };
            (attempt, update.abort(rt))
        }
    }
}

/// Runs the change, and again after a conflict, at most `tries` times. The committer counts each run as an
/// update, also one that ends with a conflict. Fails with all conflicts if each try ended with one.
pub fn write_change<A: App, D: Definition, J: Naming, C: Change<A, D>, R: Wait>(
    rt: &R,
    alloc: Global,
    ledger: &Ledger<J>,
    registry: Registry<A, Function<D>>,
    committer: &mut CommitCounter<J>,
    tries: u32,
    change: &C,
) -> (
    Result<ChangeResult<C::Output>, WriteError>,
    Registry<A, Function<D>>,
)
    requires { AllIdle registry }
    ensures written { IfOk result.0 (λ written.
        IsWritten A.next J.database_history (C.makes change.now) written.output written.committed) }
    ensures before { IfOk result.0 (λ written.
        AreConflicts J.database_history (C.makes change.now) written.conflicts.items) }
    ensures few { IfOk result.0 (λ written. vec_len written.conflicts < tries) }
    ensures refused { IfErr result.0
        (IsSiteWriteRefused J.database_history (C.makes change.now) (C.refuses change.now) tries) }
    ensures registry { result.1 ≡ registry }
    ensures counted { OnOk result.0 (committer.new.commits ≡ counted_again committer.old.commits) }
    ensures uncounted { OnErr result.0 (committer.new.commits ≡ committer.old.commits) }
    ensures runs { IfOk result.0 (λ written.
        committer.new.updates ≡ counted_on (vec_len written.conflicts + 1) committer.old.updates) }
    ensures refused_runs { IfErr result.0 (λ error.
        IsRunSoOften tries error committer.old.updates committer.new.updates) }
{
    let Ok(mut conflicts) = Vec::with_capacity(alloc, tries as usize) else {
        return (Err(WriteError::Memory), registry);
    };
    let mut registry = registry;
    for _ in 0..tries {
        let (outcome, left) = run_once(rt, alloc, ledger, registry, committer, change);
        registry = left;
        match outcome {
            Attempt::Done(output, committed) => {
                let written = ChangeResult {
                    output,
                    committed,
                    conflicts,
                };
                return (Ok(written), registry);
            }
            Attempt::Conflict(conflict) => conflicts.push_reserved(conflict),
            Attempt::Refused(error) => return (Err(error), registry),
        }
    }
    (Err(WriteError::Conflicts(conflicts)), registry)
}
