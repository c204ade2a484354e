//! Updates: read-write transactions whose commits are counted.
ghost use Rattle.std.specs.Prelude.{◌≡◌, ◌⊎◌, IfErr, IfOk, OnErr, OnOk, length};
ghost use Rattle.txc_db.specs.Calls.{IsHoldRefused};
ghost use Rattle.txc_db.specs.History.{state_at};
ghost use Rattle.txc_db.specs.DatabaseReply.{IsEventIn, IsQuietIn, IsSharedCommitRefused, MayRefuse};
ghost use Rattle.txc_call_registry.specs.Objects.{AllIdle};
ghost use Rattle.txc_txn_rw.specs.Answers.{AreRightIn};
ghost use Rattle.txc_txn_rw.specs.RwCore.{tags_read, IsBegun};
ghost use Rattle.txc_txn_rw.specs.Outcomes.{IsCommitted};
ghost use Rattle.txc_site_ledger.specs.CommitCounter.{counted_again};

use crate::change::Change;
use crate::ledger::{CommitCounter, Ledger};
use crate::run_error::RunError;
use std::alloc::Global;
use std::marker::Model;
use std::sync::Wait;
use txc_app::App;
use txc_call_definition::{Definition, Function};
use txc_call_registry::Registry;
use txc_db::{CommitError, DbError, Naming};
use txc_txn_rw::{Committed, RwTxn};

/// A read-write transaction, which a committer commits, or which is aborted.
pub(crate) struct Update<'a, J: Naming, A: App, D: Definition> {
    txn: RwTxn<'a, J, A, Function<D>>,
}

impl<'a, J: Naming, A: App, D: Definition> Model for Update<'a, J, A, D> {
    ghost use Rattle.txc_txn_rw.specs.RwTxn.{RwTxnValue};

    ghost Value = { RwTxnValue };

    ghost view = { λ u. u.txn };
}

impl<J: Naming> Ledger<J> {
    /// Begins an update at the newest stamp, which the committer counts. An error returns the registry.
    pub(crate) fn update<'a, A: App, D: Definition>(
        &'a self,
        rt: &impl Wait,
        alloc: Global,
        registry: Registry<A, Function<D>>,
        committer: &mut CommitCounter<J>,
    ) -> Result<Update<'a, J, A, D>, (DbError, Registry<A, Function<D>>)>
        requires { AllIdle registry }
        ensures begun { IfOk result (λ update. IsBegun (length update.history) update.core) }
        ensures objects { IfOk result (λ update. update.objects ≡ registry) }
        ensures refused { IfErr result (λ e. MayRefuse J.database_history IsHoldRefused e.0) }
        ensures handed_back { IfErr result (λ e. e.1 ≡ registry) }
        ensures counted { committer.new ≡ record committer.old { updates = counted_again committer.old.updates } }
    {
        committer.updates = committer.updates.wrapping_add(1);
        let txn = RwTxn::begin(rt, alloc, &self.database, registry)?;
        Ok(Update { txn })
    }
}

impl<'a, J: Naming, A: App, D: Definition> Update<'a, J, A, D> {
    /// Makes the change in it.
    pub(crate) fn make<C: Change<A, D>, R: Wait>(
        &mut self,
        rt: &R,
        alloc: Global,
        change: &C,
    ) -> Result<C::Output, RunError>
        requires { IsBegun self.old.core.base self.old.core }
        ensures functions { self.new.objects ≡ self.old.objects }
        ensures makes { IfOk result (C.makes change.now self.new.core) }
        ensures refused { IfErr result (C.refuses change.now) }
    {
        change.make(rt, alloc, &mut self.txn)
    }

    /// Commits it, as [`RwTxn::commit`] does. The committer counts the commit if it succeeds.
    pub(crate) fn commit(
        self,
        rt: &impl Wait,
        alloc: Global,
        committer: &mut CommitCounter<J>,
    ) -> Result<(Committed, Registry<A, Function<D>>), (Update<'a, J, A, D>, CommitError)>
        ensures named { IfOk result (λ done. done.0.front.events ≡ J.database_history) }
        ensures answer { IfOk result (λ done.
            IsCommitted A.next done.0.front.history self.entry.core done.0.stamp) }
        ensures at_base { IfOk result (λ done.
            AreRightIn A.next (state_at done.0.front.history self.entry.core.base) self.entry.core.answers) }
        ensures apart { IfOk result (λ done. let c = self.entry.core in
            IsQuietIn done.0.front.history c.base (tags_read c) c.changes done.0.stamp
            ⊎ IsEventIn done.0.front.history c.base (tags_read c) c.changes done.0.stamp) }
        ensures answers { IfOk result (λ done. done.0.answers.items ≡ self.entry.core.answers) }
        ensures registry { IfOk result (λ done. done.1 ≡ self.entry.objects) }
        ensures idle { IfOk result (λ done. AllIdle done.1) }
        ensures refused { IfErr result (λ e. MayRefuse J.database_history (λ d. let c = self.entry.core in
            IsSharedCommitRefused d c.base (tags_read c) c.changes) e.1) }
        ensures handed_back { IfErr result (λ e. e.0 ≡ self.entry) }
        ensures counted { OnOk result
            (committer.new ≡ record committer.old { commits = counted_again committer.old.commits }) }
        ensures uncounted { OnErr result (committer.new ≡ committer.old) }
    {
        let Update { txn } = self;
        match txn.commit(rt, alloc) {
            Ok(done) => {
                committer.commits = committer.commits.wrapping_add(1);
                Ok(done)
            }
            Err((txn, cause)) => Err((Update { txn }, cause)),
        }
    }

    /// Aborts it, and returns the registry. Does not allocate.
    pub(crate) fn abort(self, rt: &impl Wait) -> Registry<A, Function<D>>
        ensures answer { result ≡ self.entry.objects }
        ensures idle { AllIdle result }
    {
        let Update { txn } = self;
        txn.abort(rt)
    }
}
